//! Tests of what no verb reaches, or only by what a run shows of it: of modules, layouts, images and libraries, of the
//! text of generated programs, of devices, of the choice among interrupts, of the monitor and of boards. It is no part
//! of the product.
#![tactic(auto)]

#[cfg(test)]
mod boards;
#[cfg(test)]
mod devices;
#[cfg(test)]
mod generator;
#[cfg(test)]
mod irq;
#[cfg(test)]
mod library_edits;
#[cfg(test)]
mod module;
#[cfg(test)]
mod monitor_layout;
#[cfg(test)]
mod monitor_moves;
#[cfg(test)]
mod monitor_run;
#[cfg(test)]
mod monitor_table;
#[cfg(test)]
mod sample;
#[cfg(test)]
mod sim;
