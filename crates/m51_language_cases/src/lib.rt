//! Tests of cells and names, the processor's arithmetic, instructions and registers, expressions and statements.
//! What sources show is said by the cases of `m51_rows`. It is no part of the product.
#![tactic(auto)]

#[cfg(test)]
mod alu;
#[cfg(test)]
mod cells;
#[cfg(test)]
mod expr;
#[cfg(test)]
mod isa;
#[cfg(test)]
mod registers;
#[cfg(test)]
mod stmt;
