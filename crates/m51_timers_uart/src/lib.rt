//! The timers, the serial line and the external interrupts of the 8052, one machine cycle at a time.
#![tactic(auto)]

mod counting;
mod external;
mod laws;
mod levels;
mod only_counting;
mod periph;
mod receiving;
mod sending;
mod timer2;
mod timers;

pub use laws::{
    devices_count_on, line_is_bounded, mode_1_is_sent_at_its_cycle, mode_1_is_sent_in_time,
    ninth_bits_are_apart, one_bit_passes, one_byte_is_sent, the_rest_is_kept, timer_0_is_told,
    timer_1_counts_cycles, timers_count_up,
};
pub use only_counting::count_on;
pub use periph::{Periph, Sent};
pub use receiving::Frame;
