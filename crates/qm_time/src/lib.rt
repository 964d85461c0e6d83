//! Numbers and moments as texts. `number_up_to` and `plain_number_up_to` read decimal digits, with zeros in front and without.
//! `text_of` and `print_time` print a moment as 17-NOV-1858 00:00:00.00, and `read_time` reads one. The calendar, the printed
//! text and the grammar of times are defined in `specs/`; the dates are found by `jiff`.
//!
//! What is printed reads back, but for the blank in front of a day of one digit.
#![tactic(auto)]

mod clock;
mod date;
mod digits;
mod fault;
mod laws;
mod moment;
mod month;
mod number;
mod text;
mod time;

pub use digits::{number_up_to, plain_number_up_to};
pub use fault::TimeFault;
pub use laws::{no_time_goes_on_at_a_fault, printed_moments_read_back, times_are_short};
pub use moment::{TIME_BYTES, read_time};
pub use text::{TimeText, print_time, text_of};
