// Timers: numbers that wait for moments, in order of these.
mod laws;
mod places;
mod sifting;
mod table;

pub use laws::{numbers_determine_the_timers, other_numbers_keep_their_timers};
pub use table::Timers;
