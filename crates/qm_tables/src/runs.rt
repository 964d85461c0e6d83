// The runs that have begun and haven't ended, in order of their numbers, and how many each queue has.
mod counts;
mod limits;
mod table;

pub use limits::runs_are_counted_in_32_bits;
pub use table::Runs;
