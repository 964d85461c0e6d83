// The forms and characteristics of a site, in order of their numbers, each found by its name or by its number.
mod names;
mod table;
mod wanted;

pub use table::FormTable;
