// Entries by number. `EntryTable` keeps each in a box of its own, so that none is moved while others come and go.

mod boxed;
mod change;
mod places;
mod shelf;
mod sweep;
mod table;
mod tagged;
mod tags;

pub use table::EntryTable;
pub use tags::home_tag;
