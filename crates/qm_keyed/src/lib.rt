//! Rows in order of a key. `Table` keeps them so; a place says where the row of a key stands, or where one would belong.
#![tactic(auto)]

mod keyed;
mod laws;
mod places;
mod table;

pub use keyed::Keyed;
pub use laws::rows_are_found_in_their_places;
pub use places::{place_of, put};
pub use table::Table;
