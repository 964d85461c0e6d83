//! The rows of listings, from the tables: all of them, or the first behind the one that was given last. What a listing shows is the
//! model's `view`; this crate changes nothing.
//!
//! No command uses a `Scan`; a case does. How often an entry is looked at is the form of the code.
#![tactic(auto)]

mod all;
mod below;
mod group;
mod laws;
mod listed;
mod next;
mod places;
mod scan;

pub use all::all_rows;
pub use laws::the_manager_shows_in_its_listing;
pub use next::next_row;
pub use scan::{Scan, ScanKind};
