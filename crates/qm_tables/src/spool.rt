// The files of a site by name, and how many entries name each.
mod limits;
mod place;
mod rows;
mod spooled;
mod table;

pub use table::Spool;
