//! The manager at work: an image of the queue system, and the open database whose records stand for it; and the way there,
//! by which a node takes the role over. A request is decided, written down, and only then made and answered. Callers speak of
//! what both stand for together, a `Standing` of `specs/Standing.antt`, and never of gates. Nothing here knows nodes that are
//! live, or turns.
#![tactic(auto)]

mod asking;
mod decision;
mod fault;
mod files;
mod laws;
mod letting_go;
mod manager;
mod reading;
mod replies;
mod restored;
mod restored_view;
mod taking;

pub use fault::{AskFault, TakeFault};
pub use files::Files;
pub use laws::{own_requests_are_accepted, site_files_go_on, sites_can_be_read};
pub use manager::Manager;
pub use reading::restore;
pub use replies::Replies;
pub use restored::Restored;
