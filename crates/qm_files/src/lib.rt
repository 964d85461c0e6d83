//! The files of a folder as the disk that the journal stands on: `FileDisk` meets `Disk` and tells nothing of
//! contents, since a file tells none. It keeps other runs out, and makes what it reads durable before it answers.
//!
//! That files, locks and syncs behave so is tried, and not proved.
#![tactic(auto)]

mod disk;
mod folder;
mod named;
mod site_file;

pub use disk::FileDisk;
pub use site_file::SiteFile;
