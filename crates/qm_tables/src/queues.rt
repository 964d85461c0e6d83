// The queues, in order of their names, and the settings that they are given.
mod settings;
mod table;

pub use settings::Settings;
pub use table::QueueTable;
