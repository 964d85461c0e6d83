//! What becomes of entries when their runs end, are cut short or are lost with a node, and which entries go together. But for the
//! counts of files that entries name, nothing is changed here: each function says what the model says of an entry.
#![tactic(auto)]

mod ending;
mod leaving;
mod losing;

pub use ending::{after_report, fate_of, report_act, runs_in};
pub use leaving::{Leaving, leave_files};
pub use losing::after_loss;
