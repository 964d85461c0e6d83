//! What a command can say: `is_command` tells whether some command asks for an input, exactly as `is_command` in
//! `specs/Commands.antt` says, and `QuotedTime` has the text of a moment.
#![tactic(auto)]

mod command;
mod forms;
mod jobs;
mod listings;
mod queues;
mod times;
mod values;

pub use command::is_command;
pub use listings::{are_all, says_all};
pub use times::QuotedTime;
