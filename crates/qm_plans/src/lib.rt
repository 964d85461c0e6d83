//! Cases that are data, as plans. Each line of a plan is a verb, a blank and what the verb is about; behind it stands what the
//! verb tells, each line of it behind `| `, or behind `|`, a number and a blank where it is told so many times. Which verbs there
//! are, and what each tells, is the business of the program that follows the plan. `\n` and `\x41` in a plan are bytes.
#![tactic(auto)]

mod plan;
mod texts;

pub use plan::{Desk, follow, holds, is_told, push_wanted};
pub use texts::{number_and_rest, numbers, push_bytes, push_line, push_times};
