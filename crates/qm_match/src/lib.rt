//! Which jobs a queue can start, by tests of single rows, and which of two it starts first: `before`. None takes memory.
//!
//! That none takes memory is the form of the code.
#![tactic(auto)]

mod conditions;
mod laws;
mod order;

pub use conditions::{is_same_stock, passes_on_to, suits};
pub use laws::{key_order_is_strict_and_total, keys_stand_as_jobs};
pub use order::{Key, Schedule, before};
