//! A turnstile over one value: each call of `turn` works once on the value, the turns of all threads have one
//! order, and each pass knows which of them it has seen. Nothing here knows what the value is.
//!
//! That a thread gets its turn, or when, isn't said.
#![tactic(auto)]

mod each;
mod pass;
mod rule;
mod told;
mod turnstile;
mod view;

pub use each::{Work, work_on_each};
pub use pass::{Pass, PassOf, TurnsSpent};
pub use told::{Task, Told};
pub use turnstile::Turnstile;
pub use view::{Phase, View};
