//! What is printed of states, replies, refusals and listings. Each value has its text by `Display`, just as the model's
//! definitions spell it. `show_answer` gives the lines of a transcript that tell of a turn, whatever it is answered, and `show_rows` those
//! of a listing alone.
#![tactic(auto)]

mod act;
mod answer;
mod columns;
mod listing;
mod refusal;
mod row;
mod status;
mod turn;

pub use act::{ActWords, StartText};
pub use listing::show_rows;
pub use refusal::RefusalText;
pub use row::RowText;
pub use status::StatusText;
pub use turn::show_answer;
