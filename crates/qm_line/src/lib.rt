//! What a line of a script asks for, read at a moment: the command behind a `$`, the call by an item list behind a `#`, or the
//! act at the site behind a `!`. `read_line` tells it as `line_with` of `specs/Asked.antt` says. No line is served here.
#![tactic(auto)]

mod asked;
mod laws;

pub use asked::read_line;
pub use laws::lines_ask_by_listings;
