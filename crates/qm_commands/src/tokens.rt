// The tokens of a command's text. `lex` gives them with their places, exactly as the grammar in `specs/Tokens.antt` parts
// the text, or tells the first byte at which no token can be read.

mod byte;
mod fault;
mod laws;
mod quoted;
mod token;

pub use byte::Sort;
pub use fault::LexFault;
pub use laws::tokens_are_in_order;
pub use token::{Piece, Token, TokenKind, lex};
