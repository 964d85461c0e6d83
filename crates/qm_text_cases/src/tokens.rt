// Texts of commands, and their tokens.
use crate::lines::tell_number;
use qm_commands::{LexFault, Token, TokenKind, lex};
use qm_plans::push_line;
use std::alloc::{AllocError, Global};

// A letter for what a token is.
fn letter(kind: TokenKind) -> u8 {
    match kind {
        TokenKind::Word => b'w',
        TokenKind::Quoted => b'q',
        TokenKind::Slash => b's',
        TokenKind::Equals => b'e',
        TokenKind::Open => b'o',
        TokenKind::Close => b'c',
        TokenKind::Comma => b'k',
    }
}

// Tells each token as its letter and its bytes, with a blank in front.
fn tell_each(told: &mut Vec<u8>, text: &[u8], tokens: &[Token]) -> Result<(), AllocError> {
    for token in tokens {
        told.extend_from_slice(&[b' ', letter(token.kind)])?;
        told.extend_from_slice(text.get(token.start..token.end).unwrap_or(b"none"))?;
    }
    push_line(told, "")
}

/// Tells the tokens of a text, each as its letter and its bytes with a blank in front; or the place of the one that can't be read.
pub(crate) fn tell_tokens(
    alloc: Global,
    told: &mut Vec<u8>,
    text: &[u8],
) -> Result<(), AllocError> {
    match lex(alloc, text) {
        Ok(tokens) => tell_each(told, text, &tokens),
        Err(LexFault::Unreadable { place }) => {
            tell_number(alloc, told, "unreadable at", place as u64)
        }
        Err(LexFault::NoMemory) => Err(AllocError),
    }
}
