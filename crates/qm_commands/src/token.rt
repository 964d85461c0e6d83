// What tokens say.
ghost use Rattle.std.specs.Prelude.{◌≡◌};
ghost use Rattle.qm_commands.specs.Spelled.{bytes_of, is_spelled, is_raised_to, begins, is_text};

use crate::tokens::{Token, TokenKind};

/// The bytes of a token; none where it isn't one of the text.
pub fn bytes_of(text: &[u8], token: Token) -> &[u8]
    ensures { result.now ≡ bytes_of text.now token }
{
    if token.start <= token.end && token.end <= text.len() {
        &text[token.start..token.end]
    } else {
        &[]
    }
}

/// Whether a token is a word outside quotes that is spelled so, in any case. The spelling is in capital letters.
pub fn is_spelled(text: &[u8], spelling: &[u8], token: Token) -> bool
    ensures { result ≡ is_spelled text.now spelling.now token }
{
    token.kind == TokenKind::Word && is_in_capitals(spelling, bytes_of(text, token))
}

/// Whether a token is a word outside quotes with which this spelling begins, in any case. The spelling is in capital letters.
pub fn begins(text: &[u8], spelling: &[u8], token: Token) -> bool
    ensures { result ≡ begins text.now spelling.now token }
{
    let word = bytes_of(text, token);
    token.kind == TokenKind::Word
        && word.len() <= spelling.len()
        && is_in_capitals(&spelling[..word.len()], word)
}

// Whether a word is this one, once it is raised.
fn is_in_capitals(spelling: &[u8], word: &[u8]) -> bool
    ensures { result ≡ is_raised_to spelling.now word.now }
{
    word.len() == spelling.len()
        && word
            .iter()
            .zip(spelling)
            .all(|(b, s)| b.to_ascii_uppercase() == *s)
}

/// Whether a token is a word or a quoted string.
pub fn is_text(token: Token) -> bool
    ensures { result ≡ is_text token.kind }
{
    match token.kind {
        TokenKind::Word | TokenKind::Quoted => true,
        _ => false,
    }
}
