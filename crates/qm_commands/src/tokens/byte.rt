// What a byte is outside quotes.
ghost use Rattle.std.specs.Prelude.{◌≡◌, ◌≤◌, length};
ghost use Rattle.qm_commands.specs.TokenBytes.{sort_of, word_length};

use crate::tokens::token::TokenKind;

/// What a byte is in the text of a command, outside quotes.
#[derive(Clone, Copy, Debug, PartialEq, Eq)]
pub enum Sort {
    /// A blank or a tab, which parts words.
    Blank,
    /// An exclamation mark: behind it stands a comment.
    Comment,
    /// A quote.
    Quote,
    /// A byte that is a token of its own.
    Mark(TokenKind),
    /// A byte of a word.
    Word,
    /// A byte that doesn't print.
    Other,
}

pub(crate) fn sort_of(byte: u8) -> Sort
    ensures { result ≡ sort_of byte }
{
    match byte {
        b' ' | b'\t' => Sort::Blank,
        b'!' => Sort::Comment,
        b'"' => Sort::Quote,
        b'/' => Sort::Mark(TokenKind::Slash),
        b'=' => Sort::Mark(TokenKind::Equals),
        b'(' => Sort::Mark(TokenKind::Open),
        b')' => Sort::Mark(TokenKind::Close),
        b',' => Sort::Mark(TokenKind::Comma),
        33..=126 => Sort::Word,
        _ => Sort::Other,
    }
}

/// How many bytes the word takes with which a text begins; 0 where it begins with none.
pub(crate) fn word_length(text: &[u8]) -> usize
    ensures value { result ≡ word_length text.now }
    ensures within { result ≤ length text.now }
{
    let mut length = 0;
    while length < text.len() && sort_of(text[length]) == Sort::Word {
        length += 1;
    }
    length
}
