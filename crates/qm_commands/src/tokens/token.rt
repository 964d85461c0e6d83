// Tokens, one behind the other.
ghost use Rattle.std.specs.Prelude.{◌≡◌, ◌≤◌, ◌+◌, length, Ok, IfOk, IfErr, OnOk, IsOk};
ghost use Rattle.qm_commands.specs.Tokens.{piece_of, tokens_of, IsNext, FitsIn, Explains};

use crate::tokens::byte::{Sort, sort_of, word_length};
use crate::tokens::fault::LexFault;
use crate::tokens::quoted::quoted_length;
use std::alloc::{AllocFailed, Global};

/// What a token is.
#[derive(Clone, Copy, Debug, PartialEq, Eq)]
pub enum TokenKind {
    /// Bytes that print, without blanks, marks, quotes and exclamation marks.
    Word,
    /// A string in quotes; within it two quotes stand for one.
    Quoted,
    /// `/`, in front of a qualifier.
    Slash,
    /// `=`, in front of a value.
    Equals,
    /// `(`, at the beginning of a list.
    Open,
    /// `)`, at the end of a list.
    Close,
    /// `,`, between the values of a list.
    Comma,
}

/// A token and its place: it takes the bytes of the text from `start` on and before `end`, counted from 0. Of a quoted string
/// these are its quotes too.
#[derive(Clone, Copy, Debug, PartialEq, Eq)]
pub struct Token {
    pub kind: TokenKind,
    pub start: usize,
    pub end: usize,
}

/// What stands at a place of a text.
#[derive(Clone, Copy, Debug, PartialEq, Eq)]
pub enum Piece {
    /// A token of so many bytes.
    Takes { kind: TokenKind, length: usize },
    /// A byte that parts tokens.
    Blank,
    /// A comment, which goes to the end.
    Comment,
    /// Nothing that can be read.
    Unreadable,
}

// The piece whose first byte is of this sort, and behind which this stands.
fn piece_of(sort: Sort, rest: &[u8]) -> Piece
    ensures piece { result ≡ piece_of sort rest.now }
    ensures within { FitsIn (length rest.now + 1) result }
{
    match sort {
        Sort::Blank => Piece::Blank,
        Sort::Comment => Piece::Comment,
        Sort::Mark(kind) => Piece::Takes { kind, length: 1 },
        Sort::Word => Piece::Takes {
            kind: TokenKind::Word,
            length: 1 + word_length(rest),
        },
        Sort::Quote => match quoted_length(rest) {
            Some(length) => Piece::Takes {
                kind: TokenKind::Quoted,
                length: 1 + length,
            },
            None => Piece::Unreadable,
        },
        Sort::Other => Piece::Unreadable,
    }
}

// The next token from a place on; none where nothing but blanks and a comment is left.
fn next_token(text: &[u8], from: usize) -> Result<Option<Token>, LexFault>
    requires { from ≤ length text.now }
    ensures { IsNext text.now from result }
{
    let mut at = from;
    while at < text.len() {
        match piece_of(sort_of(text[at]), &text[at + 1..]) {
            Piece::Blank => at += 1,
            Piece::Comment => return Ok(None),
            Piece::Unreadable => return Err(LexFault::Unreadable { place: at }),
            Piece::Takes { kind, length } => {
                return Ok(Some(Token {
                    kind,
                    start: at,
                    end: at + length,
                }));
            }
        }
    }
    Ok(None)
}

// Whether each token can be read.
fn check(text: &[u8]) -> Result<(), LexFault>
    ensures readable { OnOk result (IsOk (tokens_of text.now)) }
    ensures fault { IfErr result (Explains (tokens_of text.now)) }
{
    let mut at = 0;
    loop {
        match next_token(text, at) {
            Ok(Some(token)) => at = token.end,
            Ok(None) => return Ok(()),
            Err(fault) => return Err(fault),
        }
    }
}

// Why a text hasn't its tokens, where memory ran out for them: a fault of the text goes before that.
#[cold]
fn without_memory(text: &[u8]) -> LexFault
    ensures { Explains (tokens_of text.now) result }
{
    match check(text) {
        Ok(()) => LexFault::NoMemory,
        Err(fault) => fault,
    }
}

/// The tokens of a text, in their order.
///
/// Blanks and tabs part tokens, and an exclamation mark outside quotes begins a comment, which goes to the end of the text.
/// `/`, `=`, `(`, `)` and `,` are tokens of their own; a string in quotes is one, with any bytes within; each other run of bytes
/// that print is a word. Another byte outside comments, and a quote behind which no other ends its string, can't be read.
///
/// Errors: `Unreadable` with the place of the first token that can't be read; `NoMemory`, where all can.
pub fn lex(alloc: Global, text: &[u8]) -> Result<Vec<Token>, LexFault>
    ensures tokens { IfOk result (λ tokens. tokens_of text.now ≡ Ok tokens.items) }
    ensures fault { IfErr result (Explains (tokens_of text.now)) }
{
    let mut tokens = Vec::new(alloc);
    let mut at = 0;
    loop {
        match next_token(text, at) {
            Ok(Some(token)) => {
                if tokens.push(token).is_err() {
                    return Err(without_memory(text));
                }
                at = token.end;
            }
            Ok(None) => return Ok(tokens),
            Err(fault) => return Err(fault),
        }
    }
}
