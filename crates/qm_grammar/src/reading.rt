// Tokens, one behind the other.
ghost use Rattle.std.specs.Prelude.{◌≡◌, [], None, Some, Err, IfOk};
ghost use Rattle.qm_grammar.specs.Finding.{named_behind, named_command};
ghost use Rattle.qm_grammar.specs.Parts.{parts_from, parts_behind, parts_of};
ghost use Rattle.qm_grammar.specs.Places.{begun};
ghost use Rattle.qm_grammar.specs.Reading.{is_short, whole, ended, read_from, no_verb, command_behind, command_of};

use crate::finding::{row_of, verb_of};
use crate::part::{Part, push_part};
use crate::place::{Place, State, begun};
use crate::step::{is_owing, with_token};
use qm_commands::{
    Command, Fault, Row, Token, TokenKind, Verb, begins_verb, fault_at, needs_value,
};
use qm_kinds::ParseKind;
use qm_names::{first_conflict, or_conflict};
use std::alloc::{AllocError, Global};

// Whether something that the command needs isn't given.
fn is_short(row: &Row, s: &State) -> bool
    ensures { result ≡ is_short row.now s.now }
{
    is_owing(s) || s.parameters < row.least || (row.must_set && !s.qualified)
}

// The command, unless something is missing.
fn whole(text: &[u8], row: Option<Row>, s: &State) -> Result<Command, Fault>
    ensures { result ≡ whole text.now row s.now }
{
    match row {
        Some(row) if !is_short(&row, s) => Ok(row.command),
        _ => Err(fault_at(text.len(), ParseKind::Missing)),
    }
}

// The command, behind the last token.
fn ended(text: &[u8], row: Option<Row>, s: &State) -> Result<Command, Fault>
    ensures { result ≡ ended text.now row s.now s.now.place }
{
    match s.place {
        Place::VerbSlash | Place::Slash => Err(fault_at(s.start, ParseKind::Qualifier)),
        Place::Equals if !needs_value(s.takes) => Err(fault_at(s.start, ParseKind::Form)),
        _ => whole(text, row, s),
    }
}

// The command of the tokens behind a verb, and its parts as far as they are in place.
#[derive(Drop)]
struct Walked {
    // The command, but for conflicts. The first token that is wrong tells what is wrong.
    read: Result<Command, Fault>,
    parts: Vec<Part>,
}

// Goes along the tokens behind a verb.
fn walk(
    alloc: Global,
    text: &[u8],
    verb: Verb,
    row: Option<Row>,
    first: Token,
    tokens: &[Token],
) -> Result<Walked, AllocError>
    ensures read { IfOk result (λ walked. walked.read
        ≡ read_from text.now verb row (begun first) tokens.now) }
    ensures parts { IfOk result (λ walked. walked.parts.items
        ≡ parts_from text.now verb row (begun first) tokens.now) }
{
    let mut parts = Vec::new(alloc);
    let mut s = begun(first);
    let mut rest = tokens;
    while let [token, behind @ ..] = rest {
        match with_token(text, verb, row, &s, *token) {
            Ok(step) => {
                push_part(&mut parts, step.part)?;
                s = step.state;
            }
            Err(fault) => {
                return Ok(Walked {
                    read: Err(fault),
                    parts,
                });
            }
        }
        rest = behind;
    }
    Ok(Walked {
        read: ended(text, row, &s),
        parts,
    })
}

// What a text that begins with no verb has wrong.
fn no_verb(text: &[u8], token: Token) -> ParseKind
    ensures { result ≡ no_verb text.now token token.kind }
{
    match token.kind {
        TokenKind::Word if begins_verb(text, token) => ParseKind::Ambiguous,
        TokenKind::Word | TokenKind::Quoted => ParseKind::Word,
        TokenKind::Slash => ParseKind::Qualifier,
        _ => ParseKind::Form,
    }
}

/// What the tokens of a text tell.
#[derive(Drop)]
pub(crate) struct Told {
    /// The command that they name, whatever else is wrong with them.
    pub named: Option<Command>,
    /// The command that they are, or the fault with the least place.
    pub command: Result<Command, Fault>,
    /// The parts of the command in their order, as far as the tokens are in place.
    pub parts: Vec<Part>,
}

// What tokens tell whose first one is a verb.
fn told_behind(
    alloc: Global,
    text: &[u8],
    verb: Verb,
    first: Token,
    tokens: &[Token],
) -> Result<Told, AllocError>
    ensures named { IfOk result (λ told. told.named
        ≡ named_behind text.now tokens.now (Some verb)) }
    ensures command { IfOk result (λ told. told.command
        ≡ command_behind text.now first tokens.now (Some verb)) }
    ensures parts { IfOk result (λ told. told.parts.items
        ≡ parts_behind text.now first tokens.now (Some verb)) }
{
    let row = row_of(text, tokens, verb);
    let walked = walk(alloc, text, verb, row, first, tokens)?;
    Ok(Told {
        named: row.map(|row| row.command),
        command: or_conflict(first_conflict(text, verb, row, tokens), walked.read),
        parts: walked.parts,
    })
}

// What tokens tell that begin with no verb.
fn told_of_none(alloc: Global, fault: Fault) -> Told
    ensures named { result.named ≡ None }
    ensures command { result.command ≡ Err fault }
    ensures parts { result.parts.items ≡ [] }
{
    Told {
        named: None,
        command: Err(fault),
        parts: Vec::new(alloc),
    }
}

/// What the tokens of a text tell, by one walk along them.
///
/// Errors: `AllocError`, where memory ran out.
pub(crate) fn told_of(alloc: Global, text: &[u8], tokens: &[Token]) -> Result<Told, AllocError>
    ensures named { IfOk result (λ told. told.named ≡ named_command text.now tokens.now) }
    ensures command { IfOk result (λ told. told.command ≡ command_of text.now tokens.now) }
    ensures parts { IfOk result (λ told. told.parts.items ≡ parts_of text.now tokens.now) }
{
    let [first, behind @ ..] = tokens else {
        return Ok(told_of_none(alloc, fault_at(text.len(), ParseKind::Missing)));
    };
    match verb_of(text, *first) {
        Some(verb) => told_behind(alloc, text, verb, *first, behind),
        None => Ok(told_of_none(alloc, fault_at(first.start, no_verb(text, *first)))),
    }
}
