// Texts of commands.
ghost use Rattle.std.specs.Prelude.{◌≡◌, ◌++◌, ◌∷◌, [], take, Ok, Err, IfOk};
ghost use Rattle.qm_commands.specs.Tokens.{tokens_of};
ghost use Rattle.qm_grammar.specs.Finding.{named_command};
ghost use Rattle.qm_grammar.specs.Parsed.{unreadable, readable, tokens_in, or_unreadable, command_in, parts_in};

use crate::part::Part;
use crate::reading::told_of;
use qm_commands::{Command, Fault, LexFault, Token, TokenKind, fault_at, lex};
use qm_kinds::ParseKind;
use std::alloc::{AllocError, Global};

/// What the grammar says of a text.
#[derive(Debug, Drop)]
pub struct Parsed {
    /// The tokens in their order. Behind one that can't be read there are none, and it stands as a quoted string of no bytes.
    pub tokens: Vec<Token>,
    /// The command that the tokens name, whatever else is wrong with them.
    pub named: Option<Command>,
    /// The parts of the command in their order, as far as the tokens are in place.
    pub parts: Vec<Part>,
    /// The command that the text is, or the fault with the least place.
    pub command: Result<Command, Fault>,
}

// What stands in front of a place.
fn front(text: &[u8], place: usize) -> &[u8]
    ensures { result.now ≡ take place text.now }
{
    if place < text.len() {
        &text[..place]
    } else {
        text
    }
}

// What is wrong in front of a token that can't be read, else that token.
fn or_unreadable(place: usize, read: Result<Command, Fault>) -> Result<Command, Fault>
    ensures { result ≡ or_unreadable (Err place) read }
{
    match read {
        Err(fault) if fault.place < place => Err(fault),
        _ => Err(fault_at(place, ParseKind::Form)),
    }
}

// A quote without its end, which stands where a quoted string would.
fn unreadable(place: usize) -> Token
    ensures { result ≡ unreadable place }
{
    Token {
        kind: TokenKind::Quoted,
        start: place,
        end: place,
    }
}

// The tokens up to one that can't be read.
fn tokens_to(alloc: Global, text: &[u8], place: usize) -> Result<Vec<Token>, AllocError>
    ensures { IfOk result (λ tokens. tokens.items
        ≡ readable (tokens_of (take place text.now)) ++ unreadable place ∷ []) }
{
    let mut tokens = match lex(alloc, front(text, place)) {
        Ok(tokens) => tokens,
        Err(LexFault::Unreadable { .. }) => Vec::new(alloc),
        Err(LexFault::NoMemory) => return Err(AllocError),
    };
    tokens.push(unreadable(place))?;
    Ok(tokens)
}

/// What the grammar says of a text: its tokens, the command that these name, the command that it is, and the parts of that.
///
/// Names are spelled in any case, and may be cut to a beginning that no other one has: a verb among the verbs, an option that
/// names the command among the names of all commands of its verb, and any other name among those of the command, or where none is
/// named among those of all commands of the verb. One that is spelled whole is that name. Options behind a `/` and qualifiers stand
/// anywhere behind the verb; the option of `SET` and `SHOW` is the first parameter. What a value says isn't judged here.
///
/// Where a text is no command, `command` is the fault with the least place. `Ambiguous` stands at a first word with which several
/// verbs begin, and at the `/` of a name with which several of those begin among which it is judged; `Word` at another first word
/// that is no verb, at a first parameter of `SET` or `SHOW` that is no option, and at the `/` of a name that the verb hasn't, right
/// behind a verb whose option stands there; `Qualifier` at the `/` of another name that isn't one of the command, and at a `/`
/// without a name; `Value` at a value that isn't taken, or is one too many, at an empty list, and at a list in a list; `Form` at a
/// sign, or a word joined to another, that isn't in place, and at a token that can't be read, as a quoted string without its end;
/// `Extra` at a parameter too many; `Conflict` at the later of two that exclude each other and both count. Where nothing else is
/// wrong, `Missing` stands at the text's end for a verb, an option, a parameter, a qualifier, a value or the end of a list.
///
/// Errors: `AllocError`, where memory ran out.
pub fn parse(alloc: Global, text: &[u8]) -> Result<Parsed, AllocError>
    ensures tokens { IfOk result (λ parsed. parsed.tokens.items ≡ tokens_in text.now) }
    ensures named { IfOk result (λ parsed. parsed.named
        ≡ named_command text.now (tokens_in text.now)) }
    ensures parts { IfOk result (λ parsed. parsed.parts.items ≡ parts_in text.now) }
    ensures command { IfOk result (λ parsed. parsed.command ≡ command_in text.now) }
{
    match lex(alloc, text) {
        Ok(tokens) => {
            let told = told_of(alloc, text, &tokens)?;
            Ok(Parsed {
                tokens,
                named: told.named,
                parts: told.parts,
                command: told.command,
            })
        }
        Err(LexFault::Unreadable { place }) => {
            let tokens = tokens_to(alloc, text, place)?;
            let told = told_of(alloc, text, &tokens)?;
            Ok(Parsed {
                tokens,
                named: told.named,
                parts: told.parts,
                command: or_unreadable(place, told.command),
            })
        }
        Err(LexFault::NoMemory) => Err(AllocError),
    }
}
