// Which options and qualifiers exclude each other.
ghost use Rattle.std.specs.Prelude.{◌≡◌, is_some};
ghost use Rattle.std.specs.List.{list_any};
ghost use Rattle.qm_commands.specs.Rules.{exclusions_of};
ghost use Rattle.qm_names.specs.Conflicts.{slash_place, is_word_given, place_with, counting_place, conflict_of, earlier, first_conflict, or_conflict};

use crate::names::is_name;
use qm_commands::{Command, Fault, Row, Token, TokenKind, Verb, Word, fault_at, undone_by};
use qm_kinds::ParseKind;

// Two words that exclude each other.
type Exclusion = (Word, Word);

const INITIALIZE: [Exclusion; 1] = [(Word::Generic, Word::On)];

const SET: [Exclusion; 2] = [(Word::Release, Word::Hold), (Word::Release, Word::After)];

const STOP: [Exclusion; 8] = [
    (Word::Next, Word::Reset),
    (Word::Next, Word::Abort),
    (Word::Next, Word::Requeue),
    (Word::Reset, Word::Abort),
    (Word::Reset, Word::Requeue),
    (Word::Abort, Word::Requeue),
    (Word::Entry, Word::Next),
    (Word::Entry, Word::Reset),
];

const DELETE: [Exclusion; 6] = [
    (Word::Queue, Word::Form),
    (Word::Queue, Word::Characteristic),
    (Word::Queue, Word::Entry),
    (Word::Form, Word::Characteristic),
    (Word::Form, Word::Entry),
    (Word::Characteristic, Word::Entry),
];

const DEFINE: [Exclusion; 2] = [
    (Word::Form, Word::Characteristic),
    (Word::Wrap, Word::Truncate),
];

const SHOW: [Exclusion; 3] = [
    (Word::Form, Word::ShownCharacteristics),
    (Word::Form, Word::Managers),
    (Word::ShownCharacteristics, Word::Managers),
];

// Which exclude each other, options among them.
fn exclusions_of(verb: Verb) -> &'static [Exclusion]
    ensures { result.now ≡ exclusions_of verb }
{
    match verb {
        Verb::Initialize => &INITIALIZE,
        Verb::Set => &SET,
        Verb::Stop => &STOP,
        Verb::Delete => &DELETE,
        Verb::Define => &DEFINE,
        Verb::Show => &SHOW,
        Verb::Start | Verb::Assign | Verb::Submit | Verb::Print => &[],
    }
}

// The place of a `/`.
fn slash_place(token: Token) -> Option<usize>
    ensures { result ≡ slash_place token.kind token.start }
{
    match token.kind {
        TokenKind::Slash => Some(token.start),
        _ => None,
    }
}

// Whether a token is the word, if there is one.
fn is_word_given(
    text: &[u8],
    verb: Verb,
    row: Option<Row>,
    word: Option<Word>,
    token: Token,
) -> bool
    ensures { result ≡ is_word_given text.now verb row word token }
{
    match word {
        Some(word) => is_name(text, verb, row, token, word),
        None => false,
    }
}

// Where a qualifier was given that counts, once one more token has come, and behind which `/` that stands.
fn place_with(
    text: &[u8],
    verb: Verb,
    row: Option<Row>,
    word: Word,
    slash: Option<usize>,
    so_far: Option<usize>,
    token: Token,
) -> Option<usize>
    ensures { result ≡ place_with text.now verb row word slash so_far token }
{
    if slash.is_none() {
        return so_far;
    }
    if is_name(text, verb, row, token, word) {
        slash
    } else if is_word_given(text, verb, row, undone_by(word), token) {
        None
    } else {
        so_far
    }
}

/// The `/` of a qualifier that counts: it is given, and its other form doesn't undo it.
pub fn counting_place(
    text: &[u8],
    verb: Verb,
    row: Option<Row>,
    tokens: &[Token],
    word: Word,
) -> Option<usize>
    ensures { result ≡ counting_place text.now verb row tokens.now word }
{
    let mut slash = None;
    let mut place = None;
    let mut rest = tokens;
    while let [token, behind @ ..] = rest {
        place = place_with(text, verb, row, word, slash, place, *token);
        slash = slash_place(*token);
        rest = behind;
    }
    place
}

// The conflict of two that exclude each other, at the later of them.
fn conflict_of(
    text: &[u8],
    verb: Verb,
    row: Option<Row>,
    tokens: &[Token],
    pair: Exclusion,
) -> Option<usize>
    ensures { result ≡ conflict_of text.now verb row tokens.now pair }
{
    let first = counting_place(text, verb, row, tokens, pair.0)?;
    let second = counting_place(text, verb, row, tokens, pair.1)?;
    Some(if first < second { second } else { first })
}

// The earlier of two places, or the only one.
fn earlier(first: Option<usize>, second: Option<usize>) -> Option<usize>
    ensures { result ≡ earlier first second }
{
    match (first, second) {
        (Some(first), Some(second)) => Some(if first < second { first } else { second }),
        (None, second) => second,
        (first, None) => first,
    }
}

// The first place of a conflict, pair by pair.
fn first_of(text: &[u8], verb: Verb, row: Option<Row>, tokens: &[Token]) -> Option<usize>
    ensures { result ≡ first_conflict text.now verb row tokens.now (exclusions_of verb) }
{
    let mut place = None;
    let mut rest = exclusions_of(verb);
    while let [pair, behind @ ..] = rest {
        place = earlier(place, conflict_of(text, verb, row, tokens, *pair));
        rest = behind;
    }
    place
}

/// Whether a `/` stands among the tokens.
pub fn has_slash(tokens: &[Token]) -> bool
    ensures { result ≡ list_any (λ token. is_some (slash_place token.kind token.start)) tokens.now }
{
    tokens.iter().any(|token| slash_place(*token).is_some())
}

/// The first place of a conflict among the qualifiers and options of a command. Where no `/` stands there are none.
pub fn first_conflict(text: &[u8], verb: Verb, row: Option<Row>, tokens: &[Token]) -> Option<usize>
    ensures { result ≡ first_conflict text.now verb row tokens.now (exclusions_of verb) }
{
    if has_slash(tokens) {
        first_of(text, verb, row, tokens)
    } else {
        None
    }
}

/// A conflict, where nothing is wrong in front of it.
pub fn or_conflict(conflict: Option<usize>, read: Result<Command, Fault>) -> Result<Command, Fault>
    ensures { result ≡ or_conflict conflict read }
{
    match (conflict, read) {
        (Some(at), Err(fault)) if fault.place <= at => Err(fault),
        (Some(at), _) => Err(fault_at(at, ParseKind::Conflict)),
        (None, read) => read,
    }
}
