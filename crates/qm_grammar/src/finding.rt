// Which command the tokens behind a verb make of it.
ghost use Rattle.std.specs.Prelude.{◌≡◌, ◌==◌, true, find, filter, get_or};
ghost use Rattle.qm_grammar.specs.Finding.{verb_of, lets_follow, stays_open, first_parameter, has_object, has_option, is_named, row_of};
ghost use Rattle.qm_commands.specs.Names.{is_verb};
ghost use Rattle.qm_commands.specs.Table.{verbs};
ghost use Rattle.qm_commands.specs.Words.{verb_spelling};

use qm_commands::{Row, Token, TokenKind, VERBS, Verb, Word, bytes_of, is_text, rows_of};
use qm_names::{counting_place, has_slash, is_object, is_verb};

// The verbs whose second letter this is. It leaves three of them at most.
fn verbs_by(second: u8) -> &'static [Verb]
    ensures { result.now ≡ filter (λ verb. second == get_or (verb_spelling verb) 1 0) verbs }
{
    match second {
        b'E' => &[Verb::Set, Verb::Delete, Verb::Define],
        b'H' => &[Verb::Show],
        b'N' => &[Verb::Initialize],
        b'R' => &[Verb::Print],
        b'S' => &[Verb::Assign],
        b'T' => &[Verb::Start, Verb::Stop],
        b'U' => &[Verb::Submit],
        _ => &[],
    }
}

// The verb among these that a token is.
fn verb_among(text: &[u8], token: Token, verbs: &[Verb]) -> Option<Verb>
    ensures { result ≡ find (is_verb text.now token) verbs.now }
{
    verbs
        .iter()
        .copied()
        .find(|verb| is_verb(text, token, *verb))
}

/// The verb that a token is.
pub(crate) fn verb_of(text: &[u8], token: Token) -> Option<Verb>
    ensures { result ≡ verb_of text.now token }
{
    match bytes_of(text, token).get(1) {
        Some(second) => verb_among(text, token, verbs_by(second.to_ascii_uppercase())),
        None => verb_among(text, token, &VERBS),
    }
}

// Whether a word or a quoted string behind this token is a parameter: it is no name behind a `/` and no value.
fn lets_follow(token: Token) -> bool
    ensures { result ≡ lets_follow token.kind }
{
    match token.kind {
        TokenKind::Word | TokenKind::Quoted | TokenKind::Close => true,
        _ => false,
    }
}

// Whether a list is open behind a token: `)` ends it, and so does a `/` where that lacks.
fn stays_open(in_list: bool, token: Token) -> bool
    ensures { result ≡ stays_open in_list token.kind }
{
    match token.kind {
        TokenKind::Open => true,
        TokenKind::Close | TokenKind::Slash => false,
        _ => in_list,
    }
}

// The first parameter of a verb.
fn first_parameter(tokens: &[Token]) -> Option<Token>
    ensures { result ≡ first_parameter tokens.now }
{
    let mut in_list = false;
    let mut follows = true;
    let mut rest = tokens;
    while let [token, behind @ ..] = rest {
        if !in_list && follows && is_text(*token) {
            return Some(*token);
        }
        in_list = stays_open(in_list, *token);
        follows = lets_follow(*token);
        rest = behind;
    }
    None
}

// Whether the option that is the first parameter is this one, if there is to be one.
fn has_object(text: &[u8], verb: Verb, object: Option<Word>, parameter: Option<Token>) -> bool
    ensures { result ≡ has_object text.now verb object parameter }
{
    match (object, parameter) {
        (None, _) => true,
        (Some(_), None) => false,
        (Some(word), Some(token)) => is_object(text, verb, token, word),
    }
}

// Whether the option behind a `/` is given, if there is to be one. While no command is named it is a name among all of the verb.
fn has_option(text: &[u8], verb: Verb, tokens: &[Token], option: Option<Word>) -> bool
    ensures { result ≡ has_option text.now verb tokens.now option }
{
    match option {
        None => true,
        Some(word) => {
            has_slash(tokens) && counting_place(text, verb, None, tokens, word).is_some()
        }
    }
}

// An option that is sought as the first parameter, if one is, and whether it is given.
#[derive(Clone, Copy)]
struct Sought {
    object: Option<Word>,
    is_given: bool,
}

// Whether these options that may be first parameters are one. There are no others than these.
fn is_same_object(first: Option<Word>, second: Option<Word>) -> bool
    ensures { result ≡ true → first ≡ second }
{
    match (first, second) {
        (None, None)
        | (Some(Word::Queue), Some(Word::Queue))
        | (Some(Word::Entry), Some(Word::Entry)) => true,
        _ => false,
    }
}

// Whether this option is the first parameter, which is known where it was the last one to be sought.
fn seek(
    text: &[u8],
    verb: Verb,
    parameter: Option<Token>,
    last: Sought,
    object: Option<Word>,
) -> Sought
    requires { last.is_given ≡ has_object text.now verb last.object parameter }
    ensures object { result.object ≡ object }
    ensures is_given { result.is_given ≡ has_object text.now verb object parameter }
{
    if is_same_object(last.object, object) {
        last
    } else {
        Sought {
            object,
            is_given: has_object(text, verb, object, parameter),
        }
    }
}

// Whether the tokens behind the verb name this command, of which it is known whether its first parameter is given.
fn is_named(text: &[u8], verb: Verb, tokens: &[Token], is_given: bool, row: &Row) -> bool
    requires { is_given ≡ has_object text.now verb row.now.object (first_parameter tokens.now) }
    ensures { result ≡ is_named text.now verb tokens.now row.now }
{
    is_given
        && has_option(text, verb, tokens, row.option)
        && has_option(text, verb, tokens, row.further)
}

/// The command that the tokens behind a verb name.
pub(crate) fn row_of(text: &[u8], tokens: &[Token], verb: Verb) -> Option<Row>
    ensures { result ≡ row_of text.now tokens.now verb }
{
    let parameter = first_parameter(tokens);
    let mut last = Sought {
        object: None,
        is_given: true,
    };
    let mut rest = rows_of(verb);
    while let [row, behind @ ..] = rest {
        last = seek(text, verb, parameter, last, row.object);
        if is_named(text, verb, tokens, last.is_given, row) {
            return Some(*row);
        }
        rest = behind;
    }
    None
}
