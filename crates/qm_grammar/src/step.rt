// One token further.
ghost use Rattle.std.specs.Prelude.{◌≡◌, None, Some, Ok, Err, IfOk, IfErr};
ghost use Rattle.qm_commands.specs.Names.{rule_for};
ghost use Rattle.qm_grammar.specs.Parts.{qualifier_part, text_part, part_of};
ghost use Rattle.qm_grammar.specs.Places.{is_owing, misplaced, is_joined, one_more};
ghost use Rattle.qm_grammar.specs.Steps.{unknown_kind, no_name_kind, named_by, with_value, is_no_object, with_parameter, with_name, with_word, with_slash, with_equals, with_key_open, with_open, with_close, with_comma, with_token};

use crate::part::{Part, qualifier_part};
use crate::place::{Place, State, is_awaited, moved};
use crate::rule::rule_for;
use qm_commands::{
    Fault, Row, Rule, Takes, Token, TokenKind, Verb, begins_name, fault_at, may_have_key,
    most_values, needs_value, takes_object, takes_option,
};
use qm_kinds::ParseKind;

/// One token further.
#[derive(Clone, Copy)]
pub(crate) struct Step {
    /// Where one stands behind it.
    pub state: State,
    /// Which part of the command it is, if it is one; a sign is none.
    pub part: Option<Part>,
}

/// Whether a value, or the end of a list, is missing, if nothing more of this qualifier comes.
pub(crate) fn is_owing(s: &State) -> bool
    ensures { result ≡ is_owing s.now }
{
    s.owed || is_awaited(s.place, s.takes, s.in_list)
}

// What is wrong where a token isn't in place. A `/` without a name, and a `=` where no value is taken, are at fault themselves.
fn misplaced(s: &State, at: usize) -> Fault
    ensures { result ≡ misplaced s.now.place s.now at }
{
    match s.place {
        Place::VerbSlash | Place::Slash => fault_at(s.start, ParseKind::Qualifier),
        Place::Equals => {
            let place = if needs_value(s.takes) { at } else { s.start };
            fault_at(place, ParseKind::Form)
        }
        _ => fault_at(at, ParseKind::Form),
    }
}

// Whether a token stands directly behind a word or a quoted string: parameters are parted by blanks.
fn is_joined(s: &State, token: Token) -> bool
    ensures { result ≡ is_joined s.now.place s.now.end token.start }
{
    match s.place {
        Place::Close => false,
        _ => s.end == token.start,
    }
}

// One more parameter, where the command takes it.
fn one_more(row: Option<Row>, parameters: usize) -> Option<usize>
    ensures { result ≡ one_more row parameters }
{
    match row {
        None => Some(1),
        Some(row) => {
            if parameters < row.most {
                Some(parameters + 1)
            } else {
                None
            }
        }
    }
}

// What is wrong with a name behind a `/` with which none of the command begins.
fn unknown_kind(text: &[u8], verb: Verb, token: Token, place: Place) -> ParseKind
    ensures { result ≡ unknown_kind text.now verb token place }
{
    match place {
        Place::VerbSlash => {
            if takes_option(verb) && !begins_name(text, verb, None, token) {
                ParseKind::Word
            } else {
                ParseKind::Qualifier
            }
        }
        _ => ParseKind::Qualifier,
    }
}

// What is wrong with a name behind a `/` that is none of the command.
fn no_name_kind(text: &[u8], verb: Verb, row: Option<Row>, token: Token, place: Place) -> ParseKind
    ensures { result ≡ no_name_kind text.now verb row token place }
{
    if begins_name(text, verb, row, token) {
        ParseKind::Ambiguous
    } else {
        unknown_kind(text, verb, token, place)
    }
}

// Behind the name of a qualifier or an option, or what is wrong with it.
fn named_by(
    text: &[u8],
    verb: Verb,
    row: Option<Row>,
    s: &State,
    token: Token,
    rule: Option<Rule>,
) -> Result<State, Fault>
    ensures { result ≡ named_by text.now verb row s.now token rule }
{
    match rule {
        None => Err(fault_at(s.start, no_name_kind(text, verb, row, token, s.place))),
        Some(rule) => Ok(State {
            place: Place::Name,
            takes: rule.1,
            in_list: false,
            values: 0,
            parameters: s.parameters,
            qualified: true,
            owed: s.owed,
            start: token.start,
            end: token.end,
        }),
    }
}

// Behind a value of a qualifier, unless it has them all.
fn with_value(s: &State, token: Token) -> Result<State, Fault>
    ensures { result ≡ with_value s.now token }
{
    if s.values < most_values(s.takes) {
        Ok(State {
            place: Place::Value,
            values: s.values + 1,
            start: token.start,
            end: token.end,
            ..*s
        })
    } else {
        Err(fault_at(token.start, ParseKind::Value))
    }
}

// Whether a parameter is the first one of a verb whose option this is, and names no command.
fn is_no_object(verb: Verb, row: Option<Row>, parameters: usize) -> bool
    ensures { result ≡ is_no_object verb row parameters }
{
    match row {
        None => takes_object(verb) && parameters == 0,
        Some(_) => false,
    }
}

// Behind a parameter, or what is wrong with it.
fn with_parameter(verb: Verb, row: Option<Row>, s: &State, token: Token) -> Result<State, Fault>
    ensures { result ≡ with_parameter verb row s.now token }
{
    if is_joined(s, token) {
        return Err(fault_at(token.start, ParseKind::Form));
    }
    if is_no_object(verb, row, s.parameters) {
        return Err(fault_at(token.start, ParseKind::Word));
    }
    match one_more(row, s.parameters) {
        None => Err(fault_at(token.start, ParseKind::Extra)),
        Some(parameters) => Ok(State {
            place: Place::Parameter,
            parameters,
            owed: is_owing(s),
            in_list: false,
            start: token.start,
            end: token.end,
            ..*s
        }),
    }
}

// One token further, by where one stands behind it, or what is wrong with it.
fn step_to(state: Result<State, Fault>, part: Option<Part>) -> Result<Step, Fault>
    ensures state { IfOk result (λ step. state ≡ Ok step.state) }
    ensures part { IfOk result (λ step. step.part ≡ part) }
    ensures fault { IfErr result (λ fault. state ≡ Err fault) }
{
    match state {
        Ok(state) => Ok(Step { state, part }),
        Err(fault) => Err(fault),
    }
}

// Behind a name, or what is wrong with it.
fn with_name(
    text: &[u8],
    verb: Verb,
    row: Option<Row>,
    s: &State,
    token: Token,
) -> Result<Step, Fault>
    ensures state { IfOk result (λ step. with_name text.now verb row s.now token ≡ Ok step.state) }
    ensures part { IfOk result (λ step. step.part
        ≡ qualifier_part s.now.start (rule_for text.now verb row token)) }
    ensures fault { IfErr result (λ fault. with_name text.now verb row s.now token ≡ Err fault) }
{
    if token.kind != TokenKind::Word {
        return Err(misplaced(s, token.start));
    }
    let rule = rule_for(text, verb, row, token);
    step_to(
        named_by(text, verb, row, s, token, rule),
        qualifier_part(s, rule),
    )
}

// Behind a word or a quoted string.
fn with_word(
    text: &[u8],
    verb: Verb,
    row: Option<Row>,
    s: &State,
    token: Token,
) -> Result<Step, Fault>
    ensures state { IfOk result (λ step.
        with_word text.now verb row s.now token s.now.place ≡ Ok step.state) }
    ensures part { IfOk result (λ step. step.part
        ≡ text_part s.now.start (rule_for text.now verb row token) token s.now.place) }
    ensures fault { IfErr result (λ fault.
        with_word text.now verb row s.now token s.now.place ≡ Err fault) }
{
    match s.place {
        Place::VerbSlash | Place::Slash => with_name(text, verb, row, s, token),
        Place::Equals | Place::Open | Place::Comma => {
            step_to(with_value(s, token), Some(Part::Value { token }))
        }
        Place::Key | Place::KeyOpen => {
            let state = moved(s, Place::KeyValue, token);
            step_to(Ok(state), Some(Part::KeyValue { token }))
        }
        Place::Value | Place::KeyValue if s.in_list => {
            Err(fault_at(token.start, ParseKind::Form))
        }
        _ => step_to(
            with_parameter(verb, row, s, token),
            Some(Part::Parameter { token }),
        ),
    }
}

// Behind `/`, which begins a qualifier or an option.
fn with_slash(s: &State, token: Token) -> Result<State, Fault>
    ensures { result ≡ with_slash s.now token s.now.place }
{
    match s.place {
        Place::VerbSlash | Place::Slash => Err(misplaced(s, token.start)),
        Place::Equals if !needs_value(s.takes) => Err(misplaced(s, token.start)),
        Place::Verb => Ok(moved(s, Place::VerbSlash, token)),
        _ => Ok(State {
            place: Place::Slash,
            owed: is_owing(s),
            in_list: false,
            start: token.start,
            end: token.end,
            ..*s
        }),
    }
}

// Behind `=`, which follows a name, or a value that may have one of its own.
fn with_equals(s: &State, token: Token) -> Result<State, Fault>
    ensures { result ≡ with_equals s.now token s.now.place }
{
    match s.place {
        Place::Name => Ok(moved(s, Place::Equals, token)),
        Place::Value if may_have_key(s.takes) => Ok(moved(s, Place::Key, token)),
        _ => Err(misplaced(s, token.start)),
    }
}

// Behind `(` after the `=` of a value, which may enclose this one value where no list is open.
fn with_key_open(s: &State, token: Token) -> Result<State, Fault>
    ensures { result ≡ with_key_open s.now token }
{
    if s.in_list {
        return Err(fault_at(token.start, ParseKind::Value));
    }
    Ok(State {
        place: Place::KeyOpen,
        takes: Takes::One,
        in_list: true,
        start: token.start,
        end: token.end,
        ..*s
    })
}

// Behind `(`, which begins a list; no value of a list is one.
fn with_open(s: &State, token: Token) -> Result<State, Fault>
    ensures { result ≡ with_open s.now token s.now.place }
{
    match s.place {
        Place::Equals => Ok(State {
            place: Place::Open,
            in_list: true,
            start: token.start,
            end: token.end,
            ..*s
        }),
        Place::Open | Place::Comma | Place::KeyOpen => Err(fault_at(token.start, ParseKind::Value)),
        Place::Key => with_key_open(s, token),
        _ => Err(misplaced(s, token.start)),
    }
}

// Behind `)`, which ends a list that isn't empty.
fn with_close(s: &State, token: Token) -> Result<State, Fault>
    ensures { result ≡ with_close s.now token s.now.place }
{
    match s.place {
        Place::Value | Place::KeyValue if s.in_list => Ok(State {
            place: Place::Close,
            in_list: false,
            start: token.start,
            end: token.end,
            ..*s
        }),
        Place::Open | Place::KeyOpen => Err(fault_at(s.start, ParseKind::Value)),
        _ => Err(misplaced(s, token.start)),
    }
}

// Behind a comma, which stands between the values of a list.
fn with_comma(s: &State, token: Token) -> Result<State, Fault>
    ensures { result ≡ with_comma s.now token s.now.place }
{
    match s.place {
        Place::Value | Place::KeyValue if s.in_list => Ok(moved(s, Place::Comma, token)),
        _ => Err(misplaced(s, token.start)),
    }
}

/// One token further, or what is wrong with it.
pub(crate) fn with_token(
    text: &[u8],
    verb: Verb,
    row: Option<Row>,
    s: &State,
    token: Token,
) -> Result<Step, Fault>
    ensures state { IfOk result (λ step.
        with_token text.now verb row s.now token token.kind ≡ Ok step.state) }
    ensures part { IfOk result (λ step. step.part ≡ part_of text.now verb row s.now token) }
    ensures fault { IfErr result (λ fault.
        with_token text.now verb row s.now token token.kind ≡ Err fault) }
{
    match token.kind {
        TokenKind::Word | TokenKind::Quoted => with_word(text, verb, row, s, token),
        TokenKind::Slash => step_to(with_slash(s, token), None),
        TokenKind::Equals => step_to(with_equals(s, token), None),
        TokenKind::Open => step_to(with_open(s, token), None),
        TokenKind::Close => step_to(with_close(s, token), None),
        TokenKind::Comma => step_to(with_comma(s, token), None),
    }
}
