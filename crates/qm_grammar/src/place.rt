// Where one stands within a command.
ghost use Rattle.std.specs.Prelude.{◌≡◌};
ghost use Rattle.qm_grammar.specs.Places.{begun, moved, is_awaited};

use qm_commands::{Takes, Token, needs_value};

/// Behind which token one stands.
#[derive(Clone, Copy)]
pub enum Place {
    /// The verb.
    Verb,
    /// A parameter.
    Parameter,
    /// A `/` right behind the verb.
    VerbSlash,
    /// Another `/`.
    Slash,
    /// The name of a qualifier or an option.
    Name,
    /// `=` behind a name.
    Equals,
    /// `(` behind that.
    Open,
    /// A comma of a list.
    Comma,
    /// A value.
    Value,
    /// `=` behind a value.
    Key,
    /// `(` behind that.
    KeyOpen,
    /// The value behind that.
    KeyValue,
    /// `)` at the end of a list.
    Close,
}

/// What the tokens so far tell.
#[derive(Clone, Copy)]
pub struct State {
    /// Where one stands.
    pub place: Place,
    /// What the last qualifier takes.
    pub takes: Takes,
    /// Whether its list is open.
    pub in_list: bool,
    /// How many values it has.
    pub values: usize,
    /// How many parameters there are; where no command is named, whether there is one.
    pub parameters: usize,
    /// Whether there is a qualifier or an option.
    pub qualified: bool,
    /// Whether an earlier qualifier lacks a value or the end of its list.
    pub owed: bool,
    /// Where the last token begins.
    pub start: usize,
    /// Where it ends.
    pub end: usize,
}

/// Whether a value, or the end of a list, is still to come.
pub(crate) fn is_awaited(place: Place, takes: Takes, in_list: bool) -> bool
    ensures { result ≡ is_awaited place takes in_list }
{
    match place {
        Place::Verb | Place::Parameter | Place::VerbSlash | Place::Slash | Place::Close => false,
        Place::Equals | Place::Open | Place::Comma | Place::Key | Place::KeyOpen => true,
        Place::Value | Place::KeyValue => in_list,
        Place::Name => needs_value(takes),
    }
}

/// Behind the verb.
pub(crate) fn begun(verb: Token) -> State
    ensures { result ≡ begun verb }
{
    State {
        place: Place::Verb,
        takes: Takes::Nothing,
        in_list: false,
        values: 0,
        parameters: 0,
        qualified: false,
        owed: false,
        start: verb.start,
        end: verb.end,
    }
}

/// One token further.
pub(crate) fn moved(s: &State, place: Place, token: Token) -> State
    ensures { result ≡ moved s.now place token }
{
    State {
        place,
        start: token.start,
        end: token.end,
        ..*s
    }
}
