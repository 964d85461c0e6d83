// The parts of a command.
ghost use Rattle.std.specs.Prelude.{◌≡◌, ◌++◌, IfOk, option_to_list};
ghost use Rattle.qm_grammar.specs.Parts.{qualifier_part};

use crate::place::State;
use qm_commands::{Rule, Token, Word};
use std::alloc::AllocFailed;

/// A part of a command.
#[derive(Clone, Copy, Debug, PartialEq, Eq)]
pub enum Part {
    /// A parameter; the option of `SET` and `SHOW` is the first one.
    Parameter { token: Token },
    /// A qualifier, or an option behind a `/`, and the place of that.
    Qualifier { word: Word, place: usize },
    /// A value of the qualifier in front.
    Value { token: Token },
    /// What stands behind the `=` of the value in front.
    KeyValue { token: Token },
}

/// A qualifier or an option, at its `/`.
pub(crate) fn qualifier_part(s: &State, rule: Option<Rule>) -> Option<Part>
    ensures { result ≡ qualifier_part s.now.start rule }
{
    let rule = rule?;
    Some(Part::Qualifier {
        word: rule.0,
        place: s.start,
    })
}

/// Appends a part, if there is one.
pub(crate) fn push_part(parts: &mut Vec<Part>, part: Option<Part>) -> Result<(), AllocFailed<Part>>
    ensures { IfOk result (λ _. parts.new.items ≡ parts.old.items ++ option_to_list part) }
{
    match part {
        Some(part) => parts.push(part),
        None => Ok(()),
    }
}
