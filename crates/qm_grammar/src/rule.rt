// Which option or qualifier of a command a token is.
ghost use Rattle.std.specs.Prelude.{◌≡◌, find, None};
ghost use Rattle.qm_commands.specs.Names.{is_name, rule_for};
ghost use Rattle.qm_commands.specs.Rules.{rules_of};

use qm_commands::{Command, Row, Rule, Token, Verb, own_rules, rows_of, settings};
use qm_names::is_name;

// Which of these options and qualifiers a token is.
fn rule_by(text: &[u8], verb: Verb, row: Option<Row>, token: Token, rules: &[Rule]) -> Option<Rule>
    ensures { result ≡ find (λ rule. is_name text.now verb row token rule.0) rules.now }
{
    rules
        .iter()
        .copied()
        .find(|rule| is_name(text, verb, row, token, rule.0))
}

// Which option or qualifier of a command a token is.
fn rule_in(
    text: &[u8],
    verb: Verb,
    row: Option<Row>,
    token: Token,
    command: Command,
) -> Option<Rule>
    ensures { result ≡ find (λ rule. is_name text.now verb row token rule.0) (rules_of command) }
{
    match rule_by(text, verb, row, token, own_rules(command)) {
        Some(rule) => Some(rule),
        None => rule_by(text, verb, row, token, settings(command)),
    }
}

// Which it is in the first command of a verb that has it.
fn rule_among(text: &[u8], verb: Verb, token: Token) -> Option<Rule>
    ensures { result ≡ rule_for text.now verb None token }
{
    let mut rest = rows_of(verb);
    while let [row, behind @ ..] = rest {
        match rule_in(text, verb, None, token, row.command) {
            Some(rule) => return Some(rule),
            None => rest = behind,
        }
    }
    None
}

/// The option or the qualifier that a token is, of the command, or of the first one of the verb that has it where none is named;
/// and what value it takes.
pub(crate) fn rule_for(text: &[u8], verb: Verb, row: Option<Row>, token: Token) -> Option<Rule>
    ensures { result ≡ rule_for text.now verb row token }
{
    match row {
        Some(named) => rule_in(text, verb, row, token, named.command),
        None => rule_among(text, verb, token),
    }
}
