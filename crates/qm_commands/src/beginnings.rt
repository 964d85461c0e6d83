// Which names begin with a token.
ghost use Rattle.std.specs.Prelude.{◌≡◌};
ghost use Rattle.std.specs.List.{list_any};
ghost use Rattle.qm_commands.specs.Names.{begins_one, begins_verb, begins_name};
ghost use Rattle.qm_commands.specs.Rules.{rules_of};

use crate::rules::{Rule, own_rules, settings};
use crate::table::{Command, Row, VERBS, Verb, rows_of};
use crate::token::begins;
use crate::tokens::Token;
use crate::word::{spelling, verb_spelling};

/// Whether some verb begins with a token.
pub fn begins_verb(text: &[u8], token: Token) -> bool
    ensures { result ≡ begins_verb text.now token }
{
    VERBS
        .iter()
        .any(|verb| begins(text, verb_spelling(*verb), token))
}

// Whether one of these names begins with a token.
fn begins_one(text: &[u8], token: Token, rules: &[Rule]) -> bool
    ensures { result ≡ begins_one text.now token rules.now }
{
    rules
        .iter()
        .any(|rule| begins(text, spelling(rule.0), token))
}

// Whether some name of a command begins with a token.
fn begins_name_in(text: &[u8], token: Token, command: Command) -> bool
    ensures { result ≡ begins_one text.now token (rules_of command) }
{
    begins_one(text, token, own_rules(command)) || begins_one(text, token, settings(command))
}

// Whether some name of one of these commands begins with a token.
fn begins_name_in_one(text: &[u8], token: Token, rows: &[Row]) -> bool
    ensures { result ≡ list_any (λ row. begins_one text.now token (rules_of row.command)) rows.now }
{
    rows.iter()
        .any(|row| begins_name_in(text, token, row.command))
}

/// Whether some name of the command begins with a token, or of any command of the verb where none is named.
pub fn begins_name(text: &[u8], verb: Verb, row: Option<Row>, token: Token) -> bool
    ensures { result ≡ begins_name text.now verb row token }
{
    match row {
        Some(row) => begins_name_in(text, token, row.command),
        None => begins_name_in_one(text, token, rows_of(verb)),
    }
}
