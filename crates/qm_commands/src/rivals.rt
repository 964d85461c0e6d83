// Which other names leave a name in doubt that is cut short.
//
// What is asked of cut names alone isn't inlined: where a name is sought it would stand in the way of the whole ones.
ghost use Rattle.std.specs.Prelude.{◌≡◌};
ghost use Rattle.std.specs.List.{list_all};
ghost use Rattle.qm_commands.specs.Names.{is_no_rival, are_no_rivals, is_verb_alone, is_no_rival_object, is_object_alone, is_alone};
ghost use Rattle.qm_commands.specs.Rules.{rules_of};

use crate::rules::{Rule, own_rules, settings};
use crate::table::{Command, Row, VERBS, Verb, rows_of};
use crate::token::begins;
use crate::tokens::Token;
use crate::word::{Word, spelling, verb_spelling};

// Whether a name that stands beside this one leaves it to a token: the token doesn't begin that name, or the two are one.
fn is_no_rival(text: &[u8], token: Token, name: &[u8], other: &[u8]) -> bool
    ensures { result ≡ is_no_rival text.now token name.now other.now }
{
    !begins(text, other, token) || other == name
}

/// Whether no other verb leaves this name in doubt.
#[inline(never)]
pub fn is_verb_alone(text: &[u8], token: Token, name: &[u8]) -> bool
    ensures { result ≡ is_verb_alone text.now token name.now }
{
    VERBS.iter().all(|verb| is_no_rival(text, token, name, verb_spelling(*verb)))
}

// Whether the option that is the first parameter of a command, if it has one, leaves this name to a token.
fn is_no_rival_object(text: &[u8], token: Token, name: &[u8], object: Option<Word>) -> bool
    ensures { result ≡ is_no_rival_object text.now token name.now object }
{
    match object {
        None => true,
        Some(other) => is_no_rival(text, token, name, spelling(other)),
    }
}

/// Whether no other option of a verb that is the first parameter leaves this name in doubt.
#[inline(never)]
pub fn is_object_alone(text: &[u8], verb: Verb, token: Token, name: &[u8]) -> bool
    ensures { result ≡ is_object_alone text.now verb token name.now }
{
    rows_of(verb)
        .iter()
        .all(|row| is_no_rival_object(text, token, name, row.object))
}

// Whether no other of these names leaves this one in doubt.
fn are_no_rivals(text: &[u8], token: Token, name: &[u8], rules: &[Rule]) -> bool
    ensures { result ≡ are_no_rivals text.now token name.now rules.now }
{
    rules
        .iter()
        .all(|rule| is_no_rival(text, token, name, spelling(rule.0)))
}

// Whether no other name of a command leaves this one in doubt.
fn is_alone_in(text: &[u8], token: Token, name: &[u8], command: Command) -> bool
    ensures { result ≡ are_no_rivals text.now token name.now (rules_of command) }
{
    are_no_rivals(text, token, name, own_rules(command))
        && are_no_rivals(text, token, name, settings(command))
}

// Whether no other name of any of these commands leaves this one in doubt.
fn is_alone_in_each(text: &[u8], token: Token, name: &[u8], rows: &[Row]) -> bool
    ensures { result
        ≡ list_all (λ row. are_no_rivals text.now token name.now (rules_of row.command)) rows.now }
{
    rows.iter()
        .all(|row| is_alone_in(text, token, name, row.command))
}

/// Whether no other name of the command leaves this one in doubt, or of any command of the verb where none is named.
#[inline(never)]
pub fn is_alone(text: &[u8], verb: Verb, row: Option<Row>, token: Token, name: &[u8]) -> bool
    ensures { result ≡ is_alone text.now verb row token name.now }
{
    match row {
        Some(row) => is_alone_in(text, token, name, row.command),
        None => is_alone_in_each(text, token, name, rows_of(verb)),
    }
}
