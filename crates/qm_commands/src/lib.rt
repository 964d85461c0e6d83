//! The table of commands: verbs, options, parameters and qualifiers, how each is spelled and what value it takes, written once
//! for all commands; what the tokens of a text spell; and which names of the table a token begins, and leaves in doubt. What the
//! table says is its definition in `specs/Table.antt` and `specs/Rules.antt`, and what a name may be cut to in
//! `specs/Names.antt`.
#![tactic(auto)]

mod beginnings;
mod fault;
mod laws;
mod rivals;
mod rules;
mod table;
mod token;
mod tokens;
mod word;

pub use beginnings::{begins_name, begins_verb};
pub use fault::{Fault, fault_at};
pub use laws::names_are_whole_or_begun_alone;
pub use rivals::{is_alone, is_object_alone, is_verb_alone};
pub use rules::{Rule, Takes, may_have_key, most_values, needs_value, own_rules, settings};
pub use table::{Command, Row, VERBS, Verb, rows_of, takes_object, takes_option};
pub use token::{begins, bytes_of, is_spelled, is_text};
pub use tokens::{LexFault, Piece, Sort, Token, TokenKind, lex, tokens_are_in_order};
pub use word::{Word, spelling, undone_by, verb_spelling};
