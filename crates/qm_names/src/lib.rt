//! Which names of verbs, options and qualifiers the tokens of a command stand for, and which of those that are given exclude each
//! other. A token stands for a name that it spells whole, or begins where no other one leaves it in doubt (`specs/Names.antt` of
//! `qm_commands`); two that exclude each other and both count conflict at the later of them (`specs/Conflicts.antt`).
#![tactic(auto)]

mod conflict;
mod names;

pub use conflict::{counting_place, first_conflict, has_slash, or_conflict};
pub use names::{is_name, is_object, is_verb};
