//! The model of a queue system: what a system is, what makes it consistent, what each request does to it and what is
//! told of it, as definitions that the crates above cite. It has no program: its functions are laws, and what these say is
//! spelled out in `Laws` of `specs/`, or beside the words that they speak of.
#![tactic(auto)]

ghost use Rattle.std.specs.Prelude.{◌≤◌, ℕ, List, length};
ghost use Rattle.qm_kinds.specs.declared.name.TheConstants.{NODE_NAME_BYTES};
ghost use Rattle.qm_model.specs.Consistent.{IsConsistent};
ghost use Rattle.qm_model.specs.First.{first_system};

mod due;
mod limits;
mod listing;
mod moving;
mod order;
mod reporting;
mod settle;
mod sound;
mod standing;
mod tables;
mod works;

pub use due::what_is_not_due_stays;
pub use limits::a_site_has_limits;
pub use listing::{listings_end_by_name, one_entry_is_listed};
pub use moving::{nodes_keep_their_names, requests_move_on};
pub use order::{fits_without_a_reason, order_is_strict_and_total};
pub use reporting::{print_jobs_report_each_block, runs_end_once, runs_go_on_at_marks};
pub use settle::{
    first_jobs_are_started, requests_settle, settling_changes_entries_alone, settling_ends,
    settling_is_done_once,
};
pub use sound::{
    built_changes_keep_consistent, built_requests_keep_consistent, due_keeps_consistent,
    requests_keep_consistent, settling_keeps_consistent,
};
pub use standing::entries_stand_in_one_queue;
pub use tables::{job_retention, queue_states};
pub use works::duties_have_proper_works;

/// The system of a new site is consistent, whatever its node is called.
pub fn first_system_is_consistent()
    ensures { (node : List ℕ) → length node ≤ NODE_NAME_BYTES → IsConsistent (first_system node) }
{}
