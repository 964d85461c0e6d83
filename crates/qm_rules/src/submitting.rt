// What a job that is submitted may ask for, and its first state.
ghost use Rattle.std.specs.Prelude.{◌≡◌, false};
ghost use Rattle.std.specs.Option.{option_copied, option_map_or};
ghost use Rattle.qm_model.specs.Common.{is_other_kind, refused_where};
ghost use Rattle.qm_model.specs.Submitting.{has_bad_value, state_of};

use crate::kinds::is_other_kind;
use crate::refusals::refused_where;
use qm_kinds::{EntryState, Job, JobKind, Moment, Queue, Refusal};

// Whether there is no copy, or a batch job asks for what only print jobs have.
pub fn has_bad_value(job: &Job) -> bool
    ensures { result ≡ has_bad_value job.now }
{
    job.copies == 0
        || job.kind == JobKind::Batch && (job.form.is_some() || job.flag || job.copies != 1)
}

/// The state of a job that has no run: it waits while it is held, and until its moment.
pub fn state_of(hold: bool, after: Option<Moment>, now: Moment) -> EntryState
    ensures { result ≡ state_of hold after now }
{
    match after {
        _ if hold => EntryState::Holding,
        Some(at) if now < at => EntryState::Timed { at },
        _ => EntryState::Pending,
    }
}

// The queue takes jobs of the other kind.
pub fn refused_kind(kind: JobKind, queue: Option<&Queue>) -> Option<Refusal>
    ensures { result ≡ refused_where (option_map_or (is_other_kind kind) (option_copied queue.entry) false) Refusal.WrongKind }
{
    refused_where(is_other_kind(kind, queue?), Refusal::WrongKind)
}
