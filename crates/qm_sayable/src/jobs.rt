// What of a job and of an entry a command can say.
ghost use Rattle.std.specs.Prelude.{◌≡◌, true};
ghost use Rattle.std.specs.Option.{option_map_or};
ghost use Rattle.qm_sayable.specs.Jobs.{are_print_settings, is_job, is_timed, are_entry_characteristics, sets_entry, is_entry_change};

use crate::values::{are_characteristics, is_form_given, is_short, is_short_given};
use qm_kinds::{EntryChange, Job, JobKind, Moment, NameOrNumber, Seq};

// Whether a job has only what a command of its kind can say.
fn are_print_settings(job: &Job) -> bool
    ensures { result ≡ are_print_settings job.now.kind job.now }
{
    match job.kind {
        JobKind::Batch => !job.form.is_some() && job.copies == 1 && !job.flag,
        JobKind::Print => is_form_given(&job.form),
    }
}

/// Whether a command can submit this job.
pub(crate) fn is_job(job: &Job) -> bool
    ensures { result ≡ is_job job.now }
{
    is_short(&job.queue)
        && job.file.extension.is_some()
        && are_characteristics(job.characteristics.as_slice())
        && are_print_settings(job)
}

// Whether a moment is set.
fn is_timed(after: Option<Option<Moment>>) -> bool
    ensures { result ≡ is_timed after }
{
    match after {
        Some(Some(_moment)) => true,
        Some(None) | None => false,
    }
}

// Whether a command can give an entry these characteristics, where they are given.
fn are_entry_characteristics_given(characteristics: &Option<Seq<NameOrNumber>>) -> bool
    ensures { result ≡ option_map_or are_entry_characteristics characteristics.now true }
{
    match characteristics {
        None => true,
        Some(given) => 0 < given.len() && are_characteristics(given.as_slice()),
    }
}

// Whether something is changed.
fn sets_entry(change: &EntryChange) -> bool
    ensures { result ≡ sets_entry change.now }
{
    change.release
        || change.hold
        || change.after.is_some()
        || change.priority.is_some()
        || change.name.is_some()
        || change.characteristics.is_some()
        || change.form.is_some()
        || change.queue.is_some()
        || change.restart.is_some()
        || change.retain.is_some()
}

/// Whether a command can change this of an entry.
pub(crate) fn is_entry_change(change: &EntryChange) -> bool
    ensures { result ≡ is_entry_change change.now }
{
    sets_entry(change)
        && !(change.release && (change.hold || is_timed(change.after)))
        && are_entry_characteristics_given(&change.characteristics)
        && is_form_given(&change.form)
        && is_short_given(&change.queue)
}
