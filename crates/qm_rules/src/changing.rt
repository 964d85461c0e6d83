// Why a change of an entry is refused, and what the entry becomes.
ghost use Rattle.std.specs.Prelude.{◌≡◌, ◌&&◌, ◌||◌, not, unwrap_or, if◌then◌else◌, None, option_and_then};
ghost use Rattle.qm_model.specs.Common.{System, is_pending, is_waiting};
ghost use Rattle.qm_model.specs.Entries.{refused_queue, is_entry_of_other_kind, with_fields, changed_entry};
ghost use Rattle.qm_rules.specs.Settings.{HasForms, HasQueues};
ghost use Rattle.qm_rules.specs.Reasons.{is_home_of_other_kind, IsWhyEntryStays};

use crate::kinds::is_other_kind;
use crate::refusals::{first_refusal, refused_where};
use crate::settings::{
    characteristics_of, form_named, refused_absent, refused_characteristics, refused_form,
};
use crate::submitting::state_of;
use qm_kinds::{Entry, EntryChange, EntryState, JobKind, Moment, Name, Refusal};
use qm_tables::{FormTable, QueueTable};

// Whether a job in this state waits: for its start, for its release or for its moment.
fn is_waiting(state: &EntryState) -> bool
    ensures { result ≡ is_waiting state.now }
{
    matches!(
        state,
        EntryState::Pending | EntryState::Holding | EntryState::Timed { .. }
    )
}

// Whether a job is to be released that waits for nothing but its start.
fn is_release_of_pending(release: bool, state: &EntryState) -> bool
    ensures { result ≡ (release && is_pending state.now) }
{
    release && matches!(state, EntryState::Pending)
}

// There is no queue of the name that is given.
fn refused_queue(queues: &QueueTable, home: Option<Name>) -> Option<Refusal>
    ensures { (s : System) → HasQueues s queues.now → result ≡ option_and_then (refused_queue s) home }
{
    let name = home?;
    refused_absent(queues.get(&name), &name)
}

// Whether the queue of the name that is given takes jobs of the other kind.
fn is_queue_of_other_kind(queues: &QueueTable, kind: JobKind, home: Option<Name>) -> bool
    ensures { (s : System) → HasQueues s queues.now → result ≡ is_home_of_other_kind kind home s }
{
    let Some(name) = home else {
        return false;
    };
    match queues.get(&name) {
        None => false,
        Some(queue) => is_other_kind(kind, queue),
    }
}

// Whether the new home takes jobs of the other kind, or a batch job is given a form.
fn is_entry_of_other_kind(queues: &QueueTable, entry: &Entry, change: &EntryChange) -> bool
    ensures { (s : System) → HasQueues s queues.now → result ≡ is_entry_of_other_kind s entry.now change.now }
{
    is_queue_of_other_kind(queues, entry.kind, change.queue)
        || entry.kind == JobKind::Batch && change.form.is_some()
}

// Why this entry can't be changed so.
pub fn entry_change_refusal(
    forms: &FormTable,
    queues: &QueueTable,
    change: &EntryChange,
    entry: &Entry,
) -> Option<Refusal>
    ensures { IsWhyEntryStays forms.now queues.now change.now entry.now result }
{
    let state = entry.state;
    let refusals = [
        refused_where(!is_waiting(&state), Refusal::EntryBusy { state }),
        refused_where(
            is_release_of_pending(change.release, &state),
            Refusal::NotHeld,
        ),
        refused_queue(queues, change.queue),
        refused_where(
            is_entry_of_other_kind(queues, entry, change),
            Refusal::WrongKind,
        ),
        refused_form(forms, change.form),
        refused_characteristics(forms, &change.characteristics),
    ];
    first_refusal(&refusals)
}

// The moment for which the job waits then: a release takes it away.
fn moment_after(change: &EntryChange, after: Option<Moment>) -> Option<Moment>
    ensures { result ≡ (if change.now.release then None else unwrap_or change.now.after after) }
{
    if change.release {
        return None;
    }
    change.after.unwrap_or(after)
}

// Whether the job is held then: a release takes the hold away.
fn is_held_after(change: &EntryChange, held: bool) -> bool
    ensures { result ≡ (not change.now.release && (held || change.now.hold)) }
{
    !change.release && (held || change.hold)
}

// The entry with what is given, in the state that it had.
fn with_fields(forms: &FormTable, change: &EntryChange, entry: &Entry) -> Entry
    ensures { (s : System) → HasForms s forms.now → result ≡ with_fields s change.now entry.now }
{
    Entry {
        home: change.queue.unwrap_or(entry.home),
        name: change.name.unwrap_or(entry.name),
        priority: change.priority.unwrap_or(entry.priority),
        after: moment_after(change, entry.after),
        held: is_held_after(change, entry.held),
        retain: change.retain.unwrap_or(entry.retain),
        restart: change.restart.unwrap_or(entry.restart),
        characteristics: characteristics_of(forms, &change.characteristics).unwrap_or(
            entry.characteristics,
        ),
        form: form_named(forms, change.form).or(entry.form),
        ..*entry
    }
}

// The entry as it is after the change, at the acting moment.
pub fn changed_entry(forms: &FormTable, now: Moment, change: &EntryChange, entry: &Entry) -> Entry
    ensures { (s : System) → HasForms s forms.now → result ≡ changed_entry s now change.now entry.now }
{
    let fields = with_fields(forms, change, entry);
    Entry {
        state: state_of(fields.held, fields.after, now),
        ..fields
    }
}
