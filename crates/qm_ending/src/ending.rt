// What becomes of a job when its run is reported. Nothing is changed here: each function says what an entry becomes.
ghost use Rattle.std.specs.Prelude.{◌≡◌};
ghost use Rattle.qm_model.specs.Common.{runs_in, fate_of, is_retained, retained_until, after_report, report_act};
ghost use Rattle.qm_model.specs.Ending.{queue_retain, ended, requeued, fated, end_act, fate_act};
ghost use Rattle.qm_rules.specs.Ending.{report_of};

use qm_kinds::{
    ABORTED_STATUS, Act, Entry, EntryState, Fate, JobRetain, Mark, Moment, Name, QueueRetain,
    success,
};
use qm_rules::Reported;
use qm_tables::QueueTable;

// Whether a job is kept: by its own setting, or by that of the queue where it ran.
fn is_retained(retain: JobRetain, queue: QueueRetain, success: bool, now: Moment) -> bool
    ensures { result ≡ is_retained retain queue success now }
{
    match (retain, queue) {
        (JobRetain::Always, _) => true,
        (JobRetain::Failed, _) => !success,
        (JobRetain::Until(at), _) => now < at,
        (JobRetain::Default, QueueRetain::All) => true,
        (JobRetain::Default, QueueRetain::Failed) => !success,
        (JobRetain::Default, QueueRetain::Nothing) => false,
    }
}

// The moment until which a job is kept, if it says one.
fn retained_until(retain: JobRetain) -> Option<Moment>
    ensures { result ≡ retained_until retain }
{
    match retain {
        JobRetain::Until(at) => Some(at),
        JobRetain::Default | JobRetain::Always | JobRetain::Failed => None,
    }
}

/// The queue where an entry has its run, if it has one.
pub fn runs_in(state: &EntryState) -> Option<Name>
    ensures { result ≡ runs_in state.now }
{
    match *state {
        EntryState::Running { queue, .. } | EntryState::Aborting { queue, .. } => Some(queue),
        _ => None,
    }
}

/// What becomes of an entry when its run ends, where that was decided.
pub fn fate_of(state: &EntryState) -> Option<Fate>
    ensures { result ≡ fate_of state.now }
{
    match *state {
        EntryState::Aborting { fate, .. } => Some(fate),
        _ => None,
    }
}

// The retention that the queue has in which an entry runs.
fn queue_retain(queues: &QueueTable, entry: &Entry) -> QueueRetain
    ensures { result ≡ queue_retain queues.now.queues entry.now }
{
    let Some(name) = runs_in(&entry.state) else {
        return QueueRetain::Nothing;
    };
    match queues.get(&name) {
        Some(queue) => queue.retain,
        None => QueueRetain::Nothing,
    }
}

/// What a job that ended with a status becomes: it is kept, or there is no such entry any more.
pub(crate) fn ended(queues: &QueueTable, now: Moment, status: u32, entry: &Entry) -> Option<Entry>
    ensures { result ≡ ended queues.now.queues now status entry.now }
{
    let retain = queue_retain(queues, entry);
    if !is_retained(entry.retain, retain, success(status), now) {
        return None;
    }
    let until = retained_until(entry.retain);
    Some(Entry {
        state: EntryState::Retained { status, until },
        ..*entry
    })
}

/// A job that goes back into its home, with the last mark that was recorded.
pub(crate) fn requeued(entry: &Entry) -> Entry
    ensures { result ≡ requeued entry.now }
{
    Entry {
        state: EntryState::Pending,
        again: true,
        ..*entry
    }
}

/// What an aborting job becomes, as was decided.
pub(crate) fn fated(queues: &QueueTable, now: Moment, fate: Fate, entry: &Entry) -> Option<Entry>
    ensures { result ≡ fated queues.now.queues now fate entry.now }
{
    match fate {
        Fate::Requeue => Some(requeued(entry)),
        Fate::Finish => ended(queues, now, ABORTED_STATUS, entry),
        Fate::Remove => None,
    }
}

/// What is replied to the end of a run, where this is left of its entry.
pub(crate) fn end_act(run: u64, status: u32, left: &Option<Entry>) -> Act
    ensures { result ≡ end_act run status left.now }
{
    match left {
        None => Act::RunCompleted { run, status },
        Some(_) => Act::RunRetained { run, status },
    }
}

/// What is replied to the end of a run that was cut short.
pub(crate) fn fate_act(run: u64, fate: Fate, left: &Option<Entry>) -> Act
    ensures { result ≡ fate_act run fate left.now }
{
    match fate {
        Fate::Requeue => Act::RunRequeued { run },
        Fate::Finish => end_act(run, ABORTED_STATUS, left),
        Fate::Remove => Act::RunRemoved { run },
    }
}

/// What the entry of a run becomes after a report. A run that is aborting ends at its first report, whatever that says.
pub fn after_report(
    queues: &QueueTable,
    now: Moment,
    report: &Reported,
    entry: &Entry,
) -> Option<Entry>
    ensures { result ≡ after_report queues.now.queues now (report_of report.now) (fate_of entry.now.state) entry.now }
{
    if let Some(fate) = fate_of(&entry.state) {
        return fated(queues, now, fate, entry);
    }
    match *report {
        Reported::Mark(mark) => Some(Entry { mark, ..*entry }),
        Reported::End(status) => ended(queues, now, status, entry),
    }
}

/// What is replied to a report of a run, where it was decided before what becomes of its entry or not, and this is left of it.
pub fn report_act(run: u64, report: &Reported, fate: Option<Fate>, left: &Option<Entry>) -> Act
    ensures { result ≡ report_act run (report_of report.now) fate left.now }
{
    if let Some(fate) = fate {
        return fate_act(run, fate, left);
    }
    match *report {
        Reported::Mark(value) => Act::Marked { run, value },
        Reported::End(status) => end_act(run, status, left),
    }
}
