// The tests by which a queue can start a job, each by itself.
ghost use Rattle.std.specs.Prelude.{◌≡◌};
ghost use Rattle.qm_model.specs.Fitting.{is_started, is_of_kind, passes_on_to, is_same_stock, has_characteristics, has_size};
ghost use Rattle.qm_model.specs.JobStates.{is_pending};
ghost use Rattle.qm_model.specs.Kinds.{is_generic, is_print};
ghost use Rattle.qm_match.specs.Suiting.{suits};

use qm_kinds::{Entry, EntryState, JobKind, Name, Queue, QueueKind, QueueState};

// Whether a job waits for nothing but its start.
fn is_pending(state: &EntryState) -> bool
    ensures { result ≡ is_pending state.now }
{
    matches!(state, EntryState::Pending)
}

// Whether a queue is an execution queue for jobs of this one's kind.
fn is_of_kind(entry: &Entry, queue: &Queue) -> bool
    ensures { result ≡ is_of_kind entry.now queue.now }
{
    matches!(
        (entry.kind, queue.kind),
        (JobKind::Batch, QueueKind::Batch) | (JobKind::Print, QueueKind::Print)
    )
}

// Whether a queue in this state starts jobs.
fn is_started(state: QueueState) -> bool
    ensures { result ≡ is_started state }
{
    matches!(state, QueueState::Started)
}

fn is_generic(kind: QueueKind) -> bool
    ensures { result ≡ is_generic kind }
{
    matches!(kind, QueueKind::GenericBatch | QueueKind::GenericPrint)
}

/// Whether a queue is a generic one that is started and names the queue of this name.
pub fn passes_on_to(generic: &Queue, name: &Name) -> bool
    ensures { result ≡ passes_on_to name.now generic.now }
{
    is_generic(generic.kind)
        && is_started(generic.state)
        && generic.targets.as_slice().contains(name)
}

// Whether a queue has each characteristic that a job asks for.
fn has_characteristics(entry: &Entry, queue: &Queue) -> bool
    ensures { result ≡ has_characteristics entry.now queue.now }
{
    entry.characteristics.is_subset(queue.characteristics)
}

// Whether a job prints, so that its size counts.
fn is_print(kind: JobKind) -> bool
    ensures { result ≡ is_print kind }
{
    matches!(kind, JobKind::Print)
}

/// Whether both stocks are there and the same.
pub fn is_same_stock(wanted: &Option<Name>, mounted: &Option<Name>) -> bool
    ensures { result ≡ is_same_stock wanted.now mounted.now }
{
    match (wanted, mounted) {
        (Some(wanted), Some(mounted)) => wanted == mounted,
        _ => false,
    }
}

// Whether a print job's size lies within the queue's limits, both ends included.
fn has_size(entry: &Entry, queue: &Queue) -> bool
    ensures { result ≡ has_size entry.now queue.now }
{
    !is_print(entry.kind) || (queue.lower <= entry.size && entry.size <= queue.upper)
}

/// Whether a job waits for nothing but its start, and suits a queue by what the two hold alone: the kind of job, the
/// characteristics that it asks for, and its size. So much is known before another row is looked for. It takes no memory.
pub fn suits(entry: &Entry, queue: &Queue) -> bool
    ensures { result ≡ suits entry.now queue.now }
{
    is_pending(&entry.state)
        && is_of_kind(entry, queue)
        && has_characteristics(entry, queue)
        && has_size(entry, queue)
}
