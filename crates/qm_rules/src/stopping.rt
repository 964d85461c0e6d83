// How queues are stopped and deleted. Nothing is changed here: each function says what becomes of a queue, or why nothing
// does.
ghost use Rattle.std.specs.Prelude.{◌≡◌};
ghost use Rattle.qm_model.specs.Queues.{refused_unless_stopped};
ghost use Rattle.qm_model.specs.States.{state_on_stop, state_when_idle};
ghost use Rattle.qm_rules.specs.Reasons.{IsWhyQueueStays};

use qm_kinds::{Holder, Name, Queue, QueueState, Refusal, StopMode};
use qm_tables::QueueTable;

/// The state of a queue after STOP/QUEUE, STOP/QUEUE/NEXT or STOP/QUEUE/RESET.
pub fn state_on_stop(how: StopMode, state: QueueState) -> QueueState
    ensures { result ≡ state_on_stop how state }
{
    match (how, state) {
        (_, QueueState::Stopped) | (StopMode::Reset, _) => QueueState::Stopped,
        (StopMode::Pause, QueueState::Started | QueueState::Paused) => QueueState::Paused,
        (StopMode::Pause, QueueState::Stopping) | (StopMode::Next, _) => QueueState::Stopping,
    }
}

/// The state of a queue after a request: one that is stopping is stopped once it has no run.
pub fn state_when_idle(has_run: bool, state: QueueState) -> QueueState
    ensures { result ≡ state_when_idle has_run state }
{
    if state == QueueState::Stopping && !has_run {
        QueueState::Stopped
    } else {
        state
    }
}

/// The queue isn't stopped.
pub(crate) fn refused_unless_stopped(queue: &Queue) -> Option<Refusal>
    ensures { result ≡ refused_unless_stopped queue.now }
{
    match queue.state {
        QueueState::Stopped => None,
        state => Some(Refusal::QueueNotStopped { state }),
    }
}

/// Why a queue can't be deleted, where it is known which queue makes it stay, and which is the least entry that runs for it.
pub fn delete_queue_refusal(
    queues: &QueueTable,
    name: &Name,
    by_queue: Option<Refusal>,
    runs: Option<u32>,
) -> Option<Refusal>
    ensures { IsWhyQueueStays queues.now name.now by_queue runs result }
{
    let Some(queue) = queues.get(name) else {
        return Some(Refusal::NoSuchQueue { name: *name });
    };
    if let Some(refusal) = refused_unless_stopped(queue) {
        return Some(refusal);
    }
    if by_queue.is_some() {
        return by_queue;
    }
    let entry = runs?;
    Some(Refusal::Referenced {
        by: Holder::Entry(entry),
    })
}
