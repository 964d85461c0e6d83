// What becomes of a job whose node is lost. Nothing is changed here: each function says what an entry becomes.
ghost use Rattle.std.specs.Prelude.{◌≡◌};
ghost use Rattle.qm_model.specs.Losing.{interrupted};
ghost use Rattle.qm_ending.specs.Losing.{IsLeftByLoss};

use crate::ending::{ended, fate_of, fated, requeued};
use qm_kinds::{Entry, Moment};
use qm_tables::QueueTable;

/// The status of a job whose node was lost.
const NODE_LOST_STATUS: u32 = 1020;

// What a job becomes whose run is lost: one that may restart goes back into its queue, and another one ends.
fn interrupted(queues: &QueueTable, now: Moment, entry: &Entry) -> Option<Entry>
    ensures { result ≡ interrupted queues.now.queues now entry.now }
{
    if entry.restart {
        Some(requeued(entry))
    } else {
        ended(queues, now, NODE_LOST_STATUS, entry)
    }
}

/// What an entry becomes that has a run on a lost node. Where it was decided before what becomes of it, that is so now.
pub fn after_loss(queues: &QueueTable, now: Moment, entry: &Entry) -> Option<Entry>
    ensures { IsLeftByLoss queues.now.queues now entry.now result }
{
    match fate_of(&entry.state) {
        None => interrupted(queues, now, entry),
        Some(fate) => fated(queues, now, fate, entry),
    }
}
