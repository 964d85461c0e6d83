// What is seen of the tables and of a queue.
ghost use Rattle.std.specs.Prelude.{◌≡◌, not};
ghost use Rattle.std.specs.Ordering.{nat_cmp};
ghost use Rattle.qm_model.specs.Common.{System, IsInOrder, is_open, is_generic};
ghost use Rattle.qm_parts.specs.Tables.{with_tables};

use crate::fitting::is_open;
use crate::parts::Parts;
use crate::running::see_order;
use qm_kinds::{Queue, QueueKind};

/// That the entries stand in order of their numbers. It costs nothing.
pub fn see_entries(parts: &Parts)
    ensures { IsInOrder nat_cmp (λ e. e.number) parts.now.entries }
{
    see_order(&parts.tables.entries, &parts.tables.runs);
}

/// Whether a queue of this kind runs jobs itself.
pub fn is_execution_queue(kind: QueueKind) -> bool
    ensures { result ≡ not (is_generic kind) }
{
    matches!(kind, QueueKind::Batch | QueueKind::Print)
}

/// Whether a queue is started, and its node is up.
pub fn is_open_queue(parts: &Parts, queue: &Queue) -> bool
    ensures { (s : System) → result ≡ is_open (with_tables s parts.now) queue.now }
{
    is_open(&parts.tables, queue)
}
