// Starting the jobs that can start.
ghost use Rattle.std.specs.Prelude.{◌≡◌, ◌+◌, ◌-◌, ◌<◌, ◌≤◌, ◌∷◌, [], length, vec_capacity};
ghost use Rattle.std.specs.Ordering.{nat_cmp};
ghost use Rattle.qm_model.specs.Common.{System, IsInOrder, AreStarts, settled};
ghost use Rattle.qm_parts.specs.Tables.{with_tables};
ghost use Rattle.qm_sched.specs.Choosing.{IsNextStart, execution_queues};
ghost use Rattle.qm_sched.specs.Settled.{IsSettled, StartsAtMost};

use crate::choosing::next_start;
use qm_kinds::Start;
use qm_parts::{Parts, see_entries};
use qm_ready::Steps;
use std::sync::ledger::Ledger;

// Starts what is to be started next, for which there is room.
fn start_next(parts: &mut Parts, start: &Start)
    requires next { (s : System) → IsNextStart (with_tables s parts.old) start.now }
    requires room { 0 < parts.old.spare_runs }
    ensures in_order { IsInOrder nat_cmp (λ e. e.number) parts.old.entries }
    ensures starts { (s : System)
        → AreStarts (with_tables s parts.old) (start.now ∷ []) (with_tables s parts.new) }
    ensures rest { parts.new ≡ record parts.old {
      entries = parts.new.entries;
      next_run = parts.new.next_run;
      spare_runs = parts.old.spare_runs - 1;
    } }
{
    let Some(queue) = parts.queue(&start.queue) else {
        unreachable!()
    };
    let Some(node) = queue.node else {
        unreachable!()
    };
    see_entries(parts);
    parts.start(start.entry, start.queue, node);
}

/// Starts the jobs that can start, one by one, and puts each start behind the others. There is room for all starts, among
/// the runs too, so it takes no memory.
///
/// The queues are gone through once by name. At each it stays as long as the queue can start a job: a start never lets a
/// queue start a job that couldn't. A queue that is started, whose node is up and that has a place costs one look at the row
/// of its jobs for each job that it starts, and one more if a place is left; of any other queue no job is looked at. So there
/// are no more looks than starts and execution queues together.
pub fn settle<L: Ledger>(parts: &mut Parts, out: &mut Vec<Start>, looks: &mut Steps<L>)
    requires empty { out.old.items ≡ [] }
    requires room { StartsAtMost parts.old (vec_capacity out.old) }
    requires runs { StartsAtMost parts.old parts.old.spare_runs }
    ensures settled { IsSettled parts.old out.new.items parts.new }
    ensures looks { looks.new
        ≤ looks.old + length out.new.items + execution_queues parts.old.queues }
    ensures rest { parts.new ≡ record parts.old {
      entries = parts.new.entries;
      next_run = parts.new.next_run;
      spare_runs = parts.new.spare_runs;
    } }
{
    let mut place = 0;
    while place < parts.queues().len() {
        match next_start(parts, place, looks) {
            None => place += 1,
            Some(start) => {
                start_next(parts, &start);
                out.push_reserved(start);
            }
        }
    }
}
