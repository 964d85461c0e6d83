// Why the waiting jobs of one queue can't be moved to another.
ghost use Rattle.std.specs.Prelude.{◌≡◌};
ghost use Rattle.qm_kinds.specs.declared.system.System.{System};
ghost use Rattle.qm_model.specs.Merging.{merge_refusal};

use crate::kinds::take_same_jobs;
use crate::refusals::refused_where;
use qm_kinds::{Name, Refusal};
use qm_tables::QueueTable;

// Why the jobs of one queue can't be moved to another.
pub fn merge_refusal(queues: &QueueTable, to: &Name, from: &Name) -> Option<Refusal>
    ensures { (s : System) → s.queues ≡ queues.now.queues → result ≡ merge_refusal s to.now from.now }
{
    let Some(target) = queues.get(to) else {
        return Some(Refusal::NoSuchQueue { name: *to });
    };
    let Some(source) = queues.get(from) else {
        return Some(Refusal::NoSuchQueue { name: *from });
    };
    refused_where(
        !take_same_jobs(target.kind, source.kind),
        Refusal::WrongKind,
    )
}
