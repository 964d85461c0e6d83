// How the lines of a script are served.
ghost use Rattle.std.specs.Prelude.{ℕ, List};
ghost use Rattle.qm_serving.specs.ClusterServing.{ServesAtOnce};
ghost use Rattle.qm_history.specs.Common.{ServingEnd, UserLine};
ghost use Rattle.qm_history.specs.declared.turn.Turn.{Turn};
ghost use Rattle.qm_serving.specs.Serving.{Outside, Serves};

use qm_disk::Disk;
use qm_symb::Symbiont;

/// A way to serve the lines of a script over a site that was opened. It is known in proofs alone.
pub(crate) trait Way<D: Disk, Y: Symbiont> {
    // What that leaves: of the device, the nodes' names, the lines, what is there before and behind, the turns and the end.
    ghost served: { D → List (List ℕ) → List UserLine → Outside D Y → Outside D Y → List Turn → ServingEnd → Type 0 };
}

/// One thread serves the lines of all nodes, in their order.
pub(crate) struct InOrder;

impl<D: Disk, Y: Symbiont> Way<D, Y> for InOrder {
    ghost served = { Serves D.meaning Y.meaning };
}

/// Each node's lines are served by a thread of its own, where one can be made.
pub(crate) struct AtOnce;

impl<D: Disk, Y: Symbiont> Way<D, Y> for AtOnce {
    ghost served = { ServesAtOnce D.meaning Y.meaning };
}
