// Which turns of a node are made one behind another.
ghost use Rattle.std.specs.Prelude.{◌≡◌, None, IfSome};
ghost use Rattle.qm_cluster.specs.Parts.{IsNextIn, NoneIsNextIn};

use qm_node::{Next, Seat};
use qm_symb::Symbiont;

/// Which turns of a node are made behind a first one.
#[derive(Clone, Copy)]
pub(crate) enum Part {
    /// The steps that come next.
    Steps,
    /// All that come next, where no line is left: the node's own.
    Own,
}

impl Part {
    /// The turn that comes next in a node, if it is one of these.
    pub(crate) fn next<'a, Y: Symbiont>(self, seat: &Seat<'a, Y>) -> Option<Next<'a>>
        ensures next { IfSome result (IsNextIn self seat.now) }
        ensures none { result ≡ None → NoneIsNextIn self seat.now }
    {
        match self {
            Part::Steps => seat.next_step(),
            Part::Own => seat.next(),
        }
    }
}
