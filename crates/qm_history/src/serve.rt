// The queue manager that nodes ask.
ghost use Rattle.std.specs.Prelude.{◌<◌, length};
ghost use Rattle.qm_history.specs.Askable.{IsAskable};
ghost use Rattle.qm_history.specs.Calls.{input_of};
ghost use Rattle.qm_history.specs.Serving.{Meaning, Serves};

use crate::{Answer, Call};
use qm_kinds::Moment;

/// A queue manager that nodes ask, one call at a time. It keeps the turns that their calls leave.
///
/// OpenVMS System Manager's Manual, Managing the Queue Manager and Queue Database, on one queue manager for a cluster.
pub trait Serve {
    /// What the call speaks of: the turns that it keeps, the nodes, whether its disks tell what they hold, and the world for which
    /// it stands.
    ghost meaning: { Meaning Self };

    /// Serves a call of the node of this place, whose clock told this moment before. The call leaves one turn, or none where no
    /// more are kept or memory is short. Where the disks tell what they hold, no file is told as damaged.
    fn serve(&mut self, node: u8, now: Moment, call: Call) -> Answer
        requires serves { meaning.serves self.old }
        requires there { node < length (meaning.nodes self.old) }
        requires askable { IsAskable (input_of call) }
        ensures { Serves meaning node now call self.old self.new result };
}
