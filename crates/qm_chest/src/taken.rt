// A takeover that stands.
ghost use Rattle.std.specs.Prelude.{◌≡◌, ℕ, List};
ghost use Rattle.qm_kinds.specs.declared.request.Request.TheVariants.{Took};
ghost use Rattle.qm_chest.specs.Taking.{IsTook, event_of, taken_with, told_of};

use qm_acting::Manager;
use qm_history::{Event, Takeover};
use qm_kinds::{Boxed, Moment, Name, Reply, Request, Seq, Start};

/// The manager at work behind a takeover, what its record says, what was found of a record in doubt, and the jobs that started.
pub struct Taken<D> {
    pub(crate) manager: Manager<D>,
    pub(crate) moment: Moment,
    pub(crate) epoch: u64,
    pub(crate) gone: Seq<Name>,
    pub(crate) up: Seq<Name>,
    pub(crate) may: Seq<Name>,
    pub(crate) kept: Option<bool>,
    pub(crate) started: Seq<Start>,
}

impl<D> Taken<D> {
    /// The manager and its moment; the event of the turn, with this node; and what the call's answer tells of it.
    pub(crate) fn parts(self, node: u8) -> (Manager<D>, Moment, Event, Takeover)
        ensures { result ≡ (self.manager, self.moment, event_of node self, told_of self) }
    {
        let Taken {
            manager,
            moment,
            epoch,
            gone,
            up,
            may,
            kept,
            started,
        } = self;
        let event = Event::Took {
            node,
            moment,
            epoch,
            gone,
            up,
            may,
            kept,
        };
        let told = Takeover {
            epoch,
            kept,
            started,
        };
        (manager, moment, event, told)
    }
}

/// The takeover that this request recorded.
pub(crate) fn taken_by<D>(
    manager: Manager<D>,
    moment: Moment,
    request: Boxed<Request>,
    kept: Option<bool>,
    reply: Reply,
) -> Taken<D>
    requires { IsTook request }
    ensures manager { result.manager ≡ manager }
    ensures taken { (epoch : ℕ) (gone up may : List (List ℕ)) → request ≡ Took epoch gone up may
        → result ≡ taken_with manager moment epoch gone up may kept reply.started }
{
    let Request::Took {
        epoch,
        gone,
        up,
        may,
    } = request.into_inner()
    else {
        unreachable!()
    };
    Taken {
        manager,
        moment,
        epoch,
        gone,
        up,
        may,
        kept,
        started: reply.started,
    }
}
