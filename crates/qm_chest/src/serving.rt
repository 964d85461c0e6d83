// The call of a node: whether it is served, by whom, and what it came to.
ghost use Rattle.std.specs.Prelude.{◌≡◌, ◌<◌, ◌^◌, IsTrue, false, length};
ghost use Rattle.qm_kinds.specs.declared.input.Input.TheVariants as input;
ghost use Rattle.qm_kinds.specs.declared.refusal.Refusal.TheVariants as refused;
ghost use Rattle.qm_acting.specs.Files.{AreSound};
ghost use Rattle.qm_chest.specs.declared.work.Work.TheVariants as work;
ghost use Rattle.qm_chest.specs.At.{CanBeAskedFor, IsWorkOf};
ghost use Rattle.qm_chest.specs.Work.{is_due};
ghost use Rattle.qm_chest.specs.Whole.{Asks, AsksAlone, Leaves, ServesWhere, StandsEarly, refused_call};

use crate::asking::same;
use crate::members::Members;
use crate::place::Place;
use crate::work::Work;
use qm_acting::{Files, Manager};
use qm_disk::Disk;
use qm_history::{Answer, Event};
use qm_kinds::{Input, Moment, ParseKind, Refusal};
use qm_model::nodes_keep_their_names;
use qm_restore::site_files_are_accepted;

/// What a call came to: up to two events, none where memory was short and nothing has changed, and its answer.
pub struct Served<D> {
    pub(crate) work: Work<D>,
    pub(crate) first: Option<Event>,
    pub(crate) second: Option<Event>,
    pub(crate) answer: Answer,
}

// A call that is refused before a system is asked: it has the reading's moment.
fn refused<D>(work: Work<D>, node: u8, moment: Moment, input: Input, refusal: Refusal) -> Served<D>
    ensures { result ≡ refused_call work node moment input refusal }
{
    let told = same(&refusal);
    Served {
        work,
        first: Some(Event::Refused {
            node,
            moment,
            input,
            refusal,
        }),
        second: None,
        answer: Answer::Refused {
            took: None,
            refusal: told,
        },
    }
}

// A call whose line can't be read.
fn unread<D>(work: Work<D>, node: u8, moment: Moment, place: usize, kind: ParseKind) -> Served<D>
    ensures { result ≡ refused_call work node moment (input.Fault place kind)
        (refused.ParseFault place kind) }
{
    refused(
        work,
        node,
        moment,
        Input::Fault { place, kind },
        Refusal::ParseFault { place, kind },
    )
}

impl Members {
    /// A call of a node, whose clock told this before. A node that is down is told so, and a takeover comes first where one is due.
    /// `leaves` is whether it is the node's last call.
    pub(crate) fn served<D: Disk>(
        &mut self,
        work: Work<D>,
        node: u8,
        now: Moment,
        input: Input,
        leaves: bool,
    ) -> Served<D>
        requires work { IsWorkOf D.meaning self.old.names.items work }
        requires there { node < length self.old.names.items }
        requires can { CanBeAskedFor node input }
        requires epochs { self.old.greatest < 2 ^ 63 }
        requires stands { IsTrue D.meaning.tells
            → StandsEarly D.meaning (record { members = self.old; work = work }) }
        ensures leaves { Leaves D.meaning self.old work self.new result }
        ensures serves { ServesWhere D.meaning self.old work node now (Asks input leaves) self.new result }
    {
        site_files_are_accepted();
        if self.is_down(node, &input) {
            return refused(work, node, now, input, Refusal::NodeDown);
        }
        if work.is_due(&input) {
            return self.taken(work, node, now, input);
        }
        self.served_alone(work, node, now, input, leaves)
    }

    // A call before which no takeover comes.
    fn served_alone<D: Disk>(
        &mut self,
        work: Work<D>,
        node: u8,
        now: Moment,
        input: Input,
        leaves: bool,
    ) -> Served<D>
        requires work { IsWorkOf D.meaning self.old.names.items work }
        requires there { node < length self.old.names.items }
        requires can { CanBeAskedFor node input }
        requires due { is_due work input ≡ false }
        ensures leaves { Leaves D.meaning self.old work self.new result }
        ensures serves { ServesWhere D.meaning self.old work node now (AsksAlone node input leaves)
            self.new result }
    {
        match work {
            Work::Up { manager, node: at } => self.managed(manager, at, node, now, input, leaves),
            Work::Down { files, place } => {
                self.unmanaged(files, place, node, now, input, leaves)
            }
        }
    }

    // A call while a manager is up.
    fn managed<D: Disk>(
        &mut self,
        manager: Manager<D>,
        at: u8,
        node: u8,
        now: Moment,
        input: Input,
        leaves: bool,
    ) -> Served<D>
        requires work { IsWorkOf D.meaning self.old.names.items (work.Up manager at) }
        requires there { node < length self.old.names.items }
        requires can { CanBeAskedFor node input }
        requires due { is_due (work.Up manager at) input ≡ false }
        ensures leaves { Leaves D.meaning self.old (work.Up manager at) self.new result }
        ensures serves { ServesWhere D.meaning self.old (work.Up manager at) node now
            (AsksAlone node input leaves) self.new result }
    {
        site_files_are_accepted();
        nodes_keep_their_names();
        match input {
            Input::StartNode => self.started(manager, at, node, now),
            Input::StopNode => self.gone(manager, at, node, now, leaves),
            Input::Fault { place, kind } => {
                unread(Work::Up { manager, node: at }, node, now, place, kind)
            }
            input => self.own(manager, at, node, now, input, None).alone(),
        }
    }

    // A call that needs no manager, while none is up.
    fn unmanaged<D: Disk>(
        &mut self,
        files: Files<D>,
        place: Option<Place>,
        node: u8,
        now: Moment,
        input: Input,
        leaves: bool,
    ) -> Served<D>
        requires there { node < length self.old.names.items }
        requires sound { AreSound D.meaning files }
        requires due { is_due (work.Down files place) input ≡ false }
        ensures leaves { Leaves D.meaning self.old (work.Down files place) self.new result }
        ensures serves { ServesWhere D.meaning self.old (work.Down files place) node now
            (AsksAlone node input leaves) self.new result }
    {
        site_files_are_accepted();
        match input {
            Input::Fault { place: byte, kind } => {
                unread(Work::Down { files, place }, node, now, byte, kind)
            }
            Input::StopNode => self.gone_alone(files, place, node, now, leaves),
            _ => unreachable!(),
        }
    }
}
