// A node that comes up while a manager is up.
ghost use Rattle.std.specs.Prelude.{◌≡◌, ◌<◌, None, length};
ghost use Rattle.qm_kinds.specs.declared.input.Input.TheVariants as input;
ghost use Rattle.qm_history.specs.Calls.{input_of};
ghost use Rattle.qm_acting.specs.Standing.{standing_of};
ghost use Rattle.qm_chest.specs.declared.work.Work.TheVariants as work;
ghost use Rattle.qm_chest.specs.At.{IsWorkOf};
ghost use Rattle.qm_chest.specs.Members.{is_live_in};
ghost use Rattle.qm_chest.specs.Steps.{start_refusal_of};
ghost use Rattle.qm_chest.specs.Whole.{Leaves, ServesWhere};

use crate::answering::{refused, short};
use crate::asking::ask;
use crate::members::Members;
use crate::serving::Served;
use qm_acting::{Manager, own_requests_are_accepted};
use qm_disk::Disk;
use qm_history::Event;
use qm_kinds::{Boxed, Input, Moment, Refusal, Request};
use qm_model::nodes_keep_their_names;
use qm_restore::site_files_are_accepted;

impl Members {
    /// Why a node can't be started, if it can't.
    pub(crate) fn start_refusal<D: Disk>(&self, manager: &Manager<D>, node: u8) -> Option<Refusal>
        requires { node < length self.now.names.items }
        ensures { result ≡ start_refusal_of (standing_of manager.now).system (is_live_in self.now node) }
    {
        if manager.are_numbers_spent() {
            return Some(Refusal::NumbersSpent);
        }
        if self.is_live(node) {
            return Some(Refusal::BadValue);
        }
        None
    }

    /// Starts a node.
    pub(crate) fn started<D: Disk>(
        &mut self,
        manager: Manager<D>,
        at: u8,
        node: u8,
        now: Moment,
    ) -> Served<D>
        requires work { IsWorkOf D.meaning self.old.names.items (work.Up manager at) }
        requires there { node < length self.old.names.items }
        ensures leaves { Leaves D.meaning self.old (work.Up manager at) self.new result }
        ensures serves { ServesWhere D.meaning self.old (work.Up manager at) node now
            (λ w asked. input_of asked ≡ input.StartNode) self.new result }
    {
        site_files_are_accepted();
        nodes_keep_their_names();
        let moment = manager.acting(now);
        match self.start_refusal(&manager, node) {
            Some(refusal) => {
                refused(node, moment, Input::StartNode, refusal, None)
                    .up(manager, at)
                    .alone()
            }
            None => self.comes_up(manager, at, node, now),
        }
    }

    // A node comes up: it is live once the record that tells so is there or in doubt.
    fn comes_up<D: Disk>(&mut self, manager: Manager<D>, at: u8, node: u8, now: Moment) -> Served<D>
        requires work { IsWorkOf D.meaning self.old.names.items (work.Up manager at) }
        requires there { node < length self.old.names.items }
        requires can { start_refusal_of (standing_of manager).system (is_live_in self.old node) ≡ None }
        ensures leaves { Leaves D.meaning self.old (work.Up manager at) self.new result }
        ensures serves { ServesWhere D.meaning self.old (work.Up manager at) node now
            (λ w asked. input_of asked ≡ input.StartNode) self.new result }
    {
        site_files_are_accepted();
        own_requests_are_accepted();
        nodes_keep_their_names();
        let Ok(request) = Boxed::new(self.alloc, Request::NodeUp) else {
            return short(None).up(manager, at).alone();
        };
        let came = ask(manager, at, true, node, now, request, None);
        if !came.is_recorded() {
            return came.alone();
        }
        self.live[usize::from(node)] = true;
        came.behind(Event::Started { node })
    }
}
