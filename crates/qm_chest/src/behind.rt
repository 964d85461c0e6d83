// What a call does behind its takeover.
ghost use Rattle.std.specs.Prelude.{◌≡◌, ◌<◌, ℕ, List, true, None, Some, length, slice_get, slice_set};
ghost use Rattle.qm_kinds.specs.declared.reply.Act.TheVariants as act;
ghost use Rattle.qm_history.specs.Answers.{plain};
ghost use Rattle.qm_history.specs.declared.call.Answer.TheVariants as answer;
ghost use Rattle.qm_history.specs.declared.event.Event.TheVariants as event;
ghost use Rattle.qm_acting.specs.Standing.{disk_of};
ghost use Rattle.qm_chest.specs.declared.work.Work.TheVariants as work;
ghost use Rattle.qm_chest.specs.At.{CanBeAskedFor, IsWorkOf};
ghost use Rattle.qm_chest.specs.Members.{OnlyLiveChanges};
ghost use Rattle.qm_chest.specs.Taking.{FollowsTaken, LeavesFrom, NeedsManager};

use crate::answering::refused;
use crate::asking::Came;
use crate::members::Members;
use crate::serving::Served;
use crate::taken::Taken;
use crate::work::Work;
use core::mem::drop;
use qm_acting::Manager;
use qm_disk::Disk;
use qm_history::{Answer, Event, Takeover};
use qm_kinds::{Act, Input, Moment};
use qm_model::nodes_keep_their_names;
use qm_restore::site_files_are_accepted;

impl Members {
    /// The call behind a takeover that stands, of its node.
    pub(crate) fn behind<D: Disk>(
        &mut self,
        taken: Taken<D>,
        node: u8,
        now: Moment,
        input: Input,
    ) -> Served<D>
        requires work { IsWorkOf D.meaning self.old.names.items (work.Up taken.manager node) }
        requires can { CanBeAskedFor node input }
        requires needs { NeedsManager input }
        ensures leaves { LeavesFrom D.meaning self.old (disk_of taken.manager) self.old.greatest
            self.new result }
        ensures follows { FollowsTaken D.meaning self.old taken node now input self.new result }
    {
        site_files_are_accepted();
        nodes_keep_their_names();
        let (manager, moment, event, told) = taken.parts(node);
        match input {
            Input::TakeManager { .. } => {
                drop(input);
                self.managing(manager, node, moment, event, told)
            }
            Input::StartNode => match self.start_refusal(&manager, node) {
                Some(refusal) => {
                    let acting = manager.acting(now);
                    let start = Input::StartNode;
                    refused(node, acting, start, refusal, Some(told))
                        .up(manager, node)
                        .behind(event)
                }
                None => self.up_behind(manager, node, moment, told).behind(event),
            },
            other => self
                .own(manager, node, node, now, other, Some(told))
                .behind(event),
        }
    }

    // The takeover is all that was asked for.
    fn managing<D>(
        &self,
        manager: Manager<D>,
        node: u8,
        moment: Moment,
        event: Event,
        told: Takeover,
    ) -> Served<D>
        requires { node < length self.now.names.items }
        ensures { (name : List ℕ) → slice_get self.now.names.items node ≡ Some name
            → result ≡ record {
              work = work.Up manager node;
              first = Some event;
              second = None;
              answer = answer.Done (Some told) moment (plain (act.Managing name told.epoch));
            } }
    {
        let act = Act::Managing {
            node: self.name(node),
            epoch: told.epoch,
        };
        Served {
            work: Work::Up { manager, node },
            first: Some(event),
            second: None,
            answer: Answer::Done {
                took: Some(told),
                moment,
                reply: self.plain(act),
            },
        }
    }

    // A node comes up, which its takeover has told already.
    fn up_behind<D>(
        &mut self,
        manager: Manager<D>,
        node: u8,
        moment: Moment,
        told: Takeover,
    ) -> Came<D>
        requires { node < length self.old.names.items }
        ensures came { (name : List ℕ) → slice_get self.old.names.items node ≡ Some name
            → result ≡ record {
              work = work.Up manager node;
              event = Some (event.Started node);
              answer = answer.Done (Some told) moment (plain (act.NodeStarted name));
            } }
        ensures live { self.new.live.items ≡ slice_set self.old.live.items node true }
        ensures others { OnlyLiveChanges self.old self.new }
    {
        self.live[usize::from(node)] = true;
        let act = Act::NodeStarted {
            node: self.name(node),
        };
        Came {
            work: Work::Up { manager, node },
            event: Some(Event::Started { node }),
            answer: Answer::Done {
                took: Some(told),
                moment,
                reply: self.plain(act),
            },
        }
    }
}
