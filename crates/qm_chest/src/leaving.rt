// A node that stops, or leaves.
ghost use Rattle.std.specs.Prelude.{◌≡◌, ◌<◌, ℕ, IfOk, List, [], ◌∷◌, Some, ◌≢◌, false, length, slice_get, slice_set};
ghost use Rattle.qm_kinds.specs.declared.input.Input.TheVariants as input;
ghost use Rattle.qm_kinds.specs.declared.request.Request.TheVariants as request;
ghost use Rattle.qm_history.specs.Answers.{plain};
ghost use Rattle.qm_chest.specs.declared.work.Work.TheVariants as work;
ghost use Rattle.qm_chest.specs.At.{IsWorkOf};
ghost use Rattle.qm_chest.specs.Members.{OnlyLiveChanges};
ghost use Rattle.qm_chest.specs.Whole.{AsksAlone, Leaves, ServesWhere, goes_alone, goes_by};

use crate::answering::short;
use crate::asking::ask;
use crate::members::Members;
use crate::place::Place;
use crate::serving::Served;
use crate::work::Work;
use qm_acting::{Files, Manager, own_requests_are_accepted};
use qm_disk::Disk;
use qm_history::{Answer, Event};
use qm_kinds::{Act, Boxed, Moment, Name, Reply, Request, Seq};
use qm_model::nodes_keep_their_names;
use qm_restore::{site_files_are_accepted, site_files_are_consistent};
use std::alloc::{AllocError, Global};

impl Members {
    /// A node goes while a manager is up. Where that is on the node itself, it ends with it, and the next takeover tells that the
    /// node is gone; else it records the loss.
    pub(crate) fn gone<D: Disk>(
        &mut self,
        manager: Manager<D>,
        at: u8,
        node: u8,
        now: Moment,
        leaves: bool,
    ) -> Served<D>
        requires work { IsWorkOf D.meaning self.old.names.items (work.Up manager at) }
        requires there { node < length self.old.names.items }
        ensures leaves { Leaves D.meaning self.old (work.Up manager at) self.new result }
        ensures serves { ServesWhere D.meaning self.old (work.Up manager at) node now
            (AsksAlone node input.StopNode leaves) self.new result }
    {
        site_files_are_accepted();
        if at == node {
            let files = Files::Closed(manager.close());
            return self.gone_alone(files, None, node, now, leaves);
        }
        self.lost(manager, at, node, now, leaves)
    }

    // The manager, which is elsewhere, records that a node goes. Without room for the record a node leaves, and doesn't stop.
    fn lost<D: Disk>(
        &mut self,
        manager: Manager<D>,
        at: u8,
        node: u8,
        now: Moment,
        leaves: bool,
    ) -> Served<D>
        requires work { IsWorkOf D.meaning self.old.names.items (work.Up manager at) }
        requires there { node < length self.old.names.items }
        requires elsewhere { at ≢ node }
        ensures leaves { Leaves D.meaning self.old (work.Up manager at) self.new result }
        ensures serves { ServesWhere D.meaning self.old (work.Up manager at) node now
            (AsksAlone node input.StopNode leaves) self.new result }
    {
        site_files_are_accepted();
        site_files_are_consistent();
        own_requests_are_accepted();
        nodes_keep_their_names();
        let Ok(request) = self.loss(node) else {
            return short(None).up(manager, at).alone();
        };
        let came = ask(manager, at, false, node, now, request, None);
        if !came.lets_go(leaves) {
            return came.alone();
        }
        self.live[usize::from(node)] = false;
        came.behind(gone(node, leaves))
    }

    // The request that tells of the loss of a node.
    fn loss(&self, node: u8) -> Result<Boxed<Request>, AllocError>
        requires { node < length self.now.names.items }
        ensures { (name : List ℕ) → slice_get self.now.names.items node ≡ Some name
            → IfOk result (λ asked. asked ≡ request.NodeLost (name ∷ [])) }
    {
        let mut list = Vec::new(self.alloc);
        list.push(self.name(node))?;
        Boxed::new(
            self.alloc,
            Request::NodeLost {
                nodes: Seq::of(list),
            },
        )
    }

    /// A node goes, and nothing is recorded: no manager is up any more.
    pub(crate) fn gone_alone<D>(
        &mut self,
        files: Files<D>,
        place: Option<Place>,
        node: u8,
        now: Moment,
        leaves: bool,
    ) -> Served<D>
        requires { node < length self.old.names.items }
        ensures served { (name : List ℕ) → slice_get self.old.names.items node ≡ Some name
            → result ≡ goes_alone (work.Down files place) node now leaves name }
        ensures live { self.new.live.items ≡ slice_set self.old.live.items node false }
        ensures others { OnlyLiveChanges self.old self.new }
    {
        self.live[usize::from(node)] = false;
        let act = Act::NodeStopped {
            node: self.name(node),
        };
        Served {
            work: Work::Down { files, place },
            first: Some(gone(node, leaves)),
            second: None,
            answer: Answer::Done {
                took: None,
                moment: now,
                reply: self.plain(act),
            },
        }
    }

    // A reply that starts no job.
    pub(crate) fn plain(&self, act: Act) -> Reply
        ensures { result ≡ plain act }
    {
        Reply {
            act,
            started: Seq::new(self.alloc),
        }
    }
}

// The event of a node that goes.
fn gone(node: u8, leaves: bool) -> Event
    ensures { result ≡ goes_by node leaves }
{
    if leaves {
        Event::Left { node }
    } else {
        Event::Stopped { node }
    }
}
