// Requests that were done, and those whose records are in doubt.
ghost use Rattle.std.specs.Prelude.{◌≡◌, ◌↔◌, ◌<◌, true, length, IfOk, IsTrue};
ghost use Rattle.qm_model.specs.Find.{is_among};
ghost use Rattle.qm_image.specs.Image.{system_of};

use crate::copying::{put, put_doubt};
use crate::end::Stop;
use crate::following::{Next, follow, judge};
use crate::nodes::names_nodes;
use crate::walker::Walker;
use qm_history::{Event, sound_worlds_are_consistent};
use qm_kinds::{Act, Moment, Name, Reply, Request, Seq, Start};
use std::alloc::AllocError;

// Whether two lists of started jobs are the same.
fn are_same(a: &[Start], b: &[Start]) -> bool
    ensures { (result ≡ true) ↔ (a.now ≡ b.now) }
{
    a == b
}

// Whether two requests did the same.
fn is_same_act(a: &Act, b: &Act) -> bool
    ensures { (result ≡ true) ↔ (a.now ≡ b.now) }
{
    a == b
}

// Whether two replies are the same.
fn is_same(a: &Reply, b: &Reply) -> bool
    ensures { (result ≡ true) ↔ (a.now ≡ b.now) }
{
    is_same_act(&a.act, &b.act) && are_same(a.started.as_slice(), b.started.as_slice())
}

impl Walker {
    ghost use Rattle.qm_world.specs.Nodes.{MayBeInDoubt};
    ghost use Rattle.qm_world.specs.Walking.{IsAt, StepsOrStops};

    /// A request was done.
    pub(crate) fn done(
        &mut self,
        node: u8,
        moment: Moment,
        request: &Request,
        reply: &Reply,
    ) -> Result<(), Stop>
        requires { IsAt self.old }
        ensures { StepsOrStops self.old
            (Event.Done node moment request.now reply.now) self.new result }
    {
        sound_worlds_are_consistent();
        if !self.has_manager() {
            return Err(Stop::Illegal);
        }
        let followed = follow(self.alloc, &mut self.image, moment, node, request)?;
        if !is_same(reply, &followed.reply) {
            drop(followed);
            return Err(Stop::Illegal);
        }
        put(self.alloc, &mut self.world.log, followed.record)?;
        Ok(())
    }

    // Whether the record of a takeover may be in doubt.
    fn may_takeover_be_in_doubt(
        &self,
        node: u8,
        epoch: u64,
        gone: &Seq<Name>,
        up: &Seq<Name>,
        may: &Seq<Name>,
    ) -> Result<bool, AllocError>
        requires at { IsAt self.now }
        requires there { node < length (system_of self.now.image).nodes }
        ensures { IfOk result (λ can.
            (can ≡ true) ↔ MayBeInDoubt self.now.world (system_of self.now.image) node
            (Request.Took epoch gone.now up.now may.now)) }
    {
        if self.has_manager() || self.has_doubt() || epoch != self.world.greatest {
            return Ok(false);
        }
        names_nodes(
            self.alloc,
            &self.world,
            node,
            self.image.nodes(),
            gone.as_slice(),
            up.as_slice(),
            may.as_slice(),
        )
    }

    // Whether a record may be in doubt, whatever it says.
    fn may_be_in_doubt(&self, node: u8, request: &Request) -> Result<bool, AllocError>
        requires at { IsAt self.now }
        requires there { node < length (system_of self.now.image).nodes }
        ensures { IfOk result (λ can.
            (can ≡ true) ↔ MayBeInDoubt self.now.world
            (system_of self.now.image) node request.now) }
    {
        match request {
            Request::Took {
                epoch,
                gone,
                up,
                may,
            } => self.may_takeover_be_in_doubt(node, *epoch, gone, up, may),
            _ => Ok(self.has_manager()),
        }
    }

    /// A disk failed while the record of a request was written.
    pub(crate) fn doubted(
        &mut self,
        node: u8,
        moment: Moment,
        request: &Request,
    ) -> Result<(), Stop>
        requires { IsAt self.old }
        ensures { StepsOrStops self.old (Event.Doubt node moment request.now) self.new result }
    {
        sound_worlds_are_consistent();
        if !self.has_node(node) || !self.may_be_in_doubt(node, request)? {
            return Err(Stop::Illegal);
        }
        let Next { record, prepared } = judge(self.alloc, &mut self.image, moment, node, request)?;
        drop(prepared);
        put_doubt(&mut self.world.doubt, Some(record));
        self.world.manager = None;
        Ok(())
    }
}
