// Takeovers: what they find of the record in doubt, and what they record.
ghost use Rattle.std.specs.Prelude.{◌≡◌, ◌↔◌, ◌⊎◌, ◌+◌, true, length, IfOk, OnOk, Some, is_some};
ghost use Rattle.qm_model.specs.Consistent.{IsConsistent};
ghost use Rattle.qm_image.specs.Image.{system_of};
ghost use Rattle.qm_world.specs.Following.{IsTaken};

use crate::copying::{put, put_doubt, set};
use crate::end::Stop;
use crate::following::{Followed, follow, replay};
use crate::nodes::names_nodes;
use crate::walker::Walker;
use qm_history::{Event, Role, World, sound_worlds_are_consistent};
use qm_image::Image;
use qm_kinds::{Moment, Name, Request, Seq};
use qm_model::{nodes_keep_their_names, requests_keep_consistent};
use std::alloc::{AllocError, Global};

// The request that a takeover records.
fn request_of(
    alloc: Global,
    epoch: u64,
    gone: &[Name],
    up: &[Name],
    may: &[Name],
) -> Result<Request, AllocError>
    ensures { IfOk result (λ request. request ≡ Request.Took epoch gone.now up.now may.now) }
{
    Ok(Request::Took {
        epoch,
        gone: Seq::of(Vec::from_slice(alloc, gone)?),
        up: Seq::of(Vec::from_slice(alloc, up)?),
        may: Seq::of(Vec::from_slice(alloc, may)?),
    })
}

// Records a takeover, behind what was read.
fn take_over(
    alloc: Global,
    image: &mut Image,
    world: &World,
    node: u8,
    moment: Moment,
    epoch: u64,
    gone: &[Name],
    up: &[Name],
    may: &[Name],
) -> Result<Followed, Stop>
    requires sound { IsConsistent (system_of image.old) }
    requires live { length world.now.live ≡ length (system_of image.old).nodes }
    ensures { IsTaken world.now (system_of image.old)
        (system_of image.new) node moment epoch gone.now up.now may.now result }
{
    let nodes = image.nodes();
    if usize::from(node) >= nodes.len() {
        return Err(Stop::Illegal);
    }
    if !names_nodes(alloc, world, node, nodes, gone, up, may)? {
        return Err(Stop::Illegal);
    }
    let request = request_of(alloc, epoch, gone, up, may)?;
    let followed = follow(alloc, image, moment, node, &request);
    drop(request);
    followed
}

impl Walker {
    ghost use Rattle.qm_world.specs.Walking.{IsAt, Reads, StepsOrStops};

    // The record in doubt is in the log.
    fn keep_doubt(&mut self) -> Result<(), AllocError>
        requires { IsAt self.old }
        ensures { OnOk result (Reads self.old self.new (Some true)) }
    {
        sound_worlds_are_consistent();
        let Some(record) = self.world.doubt.take() else {
            return Ok(());
        };
        replay(&mut self.image, &record)?;
        put(self.alloc, &mut self.world.log, record)?;
        Ok(())
    }

    // The file was read, where something is told of the record in doubt.
    fn read(&mut self, kept: Option<bool>) -> Result<(), AllocError>
        requires { IsAt self.old }
        ensures { OnOk result (Reads self.old self.new kept) }
    {
        match kept {
            None => Ok(()),
            Some(false) => {
                put_doubt(&mut self.world.doubt, None);
                Ok(())
            }
            Some(true) => self.keep_doubt(),
        }
    }

    // Whether a takeover may begin this epoch, and tells of the record in doubt, where there is one.
    fn may_begin(&self, epoch: u64, kept: Option<bool>) -> bool
        ensures { (result ≡ true) ↔ ((epoch ≡ self.now.world.greatest + 1)
            × (is_some kept ≡ is_some self.now.world.doubt)) }
    {
        self.world.greatest.checked_add(1) == Some(epoch) && kept.is_some() == self.has_doubt()
    }

    /// A node takes over.
    pub(crate) fn took(
        &mut self,
        node: u8,
        moment: Moment,
        epoch: u64,
        gone: &Seq<Name>,
        up: &Seq<Name>,
        may: &Seq<Name>,
        kept: Option<bool>,
    ) -> Result<(), Stop>
        requires { IsAt self.old }
        ensures { StepsOrStops self.old
            (Event.Took node moment epoch gone.now up.now may.now kept) self.new result }
    {
        nodes_keep_their_names();
        requests_keep_consistent();
        if !self.may_begin(epoch, kept) {
            return Err(Stop::Illegal);
        }
        self.read(kept)?;
        let followed = take_over(
            self.alloc,
            &mut self.image,
            &self.world,
            node,
            moment,
            epoch,
            gone.as_slice(),
            up.as_slice(),
            may.as_slice(),
        )?;
        put(self.alloc, &mut self.world.log, followed.record)?;
        set(self.alloc, &mut self.world.held, node, epoch);
        put_doubt(&mut self.world.doubt, None);
        self.world.manager = Some(Role { node, epoch });
        self.world.greatest = epoch;
        Ok(())
    }

    // Whether a takeover that failed may have tried this epoch.
    fn may_try(&self, tried: u64) -> bool
        ensures { (result ≡ true) ↔ ((tried ≡ self.now.world.greatest)
            ⊎ (tried ≡ self.now.world.greatest + 1)) }
    {
        tried == self.world.greatest || self.world.greatest.checked_add(1) == Some(tried)
    }

    /// A takeover failed.
    pub(crate) fn take_doubted(
        &mut self,
        node: u8,
        tried: u64,
        kept: Option<bool>,
    ) -> Result<(), Stop>
        requires { IsAt self.old }
        ensures { StepsOrStops self.old (Event.TakeDoubt node tried kept) self.new result }
    {
        if !self.may_try(tried) || (kept.is_some() && !self.has_doubt()) {
            return Err(Stop::Illegal);
        }
        self.read(kept)?;
        self.world.manager = None;
        self.world.greatest = tried;
        Ok(())
    }
}
