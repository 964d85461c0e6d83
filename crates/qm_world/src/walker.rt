// Where a walk is: a world, and beside it the image of the system for which its log stands.
ghost use Rattle.std.specs.Prelude.{◌≡◌, ◌↔◌, ◌<◌, length, IfOk, IsSome, IsTrue};
ghost use Rattle.qm_history.specs.World.{epoch_of, held_by, is_live, IsSound};
ghost use Rattle.qm_image.specs.Image.{system_of};

use crate::beginning::image_of_log;
use crate::copying::copy_world;
use qm_history::World;
use qm_image::Image;
use std::alloc::{AllocError, Global};

/// A world, and the image of its system.
#[derive(Drop)]
pub(crate) struct Walker {
    pub alloc: Global,
    pub image: Image,
    pub world: World,
}

impl Walker {
    ghost use Rattle.qm_world.specs.Walking.{IsAt};

    /// A walk at its start. The world is copied, with its whole log.
    pub(crate) fn new(alloc: Global, start: &World) -> Result<Walker, AllocError>
        requires { IsSound start.now }
        ensures at { IfOk result IsAt }
        ensures start { IfOk result (λ walker. walker.world ≡ start.now) }
    {
        let world = copy_world(alloc, start)?;
        match image_of_log(alloc, start.log.as_slice()) {
            Ok(image) => Ok(Walker {
                alloc,
                image,
                world,
            }),
            Err(AllocError) => {
                drop(world);
                Err(AllocError)
            }
        }
    }

    /// Whether a manager is up.
    pub(crate) fn has_manager(&self) -> bool
        ensures { IsTrue result ↔ IsSome self.now.world.manager }
    {
        self.world.manager.is_some()
    }

    /// Whether a record is in doubt.
    pub(crate) fn has_doubt(&self) -> bool
        ensures { IsTrue result ↔ IsSome self.now.world.doubt }
    {
        self.world.doubt.is_some()
    }

    /// Whether the node of this place is there.
    pub(crate) fn has_node(&self, node: u8) -> bool
        ensures { IsTrue result ↔ (node < length (system_of self.now.image).nodes) }
    {
        usize::from(node) < self.image.nodes().len()
    }

    /// Whether the node is live.
    pub(crate) fn is_live(&self, node: u8) -> bool
        ensures { result ≡ is_live self.now.world node }
    {
        self.world
            .live
            .as_slice()
            .get(usize::from(node))
            .copied()
            .unwrap_or(false)
    }

    /// The epoch that the node holds, or 0.
    pub(crate) fn held_by(&self, node: u8) -> u64
        ensures { result ≡ held_by self.now.world node }
    {
        self.world
            .held
            .as_slice()
            .get(usize::from(node))
            .copied()
            .unwrap_or(0)
    }

    /// The epoch of the present manager.
    pub(crate) fn epoch(&self) -> Option<u64>
        ensures { result ≡ epoch_of self.now.world }
    {
        self.world.manager.map(|role| role.epoch)
    }
}
