// A database that was read, with the image for which its records stand.
ghost use Rattle.std.specs.Prelude.{◌≡◌, ◌<◌, ◌^◌, length};
ghost use Rattle.qm_store.specs.Database.{disk_of as closed_disk};
ghost use Rattle.qm_store.specs.Recorded.{epoch_behind};
ghost use Rattle.qm_history.specs.Common.{size_of, acting};

use crate::letting_go::let_go;
use qm_disk::Disk;
use qm_image::Image;
use qm_kinds::{Moment, Name, Node};
use qm_store::{Closed, Loaded};
use std::alloc::Global;

/// The files as they were read, and the image of the queue system for which they stand. Nothing is written so far.
#[derive(Drop)]
pub struct Restored<D> {
    pub(crate) alloc: Global,
    pub(crate) image: Image,
    pub(crate) loaded: Loaded<D>,
}

impl<D: Disk> Restored<D> {
    ghost use Rattle.qm_acting.specs.Standing.{restored_standing, restored_disk};
    ghost use Rattle.qm_acting.specs.Reading.{IsTold};

    /// The greatest recorded epoch, or 0 where none is.
    pub fn epoch(&self) -> u64
        ensures { result ≡ (restored_standing self.now).recorded.says.epoch }
    {
        self.loaded.epoch()
    }

    /// The epoch that a takeover begins where this one was tried before.
    pub fn next_epoch(&self, tried: u64) -> u64
        requires { tried < 2 ^ 63 }
        ensures { result ≡ epoch_behind (restored_standing self.now).recorded tried }
    {
        self.loaded.epoch().max(tried) + 1
    }

    /// The live queue file, 1 or 2.
    pub fn live(&self) -> u8
        ensures { result ≡ (restored_standing self.now).recorded.says.live }
    {
        self.loaded.live()
    }

    /// How many records the live file has.
    pub fn count(&self) -> usize
        ensures { result ≡ length (restored_standing self.now).recorded.bodies }
    {
        self.loaded.count()
    }

    /// How many bytes the records of the live file take.
    pub fn size(&self) -> u64
        ensures { result ≡ size_of (restored_standing self.now).recorded.bodies }
    {
        self.loaded.place(self.loaded.count())
    }

    /// Whether a record is there that was in doubt in this queue file behind so many others.
    pub fn is_kept(&self, live: u8, before: usize) -> bool
        ensures { IsTold (restored_standing self.now).recorded live before result }
    {
        self.loaded.live() != live || self.loaded.count() != before
    }

    /// The nodes of the cluster.
    pub fn nodes(&self) -> &[Node]
        ensures { result.now ≡ (restored_standing self.now).system.nodes }
    {
        self.image.nodes()
    }

    /// The names of the nodes that may be queue manager.
    pub fn may(&self) -> &[Name]
        ensures { result.now ≡ (restored_standing self.now).system.may }
    {
        self.image.may()
    }

    /// The moment at which a request acts, where the clock told this before: no moment goes back.
    pub fn acting(&self, now: Moment) -> Moment
        ensures { result ≡ acting now (restored_standing self.now).system }
    {
        now.max(self.image.last())
    }

    /// Lets go of what was read.
    pub fn close(self) -> Closed<D>
        ensures { closed_disk result ≡ restored_disk self }
    {
        let Restored { image, loaded, .. } = self;
        let_go(image);
        loaded.close()
    }
}
