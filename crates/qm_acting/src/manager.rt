// The manager at work, and what it shows.
ghost use Rattle.std.specs.Prelude.{◌≡◌, ◌<◌, length, None, Ok, IfOk};
ghost use Rattle.qm_store.specs.Database.{disk_of as closed_disk};
ghost use Rattle.qm_history.specs.Common.{acting, are_numbers_spent, duties, view, node_at};
ghost use Rattle.qm_image.specs.Refusing.{Refuses};

use crate::letting_go::let_go;
use qm_disk::Disk;
use qm_image::{Image, Refused};
use qm_kinds::{Duty, Moment, Name, Node, Query};
use qm_restore::site_files_are_consistent;
use qm_rows::Rows;
use qm_store::{Closed, Open};
use qm_view::{duties, view};
use std::alloc::{AllocError, Global};

/// A queue manager at work: the image of its system, and the open database that keeps what it accepted.
#[derive(Drop)]
pub struct Manager<D> {
    pub(crate) alloc: Global,
    pub(crate) image: Image,
    pub(crate) store: Open<D>,
}

impl<D: Disk> Manager<D> {
    ghost use Rattle.qm_acting.specs.Standing.{standing_of, disk_of, IsReady};

    /// The epoch.
    pub fn epoch(&self) -> u64
        ensures { result ≡ (standing_of self.now).recorded.says.epoch }
    {
        self.store.epoch()
    }

    /// The live queue file, 1 or 2.
    pub fn live(&self) -> u8
        ensures { result ≡ (standing_of self.now).recorded.says.live }
    {
        self.store.live()
    }

    /// How many records the live file has.
    pub fn count(&self) -> usize
        ensures { result ≡ length (standing_of self.now).recorded.bodies }
    {
        self.store.count()
    }

    /// The nodes of the cluster.
    pub fn nodes(&self) -> &[Node]
        ensures { result.now ≡ (standing_of self.now).system.nodes }
    {
        self.image.nodes()
    }

    /// The names of the nodes that may be queue manager.
    pub fn may(&self) -> &[Name]
        ensures { result.now ≡ (standing_of self.now).system.may }
    {
        self.image.may()
    }

    /// The moment at which a request acts, where the clock told this before: no moment goes back.
    pub fn acting(&self, now: Moment) -> Moment
        ensures { result ≡ acting now (standing_of self.now).system }
    {
        now.max(self.image.last())
    }

    /// Whether the numbers of runs are spent.
    pub fn are_numbers_spent(&self) -> bool
        ensures { result ≡ are_numbers_spent (standing_of self.now).system }
    {
        self.image.are_run_numbers_spent()
    }

    /// The rows that a query asks for, but none of the queue manager itself. It is refused where the entry that is asked for isn't
    /// there, where no queue is named whose entries are asked for, and where rows are asked for one by one and none is left.
    pub fn view(&self, query: &Query) -> Result<Rows, Refused>
        ensures rows { IfOk result (λ rows.
            view (standing_of self.now).system None query.now ≡ Ok rows) }
        ensures refused { Refuses result (view (standing_of self.now).system None query.now) }
    {
        view(self.alloc, &self.image, query)
    }

    /// What the node of this place has to do that has the works of the runs of these numbers: its runs by number, whether each
    /// is to be cut short, whether its queue is paused, and the work of each that isn't among them. Nothing is written or
    /// changed; it fails for want of memory alone.
    ///
    /// OpenVMS System Services Reference Manual, $GETQUI, on executing jobs.
    pub fn duties(&self, node: u8, known: &[u64]) -> Result<Vec<Duty>, AllocError>
        requires ready { IsReady D.meaning self.now }
        requires there { node < length (standing_of self.now).system.nodes }
        ensures { IfOk result (λ list. list.items
            ≡ duties (standing_of self.now).system
            (node_at node (standing_of self.now).system.nodes) known.now) }
    {
        site_files_are_consistent();
        let name = self.node_name(node);
        duties(&self.image, &name, known)
    }

    // The name of the node at a place.
    fn node_name(&self, node: u8) -> Name
        requires { node < length (standing_of self.now).system.nodes }
        ensures { result ≡ node_at node (standing_of self.now).system.nodes }
    {
        self.image.nodes()[usize::from(node)].name
    }

    /// Lets go of the role. The epoch stays used.
    pub fn close(self) -> Closed<D>
        ensures { closed_disk result ≡ disk_of self }
    {
        let Manager { image, store, .. } = self;
        let_go(image);
        store.close()
    }
}
