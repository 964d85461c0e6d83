// How a chest begins, what it tells, and how it ends.
ghost use Rattle.std.specs.Prelude.{◌≡◌, ◌<◌, ◌^◌, IsTrue, IfOk, IfErr};
ghost use Rattle.qm_store.specs.Database.{disk_of as closed_disk};
ghost use Rattle.qm_chest.specs.At.{chest_disk, chest_names};
ghost use Rattle.qm_chest.specs.Checking.{Begins, IsChecked, checked_disk, checked_standing};

use crate::checked::Checked;
use crate::chest::{Chest, State};
use crate::laws::sites_begin_one_world;
use crate::members::Members;
use crate::work::Work;
use qm_acting::Files;
use qm_disk::Disk;
use qm_history::Turn;
use qm_kinds::Name;
use qm_restore::site_files_are_accepted;
use qm_store::Closed;
use std::alloc::{AllocError, Global};

impl<D: Disk> Chest<D> {
    /// A chest that begins on files that were read, each node of theirs being live. An `Err` hands them back, for want of memory.
    pub(crate) fn new(
        alloc: Global,
        checked: Checked<D>,
    ) -> Result<Chest<D>, (Closed<D>, AllocError)>
        requires checked { IsChecked D.meaning checked }
        requires early { IsTrue D.meaning.tells
            → (checked_standing checked).recorded.says.epoch < 2 ^ 61 }
        ensures begins { IfOk result (Begins D.meaning checked) }
        ensures back { IfErr result (λ failed. closed_disk failed.0 ≡ checked_disk checked) }
    {
        site_files_are_accepted();
        sites_begin_one_world();
        let Checked { restored } = checked;
        let Ok(members) = Members::new(alloc, restored.nodes(), restored.epoch()) else {
            return Err((restored.close(), AllocError));
        };
        let work = Work::Down {
            files: Files::Read(restored),
            place: None,
        };
        Ok(Chest {
            alloc,
            state: State { members, work },
            turns: Vec::new(alloc),
        })
    }

    /// The names of the nodes, in the cluster's order.
    pub fn names(&self) -> &[Name]
        ensures { result.now ≡ chest_names self.now }
    {
        self.state.members.names.as_slice()
    }

    /// The turns that were made, the first one first.
    pub fn turns(&self) -> &[Turn]
        ensures { result.now ≡ self.now.turns.items }
    {
        self.turns.as_slice()
    }

    /// The files, and the turns that were made.
    pub(crate) fn end(self) -> (Closed<D>, Vec<Turn>)
        ensures disk { closed_disk result.0 ≡ chest_disk self }
        ensures turns { result.1.items ≡ self.turns.items }
    {
        let Chest { state, turns, .. } = self;
        let State { work, .. } = state;
        (work.close(), turns)
    }
}
