// A site's files, as they were read before anything is asked of it.
ghost use Rattle.std.specs.Prelude.{◌≡◌};

use qm_acting::Restored;
use qm_disk::Disk;

/// The files of a site, as they were read. The first takeover goes on from what was read here.
#[derive(Drop)]
pub struct Checked<D> {
    pub(crate) restored: Restored<D>,
}

impl<D: Disk> Checked<D> {
    ghost use Rattle.qm_chest.specs.Checking.{checked_standing, checked_disk};

    /// The greatest recorded epoch, or 0 where none is.
    pub(crate) fn epoch(&self) -> u64
        ensures { result ≡ (checked_standing self.now).recorded.says.epoch }
    {
        self.restored.epoch()
    }

    /// Lets go of what was read.
    pub(crate) fn give_back(self) -> D
        ensures { result ≡ checked_disk self }
    {
        let Checked { restored } = self;
        restored.close().give_back()
    }
}
