// What the serving of a script leaves.
ghost use Rattle.std.specs.Prelude.{◌≡◌};
ghost use Rattle.qm_chest.specs.At.{chest_disk, chest_turns};

use qm_chest::Chest;
use qm_cluster::ServeEnd;
use qm_disk::Disk;
use qm_history::Turn;

/// What the serving of a script leaves: how it ended, the disk, and the turns that were made, the first one first.
#[derive(Drop)]
pub struct Served<D> {
    pub end: ServeEnd,
    pub disk: D,
    pub turns: Vec<Turn>,
}

/// What is left of a chest behind this end.
pub(crate) fn left_at<D: Disk>(end: ServeEnd, chest: Chest<D>) -> Served<D>
    ensures end { result.end ≡ end }
    ensures disk { result.disk ≡ chest_disk chest }
    ensures turns { result.turns.items ≡ chest_turns chest }
{
    let (disk, turns) = chest.close();
    Served { end, disk, turns }
}
