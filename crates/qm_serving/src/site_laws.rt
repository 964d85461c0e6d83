// What a site stands for that was just opened, and what its nodes leave of it.
ghost use Rattle.std.specs.Prelude.{◌≡◌, ◌<◌, [], ℕ, List, true, length, IsTrue};
ghost use Rattle.qm_chest.specs.Noting.{StartsEarly};
ghost use Rattle.qm_history.specs.declared.world.World.{World};
ghost use Rattle.qm_history.specs.Common.{Note, unread_of, IsSound, is_live};
ghost use Rattle.qm_chest.specs.Opening.{IsOpened, MayBegin};
ghost use Rattle.qm_chest.specs.At.{chest_disk, chest_names, chest_turns};
ghost use Rattle.qm_chest.specs.Manager.{StandsAt};
ghost use Rattle.qm_chest.specs.declared.chest.Chest.{Chest};
ghost use Rattle.qm_serving.specs.SiteServing.{ServesNodes};
ghost use Rattle.qm_serving.specs.SiteStanding.{HasStood};

use qm_disk::Disk;

/// A site that was just opened stands for no notes, since it was opened.
pub(crate) fn opened_sites_stand_for_no_notes<D: Disk>()
    ensures { (disk : D) (chest : Chest D) → IsOpened D.meaning disk chest
        → HasStood D.meaning (chest_disk chest) (chest_names chest) chest [] }
{}

/// The world with which a program begins on a site that was opened is sound, and each node is live there.
pub(crate) fn nodes_begin_live<D: Disk>()
    ensures sound { (disk : D) (chest : Chest D) (w : World) → IsOpened D.meaning disk chest
        → IsTrue D.meaning.tells → StartsEarly (D.meaning.seen disk) w → IsSound w }
    ensures live { (disk : D) (chest : Chest D) (w : World) → IsOpened D.meaning disk chest
        → IsTrue D.meaning.tells → StartsEarly (D.meaning.seen disk) w
        → (node : ℕ) → node < length (chest_names chest) → is_live w node ≡ true }
    ensures begins { (disk : D) (chest : Chest D) (w : World) → IsOpened D.meaning disk chest
        → StandsAt D.meaning w chest
        → (node : ℕ) → node < length (chest_names chest)
        → IsSound w × (is_live w node ≡ true) }
{}

/// Opening a site leaves it the worlds with which a program can begin on its device.
pub(crate) fn openings_keep_worlds<D: Disk>()
    ensures { (disk : D) (chest : Chest D) (w : World) → IsOpened D.meaning disk chest
        → MayBegin D.meaning disk w
        → MayBegin D.meaning (chest_disk chest) w }
{}

/// What nodes leave of a site that they shared since it was opened is said by what it stands for: by the notes of all calls.
pub(crate) fn nodes_leave_what_is_noted<D: Disk>()
    ensures { (disk : D) (chest then : Chest D) (names : List (List ℕ)) (notes : List Note)
        → IsOpened D.meaning disk chest
        → HasStood D.meaning (chest_disk chest) names then notes
        → ServesNodes D.meaning disk (chest_disk chest) (chest_disk then) (chest_turns then)
        (unread_of notes) }
{}
