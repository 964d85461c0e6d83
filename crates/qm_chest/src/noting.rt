// What a chest stands for behind the calls that it served.
ghost use Rattle.std.specs.Prelude.{◌≡◌, ◌<◌, ◌≤◌, ◌^◌, ◌++◌, ◌∷◌, ℕ, IsTrue, List, [], true};
ghost use Rattle.qm_history.specs.Chest.{Note, Serves as NotesCall};
ghost use Rattle.qm_history.specs.declared.call.Answer.{Answer};
ghost use Rattle.qm_history.specs.declared.call.Call.{Call};
ghost use Rattle.qm_history.specs.declared.world.World.{World};
ghost use Rattle.qm_chest.specs.At.{chest_disk};
ghost use Rattle.qm_chest.specs.Checking.{Begins, checked_standing};
ghost use Rattle.qm_chest.specs.Noting.{HasServed, StandsSince, StartsEarly, chest_told, failed_with, note_of};
ghost use Rattle.qm_chest.specs.declared.checked.Checked.{Checked};
ghost use Rattle.qm_chest.specs.declared.chest.Chest.{Chest};

use qm_disk::Disk;
use qm_history::full_files_are_full;
use qm_restore::site_files_are_accepted;

/// A chest that begins on files that were read stands for no notes, since then: in the world with which a program begins there, where the
/// disks tell.
pub(crate) fn chests_begin_without_notes<D: Disk>()
    ensures { (checked : Checked D) (chest : Chest D) (w : World) → Begins D.meaning checked chest
        → D.meaning.faults (chest_disk chest) < 2 ^ 64
        → (IsTrue D.meaning.tells → StartsEarly (D.meaning.seen (chest_disk chest)) w)
        → StandsSince D.meaning (checked_standing checked).recorded.says.cap w (chest_disk chest) chest 0 [] }
{
    site_files_are_accepted();
}

/// A chest that stands for notes stands for one more behind a call that it served, which is what its turnstile keeps.
pub fn calls_are_noted<D: Disk>()
    ensures stands { (cap : ℕ) (w : World) (began : D) (old new : Chest D) (failed : ℕ) (notes : List Note)
        (node now : ℕ) (asked : Call) (told : Answer) → StandsSince D.meaning cap w began old failed notes
        → (served : HasServed D.meaning cap node now asked old new told)
        → StandsSince D.meaning cap w began new (failed_with failed told)
        (notes ++ note_of asked served.one.turn told ∷ []) }
    ensures serves { (cap : ℕ) (w : World) (began : D) (old new : Chest D) (failed : ℕ) (notes : List Note)
        (node now : ℕ) (asked : Call) (told : Answer) → StandsSince D.meaning cap w began old failed notes
        → (served : HasServed D.meaning cap node now asked old new told)
        → NotesCall D.meaning w began (chest_told old failed)
        (chest_told new (failed_with failed told)) notes node now
        (note_of asked served.one.turn told) told }
{
    site_files_are_accepted();
    full_files_are_full();
}
