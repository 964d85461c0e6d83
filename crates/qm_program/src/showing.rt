// How a site is listed.
ghost use Rattle.std.specs.Prelude.{◌≡◌, ◌⊎◌, ℕ, [], List, Option, IsTrue};
ghost use Rattle.qm_program.specs.Causes.{HasCause, counts};
ghost use Rattle.qm_program.specs.Doing.{IsWithoutFault};
ghost use Rattle.qm_program.specs.Ends.{status_of};
ghost use Rattle.qm_program.specs.Reading.{AreSite};
ghost use Rattle.qm_program.specs.Showing.{Shows};

use crate::outcome::{End, Outcome};
use qm_disk::{Disk, Sink, write_whole};
use qm_listing::{Listed, list_queues};
use qm_store::{held_files_load, one_content};
use std::alloc::Global;

/// Writes the listing of all queues and entries of the site of a disk: it is made whole before its first byte is written, so the
/// sink gets none where there is no listing. The files are only looked at.
pub(crate) fn show<O: Sink, D: Disk>(alloc: Global, sink: &mut O, disk: D) -> Outcome<D>
    ensures status { result.status ≡ status_of result.end }
    ensures turns { result.turns.items ≡ [] }
    ensures shows { Shows D.meaning disk result.disk
        (O.taken sink.old) (O.taken sink.new) result.end }
    ensures cause { (left : Option (List ℕ)) (source : ℕ)
        → HasCause D.meaning.tells (D.meaning.seen disk) left []
        (counts source (O.faults sink.old) (D.meaning.faults disk))
        (counts source (O.faults sink.new) (D.meaning.faults result.disk)) result.end }
    ensures complete { IsTrue D.meaning.tells → AreSite (D.meaning.seen disk)
        → IsWithoutFault (O.faults sink.old) (O.faults sink.new)
        → IsWithoutFault (D.meaning.faults disk) (D.meaning.faults result.disk)
        → (result.end ≡ End.Ok) ⊎ (result.end ≡ End.NoMemory) }
{
    held_files_load();
    one_content();
    let Listed { disk, text } = list_queues(alloc, disk);
    match text {
        Ok(text) => match write_whole(sink, &text) {
            Ok(()) => Outcome::of(alloc, End::Ok, disk),
            Err(_) => Outcome::of(alloc, End::Write, disk),
        },
        Err(fault) => Outcome::of(alloc, End::from(fault), disk),
    }
}
