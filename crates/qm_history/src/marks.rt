// The marks of jobs.
ghost use Rattle.qm_history.specs.Laws.{GiveMarks, GivesMarks, HasLastMarks, OfEachRequest, OfNextRecords, OfSoundHistories};

use qm_model::{nodes_keep_their_names, requests_keep_consistent, settling_changes_entries_alone};

/// Each entry, one that was put back into its queue too, has the mark of the last recorded checkpoint that found it running; or
/// else the one that it had before, which is none where it wasn't there. So it is after each accepted request, after records
/// that are accepted one after the other, and after a legal history, whose records are these.
pub fn entries_have_their_last_marks()
    ensures request { OfEachRequest GivesMarks }
    ensures records { OfNextRecords GiveMarks }
    ensures history { OfSoundHistories (λ w turns. HasLastMarks w) }
{
    requests_keep_consistent();
    settling_changes_entries_alone();
    nodes_keep_their_names();
}
