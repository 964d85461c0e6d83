// The entries of accepted submissions.
ghost use Rattle.std.specs.Prelude.{ℕ};
ghost use Rattle.qm_history.specs.Laws.{AllStandInOne, MakesEntry, OfEachRequest, OfEachSubmission, OfLaterSystems, OfNextRecords, OfSoundHistories, StaysBehindRecords, StaysBehindRequest, StaysInLog};

use qm_model::{
    entries_stand_in_one_queue, nodes_keep_their_names, requests_keep_consistent,
    settling_changes_entries_alone,
};

/// An accepted submission makes an entry under the number that its reply tells. The entry is there after each accepted request
/// that doesn't end or delete it, and so in every later system until a record does that; and each entry of a system stands in
/// exactly one queue.
pub fn submitted_entries_stay()
    ensures submitted { OfEachSubmission MakesEntry }
    ensures request { (number : ℕ) → OfEachRequest (StaysBehindRequest number) }
    ensures records { (number : ℕ) → OfNextRecords (StaysBehindRecords number) }
    ensures history { (number : ℕ) → OfSoundHistories (λ w turns. StaysInLog number w) }
    ensures one_queue { OfLaterSystems (λ before after. AllStandInOne after) }
{
    requests_keep_consistent();
    settling_changes_entries_alone();
    nodes_keep_their_names();
    entries_stand_in_one_queue();
}
