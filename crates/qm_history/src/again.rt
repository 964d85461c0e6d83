// Jobs that go back into their queue, and run again.
ghost use Rattle.std.specs.Prelude.{◌≡◌, ◌<◌, ℕ, true};
ghost use Rattle.qm_history.specs.Blocks.{system_shown};
ghost use Rattle.qm_history.specs.Laws.{BackIsAgain, IsAgainIn, OfEachRequest, OfLaterSystems, OfNextRecords, StaysAgain};
ghost use Rattle.qm_history.specs.CourseLaws.{OfEachGiven};

use qm_model::{nodes_keep_their_names, requests_move_on, settling_changes_entries_alone};

/// A job that goes back into its queue, where its run is cut short and was to be put back or where its node is lost, is one that
/// runs again. It stays one through each later request and history, while it is there, and each fetch that gives it to a node
/// says so.
pub fn jobs_that_went_back_run_again()
    ensures back { (number : ℕ) → OfEachRequest (BackIsAgain number) }
    ensures request { (number : ℕ) → OfEachRequest (λ s now node asked. StaysAgain number s) }
    ensures records { (number : ℕ) → OfNextRecords (λ s records. StaysAgain number s) }
    ensures history { (number : ℕ) → OfLaterSystems (StaysAgain number) }
    ensures fetch { OfEachGiven (λ v run work. IsAgainIn work.entry (system_shown v) → work.again ≡ true) }
{
    settling_changes_entries_alone();
    requests_move_on();
    nodes_keep_their_names();
}
