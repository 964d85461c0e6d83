// What a node has to do for its runs, and that it comes to an end of that.
ghost use Rattle.std.specs.Prelude.{◌≡◌, ◌<◌, ℕ, Bool, List, Some};
ghost use Rattle.qm_history.specs.Common.{System, IsConsistent, duties};
ghost use Rattle.qm_model.specs.Kept.{KeptRun, KeptRuns, StepEnd, behind_next, next_kept, report_told};
ghost use Rattle.qm_node.specs.Duties.{AreLearnable};
ghost use Rattle.qm_node.specs.Measure.{reports_left};

/// In a consistent system a node can learn what it has to do, whatever works it knows.
pub fn duties_can_be_learned()
    ensures { (s : System) (node known : List ℕ) → IsConsistent s
        → AreLearnable (duties s node known) }
{}

/// Behind a step and its report, however that was answered, fewer reports are left to the runs of the round: so a round ends.
pub fn steps_lower_the_reports_left()
    ensures { (kept : KeptRuns) (k : KeptRun) (end : StepEnd) (goes_on : Bool)
        → next_kept kept ≡ Some k
        → reports_left (behind_next kept (report_told k end) goes_on) < reports_left kept }
{}
