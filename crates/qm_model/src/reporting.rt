// What runs report.
ghost use Rattle.std.specs.Prelude.{◌≡◌, ◌++◌, ◌∷◌, [], length, max};
ghost use Rattle.qm_kinds.specs.declared.entry.JobKind.TheVariants.{Print};
ghost use Rattle.qm_kinds.specs.declared.work.Work.{Work};
ghost use Rattle.qm_kinds.specs.declared.work.Place.{Place};
ghost use Rattle.qm_kinds.specs.declared.work.Report.TheVariants.{Done};
ghost use Rattle.qm_model.specs.Reports.{begin, course, reports, EndOnce, GoOnAtMarks, BeginAtMarks, HasCountedBlocks, OfEachPrintJob, blocks_before_report, blocks_left, marks_left, next_block};

/// From each place on, a run reports marks, and then its end once.
pub fn runs_end_once()
    ensures { (w : Work) (p : Place) → EndOnce (reports w p) }
{}

/// A run that begins anew at the place of a mark reports what stood behind that mark. Of a mark its value alone is recorded:
/// a print job of fewer than 2^64 blocks that is started again with the value of a mark begins at that mark's place.
pub fn runs_go_on_at_marks()
    ensures places { (w : Work) (p : Place) → GoOnAtMarks w (reports w p) }
    ensures values { (w : Work) → w.kind ≡ Print → HasCountedBlocks w → BeginAtMarks w (reports w (begin w)) }
{}

/// From each place on, a print job reports a mark behind each block that is left but the last, which counts the blocks so
/// far, and behind the last one its end with status 1. So it has a report for each block that is left, or one where none
/// is. Up to each report it hands over the next block, if one is left.
pub fn print_jobs_report_each_block()
    ensures reports { OfEachPrintJob (λ w p. reports w p ≡ marks_left w p ++ Done 1 ∷ []) }
    ensures count { OfEachPrintJob (λ w p. length (reports w p) ≡ max 1 (blocks_left w p)) }
    ensures next_block { OfEachPrintJob (λ w p. blocks_before_report (course w p) ≡ next_block w p) }
{}
