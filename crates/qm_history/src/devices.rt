// What the devices of a node get.
ghost use Rattle.std.specs.Prelude.{◌≡◌, []};
ghost use Rattle.qm_kinds.specs.declared.entry.JobKind.TheVariants.{Print};
ghost use Rattle.qm_history.specs.Blocks.{AreFirst, IsWorkOf, ComeInStretches, ComeAgainBehindMarks, blocks_behind_mark, system_shown};
ghost use Rattle.qm_model.specs.Kept.{KeptRun};
ghost use Rattle.qm_history.specs.CourseLaws.{AreGiven, HandsOverNext, OfEachCourse, OfEachGiven, OfEachStretch, OfStretches, WhereEndedWell};

use qm_model::print_jobs_report_each_block;

/// The steps that a node makes for its runs, and the one within which its course broke off, come in stretches, one for each
/// fetch that gave a run to the node. The first step of each begins behind the mark with which the work was fetched, and each
/// other one at the checkpoint of the step of that run before it. A step of a print run hands over the next block of its
/// pages, if one is left.
pub fn steps_come_in_stretches()
    ensures stretches { OfEachCourse (λ reads visits steps all. ComeInStretches [] all) }
    ensures given { OfEachCourse (λ reads visits steps all. AreGiven visits all) }
    ensures next_block { (k : KeptRun) → k.work.kind ≡ Print → HandsOverNext k }
{
    print_jobs_report_each_block();
}

/// The work that a fetch shows is that of an entry of the system, as it is there: with the mark that was recorded last, and
/// whether it runs again.
pub fn fetches_show_recorded_marks()
    ensures { OfEachGiven (λ v run work. IsWorkOf (system_shown v) run work) }
{}

/// Where steps come in stretches, the blocks of each stretch of a print job are the first ones behind the mark with which it was
/// fetched, one behind another. Where its symbiont told that the run ended with status 1, they are all of these.
pub fn stretches_are_consecutive()
    ensures first { OfEachStretch (λ m blocks. AreFirst blocks (blocks_behind_mark m.run)) }
    ensures whole { OfEachStretch (λ m blocks. WhereEndedWell m (blocks ≡ blocks_behind_mark m.run)) }
{
    print_jobs_report_each_block();
}

/// Where steps come in stretches, a block of a print job comes again only as another fetch gave it, and behind the mark with
/// which that one gave it.
pub fn blocks_come_again_behind_marks()
    ensures { OfStretches ComeAgainBehindMarks }
{}
