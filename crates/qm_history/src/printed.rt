// That each block of a print job comes.
ghost use Rattle.qm_history.specs.Printed.{AreHandedBehindMarks};
ghost use Rattle.qm_history.specs.CourseLaws.{CameFromMark, ComeAgainElsewhere, OfEndedRuns, OfStretches};

/// Where steps come in stretches, no block is left out within one: before each step of a print run, the blocks from its fetch's
/// mark on were handed over. So where a node's run ended well, each block from that mark on came.
pub fn no_block_is_left_out_of_a_stretch()
    ensures handed { OfStretches AreHandedBehindMarks }
    ensures came { OfEndedRuns CameFromMark }
{}

/// Where two nodes hand over the same block of a print job, it stands behind the marks of both fetches, and so of the later one.
pub fn blocks_come_again_elsewhere_behind_marks()
    ensures { OfStretches (λ steps. OfStretches (λ others. ComeAgainElsewhere steps others)) }
{}
