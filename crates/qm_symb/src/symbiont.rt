// What carries out the runs of a node.
ghost use Rattle.std.specs.Prelude.{◌≡◌, IfOk, OnErr};
ghost use Rattle.qm_model.specs.Common.{Work, Place, begin};
ghost use Rattle.qm_symb.specs.Device.{Meaning};
ghost use Rattle.qm_symb.specs.Symbiont.{IfGoesOn, IsWithinLimits, Steps};

use qm_kinds::{Place, Report, Work};
use std::alloc::AllocError;

/// The status with which a run ends whose device failed.
pub const DEVICE_FAULT_STATUS: u32 = 1028;

/// Where a run begins: its place, and the cursor that stands there.
#[derive(Drop)]
pub struct Beginning<C> {
    pub at: Place,
    pub cursor: C,
}

/// What carries out runs, report by report. Of each work its shape has a row and a column at least between the
/// margins, and its text at most `TEXT_LIMIT` bytes.
///
/// A run is kept as its place and a cursor. The place says what the run does from there on; the cursor is where that
/// stands in the work, so that no step looks at what stands before it. Each belongs to its work.
///
/// OpenVMS System Manager's Manual, Setting Up and Maintaining Queues, on symbionts.
pub trait Symbiont {
    /// Where a run stands in its work.
    type Cursor: Drop;

    /// What the calls speak of: the blocks that were handed over, where that is told, and how many calls of the
    /// devices failed.
    ghost meaning: { Meaning Self };

    /// The cursor stands at this place of this work.
    ghost stands: { Work → Place → Self.Cursor → Type 0 };

    /// Where a run of this work begins: a print job behind its mark, and a batch job at its first line. It may walk
    /// through the text, and takes no memory.
    fn begin(&self, work: &Work) -> Beginning<Self::Cursor>
        requires { IsWithinLimits work.now }
        ensures place { result.at ≡ begin work.now }
        ensures cursor { stands work.now result.at result.cursor };

    /// Goes on from a place, at which the cursor stands, up to the next report, and hands over the blocks before it, each
    /// to the work's device. Behind a mark the cursor stands at the mark's place.
    ///
    /// Where a device fails the report is the end of the run with status `DEVICE_FAULT_STATUS`, and the blocks from
    /// the one on at which it failed aren't handed over. The device's count rises in no other step.
    ///
    /// At want of memory nothing was handed over, and the cursor stands where it stood: the step can be made again.
    fn step(
        &mut self,
        work: &Work,
        at: Place,
        cursor: &mut Self::Cursor,
    ) -> Result<Report, AllocError>
        requires limits { IsWithinLimits work.now }
        requires place { stands work.now at cursor.old }
        ensures stepped { IfOk result (λ report.
            Steps meaning work.now at report self.old self.new) }
        ensures next_place { IfOk result (λ report.
            IfGoesOn report (λ next. stands work.now next cursor.new)) }
        ensures no_memory { OnErr result (self.new ≡ self.old) }
        ensures same_place { OnErr result (stands work.now at cursor.new) };
}
