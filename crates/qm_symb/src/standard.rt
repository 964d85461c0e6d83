// What carries out print jobs and batch jobs on a device.
ghost use Rattle.std.specs.Prelude.{◌≡◌};
ghost use Rattle.qm_kinds.specs.declared.entry.JobKind.TheVariants.{Batch, Print};
ghost use Rattle.qm_model.specs.Reports.{begin};
ghost use Rattle.qm_symb.specs.Symbiont.{IsWithinLimits};
ghost use Rattle.qm_symb.specs.Standard.{StandsAt};

use crate::batch::{Cursor, batch_begin, batch_step};
use crate::print::{cursor_behind, print_begin, print_step};
use crate::{Beginning, Device, Symbiont};
use qm_kinds::{JobKind, Place, Report, Work};
use std::alloc::{AllocError, Global};
use std::marker::Model;

/// Where a run stands in its text: a print job in front of a page, and a batch job in front of a line.
#[derive(Clone, Copy)]
pub enum StandardCursor {
    Pages(crate::print::Cursor),
    Lines(Cursor),
}

/// What carries out print jobs and batch jobs on a device: it hands over the pages of the ones and the lines that the
/// others write. Contracts see its device, and it tells what its device tells.
#[derive(Drop)]
pub struct Standard<P> {
    alloc: Global,
    device: P,
}

impl<P> Model for Standard<P> {
    ghost Value = { P };

    ghost view = { λ s. s.device };
}

impl<P: Device> Standard<P> {
    /// Over this device. It takes no memory.
    pub fn new(alloc: Global, device: P) -> Standard<P>
        ensures { result ≡ device }
    {
        Standard { alloc, device }
    }

    /// The device. It takes no memory.
    pub fn device(&self) -> &P
        ensures { result.now ≡ self.now }
    {
        &self.device
    }
}

// Where a print job begins.
fn begin_pages(work: &Work) -> Beginning<StandardCursor>
    requires limits { IsWithinLimits work.now }
    requires kind { work.now.kind ≡ Print }
    ensures place { result.at ≡ begin work.now }
    ensures cursor { StandsAt work.now result.at result.cursor }
{
    let at = print_begin(work);
    Beginning {
        at,
        cursor: StandardCursor::Pages(cursor_behind(work, at.at)),
    }
}

// Where a batch job begins.
fn begin_lines(work: &Work) -> Beginning<StandardCursor>
    requires kind { work.now.kind ≡ Batch }
    ensures place { result.at ≡ begin work.now }
    ensures cursor { StandsAt work.now result.at result.cursor }
{
    Beginning {
        at: Place { at: 1, used: 0 },
        cursor: StandardCursor::Lines(batch_begin()),
    }
}

impl<P: Device> Symbiont for Standard<P> {
    type Cursor = StandardCursor;

    ghost meaning = { P.meaning };

    ghost stands = { StandsAt };

    fn begin(&self, work: &Work) -> Beginning<StandardCursor> {
        match work.kind {
            JobKind::Print => begin_pages(work),
            JobKind::Batch => begin_lines(work),
        }
    }

    fn step(
        &mut self,
        work: &Work,
        at: Place,
        cursor: &mut StandardCursor,
    ) -> Result<Report, AllocError> {
        match cursor {
            StandardCursor::Pages(pages) => print_step(
                self.alloc,
                &mut self.device,
                work,
                at,
                pages,
            ),
            StandardCursor::Lines(lines) => batch_step(
                self.alloc,
                &mut self.device,
                work,
                at,
                lines,
            ),
        }
    }
}
