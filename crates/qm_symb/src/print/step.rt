// One step of a print job: the next block goes to the device, and its report to the queue manager.
ghost use Rattle.std.specs.Prelude.{◌≡◌, ◌+◌, ◌<◌, length, drop, decimal, IfOk, OnOk, OnErr, nat_lt};
ghost use Rattle.qm_kinds.specs.declared.entry.JobKind.TheVariants.{Print};
ghost use Rattle.qm_model.specs.Pages.{page_blocks};
ghost use Rattle.qm_model.specs.Reports.{print_report};
ghost use Rattle.qm_symb.specs.Device.{Meaning};
ghost use Rattle.qm_symb.specs.Symbiont.{IsWithinLimits, Steps};
ghost use Rattle.qm_symb.specs.PagePlaces.{blocks_from};

use crate::print::cursor::{Cursor, next_block};
use crate::{DEVICE_FAULT_STATUS, Device};
use itoa::Buffer;
use qm_kinds::{Mark, NORMAL_STATUS, Place, Report, Work};
use std::alloc::{AllocError, Global};

// The mark that says how many blocks were printed.
fn mark_of(count: u32) -> Mark
    ensures { result ≡ decimal count }
{
    let mut buffer = Buffer::new();
    Mark::new(buffer.format(count).as_bytes()).unwrap()
}

// What is reported behind the block at a place: its mark, or the end of the run behind the last block.
fn report_behind(work: &Work, at: Place, behind: Cursor) -> Report
    requires limits { IsWithinLimits work.now }
    requires place { blocks_from work.now behind ≡ drop (at.at + 1) (page_blocks work.now) }
    ensures { result ≡ print_report (length (page_blocks work.now)) at.used (at.at + 1) }
{
    let _copies = work.copies;
    if behind.is_at_end(work) {
        return Report::Done {
            status: NORMAL_STATUS,
        };
    }
    let count = at.at + 1;
    Report::Mark {
        value: mark_of(count),
        next: Place {
            at: count,
            used: at.used,
        },
    }
}

/// Hands the next block of a print job to its device, where one is left, and tells what is reported then: the mark that
/// counts the blocks so far, or the end of the run with status 1 behind the last one. The cursor has to stand at the
/// place, and stands behind the block then.
///
/// Where the device fails the run ends with status `DEVICE_FAULT_STATUS`. At want of memory nothing was handed over, and
/// the cursor stands where it stood.
///
/// OpenVMS System Manager's Manual, Setting Up and Maintaining Queues, on symbionts and on jobs that restart at a
/// checkpoint.
pub fn print_step<P: Device>(
    alloc: Global,
    device: &mut P,
    work: &Work,
    at: Place,
    cursor: &mut Cursor,
) -> Result<Report, AllocError>
    requires limits { IsWithinLimits work.now }
    requires kind { work.now.kind ≡ Print }
    requires place { blocks_from work.now cursor.old ≡ drop at.at (page_blocks work.now) }
    ensures stepped { IfOk result (λ report.
        Steps P.meaning work.now at report device.old device.new) }
    ensures next_place { OnOk result (blocks_from work.now cursor.new
        ≡ drop (at.at + 1) (page_blocks work.now)) }
    ensures no_memory { OnErr result (device.new ≡ device.old) }
    ensures same_place { OnErr result (cursor.new ≡ cursor.old) }
{
    let Some(block) = next_block(alloc, work, cursor)? else {
        return Ok(Report::Done {
            status: NORMAL_STATUS,
        });
    };
    if device.hand(work.run, &work.device, &block).is_err() {
        return Ok(Report::Done {
            status: DEVICE_FAULT_STATUS,
        });
    }
    Ok(report_behind(work, at, *cursor))
}
