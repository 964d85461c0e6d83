// Where a run of a print job begins, and its cursor there. Both look through the text once.
ghost use Rattle.std.specs.Prelude.{◌≡◌, ◌<◌, ◌≤◌, ◌+◌, ◌*◌, ◌^◌, length, drop, map};
ghost use Rattle.qm_kinds.specs.declared.entry.JobKind.TheVariants.{Print};
ghost use Rattle.qm_model.specs.Pages.{page_blocks, text_blocks};
ghost use Rattle.qm_model.specs.Reports.{begin, printed};
ghost use Rattle.qm_symb.specs.Symbiont.{IsWithinLimits};
ghost use Rattle.qm_symb.specs.PagePlaces.{blocks_from};

use crate::print::cursor::Cursor;
use crate::print::page::behind_page;
use qm_kinds::{Place, Shape, Work};
use qm_time::number_up_to;

// How many pages a text has.
fn pages_of(shape: Shape, text: &[u8]) -> usize
    requires rows { shape.top + shape.bottom < shape.length }
    requires columns { shape.left + shape.right < shape.width }
    ensures count { result ≡ length (text_blocks shape text.now) }
    ensures few { result ≤ length text.now }
{
    let mut pages = 0;
    let mut at = 0;
    while at < text.len() {
        at += behind_page(shape, &text[at..]);
        pages += 1;
    }
    pages
}

// How many blocks a job has.
fn count_blocks(work: &Work) -> u32
    requires { IsWithinLimits work.now }
    ensures { result ≡ length (page_blocks work.now) }
{
    let pages = pages_of(work.shape, work.text.as_slice());
    work.flag as u32 + work.copies as u32 * pages as u32
}

// How many blocks were printed, as a mark says: digits alone, that aren't more than there are blocks. Any other mark
// says none.
fn printed(blocks: u32, mark: &[u8]) -> u32
    ensures { result ≡ printed blocks mark.now }
{
    match number_up_to(blocks as u64, mark) {
        Some(count) => count as u32,
        None => 0,
    }
}

/// The place where a run of a print job begins: behind as many blocks as its mark says. It takes no memory.
///
/// OpenVMS System Manager's Manual, Setting Up and Maintaining Queues, on jobs that restart at a checkpoint.
pub fn print_begin(work: &Work) -> Place
    requires limits { IsWithinLimits work.now }
    requires kind { work.now.kind ≡ Print }
    ensures { result ≡ begin work.now }
{
    Place {
        at: printed(count_blocks(work), work.mark.as_bytes()),
        used: 0,
    }
}

/// The cursor behind so many blocks of a print job. It takes no memory.
pub fn cursor_behind(work: &Work, blocks: u32) -> Cursor
    requires { IsWithinLimits work.now }
    ensures { blocks_from work.now result ≡ drop blocks (page_blocks work.now) }
{
    let mut cursor = Cursor::start(work);
    for count in 0..blocks {
        match cursor.behind_block(work) {
            Some(behind) => cursor = behind,
            None => return cursor,
        }
    }
    cursor
}
