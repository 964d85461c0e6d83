// All blocks of a print job at once.
ghost use Rattle.std.specs.Prelude.{◌≡◌, map, IfOk};
ghost use Rattle.qm_model.specs.Pages.{page_blocks};
ghost use Rattle.qm_symb.specs.Symbiont.{IsWithinLimits};

use crate::print::cursor::{Cursor, next_block};
use qm_kinds::Work;
use std::alloc::{AllocError, Global};

/// The blocks of a print job, in order: one flag page, where the job asks for it, and its pages as often as there are
/// copies. Memory may run out.
///
/// OpenVMS System Manager's Manual, Setting Up and Maintaining Queues, on forms, page overflow and flag pages.
pub fn page_blocks(alloc: Global, work: &Work) -> Result<Vec<Vec<u8>>, AllocError>
    requires { IsWithinLimits work.now }
    ensures { IfOk result (λ blocks. map (λ block. block.items) blocks.items
        ≡ page_blocks work.now) }
{
    let mut blocks = Vec::new(alloc);
    let mut cursor = Cursor::start(work);
    while let Some(block) = next_block(alloc, work, &mut cursor)? {
        blocks.push(block)?;
    }
    Ok(blocks)
}
