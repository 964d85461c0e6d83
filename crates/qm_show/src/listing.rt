// The lines of a listing that no turn is told with.
ghost use Rattle.std.specs.Prelude.{◌≡◌, IfOk};
ghost use Rattle.qm_history.specs.Ends.{lines_text};
ghost use Rattle.qm_model.specs.Transcript.{row_lines};

use crate::answer::push_rows;
use qm_rows::Rows;
use std::alloc::{AllocError, Global};

/// The lines of a listing, with nothing in front of them: how many rows there are, and the rows. Memory may run out.
pub fn show_rows(alloc: Global, rows: &Rows) -> Result<Vec<u8>, AllocError>
    ensures { IfOk result (λ text. text.items ≡ lines_text (row_lines rows.now)) }
{
    let mut text = Vec::new(alloc);
    push_rows(&mut text, "", rows)?;
    Ok(text)
}
