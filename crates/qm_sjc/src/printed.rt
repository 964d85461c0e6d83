// How a row is printed for a call that asks for rows one by one.
ghost use Rattle.std.specs.Prelude.{◌≡◌, IfOk, string_bytes};
ghost use Rattle.qm_sjc.specs.Printed.{items_line};

use crate::rows::row_items;
use qm_kinds::Row;
use qm_values::write_items;
use std::alloc::{AllocError, Global};

/// The list of a row's items in hexadecimal, two digits a byte, with small letters.
pub fn row_line(alloc: Global, row: &Row) -> Result<String, AllocError>
    ensures { IfOk result (λ line. string_bytes line ≡ items_line row.now) }
{
    let items = row_items(alloc, row)?;
    let bytes = write_items(alloc, &items)?;
    hex::encode(alloc, bytes.as_slice())
}
