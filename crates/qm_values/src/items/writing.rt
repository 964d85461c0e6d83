// How a list of items is written.
ghost use Rattle.std.specs.Prelude.{◌≡◌, ◌<◌, ◌^◌, ◌++◌, length, All, IfOk, OnOk};
ghost use Rattle.qm_values.specs.ItemText.{item_text, list_text, CanStand};

use crate::items::item::Item;
use std::alloc::{AllocError, Global};

// Appends an item.
#[tactic(auto, unfolding(crate::specs::ItemText::item_text))]
fn put_item(out: &mut Vec<u8>, item: &Item) -> Result<(), AllocError>
    requires { length item.now.value < 2 ^ 16 }
    ensures { OnOk result (out.new.items ≡ out.old.items ++ item_text item.now) }
{
    let count = item.value.len() as u16;
    out.extend_from_slice(&count.to_le_bytes())?;
    out.extend_from_slice(&item.code.to_le_bytes())?;
    out.extend_from_slice(item.value.as_slice())?;
    Ok(())
}

/// The one spelling of a list of these items, which reads back to them: each item has a value of at most 65,535 bytes, and one
/// without a value has a code other than 0.
pub fn write_items(alloc: Global, items: &[Item]) -> Result<Vec<u8>, AllocError>
    requires { All CanStand items.now }
    ensures { IfOk result (λ text. text.items ≡ list_text items.now) }
{
    let mut out = Vec::new(alloc);
    for item in items {
        put_item(&mut out, item)?;
    }
    out.extend_from_slice(&[0; 4])?;
    Ok(out)
}
