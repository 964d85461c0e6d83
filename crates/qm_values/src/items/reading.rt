// How a list of items is read, item by item.
ghost use Rattle.std.specs.Prelude.{◌≡◌, ◌+◌, ◌≤◌, length, drop, take, All, IfOk, IfErr};
ghost use Rattle.qm_values.specs.ItemText.{list_text, CanStand};
ghost use Rattle.qm_values.specs.ItemFaults.{IsFault};
ghost use Rattle.qm_values.specs.ItemHeads.{HeadAt};

use crate::items::fault::ItemFault;
use crate::items::item::Item;
use qm_kinds::Seq;
use std::alloc::{AllocError, Global};

// What stands at a place: the end of the list, or an item with a value of so many bytes.
#[derive(Clone, Copy)]
pub(crate) enum Head {
    End,
    Item { code: u16, count: u16 },
}

// What stands at a place.
fn read_head(bytes: &[u8], place: usize) -> Result<Head, ItemFault>
    requires { place ≤ length bytes.now }
    ensures { HeadAt (drop place bytes.now) place result }
{
    match &bytes[place..] {
        [] => Err(ItemFault::NoEnd { place }),
        [a, b, c, d, behind @ ..] => {
            let count = u16::from_le_bytes([*a, *b]);
            let code = u16::from_le_bytes([*c, *d]);
            if count == 0 && code == 0 {
                Ok(Head::End)
            } else if usize::from(count) > behind.len() {
                Err(ItemFault::Cut { place })
            } else {
                Ok(Head::Item { code, count })
            }
        }
        _ => Err(ItemFault::Cut { place }),
    }
}

// The item of this code whose value is so many bytes from a place on. The value is copied once.
fn item_at(
    alloc: Global,
    bytes: &[u8],
    place: usize,
    code: u16,
    count: usize,
) -> Result<Item, AllocError>
    requires { place + count ≤ length bytes.now }
    ensures code { IfOk result (λ item. item.code ≡ code) }
    ensures value { IfOk result (λ item. item.value ≡ take count (drop place bytes.now)) }
{
    let value = Vec::from_slice(alloc, &bytes[place..place + count])?;
    Ok(Item {
        code,
        value: Seq::of(value),
    })
}

/// The items of the list that the bytes are, in their order; or the first fault. It takes memory in proportion to the bytes.
///
/// OpenVMS System Services Reference Manual, $SNDJBC and $GETQUI, on item lists.
pub fn read_items(alloc: Global, bytes: &[u8]) -> Result<Vec<Item>, ItemFault>
    ensures list { IfOk result (λ items. bytes.now ≡ list_text items.items) }
    ensures each { IfOk result (λ items. All CanStand items.items) }
    ensures fault { IfErr result (IsFault bytes.now) }
{
    let mut items = Vec::new(alloc);
    let mut place = 0;
    'items: while let Head::Item { code, count } = read_head(bytes, place)? {
        let count = usize::from(count);
        items.push(item_at(alloc, bytes, place + 4, code, count)?)?;
        place += 4 + count;
    }
    let end = place + 4;
    if end < bytes.len() {
        return Err(ItemFault::After { place: end });
    }
    Ok(items)
}
