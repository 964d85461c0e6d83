// The items of a code.
ghost use Rattle.std.specs.Prelude.{◌≡◌, IfOk, option_copied};
ghost use Rattle.qm_values.specs.Looking.{value_in, is_given, characteristic_of, characteristics_in, target_of, targets_in, lists_in};

use crate::codes::{BYTES, CHARACTERISTIC, TARGET};
use crate::items::Item;
use crate::value::{reference_said, short_name_said};
use qm_kinds::{Name, NameOrNumber, Seq};
use std::alloc::{AllocError, Global};

/// What takes memory of the items of a call.
#[derive(Drop)]
pub struct Lists {
    /// The characteristics, where some are given, or where an empty item takes them away.
    pub characteristics: Option<Seq<NameOrNumber>>,
    /// The queues to which a generic queue passes its jobs on.
    pub targets: Seq<Name>,
    /// What is added to a file.
    pub bytes: Option<Seq<u8>>,
}

/// The value of the first item of a code.
pub(crate) fn value_in(items: &[Item], code: u16) -> Option<&[u8]>
    ensures { option_copied result ≡ value_in code items.now }
{
    let mut rest = items;
    while let [item, behind @ ..] = rest {
        if item.code == code {
            return Some(item.value.as_slice());
        }
        rest = behind;
    }
    None
}

/// Whether there is an item of a code.
pub fn is_given(items: &[Item], code: u16) -> bool
    ensures { result ≡ is_given code items.now }
{
    value_in(items, code).is_some()
}

// The characteristic that an item names.
fn characteristic_of(item: &Item) -> Option<NameOrNumber>
    ensures { result ≡ characteristic_of item.now }
{
    if item.code == CHARACTERISTIC {
        reference_said(item.value.as_slice())
    } else {
        None
    }
}

// The characteristics that items name.
fn characteristics_in(alloc: Global, items: &[Item]) -> Result<Seq<NameOrNumber>, AllocError>
    ensures { IfOk result (λ list. list ≡ characteristics_in items.now) }
{
    let mut found = Vec::new(alloc);
    let mut rest = items;
    while let [item, behind @ ..] = rest {
        if let Some(characteristic) = characteristic_of(item) {
            found.push(characteristic)?;
        }
        rest = behind;
    }
    Ok(Seq::of(found))
}

// The target that an item names.
fn target_of(item: &Item) -> Option<Name>
    ensures { result ≡ target_of item.now }
{
    if item.code == TARGET {
        short_name_said(item.value.as_slice())
    } else {
        None
    }
}

// The targets that items name.
fn targets_in(alloc: Global, items: &[Item]) -> Result<Seq<Name>, AllocError>
    ensures { IfOk result (λ list. list ≡ targets_in items.now) }
{
    let mut found = Vec::new(alloc);
    let mut rest = items;
    while let [item, behind @ ..] = rest {
        if let Some(name) = target_of(item) {
            found.push(name)?;
        }
        rest = behind;
    }
    Ok(Seq::of(found))
}

// The characteristics, if some are given.
fn characteristics_given(
    alloc: Global,
    items: &[Item],
) -> Result<Option<Seq<NameOrNumber>>, AllocError>
    ensures { IfOk result (λ list. list ≡ (lists_in items.now).characteristics) }
{
    if is_given(items, CHARACTERISTIC) {
        Ok(Some(characteristics_in(alloc, items)?))
    } else {
        Ok(None)
    }
}

// What is added to a file, if it is given.
fn bytes_given(alloc: Global, items: &[Item]) -> Result<Option<Seq<u8>>, AllocError>
    ensures { IfOk result (λ bytes. bytes ≡ (lists_in items.now).bytes) }
{
    match value_in(items, BYTES) {
        Some(value) => Ok(Some(Seq::of(Vec::from_slice(alloc, value)?))),
        None => Ok(None),
    }
}

/// What takes memory of the items of a call: in proportion to their bytes.
///
/// Errors: `AllocError`, where memory ran out.
pub fn lists_in(alloc: Global, items: &[Item]) -> Result<Lists, AllocError>
    ensures { IfOk result (λ lists. lists ≡ lists_in items.now) }
{
    Ok(Lists {
        characteristics: characteristics_given(alloc, items)?,
        targets: targets_in(alloc, items)?,
        bytes: bytes_given(alloc, items)?,
    })
}
