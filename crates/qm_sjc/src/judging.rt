// What is wrong with an item of a call.
ghost use Rattle.std.specs.Prelude.{◌≡◌, ◌==◌, ◌+◌, ◌<◌, ◌^◌, if◌then◌else◌, find, length};
ghost use Rattle.std.specs.List.{list_any};
ghost use Rattle.qm_values.specs.ItemText.{text};
ghost use Rattle.qm_sjc.specs.Judging.{field_in, count_in, is_spent, is_empty_beside, kind_of, first_fault};

use crate::fault::Fault;
use crate::fields::{Field, fields_of};
use qm_kinds::ParseKind;
use qm_values::codes::{CHARACTERISTIC, TARGET};
use qm_values::{Function, Holds, Item, is_held};

// How many items there are of the codes that may come again.
#[derive(Clone, Copy)]
struct Repeats {
    characteristics: usize,
    targets: usize,
}

// The item of a code, where it is among these.
fn field_among(fields: &[Field], code: u16) -> Option<Field>
    ensures { result ≡ find (λ field. field.0 == code) fields.now }
{
    fields.iter().copied().find(|field| field.0 == code)
}

// What value the item of a code has, where the function takes it.
fn field_in(function: Function, code: u16) -> Option<Holds>
    ensures { result ≡ field_in function code }
{
    let field = field_among(fields_of(function), code)?;
    Some(field.1)
}

// Whether there is an item of a code.
fn has_code(items: &[Item], code: u16) -> bool
    ensures { result ≡ list_any (λ item. item.code == code) items.now }
{
    items.iter().any(|item| item.code == code)
}

// How many items there are of a code.
fn count_in(items: &[Item], code: u16) -> usize
    ensures { result ≡ count_in code items.now }
{
    let mut count = 0;
    for item in items {
        if item.code == code {
            count += 1;
        }
    }
    count
}

// Whether no more items of a code may come behind these, of which so many are of the codes that may come again.
fn is_spent(before: &[Item], repeats: Repeats, code: u16) -> bool
    requires characteristics { repeats.characteristics ≡ count_in CHARACTERISTIC before.now }
    requires targets { repeats.targets ≡ count_in TARGET before.now }
    ensures { result ≡ is_spent before.now code }
{
    if code == CHARACTERISTIC {
        repeats.characteristics >= 65_535
    } else if code == TARGET {
        repeats.targets >= 65_535
    } else {
        has_code(before, code)
    }
}

// Whether an item takes away all characteristics, and stands beside another one.
fn is_empty_beside(all: &[Item], item: &Item) -> bool
    ensures { result ≡ is_empty_beside all.now item.now }
{
    item.code == CHARACTERISTIC && item.value.is_empty() && count_in(all, CHARACTERISTIC) > 1
}

// What is wrong with an item behind these of a list.
fn kind_of(
    function: Function,
    all: &[Item],
    before: &[Item],
    repeats: Repeats,
    item: &Item,
) -> Option<ParseKind>
    requires characteristics { repeats.characteristics ≡ count_in CHARACTERISTIC before.now }
    requires targets { repeats.targets ≡ count_in TARGET before.now }
    ensures { result ≡ kind_of all.now before.now item.now (field_in function item.now.code) }
{
    let Some(form) = field_in(function, item.code) else {
        return Some(ParseKind::Code);
    };
    if !is_held(form, item.value.as_slice()) || is_empty_beside(all, item) {
        Some(ParseKind::Value)
    } else if is_spent(before, repeats, item.code) {
        Some(ParseKind::Repeated)
    } else {
        None
    }
}

// With one more item.
fn counted(repeats: Repeats, item: &Item) -> Repeats
    requires characteristics { repeats.characteristics < 2 ^ 63 }
    requires targets { repeats.targets < 2 ^ 63 }
    ensures characteristics { result.characteristics
        ≡ repeats.characteristics + (if item.now.code == CHARACTERISTIC then 1 else 0) }
    ensures targets { result.targets
        ≡ repeats.targets + (if item.now.code == TARGET then 1 else 0) }
{
    Repeats {
        characteristics: repeats.characteristics + usize::from(item.code == CHARACTERISTIC),
        targets: repeats.targets + usize::from(item.code == TARGET),
    }
}

/// The first fault of the items of a call. It takes time in proportion to the bytes of the list, and no memory.
pub(crate) fn first_fault(function: Function, items: &[Item]) -> Option<Fault>
    requires { length (text items.now) < 2 ^ 64 }
    ensures { result ≡ first_fault function items.now }
{
    let mut place = 0;
    let mut repeats = Repeats {
        characteristics: 0,
        targets: 0,
    };
    for i in 0..items.len() {
        let item = &items[i];
        match kind_of(function, items, &items[..i], repeats, item) {
            Some(kind) => return Some(Fault { place, kind }),
            None => {}
        }
        repeats = counted(repeats, item);
        place += 4 + item.value.len();
    }
    None
}
