// Item lists as bytes: what a function asks for with the items of which they are a list.
ghost use Rattle.std.specs.Prelude.{◌≡◌, ◌<◌, ◌^◌, ℕ, List, All, Ok, Err, Some, IfOk, length};
ghost use Rattle.qm_values.specs.declared.items.fault.ItemFault.{ItemFault as AnyFault};
ghost use Rattle.qm_values.specs.declared.items.item.Item.{Item as AnyItem};
ghost use Rattle.qm_values.specs.ItemFaults.{IsFault};
ghost use Rattle.qm_values.specs.ItemText.{list_text, text, CanStand};
ghost use Rattle.qm_sjc.specs.declared.fault.Fault.{Fault as AnyCallFault};
ghost use Rattle.qm_sjc.specs.Calls.{call_of};
ghost use Rattle.qm_sjc.specs.Meant.{items_mean, items_read, list_fault, or_fault};

use crate::call::read_call;
use crate::fault::{CallFault, Fault};
use qm_kinds::{Input, Name, ParseKind};
use qm_values::{Item, ItemFault, read_items};
use std::alloc::{AllocError, Global};

/// Bytes are read as the items of which they are a list, and others have their one fault.
pub fn lists_are_read()
    ensures items { (items : List AnyItem) → All CanStand items
        → items_read (list_text items) ≡ Ok items }
    ensures fault { (bytes : List ℕ) (fault : AnyFault) (told : AnyCallFault) → IsFault bytes fault
        → list_fault fault ≡ Some told → items_read bytes ≡ Err told }
{}

// Why bytes are no list, as it is told.
fn list_fault(fault: ItemFault) -> Option<Fault>
    ensures { result ≡ list_fault fault }
{
    let (place, kind) = match fault {
        ItemFault::Cut { place } => (place, ParseKind::Cut),
        ItemFault::NoEnd { place } => (place, ParseKind::NoEnd),
        ItemFault::After { place } => (place, ParseKind::After),
        ItemFault::NoMemory => return None,
    };
    Some(Fault { place, kind })
}

// What bytes ask for that are no list.
#[tactic(auto, using(crate::proofs::ListsRead::fault_told))]
fn no_list(function: u16, bytes: &[u8], user: Name, fault: ItemFault) -> Result<Input, AllocError>
    requires { IsFault bytes.now fault }
    ensures { IfOk result (λ input. input ≡ items_mean function bytes.now user) }
{
    match list_fault(fault) {
        Some(Fault { place, kind }) => Ok(Input::Fault { place, kind }),
        None => Err(AllocError),
    }
}

// What the call of a function asks for, a fault of it included.
fn call_meant(alloc: Global, function: u16, items: &[Item], user: Name) -> Result<Input, AllocError>
    requires { length (text items.now) < 2 ^ 64 }
    ensures { IfOk result (λ input. input ≡ or_fault (call_of user function items.now)) }
{
    match read_call(alloc, function, items, user) {
        Ok(input) => Ok(input),
        Err(CallFault::At { place, kind }) => Ok(Input::Fault { place, kind }),
        Err(CallFault::NoMemory) => Err(AllocError),
    }
}

/// What the bytes of an item list mean in the call of this function by this user: what `read_call` reads of its items, or the first
/// fault at its place, of which one of the list itself comes before one of the call. It takes memory in proportion to the bytes.
///
/// OpenVMS System Services Reference Manual, $SNDJBC and $GETQUI, on item lists.
#[tactic(auto, using(crate::proofs::ListsRead::list_meant, crate::proofs::ListsRead::text_short))]
pub fn read_item_list(
    alloc: Global,
    function: u16,
    bytes: &[u8],
    user: Name,
) -> Result<Input, AllocError>
    ensures { IfOk result (λ input. input ≡ items_mean function bytes.now user) }
{
    match read_items(alloc, bytes) {
        Ok(items) => call_meant(alloc, function, &items, user),
        Err(fault) => no_list(function, bytes, user, fault),
    }
}
