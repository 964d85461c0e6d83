// The items of a row.
ghost use Rattle.std.specs.Prelude.{◌≡◌, ◌<◌, ◌^◌, ◌++◌, ◌∷◌, [], length, All, IfOk, OnOk};
ghost use Rattle.std.specs.Int.{to_le_bytes, w64};
ghost use Rattle.qm_values.specs.ItemText.{CanStand};
ghost use Rattle.qm_model.specs.Standing.{stands_in};
ghost use Rattle.qm_sjc.specs.Rows.{entry_state_code, item, items_of, queue_kind_code, queue_state_code};

use qm_kinds::{Entry, EntryState, Form, Name, Queue, QueueKind, QueueState, Row, Seq};
use qm_values::Item;
use qm_values::codes::*;
use std::alloc::{AllocError, Global};

// The number of a kind of queue.
fn queue_kind_code(kind: QueueKind) -> u8
    ensures { result ≡ queue_kind_code kind }
{
    match kind {
        QueueKind::Batch => 1,
        QueueKind::Print => 2,
        QueueKind::GenericBatch => 3,
        QueueKind::GenericPrint => 4,
    }
}

// The number of a queue's state.
fn queue_state_code(state: QueueState) -> u8
    ensures { result ≡ queue_state_code state }
{
    match state {
        QueueState::Stopped => 1,
        QueueState::Started => 2,
        QueueState::Paused => 3,
        QueueState::Stopping => 4,
    }
}

// The number of an entry's state.
fn entry_state_code(state: &EntryState) -> u8
    ensures { result ≡ entry_state_code state.now }
{
    match state {
        EntryState::Pending => 1,
        EntryState::Holding => 2,
        EntryState::Timed { .. } => 3,
        EntryState::Running { .. } => 4,
        EntryState::Aborting { .. } => 5,
        EntryState::Retained { .. } => 6,
    }
}

// The queue in which an entry stands: the one where it runs, while its run lasts, or else its home.
fn stands_in(entry: &Entry) -> &Name
    ensures { result.now ≡ stands_in entry.now }
{
    match &entry.state {
        EntryState::Running { queue, .. } | EntryState::Aborting { queue, .. } => queue,
        _ => &entry.home,
    }
}

// Puts an item behind the others, each of which can stand in a list.
fn push(alloc: Global, items: &mut Vec<Item>, code: u16, value: &[u8]) -> Result<(), AllocError>
    requires coded { 0 < code }
    requires short { length value.now < 2 ^ 16 }
    requires stand { All CanStand items.old.items }
    ensures put { OnOk result (items.new.items ≡ items.old.items ++ item code value.now ∷ []) }
    ensures stand { OnOk result (All CanStand items.new.items) }
{
    let value = Seq::of(Vec::from_slice(alloc, value)?);
    items.push(Item { code, value })?;
    Ok(())
}

// The items of a queue: its name, its kind and its state.
fn queue_items(alloc: Global, queue: &Queue) -> Result<Vec<Item>, AllocError>
    ensures items { IfOk result (λ items. items.items ≡ items_of (Row.Queue queue.now)) }
    ensures stand { IfOk result (λ items. All CanStand items.items) }
{
    let mut items = Vec::with_capacity(alloc, 3)?;
    push(alloc, &mut items, QUEUE, queue.name.as_bytes())?;
    push(alloc, &mut items, KIND, &[queue_kind_code(queue.kind)])?;
    push(alloc, &mut items, STATE, &[queue_state_code(queue.state)])?;
    Ok(items)
}

// The items of an entry: its number, the queue where it stands, its name, its priority and its state.
fn entry_items(alloc: Global, entry: &Entry) -> Result<Vec<Item>, AllocError>
    ensures items { IfOk result (λ items. items.items ≡ items_of (Row.Entry entry.now)) }
    ensures stand { IfOk result (λ items. All CanStand items.items) }
{
    let mut items = Vec::with_capacity(alloc, 5)?;
    push(alloc, &mut items, ENTRY, &entry.number.to_le_bytes())?;
    push(alloc, &mut items, QUEUE, stands_in(entry).as_bytes())?;
    push(alloc, &mut items, JOB_NAME, entry.name.as_bytes())?;
    push(alloc, &mut items, PRIORITY, &[entry.priority])?;
    push(alloc, &mut items, STATE, &[entry_state_code(&entry.state)])?;
    Ok(items)
}

// The items of a form: its name, its number and its stock.
fn form_items(alloc: Global, form: &Form) -> Result<Vec<Item>, AllocError>
    ensures items { IfOk result (λ items. items.items ≡ items_of (Row.Form form.now)) }
    ensures stand { IfOk result (λ items. All CanStand items.items) }
{
    let mut items = Vec::with_capacity(alloc, 3)?;
    push(alloc, &mut items, NAME, form.name.as_bytes())?;
    push(alloc, &mut items, NUMBER, &form.number.to_le_bytes())?;
    push(alloc, &mut items, STOCK, form.stock.as_bytes())?;
    Ok(items)
}

// The items of a name and a number of eight bits, as a characteristic has them.
fn characteristic_items(alloc: Global, name: &Name, number: u8) -> Result<Vec<Item>, AllocError>
    ensures items { IfOk result (λ items. items.items
        ≡ items_of (Row.Characteristic (record { name = name.now; number = number }))) }
    ensures stand { IfOk result (λ items. All CanStand items.items) }
{
    let mut items = Vec::with_capacity(alloc, 2)?;
    push(alloc, &mut items, NAME, name.as_bytes())?;
    push(alloc, &mut items, NUMBER, &u16::from(number).to_le_bytes())?;
    Ok(items)
}

// The items of the queue manager: its node and its epoch.
fn manager_items(alloc: Global, node: &Name, epoch: u64) -> Result<Vec<Item>, AllocError>
    ensures items { IfOk result (λ items. items.items
        ≡ item NODE node.now ∷ item EPOCH (to_le_bytes w64 epoch) ∷ []) }
    ensures stand { IfOk result (λ items. All CanStand items.items) }
{
    let mut items = Vec::with_capacity(alloc, 2)?;
    push(alloc, &mut items, NODE, node.as_bytes())?;
    push(alloc, &mut items, EPOCH, &epoch.to_le_bytes())?;
    Ok(items)
}

/// The items of a row, as a call that asks for rows one by one is answered: of a queue QUEUE, KIND and STATE; of an entry ENTRY,
/// QUEUE, which is where it stands, JOB_NAME, PRIORITY and STATE; of a form NAME, NUMBER and STOCK; of a characteristic NAME and NUMBER;
/// of the queue manager NODE and EPOCH. A kind is 1 to 4 and a state 1 to 4, of an entry 1 to 6, in the order of the variants.
///
/// OpenVMS System Services Reference Manual, $GETQUI, on output items.
pub fn row_items(alloc: Global, row: &Row) -> Result<Vec<Item>, AllocError>
    ensures items { IfOk result (λ items. items.items ≡ items_of row.now) }
    ensures stand { IfOk result (λ items. All CanStand items.items) }
{
    match row {
        Row::Queue(queue) => queue_items(alloc, queue.get()),
        Row::Entry(entry) => entry_items(alloc, &entry.entry()),
        Row::Form(form) => form_items(alloc, form),
        Row::Characteristic(one) => characteristic_items(alloc, &one.name, one.number),
        Row::Manager { node, epoch, .. } => manager_items(alloc, node, *epoch),
    }
}
