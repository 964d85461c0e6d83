// The records of requests about entries that are there.
ghost use Rattle.std.specs.Prelude.{◌≡◌, ◌++◌, OnOk};
ghost use Rattle.qm_bytes.specs.Reading.{GivesKept};
ghost use Rattle.qm_record.specs.Spelling.{entry_change, changed_text, EntryChangeFits, IsEntryNumber, IsShortEntryChange};
ghost use Rattle.qm_record.specs.Reading.{entry_change_at, set_entry_at, delete_entry_at};

use crate::element::{put_optional, put_optional_list, read_optional, read_optional_list};
use qm_bytes::{BadField, Width, put_number, put_truth, read_number, read_truth};
use qm_kinds::{Body, EntryChange, Request};
use std::alloc::{AllocError, Global};

// Appends what is changed of an entry.
fn put_entry_change(out: &mut Vec<u8>, change: &EntryChange) -> Result<(), AllocError>
    requires { IsShortEntryChange change.now }
    ensures ok { OnOk result (out.new.items ≡ out.old.items ++ entry_change change.now) }
    ensures lawful { OnOk result (EntryChangeFits change.now) }
{
    put_truth(out, change.release)?;
    put_truth(out, change.hold)?;
    put_optional(out, &change.after)?;
    put_optional(out, &change.priority)?;
    put_optional(out, &change.name)?;
    put_optional_list(out, &change.characteristics)?;
    put_optional(out, &change.form)?;
    put_optional(out, &change.queue)?;
    put_optional(out, &change.restart)?;
    put_optional(out, &change.retain)?;
    Ok(())
}

/// Appends the number of an entry, and what is changed of it.
pub(crate) fn put_set_entry(
    out: &mut Vec<u8>,
    entry: u32,
    change: &EntryChange,
) -> Result<(), AllocError>
    requires { IsShortEntryChange change.now }
    ensures ok { OnOk result (out.new.items ≡ out.old.items ++ changed_text entry change.now) }
    ensures entry { OnOk result (IsEntryNumber entry) }
    ensures change { OnOk result (EntryChangeFits change.now) }
{
    put_number(out, Width::Four, u64::from(entry))?;
    put_entry_change(out, change)
}

// Reads what is changed of an entry.
#[tactic(auto, unfolding(crate::specs::Reading::entry_change_at))]
fn read_entry_change(
    alloc: Global,
    bytes: &mut &[u8],
) -> Result<Result<EntryChange, AllocError>, BadField>
    ensures { GivesKept result bytes.new.now (entry_change_at bytes.old.now) }
{
    let release = read_truth(bytes)?;
    let hold = read_truth(bytes)?;
    let after = read_optional(bytes)?;
    let priority = read_optional(bytes)?;
    let name = read_optional(bytes)?;
    let characteristics = read_optional_list(alloc, bytes)?;
    let form = read_optional(bytes)?;
    let queue = read_optional(bytes)?;
    let restart = read_optional(bytes)?;
    let retain = read_optional(bytes)?;
    match characteristics {
        Ok(characteristics) => Ok(Ok(EntryChange {
            release,
            hold,
            after,
            priority,
            name,
            characteristics,
            form,
            queue,
            restart,
            retain,
        })),
        Err(fault) => Ok(Err(fault)),
    }
}

/// Reads the fields of a request to change an entry.
#[tactic(auto, unfolding(crate::specs::Reading::set_entry_at))]
#[inline(never)]
pub(crate) fn read_set_entry(
    alloc: Global,
    bytes: &mut &[u8],
) -> Result<Result<Body, AllocError>, BadField>
    ensures { GivesKept result bytes.new.now (set_entry_at bytes.old.now) }
{
    let entry = read_number(bytes, Width::Four)?;
    match read_entry_change(alloc, bytes)? {
        Ok(change) => Ok(Ok(Body::Ask(Request::SetEntry {
            entry: entry as u32,
            change,
        }))),
        Err(fault) => Ok(Err(fault)),
    }
}

/// Reads the fields of a request to delete an entry.
#[tactic(auto, unfolding(crate::specs::Reading::delete_entry_at))]
#[inline(never)]
pub(crate) fn read_delete_entry(bytes: &mut &[u8]) -> Result<Result<Body, AllocError>, BadField>
    ensures { GivesKept result bytes.new.now (delete_entry_at bytes.old.now) }
{
    let entry = read_number(bytes, Width::Four)?;
    Ok(Ok(Body::Ask(Request::DeleteEntry {
        entry: entry as u32,
    })))
}
