// All rows of a listing.
ghost use Rattle.std.specs.Prelude.{◌≡◌, ◌++◌, IfOk, OnOk};
ghost use Rattle.qm_tables.specs.Boxed.{contents};
ghost use Rattle.qm_model.specs.Common.{System, IsInOrder, name_cmp};
ghost use Rattle.qm_model.specs.Rows.{all_rows};
ghost use Rattle.qm_parts.specs.Tables.{with_tables};
ghost use Rattle.qm_scan.specs.Listed.{listed_characteristic_rows, listed_entry_rows, listed_form_rows, listed_rows_below, row_if_listed};

use crate::below::groups_of;
use crate::group::Group;
use crate::listed::{is_entry_listed, is_named, is_queue_listed};
use qm_kinds::{
    Boxed, Characteristic, Entry, Form, ListedEntry, Listing, Name, Pattern, Query, Queue, Row,
};
use qm_parts::Parts;
use qm_rows::{Part, Rows};
use std::alloc::{AllocError, Global};

/// A copy of a queue, in memory of its own.
pub(crate) fn copy_of(alloc: Global, queue: &Queue) -> Result<Boxed<Queue>, AllocError>
    ensures { IfOk result (λ copy. copy ≡ queue.now) }
{
    Boxed::new(alloc, queue.copy(alloc)?)
}

// The rows of groups, as the parts of a listing.
fn parts_of(alloc: Global, groups: Vec<Group>) -> Result<Vec<Part>, AllocError>
    ensures { IfOk result (λ parts. parts.items ≡ groups.items) }
{
    let mut parts = Vec::with_capacity(alloc, groups.len())?;
    for group in groups {
        parts.push(group.into_part()?)?;
    }
    Ok(parts)
}

// The rows of the listed queues, below each the entries that are listed there.
fn queue_rows(
    alloc: Global,
    query: &Query,
    queues: &[Queue],
    entries: &[Box<Entry>],
    tags: &[u16],
) -> Result<Rows, AllocError>
    requires { IsInOrder name_cmp (λ q. q.name) queues.now }
    ensures { IfOk result (λ rows. rows
        ≡ listed_rows_below query.now (contents entries.now) queues.now) }
{
    let groups = groups_of(alloc, queues, query, entries, tags)?;
    let parts = parts_of(alloc, groups)?;
    Ok(Rows::of_parts(parts))
}

// Whether all entries are listed.
fn are_all_listed(query: &Query, queue: &Option<Name>) -> bool {
    queue.is_none() && query.user.is_none() && query.pattern.as_bytes() == b"*".as_slice()
}

// Puts the row of an entry behind the others, if it is listed.
fn push_listed(
    alloc: Global,
    query: &Query,
    queue: &Option<Name>,
    rows: &mut Vec<Row>,
    entry: &Entry,
) -> Result<(), AllocError>
    ensures { OnOk result (rows.new.items
        ≡ rows.old.items ++ row_if_listed query.now queue.now entry.now) }
{
    if !is_entry_listed(query, queue, entry) {
        return Ok(());
    }
    rows.push(Row::Entry(ListedEntry::of(alloc, entry)?))?;
    Ok(())
}

// The rows of the entries that are listed, of all queues or of one. Where all are, their room is taken at once.
fn entry_rows(
    alloc: Global,
    query: &Query,
    queue: &Option<Name>,
    entries: &[Box<Entry>],
) -> Result<Vec<Row>, AllocError>
    ensures { IfOk result (λ rows. rows.items
        ≡ listed_entry_rows query.now queue.now (contents entries.now)) }
{
    let room = if are_all_listed(query, queue) {
        entries.len()
    } else {
        0
    };
    let mut rows = Vec::with_capacity(alloc, room)?;
    for boxed in entries {
        push_listed(alloc, query, queue, &mut rows, boxed.as_ref())?;
    }
    Ok(rows)
}

// The rows of the forms whose names match.
fn form_rows(alloc: Global, pattern: &Pattern, forms: &[Form]) -> Result<Vec<Row>, AllocError>
    ensures { IfOk result (λ rows. rows.items ≡ listed_form_rows pattern.now forms.now) }
{
    let mut rows = Vec::with_capacity(alloc, forms.len())?;
    for form in forms {
        if is_named(pattern, &form.name) {
            rows.push(Row::Form(*form))?;
        }
    }
    Ok(rows)
}

// The rows of the characteristics whose names match.
fn characteristic_rows(
    alloc: Global,
    pattern: &Pattern,
    characteristics: &[Characteristic],
) -> Result<Vec<Row>, AllocError>
    ensures { IfOk result (λ rows. rows.items
        ≡ listed_characteristic_rows pattern.now characteristics.now) }
{
    let mut rows = Vec::with_capacity(alloc, characteristics.len())?;
    for characteristic in characteristics {
        if is_named(pattern, &characteristic.name) {
            rows.push(Row::Characteristic(*characteristic))?;
        }
    }
    Ok(rows)
}

/// All rows of a listing but those of the queue manager: of queues each with the entries below it, and of entries, forms and
/// characteristics those that are listed. Below a queue its entries stand by number.
///
/// It walks over the entries once, in order, and takes memory for each row: no more than 1 KiB a row, and what the names of a generic
/// queue's targets take.
pub fn all_rows(alloc: Global, parts: &Parts, query: &Query) -> Result<Rows, AllocError>
    ensures { (s : System) → IfOk result (λ rows. rows
        ≡ all_rows (with_tables s parts.now) query.now query.now.listing) }
{
    let rows = match query.listing {
        Listing::Queues => {
            return queue_rows(alloc, query, parts.queues(), parts.entries(), parts.tags());
        }
        Listing::Jobs => entry_rows(alloc, query, &query.queue, parts.entries())?,
        Listing::Entries => entry_rows(alloc, query, &None, parts.entries())?,
        Listing::Forms => form_rows(alloc, &query.pattern, parts.forms())?,
        Listing::Characteristics => {
            characteristic_rows(alloc, &query.pattern, parts.characteristics())?
        }
        Listing::Manager | Listing::Cancel => return Ok(Rows::new(alloc)),
    };
    Rows::of(alloc, rows)
}
