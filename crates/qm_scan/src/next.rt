// The first row of a listing behind the one that was given last.
ghost use Rattle.std.specs.Prelude.{◌≡◌, find, IfOk, IsSome, None, OnErr, Some, option_copied};
ghost use Rattle.qm_tables.specs.Boxed.{contents};
ghost use Rattle.qm_tables.specs.Tags.{tags_of};
ghost use Rattle.qm_kinds.specs.declared.query.Row.TheVariants as row;
ghost use Rattle.qm_model.specs.Common.{System, IsInOrder, name_cmp};
ghost use Rattle.qm_model.specs.Rows.{next_row};
ghost use Rattle.qm_parts.specs.Tables.{with_tables};
ghost use Rattle.qm_scan.specs.Listed.{is_behind, is_entry_listed, is_listed_at_home, is_queue_listed, listed_characteristic_rows, listed_entry_rows, listed_form_rows, listed_queue_rows, row_asked, next_at_home, next_characteristic, next_entry, next_form, next_queue};

use crate::all::copy_of;
use crate::listed::{is_entry_listed, is_listed_at_home, is_named, is_queue_listed};
use crate::places::{entries_behind, place_behind, queues_behind};
use qm_kinds::{After, Characteristic, Entry, Form, ListedEntry, Listing, Name, Query, Queue, Row};
use qm_parts::{Parts, see_entries};
use qm_tables::home_tag;
use std::alloc::{AllocError, Global};

// Whether a form of a number stands behind the row that was given last, if one was.
fn is_form_behind(last: &Option<After>, form: &Form) -> bool
    ensures { result ≡ is_behind last.now (row.Form form.now) }
{
    match last {
        None => true,
        Some(After::Name(_)) => false,
        Some(After::Number(number)) => *number < u32::from(form.number),
    }
}

// Whether a characteristic of a number stands behind the row that was given last, if one was.
fn is_characteristic_behind(last: &Option<After>, characteristic: &Characteristic) -> bool
    ensures { result ≡ is_behind last.now (row.Characteristic characteristic.now) }
{
    match last {
        None => true,
        Some(After::Name(_)) => false,
        Some(After::Number(number)) => *number < u32::from(characteristic.number),
    }
}

// The first of these queues that is listed.
fn first_queue<'a>(query: &Query, queues: &'a [Queue]) -> Option<&'a Queue>
    ensures { option_copied result ≡ find (is_queue_listed query.now) queues.now }
{
    queues.iter().find(|queue| is_queue_listed(query, queue))
}

// The first queue behind the last row that is listed.
fn next_queue<'a>(query: &Query, queues: &'a [Queue]) -> Option<&'a Queue>
    requires { IsInOrder name_cmp (λ q. q.name) queues.now }
    ensures { option_copied result ≡ next_queue query.now queues.now }
{
    first_queue(query, queues_behind(&query.after, queues))
}

// The first form behind the last row whose name matches.
fn next_form<'a>(query: &Query, forms: &'a [Form]) -> Option<&'a Form>
    ensures { option_copied result ≡ next_form query.now forms.now }
{
    forms.iter().find(|form| is_form_behind(&query.after, form)
        && is_named(&query.pattern, &form.name))
}

// The first characteristic behind the last row whose name matches.
fn next_characteristic<'a>(
    query: &Query,
    defined: &'a [Characteristic],
) -> Option<&'a Characteristic>
    ensures { option_copied result ≡ next_characteristic query.now defined.now }
{
    defined.iter().find(|one| is_characteristic_behind(&query.after, one)
        && is_named(&query.pattern, &one.name))
}

// The first of these entries that is listed, of all queues or of one.
fn first_listed<'a>(
    query: &Query,
    queue: &Option<Name>,
    entries: &'a [Box<Entry>],
) -> Option<&'a Entry>
    ensures { option_copied result
        ≡ find (is_entry_listed query.now queue.now) (contents entries.now) }
{
    for boxed in entries {
        let entry = boxed.as_ref();
        if is_entry_listed(query, queue, entry) {
            return Some(entry);
        }
    }
    None
}

// The first of these entries that is listed, of those that have this queue as their home. An entry lies in a box of its own, far
// from the others, and is looked at only where its tag is that of the queue: the tags lie one behind another.
fn first_at_home<'a>(
    query: &Query,
    queue: &Name,
    entries: &'a [Box<Entry>],
    tags: &[u16],
) -> Option<&'a Entry>
    requires { tags.now ≡ tags_of (contents entries.now) }
    ensures { option_copied result
        ≡ find (is_listed_at_home query.now queue.now) (contents entries.now) }
{
    let wanted = home_tag(queue);
    for place in 0..entries.len() {
        if tags[place] != wanted {
            continue;
        }
        let entry = entries[place].as_ref();
        if is_listed_at_home(query, queue, entry) {
            return Some(entry);
        }
    }
    None
}

// The first entry behind the last row that is listed, of all queues.
fn next_of_all<'a>(query: &Query, parts: &'a Parts) -> Option<&'a Entry>
    ensures { option_copied result ≡ next_entry query.now None parts.now.entries }
{
    see_entries(parts);
    first_listed(query, &None, entries_behind(&query.after, parts.entries()))
}

// The first entry behind the last row that is listed, of those that have this queue as their home.
fn next_at_home<'a>(query: &Query, queue: &Name, parts: &'a Parts) -> Option<&'a Entry>
    ensures { option_copied result ≡ next_at_home query.now queue.now parts.now.entries }
{
    see_entries(parts);
    let entries = parts.entries();
    let place = place_behind(&query.after, entries);
    first_at_home(query, queue, &entries[place..], &parts.tags()[place..])
}

// The first entry behind the last row that is listed, of one queue. Where no job runs in the queue, those that stand there have it as
// their home.
fn next_in<'a>(query: &Query, queue: &Name, parts: &'a Parts) -> Option<&'a Entry>
    ensures { option_copied result ≡ next_entry query.now (Some queue.now) parts.now.entries }
{
    if !parts.is_occupied(queue) {
        return next_at_home(query, queue, parts);
    }
    see_entries(parts);
    first_listed(
        query,
        &Some(*queue),
        entries_behind(&query.after, parts.entries()),
    )
}

// The first entry behind the last row that is listed, of all queues or of one.
fn next_entry<'a>(query: &Query, queue: &Option<Name>, parts: &'a Parts) -> Option<&'a Entry>
    ensures { option_copied result ≡ next_entry query.now queue.now parts.now.entries }
{
    match queue {
        None => next_of_all(query, parts),
        Some(queue) => next_in(query, queue, parts),
    }
}

// The row of the next queue.
#[inline(never)]
fn next_queue_row(alloc: Global, query: &Query, queues: &[Queue]) -> Result<Option<Row>, AllocError>
    requires { IsInOrder name_cmp (λ q. q.name) queues.now }
    ensures row { IfOk result (λ one. one
        ≡ next_row query.now.after (listed_queue_rows query.now queues.now)) }
    ensures no_memory { OnErr result (IsSome
        (next_row query.now.after (listed_queue_rows query.now queues.now))) }
{
    match next_queue(query, queues) {
        None => Ok(None),
        Some(queue) => Ok(Some(Row::Queue(copy_of(alloc, queue)?))),
    }
}

// The row of the next entry, of all queues or of one.
#[inline(never)]
fn next_entry_row(
    alloc: Global,
    query: &Query,
    queue: &Option<Name>,
    parts: &Parts,
) -> Result<Option<Row>, AllocError>
    ensures row { IfOk result (λ one. one
        ≡ next_row query.now.after (listed_entry_rows query.now queue.now parts.now.entries)) }
    ensures no_memory { OnErr result (IsSome
        (next_row query.now.after (listed_entry_rows query.now queue.now parts.now.entries))) }
{
    match next_entry(query, queue, parts) {
        None => Ok(None),
        Some(entry) => Ok(Some(Row::Entry(ListedEntry::of(alloc, entry)?))),
    }
}

// The row of the next form.
#[inline(never)]
fn next_form_row(query: &Query, forms: &[Form]) -> Option<Row>
    ensures { result ≡ next_row query.now.after (listed_form_rows query.now.pattern forms.now) }
{
    match next_form(query, forms) {
        None => None,
        Some(form) => Some(Row::Form(*form)),
    }
}

// The row of the next characteristic.
#[inline(never)]
fn next_characteristic_row(query: &Query, defined: &[Characteristic]) -> Option<Row>
    ensures { result
        ≡ next_row query.now.after (listed_characteristic_rows query.now.pattern defined.now) }
{
    match next_characteristic(query, defined) {
        None => None,
        Some(one) => Some(Row::Characteristic(*one)),
    }
}

/// The first row of a listing behind the one that was given last, where each row stands for itself: of queues the next by name, of
/// entries, forms and characteristics the next by number. It is the first of all where none was given, and none where no other row
/// matches now.
///
/// The place behind that row is found by a logarithm of the queues, or of the entries, and from there it walks to the first that is
/// listed. Of forms and characteristics it looks from the first on. A row of a queue or of an entry takes memory.
pub fn next_row(alloc: Global, parts: &Parts, query: &Query) -> Result<Option<Row>, AllocError>
    ensures row { (s : System)
        → IfOk result (λ one. one ≡ row_asked (with_tables s parts.now) query.now) }
    ensures no_memory { (s : System)
        → OnErr result (IsSome (row_asked (with_tables s parts.now) query.now)) }
{
    match query.listing {
        Listing::Queues => next_queue_row(alloc, query, parts.queues()),
        Listing::Jobs => next_entry_row(alloc, query, &query.queue, parts),
        Listing::Entries => next_entry_row(alloc, query, &None, parts),
        Listing::Forms => Ok(next_form_row(query, parts.forms())),
        Listing::Characteristics => { Ok(next_characteristic_row(query, parts.characteristics())) }
        Listing::Manager | Listing::Cancel => Ok(None),
    }
}
