// Where the rows of a listing go on behind the one that was given last.
ghost use Rattle.std.specs.Prelude.{◌≤◌, nat_lt, length, drop};
ghost use Rattle.std.specs.Ordering.{is_lt, nat_cmp};
ghost use Rattle.qm_tables.specs.Boxed.{contents};
ghost use Rattle.qm_keyed.specs.Places.{IsPlace};
ghost use Rattle.qm_kinds.specs.declared.query.Row.TheVariants as row;
ghost use Rattle.qm_model.specs.Common.{IsInOrder, name_cmp, is_past};
ghost use Rattle.qm_scan.specs.Listed.{AreFoundIn, is_behind};

use qm_keyed::place_of;
use qm_kinds::{After, Entry, Name, Queue};

// Where the queues of greater names begin, by a logarithm of the queues.
fn place_behind_name(queues: &[Queue], name: &Name) -> usize
    requires { IsInOrder name_cmp (λ q. q.name) queues.now }
    ensures within { result ≤ length queues.now }
    ensures behind { AreFoundIn (λ q. is_lt (name_cmp name.now q.name)) queues.now
        (drop result queues.now) }
{
    match place_of(queues, name) {
        Ok(place) => place + 1,
        Err(place) => place,
    }
}

// The queues behind a row.
fn queues_past<'a>(last: &After, queues: &'a [Queue]) -> &'a [Queue]
    requires { IsInOrder name_cmp (λ q. q.name) queues.now }
    ensures { AreFoundIn (λ q. is_past last.now (row.Queue q)) queues.now result.now }
{
    match last {
        After::Name(name) => &queues[place_behind_name(queues, name)..],
        After::Number(_) => &queues[queues.len()..],
    }
}

/// The queues behind the row that was given last, or all where none was. They are found by a logarithm of the queues.
pub(crate) fn queues_behind<'a>(last: &Option<After>, queues: &'a [Queue]) -> &'a [Queue]
    requires { IsInOrder name_cmp (λ q. q.name) queues.now }
    ensures { AreFoundIn (λ q. is_behind last.now (row.Queue q)) queues.now result.now }
{
    match last {
        None => queues,
        Some(last) => queues_past(last, queues),
    }
}

// Where the entry of a number stands, or where one would belong, by a logarithm of the entries.
fn place_numbered(entries: &[Box<Entry>], number: u32) -> Result<usize, usize>
    requires { IsInOrder nat_cmp (λ e. e.number) (contents entries.now) }
    ensures { IsPlace nat_cmp (λ e. e.number) number (contents entries.now) result }
{
    entries.binary_search_by(|entry| entry.number.cmp(&number))
}

// Where the entries of greater numbers begin.
fn place_behind_number(entries: &[Box<Entry>], number: u32) -> usize
    requires { IsInOrder nat_cmp (λ e. e.number) (contents entries.now) }
    ensures within { result ≤ length entries.now }
    ensures behind { AreFoundIn (λ e. nat_lt number e.number) (contents entries.now)
        (drop result (contents entries.now)) }
{
    match place_numbered(entries, number) {
        Ok(place) => place + 1,
        Err(place) => place,
    }
}

// Where the entries behind a row begin.
fn place_past(last: &After, entries: &[Box<Entry>]) -> usize
    requires { IsInOrder nat_cmp (λ e. e.number) (contents entries.now) }
    ensures within { result ≤ length entries.now }
    ensures behind { AreFoundIn (λ e. is_past last.now (row.Entry e)) (contents entries.now)
        (drop result (contents entries.now)) }
{
    match last {
        After::Name(_) => entries.len(),
        After::Number(number) => place_behind_number(entries, *number),
    }
}

/// Where the entries behind the row that was given last begin: with the first of all where none was. It asks a logarithm of the
/// entries.
pub(crate) fn place_behind(last: &Option<After>, entries: &[Box<Entry>]) -> usize
    requires { IsInOrder nat_cmp (λ e. e.number) (contents entries.now) }
    ensures within { result ≤ length entries.now }
    ensures behind { AreFoundIn (λ e. is_behind last.now (row.Entry e)) (contents entries.now)
        (drop result (contents entries.now)) }
{
    match last {
        None => 0,
        Some(last) => place_past(last, entries),
    }
}

/// The entries behind the row that was given last, or all where none was. They are found by a logarithm of the entries.
pub(crate) fn entries_behind<'a>(
    last: &Option<After>,
    entries: &'a [Box<Entry>],
) -> &'a [Box<Entry>]
    requires { IsInOrder nat_cmp (λ e. e.number) (contents entries.now) }
    ensures { AreFoundIn (λ e. is_behind last.now (row.Entry e)) (contents entries.now)
        (contents result.now) }
{
    &entries[place_behind(last, entries)..]
}
