// The key of a job that changed goes from its place in each row to its new one, comes, or goes: each row by itself is renewed by
// `qm_renewal`.
ghost use Rattle.std.specs.Prelude.{◌≡◌, ◌≤◌, length, IfSome, Some, None, option_and_then, option_copied};
ghost use Rattle.qm_model.specs.Find.{entry_numbered, queue_named};
ghost use Rattle.qm_parts.specs.Ready.{AreReady, AreStale, IsRowOf, IsStale, KeepsRoom, ready_key};
ghost use Rattle.qm_parts.specs.Rooms.{HaveRoom, reach, rooms_of};
ghost use Rattle.qm_renewal.specs.Renewing.{pending_key, room_of};

use crate::fitting::fits;
use crate::tables::TableSet;
use qm_kinds::{Entry, Queue};
use qm_match::Key;
use qm_ready::ReadyRow;
use qm_renewal::{key_of_pending, put_in, see_row, take_out};

/// The key that rows may have of the job of a number, if there is such a job. It asks a logarithm of the entries.
pub(crate) fn key_before(tables: &TableSet, number: u32) -> Option<Key>
    ensures { result ≡ option_and_then pending_key (entry_numbered number tables.now.entries) }
{
    match tables.entry(number) {
        None => None,
        Some(entry) => key_of_pending(entry),
    }
}

// The row of a queue has the key of a job where it fits there, in place of the old one. `home` is the queue that is the job's home,
// if there is one.
fn renew_in(
    tables: &TableSet,
    queue: &Queue,
    row: &mut ReadyRow,
    old: &Option<Key>,
    entry: &Entry,
    home: Option<&Queue>,
)
    requires stale { IsStale entry.now.number old.now
        queue.now (ready_key tables.now queue.now) row.old }
    requires number { IfSome old.now (λ k. k.number ≡ entry.now.number) }
    requires room { reach tables.now.queues tables.now.entries queue.now ≤ room_of row.old }
    requires there { entry_numbered entry.now.number tables.now.entries ≡ Some entry.now }
    requires home { option_copied home ≡ queue_named entry.now.home tables.now.queues }
    ensures ready { IsRowOf queue.now (ready_key tables.now queue.now) row.new }
    ensures room { room_of row.new ≡ room_of row.old }
{
    if fits(tables, entry, home, queue) {
        see_row(row);
        put_in(row, old, Key::of(entry));
    } else {
        take_out(row, old, entry.number);
    }
}

// The rows have the key of a job where it fits, in place of the old one.
fn renew(tables: &TableSet, rows: &mut Vec<ReadyRow>, old: &Option<Key>, entry: &Entry)
    requires stale { AreStale entry.now.number old.now tables.now rows.old.items }
    requires number { IfSome old.now (λ k. k.number ≡ entry.now.number) }
    requires enough { length tables.now.queues ≤ length rows.old.items }
    requires room { HaveRoom tables.now.queues tables.now.entries (rooms_of rows.old.items) }
    requires there { entry_numbered entry.now.number tables.now.entries ≡ Some entry.now }
    ensures ready { AreReady tables.now rows.new.items }
    ensures count { length rows.new.items ≡ length rows.old.items }
    ensures room { KeepsRoom rows.old.items rows.new.items }
{
    let home = tables.queue(&entry.home);
    for place in 0..tables.queues().len() {
        let queue = &tables.queues()[place];
        renew_in(tables, queue, &mut rows[place], old, entry, home);
    }
}

/// Puts the key of the job of a number, which came or changed, into the rows of the queues that it fits, in place of the one that
/// they had, and takes that out of the others. `old` is the key that rows may have: none, where there is no such job, or it came.
/// It asks a logarithm of the keys of each row, and takes no memory.
pub(crate) fn renew_number(
    tables: &TableSet,
    rows: &mut Vec<ReadyRow>,
    old: &Option<Key>,
    number: u32,
)
    requires stale { AreStale number old.now tables.now rows.old.items }
    requires number { IfSome old.now (λ k. k.number ≡ number) }
    requires none { entry_numbered number tables.now.entries ≡ None → old.now ≡ None }
    requires enough { length tables.now.queues ≤ length rows.old.items }
    requires room { HaveRoom tables.now.queues tables.now.entries (rooms_of rows.old.items) }
    ensures ready { AreReady tables.now rows.new.items }
    ensures count { length rows.new.items ≡ length rows.old.items }
    ensures room { KeepsRoom rows.old.items rows.new.items }
{
    if let Some(entry) = tables.entry(number) {
        renew(tables, rows, old, entry);
    }
}
