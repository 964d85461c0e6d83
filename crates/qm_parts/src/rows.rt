// The rows of ready jobs: how one is built anew, and how the key of one job goes.
ghost use Rattle.std.specs.Prelude.{◌≡◌, ◌≤◌, ◌<◌, ◌+◌, [], ◌∷◌, ◌++◌, length, insert, remove, true, IfSome, Some, None, ℕ, slice_index_or};
ghost use Rattle.qm_model.specs.Common.{System, IsInOrder, name_cmp, entry_numbered, queue_named, without_queue, with_queue, is_open, stock_of};
ghost use Rattle.qm_keyed.specs.Places.{StandsAt};
ghost use Rattle.qm_kinds.specs.declared.queue.Queue.{Queue as AnyQueue};
ghost use Rattle.qm_tables.specs.Queues.{with_queue_put};
ghost use Rattle.qm_tables.specs.Boxed.{contents};
ghost use Rattle.qm_ready.specs.Rows.{Row};
ghost use Rattle.qm_parts.specs.Gathering.{AreKeysOf, HasRoomForKeys, IsExecutionAt};
ghost use Rattle.qm_parts.specs.Ready.{AreReady, AreReadyBut, IsRowOf, KeepsRoom, LeavesKind, ready_key};
ghost use Rattle.qm_parts.specs.Rooms.{AreMet, HaveRoom, reach, rooms_of, HasRowIfNew, NeedsLeast};
ghost use Rattle.qm_renewal.specs.Renewing.{room_of};
ghost use Rattle.qm_parts.specs.Tables.{Tables, with_tables};

use crate::fitting::{Asked, can_run, is_open, stock_of};
use crate::looks::is_execution_queue;
use crate::names::place_of;
use crate::running::see_order;
use crate::tables::TableSet;
use qm_keyed::put;
use qm_kinds::{Entry, Name, Queue};
use qm_match::{Key, Schedule};
use qm_ready::{Gathering, ReadyRow};
use qm_renewal::is_pending;
use std::alloc::Global;
use std::mem;

// Gathers the keys of the jobs that fit a queue, by one walk over the entries. A queue that isn't open takes none.
fn gather(tables: &TableSet, queue: &Queue, gathering: &mut Gathering)
    requires empty { gathering.old.keys ≡ [] }
    requires room { HasRoomForKeys tables.now queue.now tables.now.entries gathering.old.spare }
    ensures keys { AreKeysOf tables.now queue.now tables.now.entries gathering.new.keys }
    ensures schedule { gathering.new.schedule ≡ gathering.old.schedule }
    ensures room { gathering.new.spare + length gathering.new.keys ≡ gathering.old.spare }
{
    if !is_open(tables, queue) {
        return;
    }
    let mounted = stock_of(tables, &queue.mounted);
    gather_from(tables, tables.entries(), queue, &mounted, gathering);
}

// Gathers the keys of those of these jobs that fit a queue, which is open. `mounted` is the stock of the form that is mounted
// there.
fn gather_from(
    tables: &TableSet,
    entries: &[Box<Entry>],
    queue: &Queue,
    mounted: &Option<Name>,
    gathering: &mut Gathering,
)
    requires open { (s : System) → is_open (with_tables s tables.now) queue.now ≡ true }
    requires mounted { mounted.now ≡ stock_of tables.now.forms queue.now.mounted }
    requires empty { gathering.old.keys ≡ [] }
    requires room { HasRoomForKeys tables.now queue.now (contents entries.now) gathering.old.spare }
    ensures keys { AreKeysOf tables.now queue.now (contents entries.now) gathering.new.keys }
    ensures schedule { gathering.new.schedule ≡ gathering.old.schedule }
    ensures room { gathering.new.spare + length gathering.new.keys ≡ gathering.old.spare }
{
    let mut last = Asked::first(tables, queue);
    for boxed in entries {
        let entry = boxed.as_ref();
        if can_run(tables, entry, queue, mounted, &mut last) {
            gathering.add(Key::of(entry));
        }
    }
}

// Builds the row of a queue anew, whatever it held: it has room for each job that may come there.
fn refill(alloc: Global, tables: &TableSet, queue: &Queue, row: &mut ReadyRow)
    requires room { reach tables.now.queues tables.now.entries queue.now ≤ room_of row.old }
    ensures ready { IsRowOf queue.now (ready_key tables.now queue.now) row.new }
    ensures room { room_of row.new ≡ room_of row.old }
{
    see_order(&tables.entries, &tables.runs);
    let schedule = Schedule::of(queue);
    let mut gathering = mem::replace(row, ReadyRow::new(alloc, schedule)).gather(schedule);
    gather(tables, queue, &mut gathering);
    *row = gathering.into_row();
}

/// Builds the rows of all queues anew, whatever they held: for each queue there is one, with room for each job that may
/// come there. It takes no memory.
pub(crate) fn refill_all(alloc: Global, tables: &TableSet, rows: &mut Vec<ReadyRow>)
    requires enough { length tables.now.queues ≤ length rows.old.items }
    requires room { HaveRoom tables.now.queues tables.now.entries (rooms_of rows.old.items) }
    ensures ready { AreReady tables.now rows.new.items }
    ensures count { length rows.new.items ≡ length rows.old.items }
    ensures room { KeepsRoom rows.old.items rows.new.items }
{
    for place in 0..tables.queues().len() {
        refill(alloc, tables, &tables.queues()[place], &mut rows[place]);
    }
}

// Where the queue of a name stands, if it is there and runs jobs itself.
fn execution_place(queues: &[Queue], name: &Name) -> Option<usize>
    requires { IsInOrder name_cmp (λ q. q.name) queues.now }
    ensures stands { IfSome result (StandsAt name_cmp (λ q. q.name) name.now queues.now) }
    ensures kind { IfSome result (IsExecutionAt queues.now) }
{
    match place_of(queues, name) {
        Err(_) => None,
        Ok(place) => {
            if is_execution_queue(queues[place].kind) {
                Some(place)
            } else {
                None
            }
        }
    }
}

/// Builds the rows anew that another state or other settings of the queue of a name concern: its own, or all of them where it
/// is a generic one, which may pass its jobs on to others. It takes no memory.
pub(crate) fn refill_for(alloc: Global, tables: &TableSet, rows: &mut Vec<ReadyRow>, name: &Name)
    requires enough { length tables.now.queues ≤ length rows.old.items }
    requires room { HaveRoom tables.now.queues tables.now.entries (rooms_of rows.old.items) }
    ensures ready { (t : Tables) (change : AnyQueue → AnyQueue) → LeavesKind change
        → tables.now ≡ record t { queues = with_queue name.now change t.queues }
        → AreReady t rows.old.items → AreReady tables.now rows.new.items }
    ensures count { length rows.new.items ≡ length rows.old.items }
    ensures room { KeepsRoom rows.old.items rows.new.items }
{
    match execution_place(tables.queues(), name) {
        None => refill_all(alloc, tables, rows),
        Some(place) => refill(alloc, tables, &tables.queues()[place], &mut rows[place]),
    }
}

// Takes the key of a job out of the rows where it stands.
fn forget(tables: &TableSet, rows: &mut Vec<ReadyRow>, entry: &Entry)
    requires ready { AreReady tables.now rows.old.items }
    requires enough { length tables.now.queues ≤ length rows.old.items }
    requires there { entry_numbered entry.now.number tables.now.entries ≡ Some entry.now }
    ensures ready { AreReadyBut entry.now.number tables.now rows.new.items }
    ensures count { length rows.new.items ≡ length rows.old.items }
    ensures room { KeepsRoom rows.old.items rows.new.items }
{
    let key = Key::of(entry);
    for place in 0..tables.queues().len() {
        rows[place].remove(&key);
    }
}

// Takes the key of a job out of the rows where it stands. One that waits for more than its start, or has a run, stands in none.
fn forget_pending(tables: &TableSet, rows: &mut Vec<ReadyRow>, entry: &Entry)
    requires ready { AreReady tables.now rows.old.items }
    requires enough { length tables.now.queues ≤ length rows.old.items }
    requires there { entry_numbered entry.now.number tables.now.entries ≡ Some entry.now }
    ensures ready { AreReadyBut entry.now.number tables.now rows.new.items }
    ensures count { length rows.new.items ≡ length rows.old.items }
    ensures room { KeepsRoom rows.old.items rows.new.items }
{
    if is_pending(&entry.state) {
        forget(tables, rows, entry);
    }
}

/// Takes the key of the job of a number out of the rows where it stands, if there is such a job. It asks a logarithm of the
/// keys of each row, where the job waits for nothing but its start.
pub(crate) fn forget_number(tables: &TableSet, rows: &mut Vec<ReadyRow>, number: u32)
    requires ready { AreReady tables.now rows.old.items }
    requires enough { length tables.now.queues ≤ length rows.old.items }
    ensures ready { AreReadyBut number tables.now rows.new.items }
    ensures count { length rows.new.items ≡ length rows.old.items }
    ensures room { KeepsRoom rows.old.items rows.new.items }
{
    if let Some(entry) = tables.entry(number) {
        forget_pending(tables, rows, entry);
    }
}

// The row of a queue that comes stands where the queue is to stand: it was the first that had none.
fn place_row(rows: &mut Vec<ReadyRow>, place: usize, from: usize)
    requires place { place ≤ from }
    requires from { from < length rows.old.items }
    ensures { (row : Row) → rows.new.items
        ≡ insert (remove rows.old.items from) place (slice_index_or rows.old.items from row) }
{
    let row = rows.remove(from);
    put(rows, place, row);
}

/// The row for a queue of this name, where there is no such queue yet, stands where the queue is to stand.
pub(crate) fn make_way(queues: &[Queue], rows: &mut Vec<ReadyRow>, name: &Name)
    requires order { IsInOrder name_cmp (λ q. q.name) queues.now }
    requires row { queue_named name.now queues.now ≡ None
        → length queues.now < length rows.old.items }
    ensures met { (q : AnyQueue) (needs : AnyQueue → ℕ) → q.name ≡ name.now → NeedsLeast needs q
        → HasRowIfNew needs q name.now queues.now (rooms_of rows.old.items)
        → AreMet needs queues.now (rooms_of rows.old.items)
        → AreMet needs (with_queue_put q queues.now) (rooms_of rows.new.items) }
    ensures count { length rows.new.items ≡ length rows.old.items }
{
    if let Err(place) = place_of(queues, name) {
        place_row(rows, place, queues.len());
    }
}

// The row at a place stands behind all others.
fn put_last(rows: &mut Vec<ReadyRow>, place: usize)
    requires { place < length rows.old.items }
    ensures { (row : Row) → rows.new.items
        ≡ remove rows.old.items place ++ slice_index_or rows.old.items place row ∷ [] }
{
    let row = rows.remove(place);
    rows.push_reserved(row);
}

/// The row of the queue of a name, if there is such a queue, stands behind all others.
pub(crate) fn close_up(queues: &[Queue], rows: &mut Vec<ReadyRow>, name: &Name)
    requires order { IsInOrder name_cmp (λ q. q.name) queues.now }
    requires rows { length queues.now ≤ length rows.old.items }
    ensures met { (needs : AnyQueue → ℕ) → AreMet needs queues.now (rooms_of rows.old.items)
        → AreMet needs (without_queue name.now queues.now) (rooms_of rows.new.items) }
    ensures count { length rows.new.items ≡ length rows.old.items }
{
    if let Ok(place) = place_of(queues, name) {
        put_last(rows, place);
    }
}
