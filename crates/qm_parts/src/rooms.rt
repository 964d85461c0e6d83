// The room that the rows of ready jobs have.
ghost use Rattle.std.specs.Prelude.{◌≡◌, ◌≤◌, ◌<◌, ◌+◌, ℕ, true, length, count_by, OnErr, OnOk, slice_index_or, None};
ghost use Rattle.qm_tables.specs.Boxed.{contents};
ghost use Rattle.qm_parts.specs.Ready.{KeepsKeys};
ghost use Rattle.qm_parts.specs.Rooms.{AreBounds, HasRoomWhere, IsAtMost, IsRaisedWhere, is_home, is_one_of, leads_to, may_come, reach, targets_of, HasRoomFor, is_named, is_target};
ghost use Rattle.qm_renewal.specs.Renewing.{room_of};

use crate::names::{is_same, place_of};
use crate::tables::TableSet;
use qm_kinds::{Entry, Name, Queue};
use qm_ready::ReadyRow;
use std::alloc::AllocError;

// For how many jobs a row that grows has more room than is asked for, at least: so many can come before all entries are looked
// at again.
const SPARE: usize = 512;

// Whether a queue has this name, or is one of these targets.
fn is_one_of(name: &Name, targets: &[Name], queue: &Queue) -> bool
    ensures { result ≡ is_one_of name.now targets.now queue.now }
{
    *name == queue.name || targets.contains(&queue.name)
}

// The targets of the queue of a name, if there is such a queue.
fn targets_of<'a>(tables: &'a TableSet, name: &Name) -> &'a [Name]
    ensures { result.now ≡ targets_of tables.now.queues name.now }
{
    match tables.queue(name) {
        None => &[],
        Some(queue) => queue.targets.as_slice(),
    }
}

// Whether jobs of this home may come to a queue. It asks a logarithm of the queues where the home is another one.
fn leads_to(tables: &TableSet, queue: &Queue, home: &Name) -> bool
    ensures { result ≡ leads_to tables.now.queues queue.now home.now }
{
    is_one_of(home, targets_of(tables, home), queue)
}

// The home that was asked for last, and whether its jobs may come to the queue. Entries of one home mostly stand together.
#[derive(Drop)]
struct Asked {
    home: Name,
    leads: bool,
}

// Whether a job may come to a queue.
fn may_come(tables: &TableSet, queue: &Queue, entry: &Entry, last: &mut Asked) -> bool
    requires { last.old.leads ≡ leads_to tables.now.queues queue.now last.old.home }
    ensures answer { result ≡ may_come tables.now.queues queue.now entry.now }
    ensures last { last.new.leads ≡ leads_to tables.now.queues queue.now last.new.home }
{
    if !is_same(&entry.home, &last.home) {
        last.home = entry.home;
        last.leads = leads_to(tables, queue, &entry.home);
    }
    last.leads
}

// How many of these jobs may come to a queue.
fn count_coming(tables: &TableSet, entries: &[Box<Entry>], queue: &Queue) -> usize
    ensures { result ≡ count_by (may_come tables.now.queues queue.now) (contents entries.now) }
{
    let mut last = Asked {
        home: queue.name,
        leads: leads_to(tables, queue, &queue.name),
    };
    let mut count = 0usize;
    for boxed in entries {
        let entry = boxed.as_ref();
        if may_come(tables, queue, entry, &mut last) {
            count += 1;
        }
    }
    count
}

/// How many jobs may come to a queue. It looks at each entry once.
pub(crate) fn reach(tables: &TableSet, queue: &Queue) -> usize
    ensures { result ≡ reach tables.now.queues tables.now.entries queue.now }
{
    count_coming(tables, tables.entries(), queue)
}

// Whether the queue of this name is an entry's home.
fn is_home(entry: &Entry, name: &Name) -> bool
    ensures { result ≡ is_home name.now entry.now }
{
    is_same(&entry.home, name)
}

// How many of these entries have the queue of this name as their home.
fn count_homes(entries: &[Box<Entry>], home: &Name) -> usize
    ensures { result ≡ count_by (is_home home.now) (contents entries.now) }
{
    let mut count = 0usize;
    for boxed in entries {
        let entry = boxed.as_ref();
        if is_home(entry, home) {
            count += 1;
        }
    }
    count
}

/// How many entries have the queue of this name as their home. It looks at each entry once.
pub(crate) fn count_at_home(tables: &TableSet, home: &Name) -> usize
    ensures { result ≡ count_by (is_home home.now) tables.now.entries }
{
    count_homes(tables.entries(), home)
}

// Makes room for so many keys in a row, those that it has counted among them.
fn reserve_to(row: &mut ReadyRow, most: usize) -> Result<(), AllocError>
    ensures ok { OnOk result (most ≤ room_of row.new) }
    ensures err { OnErr result (room_of row.old < most) }
    ensures same { row.new ≡ record row.old { spare = row.new.spare } }
    ensures no_less { row.old.spare ≤ row.new.spare }
{
    row.reserve(most.saturating_sub(row.len()))
}

// Makes room for so many keys in a row, and for as many more where there is memory for it, so that it grows seldom: each growth
// looks at all entries.
fn grow_to(row: &mut ReadyRow, most: usize) -> Result<(), AllocError>
    ensures ok { OnOk result (most ≤ room_of row.new) }
    ensures err { OnErr result (room_of row.old < most) }
    ensures same { row.new ≡ record row.old { spare = row.new.spare } }
    ensures no_less { row.old.spare ≤ row.new.spare }
{
    let more = most.saturating_mul(2).saturating_add(SPARE);
    match reserve_to(row, more) {
        Ok(()) => Ok(()),
        Err(AllocError) => reserve_to(row, most),
    }
}

// Whether a row has room for so many jobs more than may come to its queue, as far as that is known.
fn has_places(row: &ReadyRow, bound: Option<usize>, more: usize) -> bool
    ensures { (n : ℕ) → IsAtMost n bound → result ≡ true → n + more ≤ room_of row.now }
{
    match bound {
        None => false,
        Some(most) => most <= row.room() && more <= row.room() - most,
    }
}

/// Makes room in the row of a queue for the jobs that may come to it, and for so many more. It looks at the entries where what
/// is known of their number doesn't say that there is room.
pub(crate) fn widen(
    tables: &TableSet,
    queue: &Queue,
    row: &mut ReadyRow,
    bound: &mut Option<usize>,
    more: usize,
) -> Result<(), AllocError>
    requires { IsAtMost (reach tables.now.queues tables.now.entries queue.now) bound.old }
    ensures ok { OnOk result
        (reach tables.now.queues tables.now.entries queue.now + more ≤ room_of row.new) }
    ensures bound { IsAtMost (reach tables.now.queues tables.now.entries queue.now) bound.new }
    ensures same { row.new ≡ record row.old { spare = row.new.spare } }
    ensures no_less { row.old.spare ≤ row.new.spare }
{
    if has_places(row, *bound, more) {
        return Ok(());
    }
    let reach = reach(tables, queue);
    *bound = Some(reach);
    match reach.checked_add(more) {
        None => Err(AllocError),
        Some(most) => grow_to(row, most),
    }
}

// Makes room for so many jobs more in the row of the queue of a name, if there is such a queue.
fn widen_named(
    tables: &TableSet,
    rows: &mut Vec<ReadyRow>,
    bounds: &mut Vec<Option<usize>>,
    name: &Name,
    more: usize,
) -> Result<(), AllocError>
    requires enough { length tables.now.queues ≤ length rows.old.items }
    requires bounded { length bounds.old.items ≡ length rows.old.items }
    requires bounds { AreBounds tables.now.queues tables.now.entries bounds.old.items }
    ensures places { OnOk result (HasRoomWhere (is_named name.now) more tables.now rows.new.items) }
    ensures same { KeepsKeys rows.old.items rows.new.items }
    ensures bounded { length bounds.new.items ≡ length bounds.old.items }
    ensures bounds { AreBounds tables.now.queues tables.now.entries bounds.new.items }
{
    let Ok(place) = place_of(tables.queues(), name) else {
        return Ok(());
    };
    let queue = &tables.queues()[place];
    widen(tables, queue, &mut rows[place], &mut bounds[place], more)
}

// Makes room for so many jobs more in the rows of the queues that are among these targets.
fn widen_targets(
    tables: &TableSet,
    rows: &mut Vec<ReadyRow>,
    bounds: &mut Vec<Option<usize>>,
    targets: &[Name],
    more: usize,
) -> Result<(), AllocError>
    requires enough { length tables.now.queues ≤ length rows.old.items }
    requires bounded { length bounds.old.items ≡ length rows.old.items }
    requires bounds { AreBounds tables.now.queues tables.now.entries bounds.old.items }
    ensures places { OnOk result
        (HasRoomWhere (is_target targets.now) more tables.now rows.new.items) }
    ensures same { KeepsKeys rows.old.items rows.new.items }
    ensures bounded { length bounds.new.items ≡ length bounds.old.items }
    ensures bounds { AreBounds tables.now.queues tables.now.entries bounds.new.items }
{
    for target in targets {
        widen_named(tables, rows, bounds, target, more)?;
    }
    Ok(())
}

/// Makes room for so many jobs more in the rows of the queues that have this name or are among these targets. It asks a logarithm
/// of the queues for each of them.
pub(crate) fn widen_each(
    tables: &TableSet,
    rows: &mut Vec<ReadyRow>,
    bounds: &mut Vec<Option<usize>>,
    name: &Name,
    targets: &[Name],
    more: usize,
) -> Result<(), AllocError>
    requires enough { length tables.now.queues ≤ length rows.old.items }
    requires bounded { length bounds.old.items ≡ length rows.old.items }
    requires bounds { AreBounds tables.now.queues tables.now.entries bounds.old.items }
    ensures places { OnOk result
        (HasRoomWhere (is_one_of name.now targets.now) more tables.now rows.new.items) }
    ensures same { KeepsKeys rows.old.items rows.new.items }
    ensures bounded { length bounds.new.items ≡ length bounds.old.items }
    ensures bounds { AreBounds tables.now.queues tables.now.entries bounds.new.items }
{
    widen_named(tables, rows, bounds, name, more)?;
    widen_targets(tables, rows, bounds, targets, more)
}

/// Makes room for so many jobs more in the rows of the queues that a home leads to. It asks a logarithm of the queues for the home,
/// and one for each of its targets.
pub(crate) fn widen_home(
    tables: &TableSet,
    rows: &mut Vec<ReadyRow>,
    bounds: &mut Vec<Option<usize>>,
    home: &Name,
    more: usize,
) -> Result<(), AllocError>
    requires enough { length tables.now.queues ≤ length rows.old.items }
    requires bounded { length bounds.old.items ≡ length rows.old.items }
    requires bounds { AreBounds tables.now.queues tables.now.entries bounds.old.items }
    ensures places { OnOk result (HasRoomFor home.now more tables.now rows.new.items) }
    ensures same { KeepsKeys rows.old.items rows.new.items }
    ensures bounded { length bounds.new.items ≡ length bounds.old.items }
    ensures bounds { AreBounds tables.now.queues tables.now.entries bounds.new.items }
{
    let Ok(place) = place_of(tables.queues(), home) else {
        return Ok(());
    };
    let queue = &tables.queues()[place];
    widen(tables, queue, &mut rows[place], &mut bounds[place], more)?;
    widen_targets(tables, rows, bounds, queue.targets.as_slice(), more)
}

// A bound for one job more.
fn raise(bound: &mut Option<usize>)
    ensures { (n : ℕ) → IsAtMost n bound.old → IsAtMost (n + 1) bound.new }
{
    *bound = match *bound {
        None => None,
        Some(most) => most.checked_add(1),
    };
}

// One job more may come to the queue of a name, if there is such a queue.
fn raise_named(tables: &TableSet, bounds: &mut Vec<Option<usize>>, name: &Name)
    requires { length tables.now.queues ≤ length bounds.old.items }
    ensures raised { IsRaisedWhere (is_named name.now)
        tables.now.queues bounds.old.items bounds.new.items }
    ensures count { length bounds.new.items ≡ length bounds.old.items }
{
    if let Ok(place) = place_of(tables.queues(), name) {
        raise(&mut bounds[place]);
    }
}

// One job more may come to the queues that are among these targets.
fn raise_targets(tables: &TableSet, bounds: &mut Vec<Option<usize>>, targets: &[Name])
    requires { length tables.now.queues ≤ length bounds.old.items }
    ensures raised { IsRaisedWhere (is_target targets.now)
        tables.now.queues bounds.old.items bounds.new.items }
    ensures count { length bounds.new.items ≡ length bounds.old.items }
{
    for target in targets {
        raise_named(tables, bounds, target);
    }
}

/// One job more may come to the queues that a home leads to. It asks a logarithm of the queues for the home, and one for each of its
/// targets.
pub(crate) fn raise_each(tables: &TableSet, bounds: &mut Vec<Option<usize>>, home: &Name)
    requires { length tables.now.queues ≤ length bounds.old.items }
    ensures raised { IsRaisedWhere (λ q. leads_to tables.now.queues q home.now)
        tables.now.queues bounds.old.items bounds.new.items }
    ensures count { length bounds.new.items ≡ length bounds.old.items }
{
    let Ok(place) = place_of(tables.queues(), home) else {
        return;
    };
    raise(&mut bounds[place]);
    raise_targets(tables, bounds, tables.queues()[place].targets.as_slice());
}

/// How many jobs may come to each queue isn't known any more.
pub(crate) fn forget_each(bounds: &mut Vec<Option<usize>>)
    ensures unknown { (place : ℕ) → slice_index_or bounds.new.items place None ≡ None }
    ensures count { length bounds.new.items ≡ length bounds.old.items }
{
    for place in 0..bounds.len() {
        bounds[place] = None;
    }
}
