// Copies of records and of worlds. A record is copied by its spelling, which is written and read again, so there is no copy of
// each kind of record here.
ghost use Rattle.std.specs.Prelude.{◌≡◌, ◌↔◌, ◌<◌, ◌^◌, ◌++◌, ◌∷◌, [], true, length, IfOk, IfSome, OnOk, slice_set, All};
ghost use Rattle.qm_history.specs.Common.{AllOf, IsSound};
ghost use Rattle.qm_record.specs.Spelling.{AreListsShort, HasSpelling, IsShortChange, IsShortEntryChange, IsShortQueue};
ghost use Rattle.qm_world.specs.Copying.{IsSpelled};

use qm_history::World;
use qm_kinds::{EntryChange, Moment, NameOrNumber, NewQueue, QueueChange, Record, Request, Seq};
use qm_record::{read_record, write_record, write_request};
use std::alloc::{AllocError, Global};
use std::mem;

// How many elements of a list are counted in a record.
const COUNT_LIMIT: usize = 1 << 16;

/// Puts an element behind the others of a list. At want of memory the list is empty.
pub(crate) fn put<T: Drop>(alloc: Global, list: &mut Seq<T>, element: T) -> Result<(), AllocError>
    ensures { OnOk result (list.new ≡ list.old ++ element ∷ []) }
{
    let mut items = mem::replace(list, Seq::new(alloc)).into_vec();
    items.push(element)?;
    *list = Seq::of(items);
    Ok(())
}

/// Puts an element at a place of a list, if it has that place.
pub(crate) fn set<T: Drop>(alloc: Global, list: &mut Seq<T>, place: u8, element: T)
    ensures { list.new ≡ slice_set list.old place element }
{
    let place = usize::from(place);
    let mut items = mem::replace(list, Seq::new(alloc)).into_vec();
    if place < items.len() {
        items[place] = element;
    }
    *list = Seq::of(items);
}

/// Puts a record in doubt, or none.
pub(crate) fn put_doubt(doubt: &mut Option<Record>, next: Option<Record>)
    ensures { doubt.new ≡ next }
{
    drop(mem::replace(doubt, next));
}

// A copy of a record.
fn copy_record(alloc: Global, what: &Record) -> Result<Record, AllocError>
    requires { HasSpelling what.now }
    ensures { IfOk result (λ copy. copy ≡ what.now) }
{
    let text = write_record(alloc, what)?;
    match read_record(alloc, &text) {
        Ok(copy) => Ok(copy),
        Err(_) => Err(AllocError),
    }
}

fn copy_records(alloc: Global, records: &[Record]) -> Result<Vec<Record>, AllocError>
    requires { All HasSpelling records.now }
    ensures { IfOk result (λ copies. copies.items ≡ records.now) }
{
    let mut copies = Vec::with_capacity(alloc, records.len())?;
    for record in records {
        copies.push(copy_record(alloc, record)?)?;
    }
    Ok(copies)
}

fn copy_doubt(alloc: Global, doubt: &Option<Record>) -> Result<Option<Record>, AllocError>
    requires { IfSome doubt.now HasSpelling }
    ensures { IfOk result (λ copy. copy ≡ doubt.now) }
{
    match doubt {
        Some(record) => Ok(Some(copy_record(alloc, record)?)),
        None => Ok(None),
    }
}

/// A copy of a sound world, with its whole log.
pub(crate) fn copy_world(alloc: Global, world: &World) -> Result<World, AllocError>
    requires { IsSound world.now }
    ensures { IfOk result (λ copy. copy ≡ world.now) }
{
    let live = Seq::of(Vec::from_slice(alloc, world.live.as_slice())?);
    let held = Seq::of(Vec::from_slice(alloc, world.held.as_slice())?);
    let log = Seq::of(copy_records(alloc, world.log.as_slice())?);
    let doubt = copy_doubt(alloc, &world.doubt)?;
    Ok(World {
        log,
        doubt,
        manager: world.manager,
        greatest: world.greatest,
        live,
        held,
    })
}

// Whether the list fits the count of its elements.
fn is_short<T>(list: &[T]) -> bool
    ensures { (result ≡ true) ↔ (length list.now < 2 ^ 16) }
{
    list.len() < COUNT_LIMIT
}

// The same of characteristics, if they are given.
fn are_few(characteristics: &Option<Seq<NameOrNumber>>) -> bool
    ensures { (result ≡ true) ↔ AllOf (λ xs. length xs < 2 ^ 16) characteristics.now }
{
    match characteristics {
        Some(characteristics) => is_short(characteristics.as_slice()),
        None => true,
    }
}

fn is_short_change(change: &QueueChange) -> bool
    ensures { (result ≡ true) ↔ IsShortChange change.now }
{
    are_few(&change.characteristics)
}

fn is_short_entry_change(change: &EntryChange) -> bool
    ensures { (result ≡ true) ↔ IsShortEntryChange change.now }
{
    are_few(&change.characteristics)
}

fn is_short_queue(new: &NewQueue) -> bool
    ensures { (result ≡ true) ↔ IsShortQueue new.now }
{
    is_short(new.targets.as_slice()) && is_short_change(&new.change)
}

// Whether the lists of a request fit the counts of their elements: what its types don't say of its spelling.
fn are_lists_short(request: &Request) -> bool
    ensures { (result ≡ true) ↔ AreListsShort request.now }
{
    match request {
        Request::Append { bytes, .. } => bytes.len() < 1 << 32,
        Request::InitializeQueue(new) => is_short_queue(new),
        Request::SetQueue { change, .. } | Request::StartQueue { change, .. } => {
            is_short_change(change)
        }
        Request::Submit(job) => is_short(job.characteristics.as_slice()),
        Request::SetEntry { change, .. } => is_short_entry_change(change),
        Request::NodeLost { nodes } => is_short(nodes.as_slice()),
        Request::Took { gone, up, may, .. } => {
            is_short(gone.as_slice()) && is_short(up.as_slice()) && is_short(may.as_slice())
        }
        _ => true,
    }
}

/// The record of a request, which acted at a moment and came from the node of this place, or none where it has no spelling.
pub(crate) fn spell(
    alloc: Global,
    moment: Moment,
    node: u8,
    request: &Request,
) -> Result<Option<Record>, AllocError>
    ensures { IfOk result (IsSpelled moment node request.now) }
{
    if !are_lists_short(request) {
        return Ok(None);
    }
    let text = write_request(alloc, moment, node, request)?;
    match read_record(alloc, &text) {
        Ok(record) => Ok(Some(record)),
        Err(_) => Err(AllocError),
    }
}
