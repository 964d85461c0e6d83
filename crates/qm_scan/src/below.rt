// The rows below each queue of a listing.
ghost use Rattle.std.specs.Prelude.{◌≡◌, ◌<◌, [], length, map, Some, IfOk, IfSome, IsTrue, OnOk};
ghost use Rattle.qm_tables.specs.Boxed.{contents};
ghost use Rattle.qm_model.specs.Common.{IsInOrder, name_cmp};
ghost use Rattle.qm_scan.specs.Listed.{AreBelow, HaveGained, IsPlaceOf, is_queue_listed, rows_of_queue, with_entry};

use crate::all::copy_of;
use crate::group::Group;
use crate::listed::{is_of_user, is_queue_listed, stands_in};
use qm_keyed::place_of;
use qm_kinds::{Entry, ListedEntry, Name, Query, Queue, Row};
use qm_tables::home_tag;
use std::alloc::{AllocError, Global};

// So many names can be told apart by what their tags leave when they are divided by it.
const SLOTS: usize = 2048;

// The slot of a tag.
fn slot_of(tag: u16) -> usize
    ensures { result < SLOTS }
{
    usize::from(tag) % SLOTS
}

// Whether the queue of a name stands at a place.
fn is_there(queues: &[Queue], name: &Name, place: usize) -> bool
    requires { IsInOrder name_cmp (λ q. q.name) queues.now }
    ensures within { IsTrue result → place < length queues.now }
    ensures named { IsTrue result → IsPlaceOf name.now queues.now (Some place) }
{
    place < queues.len() && queues[place].name == *name
}

// The place of the queue of a name, if there is one. It asks a logarithm of the queues.
fn place_named(queues: &[Queue], name: &Name) -> Option<usize>
    requires { IsInOrder name_cmp (λ q. q.name) queues.now }
    ensures within { IfSome result (λ place. place < length queues.now) }
    ensures named { IsPlaceOf name.now queues.now result }
{
    match place_of(queues, name) {
        Ok(place) => Some(place),
        Err(_) => None,
    }
}

// The same, where the place at which a name in the same slot was found last is tried first. Where it is the right one, as for most
// entries, no search waits for the entry's name to come from memory.
fn place_tried(
    queues: &[Queue],
    name: &Name,
    tried: &mut [usize; SLOTS],
    slot: usize,
) -> Option<usize>
    requires in_order { IsInOrder name_cmp (λ q. q.name) queues.now }
    requires slot { slot < SLOTS }
    ensures within { IfSome result (λ place. place < length queues.now) }
    ensures named { IsPlaceOf name.now queues.now result }
{
    let place = tried[slot];
    if is_there(queues, name, place) {
        return Some(place);
    }
    let found = place_named(queues, name);
    if let Some(place) = found {
        tried[slot] = place;
    }
    found
}

// Puts the row of an entry behind the others of a group.
fn put_in(
    alloc: Global,
    groups: &mut Vec<Group>,
    place: usize,
    entry: &Entry,
) -> Result<(), AllocError>
    requires { place < length groups.old.items }
    ensures count { length groups.new.items ≡ length groups.old.items }
    ensures put { OnOk result (groups.new.items ≡ with_entry groups.old.items place entry.now) }
{
    let row = Row::Entry(ListedEntry::of(alloc, entry)?);
    groups[place].push(row)
}

// Puts the row of an entry below the queue in which it stands, if it is listed there and the queue is listed.
fn put_below(
    alloc: Global,
    queues: &[Queue],
    query: &Query,
    shown: &[bool],
    groups: &mut Vec<Group>,
    entry: &Entry,
    tried: &mut [usize; SLOTS],
    slot: usize,
) -> Result<(), AllocError>
    requires in_order { IsInOrder name_cmp (λ q. q.name) queues.now }
    requires shown { shown.now ≡ map (is_queue_listed query.now) queues.now }
    requires count { length groups.old.items ≡ length queues.now }
    requires slot { slot < SLOTS }
    ensures count { length groups.new.items ≡ length queues.now }
    ensures put { OnOk result
        (HaveGained query.now queues.now entry.now groups.old.items groups.new.items) }
{
    if !is_of_user(query, entry) {
        return Ok(());
    }
    match place_tried(queues, stands_in(entry), tried, slot) {
        None => Ok(()),
        Some(place) => {
            if shown[place] {
                put_in(alloc, groups, place, entry)
            } else {
                Ok(())
            }
        }
    }
}

// Which queues are listed.
fn shown_queues(alloc: Global, queues: &[Queue], query: &Query) -> Result<Vec<bool>, AllocError>
    ensures { IfOk result (λ shown. shown.items ≡ map (is_queue_listed query.now) queues.now) }
{
    let mut shown = Vec::with_capacity(alloc, queues.len())?;
    for queue in queues {
        shown.push(is_queue_listed(query, queue))?;
    }
    Ok(shown)
}

// How many tags are in each slot.
fn counts_of(tags: &[u16]) -> [usize; SLOTS] {
    let mut counts = [0usize; SLOTS];
    for tag in tags {
        let slot = slot_of(*tag);
        counts[slot] = counts[slot].saturating_add(1);
    }
    counts
}

// The rows of a queue before any entry: its own one, if it is listed. The first listed queue in each slot has room for all entries whose
// homes' tags are there, so that no more is taken than for all entries: mostly these are its own. Groups with less room than they need
// grow.
fn begun_group(
    alloc: Global,
    query: &Query,
    queue: &Queue,
    counts: &mut [usize; SLOTS],
) -> Result<Group, AllocError>
    ensures { IfOk result (λ group. group ≡ rows_of_queue query.now [] queue.now) }
{
    if !is_queue_listed(query, queue) {
        return Ok(Group::new(alloc));
    }
    let slot = slot_of(home_tag(&queue.name));
    let room = counts[slot];
    counts[slot] = 0;
    let mut group = Group::with_capacity(alloc, room.saturating_add(1))?;
    group.push(Row::Queue(copy_of(alloc, queue)?))?;
    Ok(group)
}

// The rows of each queue before any entry.
fn begun_groups(
    alloc: Global,
    queues: &[Queue],
    query: &Query,
    tags: &[u16],
) -> Result<Vec<Group>, AllocError>
    ensures { IfOk result (λ groups. groups.items ≡ map (rows_of_queue query.now []) queues.now) }
{
    let mut counts = counts_of(tags);
    let mut groups = Vec::with_capacity(alloc, queues.len())?;
    for queue in queues {
        groups.push(begun_group(alloc, query, queue, &mut counts)?)?;
    }
    Ok(groups)
}

// The slot of the tag at a place.
fn slot_at(tags: &[u16], place: usize) -> usize
    ensures { result < SLOTS }
{
    match tags.get(place) {
        None => 0,
        Some(tag) => slot_of(*tag),
    }
}

/// The rows of each queue that is listed, and below it those of the entries that are listed there; none of any other queue. Each entry is
/// looked at once, in order, so that memory is read in order too; for its queue it asks at most a logarithm of the queues. The tags of the
/// entries' homes tell how much room is wanted, where the entries aren't those of one user, and where to look first.
pub(crate) fn groups_of(
    alloc: Global,
    queues: &[Queue],
    query: &Query,
    entries: &[Box<Entry>],
    tags: &[u16],
) -> Result<Vec<Group>, AllocError>
    requires { IsInOrder name_cmp (λ q. q.name) queues.now }
    ensures count { IfOk result (λ groups. length groups.items ≡ length queues.now) }
    ensures below { IfOk result (λ groups.
        AreBelow query.now queues.now (contents entries.now) groups.items) }
{
    let shown = shown_queues(alloc, queues, query)?;
    let counted: &[u16] = if query.user.is_none() { tags } else { &[] };
    let mut groups = begun_groups(alloc, queues, query, counted)?;
    let mut tried = [0usize; SLOTS];
    let mut place = 0usize;
    for boxed in entries {
        let slot = slot_at(tags, place);
        put_below(
            alloc,
            queues,
            query,
            &shown,
            &mut groups,
            boxed.as_ref(),
            &mut tried,
            slot,
        )?;
        place = place.wrapping_add(1);
    }
    Ok(groups)
}
