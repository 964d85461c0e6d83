// Entries in boxes, and the tag of each beside them.
ghost use Rattle.std.specs.Prelude.{◌≡◌, ◌≤◌, ◌<◌, ◌+◌, ◌++◌, ◌∷◌, [], IsSome, None, Some, OnOk, length, map, count_by, drop, vec_len, vec_capacity, slice_set, slice_get, remove};
ghost use Rattle.qm_keyed.specs.Rows.{ChangesAt};
ghost use Rattle.qm_model.specs.Due.{entry_at};
ghost use Rattle.qm_model.specs.Merging.{moved_to, waits_in};
ghost use Rattle.qm_tables.specs.Boxed.{brought, brought_behind, contents};
ghost use Rattle.qm_tables.specs.Changes.{changed_by};
ghost use Rattle.qm_tables.specs.Entries.{without_home, without_over};
ghost use Rattle.qm_tables.specs.Tags.{tags_of};

use crate::entries::change::Change;
use crate::entries::places::change_at;
use crate::entries::tags::{home_tag, retag, retag_at};
use crate::entries::{boxed, sweep};
use qm_kinds::{Entry, Moment, Name};
use std::alloc::{AllocError, Global};

/// Entries in boxes, and the tag of each at the same place of a list of its own. Only `reserve` takes memory.
#[derive(Drop)]
pub(crate) struct Tagged {
    pub(crate) boxes: Vec<Box<Entry>>,
    pub(crate) tags: Vec<u16>,
    ghost side_by_side: { vec_len tags ≡ vec_len boxes },
    ghost tagged: { tags.items ≡ tags_of (contents boxes.items) },
}

impl Tagged {
    /// No entry. It takes no memory.
    pub(crate) fn new(alloc: Global) -> Tagged
        ensures { vec_len result.boxes ≡ 0 }
    {
        Tagged {
            boxes: Vec::new(alloc),
            tags: Vec::new(alloc),
        }
    }

    /// Makes a place for one entry more.
    pub(crate) fn reserve(&mut self) -> Result<(), AllocError>
        ensures boxes { OnOk result (vec_len self.new.boxes < vec_capacity self.new.boxes) }
        ensures tags { OnOk result (vec_len self.new.tags < vec_capacity self.new.tags) }
        ensures items { self.new.boxes.items ≡ self.old.boxes.items }
        ensures len { vec_len self.new.boxes ≡ vec_len self.old.boxes }
    {
        self.boxes.reserve(1)?;
        self.tags.reserve(1)
    }

    /// Puts an entry behind the others, over what lay in the box that is ready. There is a place for it.
    pub(crate) fn put_last(&mut self, ready: &mut Option<Box<Entry>>, entry: &Entry)
        requires ready { IsSome ready.old }
        requires place { vec_len self.old.boxes < vec_capacity self.old.boxes }
        requires tag_place { vec_len self.old.tags < vec_capacity self.old.tags }
        ensures contents { contents self.new.boxes.items
            ≡ contents self.old.boxes.items ++ entry.now ∷ [] }
        ensures ready { ready.new ≡ None }
    {
        boxed::put_last(&mut self.boxes, ready, entry);
        self.tags.push_reserved(home_tag(&entry.home));
    }

    /// Puts an entry in the place of another one, and gives that.
    pub(crate) fn replace(&mut self, place: usize, entry: &Entry) -> Entry
        requires { place < vec_len self.old.boxes }
        ensures replaced { Some result ≡ slice_get (contents self.old.boxes.items) place }
        ensures contents { contents self.new.boxes.items
            ≡ slice_set (contents self.old.boxes.items) place entry.now }
        ensures len { vec_len self.new.boxes ≡ vec_len self.old.boxes }
        ensures box_capacity { vec_capacity self.new.boxes ≡ vec_capacity self.old.boxes }
        ensures tag_capacity { vec_capacity self.new.tags ≡ vec_capacity self.old.tags }
    {
        let old = boxed::replace(&mut self.boxes, place, entry);
        retag_at(&self.boxes, &mut self.tags, place);
        old
    }

    /// Sets a field of the entry at a place.
    pub(crate) fn change_at(&mut self, place: usize, change: &Change)
        requires { place < vec_len self.old.boxes }
        ensures contents { ChangesAt (changed_by change.now)
            (contents self.old.boxes.items) (contents self.new.boxes.items) place }
        ensures len { vec_len self.new.boxes ≡ vec_len self.old.boxes }
        ensures box_capacity { vec_capacity self.new.boxes ≡ vec_capacity self.old.boxes }
        ensures tag_capacity { vec_capacity self.new.tags ≡ vec_capacity self.old.tags }
    {
        change_at(&mut self.boxes, place, change);
        retag_at(&self.boxes, &mut self.tags, place);
    }

    /// Takes the entry at a place out, and frees its box.
    pub(crate) fn take(&mut self, place: usize) -> Entry
        requires { place < vec_len self.old.boxes }
        ensures taken { Some result ≡ slice_get (contents self.old.boxes.items) place }
        ensures contents { contents self.new.boxes.items
            ≡ remove (contents self.old.boxes.items) place }
        ensures len { vec_len self.new.boxes + 1 ≡ vec_len self.old.boxes }
        ensures box_capacity { vec_capacity self.new.boxes ≡ vec_capacity self.old.boxes }
        ensures tag_capacity { vec_capacity self.new.tags ≡ vec_capacity self.old.tags }
    {
        self.tags.remove(place);
        boxed::take(&mut self.boxes, place)
    }

    /// The entry at a place behind the first ones comes to stand right behind these, and those in front of it move on by one.
    pub(crate) fn turn(&mut self, first: usize, place: usize)
        requires { first + place < vec_len self.old.boxes }
        ensures items { self.new.boxes.items ≡ brought_behind first place self.old.boxes.items }
        ensures len { vec_len self.new.boxes ≡ vec_len self.old.boxes }
        ensures box_capacity { vec_capacity self.new.boxes ≡ vec_capacity self.old.boxes }
        ensures tag_capacity { vec_capacity self.new.tags ≡ vec_capacity self.old.tags }
    {
        turn(&mut self.boxes, first, place);
        turn(&mut self.tags, first, place);
    }

    /// Frees the boxes of the first entries, which moves the others to the front.
    pub(crate) fn free_first(&mut self, count: usize)
        requires { count ≤ vec_len self.old.boxes }
        ensures items { self.new.boxes.items ≡ drop count self.old.boxes.items }
        ensures len { vec_len self.new.boxes ≤ vec_len self.old.boxes }
        ensures box_capacity { vec_capacity self.new.boxes ≡ vec_capacity self.old.boxes }
        ensures tag_capacity { vec_capacity self.new.tags ≡ vec_capacity self.old.tags }
    {
        free_first(&mut self.boxes, count);
        free_first(&mut self.tags, count);
    }

    /// Takes out the entries whose time is up, and frees their boxes.
    pub(crate) fn remove_over(&mut self, now: Moment)
        ensures contents { contents self.new.boxes.items
            ≡ without_over now (contents self.old.boxes.items) }
        ensures len { vec_len self.new.boxes ≤ vec_len self.old.boxes }
        ensures box_capacity { vec_capacity self.new.boxes ≡ vec_capacity self.old.boxes }
        ensures tag_capacity { vec_capacity self.new.tags ≡ vec_capacity self.old.tags }
    {
        sweep::remove_over(&mut self.boxes, now);
        retag(&self.boxes, &mut self.tags);
    }

    /// Takes out the entries of a home, and frees their boxes.
    pub(crate) fn remove_of_home(&mut self, home: &Name)
        ensures contents { contents self.new.boxes.items
            ≡ without_home home.now (contents self.old.boxes.items) }
        ensures len { vec_len self.new.boxes ≤ vec_len self.old.boxes }
        ensures box_capacity { vec_capacity self.new.boxes ≡ vec_capacity self.old.boxes }
        ensures tag_capacity { vec_capacity self.new.tags ≡ vec_capacity self.old.tags }
    {
        sweep::remove_of_home(&mut self.boxes, home);
        retag(&self.boxes, &mut self.tags);
    }

    /// Makes each entry what the moment finds. None gets another home.
    pub(crate) fn wake(&mut self, now: Moment)
        ensures contents { contents self.new.boxes.items
            ≡ map (entry_at now) (contents self.old.boxes.items) }
        ensures len { vec_len self.new.boxes ≡ vec_len self.old.boxes }
        ensures box_capacity { vec_capacity self.new.boxes ≡ vec_capacity self.old.boxes }
        ensures tag_capacity { vec_capacity self.new.tags ≡ vec_capacity self.old.tags }
    {
        sweep::wake(self.boxes.as_mut_slice(), now);
    }

    /// Gives each job that waits in a queue another home, and tells how many there were.
    pub(crate) fn merge(&mut self, to: &Name, from: &Name) -> usize
        ensures contents { contents self.new.boxes.items
            ≡ map (moved_to to.now from.now) (contents self.old.boxes.items) }
        ensures moved { result ≡ count_by (waits_in from.now) (contents self.old.boxes.items) }
        ensures len { vec_len self.new.boxes ≡ vec_len self.old.boxes }
        ensures box_capacity { vec_capacity self.new.boxes ≡ vec_capacity self.old.boxes }
        ensures tag_capacity { vec_capacity self.new.tags ≡ vec_capacity self.old.tags }
    {
        let moved = sweep::merge(self.boxes.as_mut_slice(), to, from);
        retag(&self.boxes, &mut self.tags);
        moved
    }
}

// What stands at a place behind the first ones comes to stand right behind these, and what stood in front of it moves on by one.
fn turn<T>(items: &mut Vec<T>, first: usize, place: usize)
    requires { first + place < vec_len items.old }
    ensures items { items.new.items ≡ brought_behind first place items.old.items }
    ensures len { vec_len items.new ≡ vec_len items.old }
    ensures capacity { vec_capacity items.new ≡ vec_capacity items.old }
{
    bring(&mut items[first..], place);
}

// What stands at a place comes to the front, and what stood in front of it moves on by one.
fn bring<T>(items: &mut [T], place: usize)
    requires { place < length items.old }
    ensures items { items.new ≡ brought place items.old }
    ensures len { length items.new ≡ length items.old }
{
    items[..place + 1].rotate_right(1);
}

// Frees what stands in the first places.
fn free_first<T: Drop>(items: &mut Vec<T>, count: usize)
    requires { count ≤ vec_len items.old }
    ensures items { items.new.items ≡ drop count items.old.items }
    ensures len { vec_len items.new + count ≡ vec_len items.old }
    ensures capacity { vec_capacity items.new ≡ vec_capacity items.old }
{
    items.drain(..count);
}
