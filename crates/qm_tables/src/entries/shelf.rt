// Entries in boxes, one behind the other.
ghost use Rattle.std.specs.Prelude.{◌≡◌, ◌≤◌, ◌<◌, ◌+◌, ◌++◌, ◌∷◌, [], IsSome, None, Some, OnOk, length, map, count_by, vec_len, vec_capacity, slice_set, slice_get, remove};
ghost use Rattle.qm_keyed.specs.Rows.{ChangesAt};
ghost use Rattle.qm_model.specs.Due.{entry_at};
ghost use Rattle.qm_model.specs.Merging.{moved_to, waits_in};
ghost use Rattle.qm_tables.specs.Boxed.{contents};
ghost use Rattle.qm_tables.specs.Changes.{changed_by};
ghost use Rattle.qm_tables.specs.Entries.{without_home, without_over};
ghost use Rattle.qm_tables.specs.Shelved.{shelved};
ghost use Rattle.qm_tables.specs.Tags.{tags_of};

use crate::entries::change::Change;
use crate::entries::tagged::Tagged;
use qm_kinds::{Entry, Moment, Name};
use std::alloc::{AllocError, Global};
use std::marker::Model;

/// Entries in boxes, one behind the other. The first goes without a move of the others, and each one with a move of those places
/// that are fewer, before it or behind it: a box from the front half stays until an eighth of the boxes have gone so, and then these
/// are freed together. Only `reserve` takes memory.
#[derive(Drop)]
pub(crate) struct Shelf {
    row: Tagged,
    // So many boxes at the front hold entries that were taken out: few, since they keep their memory.
    gone: usize,
}

impl Model for Shelf {
    ghost use Rattle.std.specs.Prelude.{◌-◌, ◌/◌, ◌≤◌, drop, min, vec_len, vec_capacity};
    ghost use Rattle.qm_tables.specs.declared.entries.shelf.TheConstants.{MOST_GONE};
    ghost use Rattle.qm_tables.specs.Boxed.{contents, Shelved};

    ghost Value = { Shelved };

    ghost view = { λ s. record {
      entries = drop s.gone (contents s.row.boxes.items);
      room = min (vec_capacity s.row.boxes - vec_len s.row.boxes) (vec_capacity s.row.tags - vec_len s.row.tags);
    } };

    ghost invariant = { λ s. (s.gone ≤ vec_len s.row.boxes) × (s.gone ≤ vec_len s.row.boxes / MOST_GONE) };
}

/// Of so many boxes one may hold an entry that was taken out.
const MOST_GONE: usize = 8;

impl Shelf {
    /// No entry. It takes no memory.
    pub(crate) fn new(alloc: Global) -> Shelf
        ensures { result.entries ≡ [] }
    {
        Shelf {
            row: Tagged::new(alloc),
            gone: 0,
        }
    }

    /// The entries.
    pub(crate) fn as_slice(&self) -> &[Box<Entry>]
        ensures { contents result.now ≡ self.now.entries }
    {
        &self.row.boxes[self.gone..]
    }

    /// The tags of the entries.
    pub(crate) fn tags(&self) -> &[u16]
        ensures { result.now ≡ tags_of self.now.entries }
    {
        &self.row.tags[self.gone..]
    }

    /// Makes a place for one entry more.
    pub(crate) fn reserve(&mut self) -> Result<(), AllocError>
        ensures room { OnOk result (0 < self.new.room) }
        ensures entries { self.new.entries ≡ self.old.entries }
    {
        self.row.reserve()
    }

    /// Puts an entry behind the others, over what lay in the box that is ready. There is a place for it.
    pub(crate) fn put_last(&mut self, ready: &mut Option<Box<Entry>>, entry: &Entry)
        requires ready { IsSome ready.old }
        requires room { 0 < self.old.room }
        ensures entries { self.new.entries ≡ self.old.entries ++ entry.now ∷ [] }
        ensures ready { ready.new ≡ None }
    {
        self.row.put_last(ready, entry);
    }

    /// Puts an entry in the place of another one, and gives that.
    pub(crate) fn replace(&mut self, place: usize, entry: &Entry) -> Entry
        requires { place < length self.old.entries }
        ensures replaced { Some result ≡ slice_get self.old.entries place }
        ensures entries { self.new.entries ≡ slice_set self.old.entries place entry.now }
        ensures room { self.new.room ≡ self.old.room }
    {
        self.row.replace(self.gone + place, entry)
    }

    /// Sets a field of the entry at a place.
    pub(crate) fn change_at(&mut self, place: usize, change: &Change)
        requires { place < length self.old.entries }
        ensures entries { ChangesAt (changed_by change.now) self.old.entries self.new.entries place }
        ensures room { self.new.room ≡ self.old.room }
    {
        self.row.change_at(self.gone + place, change);
    }

    /// Takes the entry at a place out. Where it stands in the front half the places before it move, 10 bytes each, else those
    /// behind it. The box of one in the front half stays until an eighth of the boxes have gone so: those that are left then move
    /// once, 56 bytes for each that has gone.
    pub(crate) fn take(&mut self, place: usize) -> Entry
        requires { place < length self.old.entries }
        ensures taken { Some result ≡ slice_get self.old.entries place }
        ensures entries { self.new.entries ≡ remove self.old.entries place }
        ensures room { self.old.room ≤ self.new.room }
    {
        let entry = take_at(&mut self.row, &mut self.gone, place);
        if self.gone > self.row.boxes.len() / MOST_GONE {
            free_gone(&mut self.row, &mut self.gone);
        }
        entry
    }

    /// Takes out the entries whose time is up, and frees their boxes.
    pub(crate) fn remove_over(&mut self, now: Moment)
        ensures entries { self.new.entries ≡ without_over now self.old.entries }
        ensures room { self.old.room ≤ self.new.room }
    {
        free_gone(&mut self.row, &mut self.gone);
        self.row.remove_over(now);
    }

    /// Takes out the entries of a home, and frees their boxes.
    pub(crate) fn remove_of_home(&mut self, home: &Name)
        ensures entries { self.new.entries ≡ without_home home.now self.old.entries }
        ensures room { self.old.room ≤ self.new.room }
    {
        free_gone(&mut self.row, &mut self.gone);
        self.row.remove_of_home(home);
    }

    /// Makes each entry what the moment finds.
    pub(crate) fn wake(&mut self, now: Moment)
        ensures entries { self.new.entries ≡ map (entry_at now) self.old.entries }
        ensures room { self.old.room ≤ self.new.room }
    {
        free_gone(&mut self.row, &mut self.gone);
        self.row.wake(now);
    }

    /// Gives each job that waits in a queue another home, and tells how many there were.
    pub(crate) fn merge(&mut self, to: &Name, from: &Name) -> usize
        ensures entries { self.new.entries ≡ map (moved_to to.now from.now) self.old.entries }
        ensures moved { result ≡ count_by (waits_in from.now) self.old.entries }
        ensures room { self.old.room ≤ self.new.room }
    {
        free_gone(&mut self.row, &mut self.gone);
        self.row.merge(to, from)
    }
}

// Takes the entry at a place behind those that are gone out.
fn take_at(row: &mut Tagged, gone: &mut usize, place: usize) -> Entry
    requires { gone.old + place < vec_len row.old.boxes }
    ensures taken { Some result ≡ slice_get (shelved gone.old row.old) place }
    ensures left { shelved gone.new row.new ≡ remove (shelved gone.old row.old) place }
    ensures within { gone.new ≤ vec_len row.new.boxes }
    ensures len { vec_len row.new.boxes ≤ vec_len row.old.boxes }
    ensures box_capacity { vec_capacity row.new.boxes ≡ vec_capacity row.old.boxes }
    ensures tag_capacity { vec_capacity row.new.tags ≡ vec_capacity row.old.tags }
{
    if place < (row.boxes.len() - *gone) / 2 {
        return take_front(row, gone, place);
    }
    row.take(*gone + place)
}

// Takes the entry at a place behind those that are gone out, by a move of those that stand in front of it: its box stays, as
// one that is gone.
fn take_front(row: &mut Tagged, gone: &mut usize, place: usize) -> Entry
    requires { gone.old + place < vec_len row.old.boxes }
    ensures taken { Some result ≡ slice_get (shelved gone.old row.old) place }
    ensures left { shelved gone.new row.new ≡ remove (shelved gone.old row.old) place }
    ensures within { gone.new ≤ vec_len row.new.boxes }
    ensures len { vec_len row.new.boxes ≤ vec_len row.old.boxes }
    ensures box_capacity { vec_capacity row.new.boxes ≡ vec_capacity row.old.boxes }
    ensures tag_capacity { vec_capacity row.new.tags ≡ vec_capacity row.old.tags }
{
    row.turn(*gone, place);
    let first = *row.boxes[*gone];
    *gone += 1;
    first
}

// Frees the boxes of entries that are gone, which moves the others to the front.
fn free_gone(row: &mut Tagged, gone: &mut usize)
    requires { gone.old ≤ vec_len row.old.boxes }
    ensures none { gone.new ≡ 0 }
    ensures left { contents row.new.boxes.items ≡ shelved gone.old row.old }
    ensures len { vec_len row.new.boxes ≤ vec_len row.old.boxes }
    ensures box_capacity { vec_capacity row.new.boxes ≡ vec_capacity row.old.boxes }
    ensures tag_capacity { vec_capacity row.new.tags ≡ vec_capacity row.old.tags }
{
    row.free_first(*gone);
    *gone = 0;
}
