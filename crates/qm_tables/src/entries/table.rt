// The entries in order of their numbers.
ghost use Rattle.std.specs.Prelude.{◌≡◌, ◌+◌, ◌-◌, ◌<◌, ◌≤◌, ◌++◌, ◌∷◌, [], All, length, map, count_by, is_some, Some, OnErr, OnOk, option_copied};
ghost use Rattle.std.specs.Ordering.{nat_cmp};
ghost use Rattle.qm_model.specs.Common.{IsInOrder, entry_at, entry_numbered, with_entry};
ghost use Rattle.qm_model.specs.Merging.{moved_to, waits_in};
ghost use Rattle.qm_tables.specs.Boxed.{contents};
ghost use Rattle.qm_tables.specs.Entries.{entry_after, without_entry, without_home, without_over};
ghost use Rattle.qm_tables.specs.Changes.{changed_by, put_back, with_changed, with_home, with_mark, with_state};
ghost use Rattle.qm_tables.specs.Tags.{tags_of};

use crate::entries::boxed;
use crate::entries::change::Change;
use crate::entries::places::{filler, place_after, place_of};
use crate::entries::shelf::Shelf;
use qm_kinds::{Entry, EntryState, Mark, Moment, Name};
use std::alloc::{AllocError, Global};
use std::marker::Model;

/// Entries, each under its number. Contracts see a `Kept`: the entries in order of their numbers, and how many more have
/// room, which is one or none.
///
/// Only `reserve` takes memory: a place of 8 bytes and one of 2, and the box of the entry that comes next. Each other call asks a
/// logarithm of the entries. A new entry goes behind the others, so `insert` moves none. `remove` also moves the places that
/// stand before it or behind it, whichever are fewer, 10 bytes each. The box of an entry of the front half stays until an eighth
/// of all have gone so, and these are freed together then. No entry is moved when another one comes, is changed or goes.
#[derive(Drop)]
pub struct EntryTable {
    alloc: Global,
    shelf: Shelf,
    // The box of the entry that comes next. There is a place for it.
    ready: Option<Box<Entry>>,
}

impl Model for EntryTable {
    ghost use Rattle.std.specs.Prelude.{◌<◌, if◌then◌else◌, is_some, IsSome};
    ghost use Rattle.std.specs.Ordering.{nat_cmp};
    ghost use Rattle.qm_model.specs.Consistent.{IsInOrder};
    ghost use Rattle.qm_tables.specs.Entries.{Kept};

    ghost Value = { Kept };

    ghost view = { λ t. record { entries = t.shelf.entries; spare = if is_some t.ready then 1 else 0 } };

    ghost invariant = { λ t. IsInOrder nat_cmp (λ e. e.number) t.shelf.entries × (IsSome t.ready → 0 < t.shelf.room) };
}

impl EntryTable {
    /// No entry, and room for none. It takes no memory.
    pub fn new(alloc: Global) -> EntryTable
        ensures { result ≡ record { entries = []; spare = 0 } }
    {
        EntryTable {
            alloc,
            shelf: Shelf::new(alloc),
            ready: None,
        }
    }

    /// Makes room for one entry more. Where there is room it takes no memory, and succeeds.
    pub fn reserve(&mut self) -> Result<(), AllocError>
        ensures ok { OnOk result (self.new.spare ≡ 1) }
        ensures err { OnErr result (self.old.spare ≡ 0) }
        ensures no_less { self.old.spare ≤ self.new.spare }
        ensures entries { self.new.entries ≡ self.old.entries }
    {
        if self.ready.is_some() {
            return Ok(());
        }
        self.shelf.reserve()?;
        let ready = Box::new(self.alloc, filler())?;
        self.ready = Some(ready);
        Ok(())
    }

    /// Puts in an entry, for which there is room. Its number is greater than all others.
    pub fn insert(&mut self, entry: Entry)
        requires room { 0 < self.old.spare }
        requires last { All (λ e. e.number < entry.number) self.old.entries }
        ensures { self.new ≡ record {
          entries = self.old.entries ++ entry ∷ [];
          spare = self.old.spare - 1;
        } }
    {
        self.shelf.put_last(&mut self.ready, &entry);
    }

    /// How many entries there are.
    pub fn len(&self) -> usize
        ensures count { result ≡ length self.now.entries }
        ensures in_order { IsInOrder nat_cmp (λ e. e.number) self.now.entries }
    {
        self.shelf.as_slice().len()
    }

    /// The entry of a number.
    pub fn get(&self, number: u32) -> Option<&Entry>
        ensures found { option_copied result ≡ entry_numbered number self.now.entries }
        ensures in_order { IsInOrder nat_cmp (λ e. e.number) self.now.entries }
    {
        let entries = self.shelf.as_slice();
        let Ok(place) = place_of(entries, number) else {
            return None;
        };
        boxed::at(entries, place)
    }

    // Sets a field of the entry of a number, and says whether there is one. Where there is none, nothing changes.
    fn change(&mut self, number: u32, change: &Change) -> bool
        ensures found { result ≡ is_some (entry_numbered number self.old.entries) }
        ensures entries { self.new ≡ record self.old {
          entries = with_changed number (changed_by change.now) self.old.entries;
        } }
    {
        let Ok(place) = place_of(self.shelf.as_slice(), number) else {
            return false;
        };
        self.shelf.change_at(place, change);
        true
    }

    /// Sets the state of the entry of a number, and says whether there is one. Where there is none, nothing changes.
    pub fn set_state(&mut self, number: u32, state: EntryState) -> bool
        ensures found { result ≡ is_some (entry_numbered number self.old.entries) }
        ensures entries { self.new ≡ record self.old {
          entries = with_changed number (with_state state) self.old.entries;
        } }
    {
        self.change(number, &Change::State(state))
    }

    /// Sets the last checkpoint of the entry of a number, and says whether there is one. Where there is none, nothing changes.
    pub fn set_mark(&mut self, number: u32, mark: Mark) -> bool
        ensures found { result ≡ is_some (entry_numbered number self.old.entries) }
        ensures entries { self.new ≡ record self.old {
          entries = with_changed number (with_mark mark) self.old.entries;
        } }
    {
        self.change(number, &Change::Mark(mark))
    }

    /// Keeps that the job of a number was put back into its queue after a run, and says whether there is one. Where there
    /// is none, nothing changes.
    pub fn set_again(&mut self, number: u32) -> bool
        ensures found { result ≡ is_some (entry_numbered number self.old.entries) }
        ensures entries { self.new ≡ record self.old {
          entries = with_changed number put_back self.old.entries;
        } }
    {
        self.change(number, &Change::Again)
    }

    /// Sets the home of the entry of a number, and says whether there is one. Where there is none, nothing changes.
    pub fn set_home(&mut self, number: u32, home: Name) -> bool
        ensures found { result ≡ is_some (entry_numbered number self.old.entries) }
        ensures entries { self.new ≡ record self.old {
          entries = with_changed number (with_home home) self.old.entries;
        } }
    {
        self.change(number, &Change::Home(home))
    }

    /// Puts an entry in the place of the one of its number, and gives that. Where there is none, nothing changes.
    pub fn replace(&mut self, entry: Entry) -> Option<Entry>
        ensures replaced { result ≡ entry_numbered entry.number self.old.entries }
        ensures entries { self.new ≡ record self.old {
          entries = with_entry entry.number (λ e. Some entry) self.old.entries;
        } }
    {
        let Ok(place) = place_of(self.shelf.as_slice(), entry.number) else {
            return None;
        };
        Some(self.shelf.replace(place, &entry))
    }

    /// Takes out the entry of a number, and gives it. Where there is none, nothing changes.
    pub fn remove(&mut self, number: u32) -> Option<Entry>
        ensures removed { result ≡ entry_numbered number self.old.entries }
        ensures entries { self.new ≡ record self.old {
          entries = without_entry number self.old.entries;
        } }
    {
        let Ok(place) = place_of(self.shelf.as_slice(), number) else {
            return None;
        };
        Some(self.shelf.take(place))
    }

    /// The entries in order of their numbers.
    pub fn as_slice(&self) -> &[Box<Entry>]
        ensures { contents result.now ≡ self.now.entries }
    {
        self.shelf.as_slice()
    }

    /// The tags of the entries, in the same order: what `home_tag` gives of the home of each.
    pub fn tags(&self) -> &[u16]
        ensures { result.now ≡ tags_of self.now.entries }
    {
        self.shelf.tags()
    }

    /// Takes out the entries that are retained until a moment that has come. It looks at each entry once, and then once more for
    /// the tags.
    pub fn remove_over(&mut self, now: Moment)
        ensures { self.new ≡ record self.old { entries = without_over now self.old.entries } }
    {
        self.shelf.remove_over(now);
    }

    /// Makes each entry what the moment finds: a job that waited until then becomes pending. It looks at each entry once.
    pub fn wake(&mut self, now: Moment)
        ensures { self.new ≡ record self.old { entries = map (entry_at now) self.old.entries } }
    {
        self.shelf.wake(now);
    }

    /// Gives each job that waits in the queue `from` the home `to`, and tells how many there were. It looks at each entry
    /// once, and then once more for the tags.
    pub fn merge(&mut self, to: &Name, from: &Name) -> usize
        ensures entries { self.new ≡ record self.old {
          entries = map (moved_to to.now from.now) self.old.entries;
        } }
        ensures moved { result ≡ count_by (waits_in from.now) self.old.entries }
    {
        self.shelf.merge(to, from)
    }

    /// Takes out the entries that have this queue as their home. It looks at each entry once, and then once more for the tags.
    pub fn remove_of_home(&mut self, home: &Name)
        ensures { self.new ≡ record self.old { entries = without_home home.now self.old.entries } }
    {
        self.shelf.remove_of_home(home);
    }

    /// The entry of the least number that is greater than this one.
    pub fn after(&self, number: u32) -> Option<&Entry>
        ensures next { option_copied result ≡ entry_after number self.now.entries }
        ensures in_order { IsInOrder nat_cmp (λ e. e.number) self.now.entries }
    {
        let entries = self.shelf.as_slice();
        boxed::at(entries, place_after(entries, number))
    }
}
