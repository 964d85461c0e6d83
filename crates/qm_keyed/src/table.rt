// Rows in order of their keys.
ghost use Rattle.std.specs.Prelude.{◌≡◌, ◌+◌, ◌-◌, ◌<◌, ◌≤◌, [], if◌then◌else◌, not, map, filter, find, is_some, OnErr, OnOk, option_copied};
ghost use Rattle.std.specs.Fn.{FnOnceReturnsAtMut};
ghost use Rattle.qm_model.specs.Consistent.{IsInOrder};
ghost use Rattle.qm_keyed.specs.Rows.{with_row};

use crate::keyed::Keyed;
use crate::places::{change_at, place_after, place_of, put, replace};
use std::alloc::{AllocError, Global};
use std::marker::{Model, PhantomData};

/// Rows, each under a key of its own. Contracts see `Rows`: the rows in order of their keys, and how many more have room.
///
/// Only `reserve` takes memory. Each other call asks a logarithm of the rows. A new row and a removal also move the rows
/// that stand behind.
#[derive(Drop)]
pub struct Table<K: Ord, T: Keyed<K>> {
    rows: Vec<T>,
    keys: PhantomData<K>,
}

impl<K: Ord, T: Keyed<K>> Model for Table<K, T> {
    ghost use Rattle.std.specs.Prelude.{◌-◌, vec_len, vec_capacity};
    ghost use Rattle.qm_model.specs.Consistent.{IsInOrder};
    ghost use Rattle.qm_keyed.specs.Rows.{Rows};

    ghost Value = { Rows T };

    ghost view = { λ t. record { rows = t.rows.items; spare = vec_capacity t.rows - vec_len t.rows } };

    ghost invariant = { λ t. IsInOrder K.cmp T.key t.rows.items };
}

impl<K: Ord + Drop, T: Keyed<K> + Drop> Table<K, T> {
    /// No row, and room for none. It takes no memory.
    pub fn new(alloc: Global) -> Table<K, T>
        ensures { result ≡ record { rows = []; spare = 0 } }
    {
        Table {
            rows: Vec::new(alloc),
            keys: PhantomData,
        }
    }

    /// These rows, in order of their keys. It takes no memory.
    pub fn of(rows: Vec<T>) -> Table<K, T>
        requires { IsInOrder K.cmp T.key rows.items }
        ensures { result.rows ≡ rows.items }
    {
        Table {
            rows,
            keys: PhantomData,
        }
    }

    /// The rows, in order of their keys.
    pub fn as_slice(&self) -> &[T]
        ensures rows { result.now ≡ self.now.rows }
        ensures in_order { IsInOrder K.cmp T.key self.now.rows }
    {
        self.rows.as_slice()
    }

    /// Makes room for so many rows more. Where there is room it takes no memory, and succeeds.
    pub fn reserve(&mut self, count: usize) -> Result<(), AllocError>
        ensures ok { OnOk result (count ≤ self.new.spare) }
        ensures err { OnErr result (self.old.spare < count) }
        ensures no_less { self.old.spare ≤ self.new.spare }
        ensures rows { self.new.rows ≡ self.old.rows }
    {
        self.rows.reserve(count)
    }

    /// The row of a key.
    pub fn get(&self, key: &K) -> Option<&T>
        ensures found { option_copied result ≡ find (T.has key.now) self.now.rows }
        ensures in_order { IsInOrder K.cmp T.key self.now.rows }
    {
        let Ok(place) = place_of(&self.rows, key) else {
            return None;
        };
        Some(&self.rows[place])
    }

    /// The row of the least key that is greater than this one.
    pub fn after(&self, key: &K) -> Option<&T>
        ensures next { option_copied result ≡ find (T.follows key.now) self.now.rows }
        ensures in_order { IsInOrder K.cmp T.key self.now.rows }
    {
        self.rows.get(place_after(&self.rows, key))
    }

    /// Puts a row in its place, for which there is room, and gives the row of its key that it replaces.
    pub fn put(&mut self, row: T) -> Option<T>
        requires room { 0 < self.old.spare }
        ensures replaced { result ≡ find (T.has (T.key row)) self.old.rows }
        ensures rows { self.new ≡ record {
          rows = with_row T.has T.follows T.key row self.old.rows;
          spare = if is_some result then self.old.spare else self.old.spare - 1;
        } }
    {
        match place_of(&self.rows, row.key()) {
            Ok(place) => Some(replace(&mut self.rows, place, row)),
            Err(place) => {
                put(&mut self.rows, place, row);
                None
            }
        }
    }

    /// Takes out the row of a key, and gives it. Where there is none, nothing changes.
    pub fn remove(&mut self, key: &K) -> Option<T>
        ensures removed { result ≡ find (T.has key.now) self.old.rows }
        ensures rows { self.new ≡ record {
          rows = filter (λ row. not (T.has key.now row)) self.old.rows;
          spare = if is_some result then self.old.spare + 1 else self.old.spare;
        } }
    {
        let Ok(place) = place_of(&self.rows, key) else {
            return None;
        };
        Some(self.rows.remove(place))
    }

    /// Changes the row of a key, which keeps its key, and says whether there is one. Where there is none, nothing changes.
    pub fn change<F: FnOnce(&mut T)>(&mut self, key: &K, change: F) -> bool
        ghost changed: { T → T }
        requires call { F.IsAlwaysCallable change }
        requires changed { (old new : T) → FnOnceReturnsAtMut F.FnOnce change old tt new → new ≡ changed old }
        requires keeps { (row : T) → T.key (changed row) ≡ T.key row }
        ensures found { result ≡ is_some (find (T.has key.now) self.old.rows) }
        ensures rows { self.new ≡ record self.old { rows = map (λ row. if T.has key.now row then changed row else row) self.old.rows } }
    {
        let Ok(place) = place_of(&self.rows, key) else {
            return false;
        };
        change_at(&mut self.rows, place, change);
        true
    }
}
