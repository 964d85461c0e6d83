// Where rows stand, or belong, and what is written there.
ghost use Rattle.std.specs.Prelude.{◌≡◌, ◌≤◌, ◌<◌, ◌+◌, vec_len, vec_capacity, insert, slice_get, slice_set, slice_index_or, find};
ghost use Rattle.std.specs.Fn.{FnOnceReturnsAtMut};
ghost use Rattle.qm_model.specs.Consistent.{IsInOrder};
ghost use Rattle.qm_keyed.specs.Places.{IsPlace};

use crate::keyed::Keyed;
use std::mem;

/// Where the row of a key stands, or where one would belong. It asks a logarithm of the rows.
pub fn place_of<K: Ord, T: Keyed<K>>(rows: &[T], key: &K) -> Result<usize, usize>
    requires { IsInOrder K.cmp T.key rows.now }
    ensures { IsPlace K.cmp T.key key.now rows.now result }
{
    rows.binary_search_by(|row| row.key().cmp(key))
}

/// Where the first row of a greater key stands, or would.
pub(crate) fn place_after<K: Ord, T: Keyed<K>>(rows: &[T], key: &K) -> usize
    requires { IsInOrder K.cmp T.key rows.now }
    ensures { slice_get rows.now result ≡ find (T.follows key.now) rows.now }
{
    match place_of(rows, key) {
        Ok(place) => place + 1,
        Err(place) => place,
    }
}

/// Puts a row in at a place. There is room, so it takes no memory.
pub fn put<T: Drop>(rows: &mut Vec<T>, place: usize, row: T)
    requires within { place ≤ vec_len rows.old }
    requires room { vec_len rows.old < vec_capacity rows.old }
    ensures items { rows.new.items ≡ insert rows.old.items place row }
    ensures len { vec_len rows.new ≡ vec_len rows.old + 1 }
    ensures capacity { vec_capacity rows.new ≡ vec_capacity rows.old }
{
    let Ok(()) = rows.insert(place, row) else {
        unreachable!()
    };
}

/// Puts a row in the place of another one, and gives that.
pub(crate) fn replace<T>(rows: &mut Vec<T>, place: usize, row: T) -> T
    requires { place < vec_len rows.old }
    ensures replaced { (d : T) → result ≡ slice_index_or rows.old.items place d }
    ensures items { rows.new.items ≡ slice_set rows.old.items place row }
    ensures len { vec_len rows.new ≡ vec_len rows.old }
    ensures capacity { vec_capacity rows.new ≡ vec_capacity rows.old }
{
    mem::replace(&mut rows[place], row)
}

/// Changes the row at a place.
pub(crate) fn change_at<T, F: FnOnce(&mut T)>(rows: &mut Vec<T>, place: usize, change: F)
    ghost changed: { T → T }
    requires within { place < vec_len rows.old }
    requires call { F.IsAlwaysCallable change }
    requires changed { (old new : T) → FnOnceReturnsAtMut F.FnOnce change old tt new → new ≡ changed old }
    ensures items { (d : T) → rows.new.items ≡ slice_set rows.old.items place (changed (slice_index_or rows.old.items place d)) }
    ensures len { vec_len rows.new ≡ vec_len rows.old }
    ensures capacity { vec_capacity rows.new ≡ vec_capacity rows.old }
{
    change(&mut rows[place]);
}
