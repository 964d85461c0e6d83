// Where keys stand, or belong.
ghost use Rattle.std.specs.Prelude.{◌≡◌, ◌<◌, false, length, remove, slice_get, slice_index_or};
ghost use Rattle.std.specs.Option.{option_map_or};
ghost use Rattle.qm_match.specs.declared.order.Key.{Key};
ghost use Rattle.qm_match.specs.Keys.{comes_before};
ghost use Rattle.qm_ready.specs.Rows.{IsRow, is_key};
ghost use Rattle.qm_ready.specs.Kept.{IsPlaceOf};

use crate::tiers::Tiers;
use qm_match::{Key, Schedule, before};

// Whether the key at a place comes before another one.
fn is_before_at(keys: &Tiers, schedule: Schedule, key: &Key, place: usize) -> bool
    requires { place < length keys.now.list }
    ensures { (d : Key)
        → result ≡ comes_before schedule (slice_index_or keys.now.list place d) key.now }
{
    match keys.get(place) {
        None => false,
        Some(other) => before(schedule, other, key),
    }
}

/// How many keys of a row come before this one. It asks a logarithm of the keys.
pub(crate) fn place_of(keys: &Tiers, schedule: Schedule, key: &Key) -> usize
    requires { IsRow schedule keys.now.list }
    ensures { IsPlaceOf schedule key.now keys.now.list result }
{
    let mut low = 0;
    let mut high = keys.len();
    while low < high {
        let middle = low + (high - low) / 2;
        if is_before_at(keys, schedule, key, middle) {
            low = middle + 1;
        } else {
            high = middle;
        }
    }
    low
}

/// How many of the keys but the one at a place come before this one, which has its number. It asks a logarithm of the keys.
pub(crate) fn place_beside(keys: &Tiers, schedule: Schedule, place: usize, key: &Key) -> usize
    requires row { IsRow schedule keys.now.list }
    requires within { place < length keys.now.list }
    ensures within { result < length keys.now.list }
    ensures stands { IsPlaceOf schedule key.now (remove keys.now.list place) result }
{
    let all = place_of(keys, schedule, key);
    if place < all { all - 1 } else { all }
}

// Whether both are the same key.
fn is_key(key: &Key, other: &Key) -> bool
    ensures { result ≡ is_key key.now other.now }
{
    key.priority == other.priority && key.size == other.size && key.number == other.number
}

/// Whether just this key stands at a place.
pub(crate) fn stands_at(keys: &Tiers, place: usize, key: &Key) -> bool
    ensures { result ≡ option_map_or (is_key key.now) (slice_get keys.now.list place) false }
{
    match keys.get(place) {
        None => false,
        Some(other) => is_key(key, other),
    }
}
