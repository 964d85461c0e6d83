// Keys are put in the order of starts.
ghost use Rattle.std.specs.Prelude.{◌≡◌, length, vec_capacity, IsPermutation, IsSortedBy};
ghost use Rattle.std.specs.Ordering.{is_lt};
ghost use Rattle.qm_match.specs.Keys.{comes_before};

use qm_match::{Key, Schedule, before};
use std::cmp::Ordering;

// Which of two keys comes first.
fn compare(schedule: Schedule, key: &Key, other: &Key) -> Ordering
    ensures { is_lt result ≡ comes_before schedule key.now other.now }
{
    if before(schedule, key, other) {
        Ordering::Less
    } else {
        Ordering::Greater
    }
}

/// Puts keys in the order of starts. It takes no memory.
pub(crate) fn sort(keys: &mut Vec<Key>, schedule: Schedule)
    ensures sorted { IsSortedBy (comes_before schedule) keys.new.items }
    ensures permutation { IsPermutation keys.old.items keys.new.items }
    ensures len { length keys.new.items ≡ length keys.old.items }
    ensures capacity { vec_capacity keys.new ≡ vec_capacity keys.old }
{
    keys.sort_unstable_by(|key, other| compare(schedule, key, other));
}
