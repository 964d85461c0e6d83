// Keys that stand one behind the other, and move by one at once.
ghost use Rattle.std.specs.Prelude.{◌≡◌, ◌+◌, ◌≤◌, ◌++◌, ◌∷◌, [], length, insert, vec_capacity};

use qm_match::Key;
use std::mem;

// A key comes in front of these, and the last one goes.
fn push_in(run: &mut [Key], key: Key) -> Key
    ensures moved { run.new ++ result ∷ [] ≡ key ∷ run.old }
    ensures len { length run.new ≡ length run.old }
{
    if run.is_empty() {
        return key;
    }
    run.rotate_right(1);
    mem::replace(&mut run[0], key)
}

// A key comes behind these, and the first one goes.
fn pull_in(run: &mut [Key], key: Key) -> Key
    ensures moved { result ∷ run.new ≡ run.old ++ key ∷ [] }
    ensures len { length run.new ≡ length run.old }
{
    if run.is_empty() {
        return key;
    }
    let first = mem::replace(&mut run[0], key);
    run.rotate_left(1);
    first
}

// The same of so many keys from a place on.
fn push_part(keys: &mut [Key], place: usize, count: usize, key: Key) -> Key
    requires { place + count ≤ length keys.old }
    ensures moved { insert keys.new (place + count) result ≡ insert keys.old place key }
    ensures len { length keys.new ≡ length keys.old }
{
    push_in(&mut keys[place..place + count], key)
}

// And the other way round.
fn pull_part(keys: &mut [Key], place: usize, count: usize, key: Key) -> Key
    requires { place + count ≤ length keys.old }
    ensures moved { insert keys.new place result ≡ insert keys.old (place + count) key }
    ensures len { length keys.new ≡ length keys.old }
{
    pull_in(&mut keys[place..place + count], key)
}

/// A key comes in front of so many keys from a place on, and the last one of these goes.
pub(crate) fn push_run(keys: &mut Vec<Key>, place: usize, count: usize, key: Key) -> Key
    requires { place + count ≤ length keys.old.items }
    ensures moved { insert keys.new.items (place + count) result ≡ insert keys.old.items place key }
    ensures len { length keys.new.items ≡ length keys.old.items }
    ensures capacity { vec_capacity keys.new ≡ vec_capacity keys.old }
{
    push_part(keys.as_mut_slice(), place, count, key)
}

/// A key comes behind so many keys from a place on, and the first one of these goes.
pub(crate) fn pull_run(keys: &mut Vec<Key>, place: usize, count: usize, key: Key) -> Key
    requires { place + count ≤ length keys.old.items }
    ensures moved { insert keys.new.items place result ≡ insert keys.old.items (place + count) key }
    ensures len { length keys.new.items ≡ length keys.old.items }
    ensures capacity { vec_capacity keys.new ≡ vec_capacity keys.old }
{
    pull_part(keys.as_mut_slice(), place, count, key)
}
