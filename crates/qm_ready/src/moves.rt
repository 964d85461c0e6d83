// How a key goes through the tiers of a list, for another one that goes on.
ghost use Rattle.std.specs.Prelude.{◌≡◌, ◌+◌, ◌-◌, ◌*◌, ◌/◌, ◌%◌, ◌<◌, ◌≤◌, false, length, All, insert, slice_set, slice_index, slice_index_or, vec_len, vec_capacity};
ghost use Rattle.qm_match.specs.declared.order.Key.{Key};
ghost use Rattle.qm_ready.specs.Tiers.{AreSlots, IsInFront, IsInRing, IsSlot, IsTiered, laid};
ghost use Rattle.qm_ready.specs.Moving.{MovesKeys};
ghost use Rattle.qm_ready.specs.declared.moves.TheConstants.{TIER};

use crate::runs::{pull_run, push_run};
use qm_match::Key;
use std::mem;

/// How many keys a full tier has. At most so many steps are made in one tier, and one in each of the others: few in both
/// where a row has as many keys as a site has entries.
pub(crate) const TIER: usize = 512;

// A place in a ring, from its head.
fn in_ring(head: usize, offset: usize) -> usize
    requires head { head < TIER }
    requires offset { offset < TIER }
    ensures { IsInRing TIER head offset result }
{
    let place = head + offset;
    if place < TIER { place } else { place - TIER }
}

// The place of a ring in front of its head.
fn in_front(head: usize) -> usize
    requires { head < TIER }
    ensures { IsInFront TIER head result }
{
    if head == 0 { TIER - 1 } else { head - 1 }
}

// The head in front of which a place of a ring is.
fn behind(place: usize) -> usize
    requires { place < TIER }
    ensures within { result < TIER }
    ensures front { IsInFront TIER result place }
{
    if place + 1 == TIER { 0 } else { place + 1 }
}

/// Where the key of a place in a full tier is kept.
pub(crate) fn slot_of(keys: &[Key], heads: &[usize], place: usize) -> usize
    requires tiered { IsTiered TIER heads.now keys.now }
    requires within { place < length heads.now * TIER }
    ensures { IsSlot Key TIER heads.now place result }
{
    let tier = place / TIER;
    tier * TIER + in_ring(heads[tier], place % TIER)
}

// Puts a key in the place of another one, and gives that.
fn exchange(keys: &mut Vec<Key>, slot: usize, key: Key) -> Key
    requires { slot < vec_len keys.old }
    ensures out { (d : Key) → result ≡ slice_index_or keys.old.items slot d }
    ensures items { keys.new.items ≡ slice_set keys.old.items slot key }
    ensures len { vec_len keys.new ≡ vec_len keys.old }
    ensures capacity { vec_capacity keys.new ≡ vec_capacity keys.old }
{
    mem::replace(&mut keys[slot], key)
}

// So many keys from a place on stand in slots one behind the other, and here is the first of these.
#[derive(Drop)]
struct Run {
    slot: usize,
    count: usize,
}

// The run that begins at a place, up to another one.
fn run_from(heads: &[usize], from: usize, to: usize) -> Run
    requires tiered { All (λ h. h < TIER) heads.now }
    requires order { from < to }
    requires within { to ≤ length heads.now * TIER }
    ensures some { 0 < result.count }
    ensures within { from + result.count ≤ to }
    ensures slots { AreSlots Key TIER heads.now from result.slot result.count }
{
    let tier = from / TIER;
    let slot = in_ring(heads[tier], from % TIER);
    let count = (TIER - slot).min(TIER - from % TIER);
    Run {
        slot: tier * TIER + slot,
        count: count.min(to - from),
    }
}

// The run that ends in front of a place, down to another one.
fn run_to(heads: &[usize], from: usize, to: usize) -> Run
    requires tiered { All (λ h. h < TIER) heads.now }
    requires order { to < from }
    requires within { from ≤ length heads.now * TIER }
    ensures some { 0 < result.count }
    ensures within { to + result.count ≤ from }
    ensures slots { AreSlots Key TIER heads.now (from - result.count) result.slot result.count }
{
    let last = from - 1;
    let tier = last / TIER;
    let slot = in_ring(heads[tier], last % TIER);
    let count = slot.min(last % TIER).min(last - to) + 1;
    Run {
        slot: tier * TIER + (slot + 1 - count),
        count,
    }
}

// A key comes into a place, those from there up to another place move on by one, and the last one goes.
fn push_on(keys: &mut Vec<Key>, heads: &[usize], from: usize, to: usize, key: Key) -> Key
    requires tiered { IsTiered TIER heads.now keys.old.items }
    requires order { from ≤ to }
    requires within { to ≤ length heads.now * TIER }
    ensures moved { insert (laid TIER heads.now keys.new.items) to result
        ≡ insert (laid TIER heads.now keys.old.items) from key }
    ensures len { length keys.new.items ≡ length keys.old.items }
    ensures capacity { vec_capacity keys.new ≡ vec_capacity keys.old }
{
    let mut carry = key;
    let mut at = from;
    while at < to {
        let run = run_from(heads, at, to);
        carry = push_run(keys, run.slot, run.count, carry);
        at += run.count;
    }
    carry
}

// A key comes in front of a place, those before it down to another place move back by one, and the first one goes.
fn pull_back(keys: &mut Vec<Key>, heads: &[usize], from: usize, to: usize, key: Key) -> Key
    requires tiered { IsTiered TIER heads.now keys.old.items }
    requires order { to ≤ from }
    requires within { from ≤ length heads.now * TIER }
    ensures moved { insert (laid TIER heads.now keys.new.items) to result
        ≡ insert (laid TIER heads.now keys.old.items) from key }
    ensures len { length keys.new.items ≡ length keys.old.items }
    ensures capacity { vec_capacity keys.new ≡ vec_capacity keys.old }
{
    let mut at = from;
    let mut carry = key;
    while to < at {
        let run = run_to(heads, at, to);
        carry = pull_run(keys, run.slot, run.count, carry);
        at -= run.count;
    }
    carry
}

// The head of a tier.
fn head_of(heads: &Vec<usize>, tier: usize) -> usize
    requires { tier < length heads.now.items }
    ensures { result ≡ slice_index heads.now.items tier }
{
    heads[tier]
}

// A key comes in front of a tier, and the last one of the tier goes.
fn turn_on(keys: &mut Vec<Key>, heads: &mut Vec<usize>, tier: usize, key: Key) -> Key
    requires tiered { IsTiered TIER heads.old.items keys.old.items }
    requires within { tier < length heads.old.items }
    ensures { MovesKeys keys.old heads.old keys.new heads.new
        (tier * TIER) key (tier * TIER + TIER) result }
{
    let head = in_front(head_of(heads, tier));
    heads[tier] = head;
    exchange(keys, tier * TIER + head, key)
}

// A key comes behind a tier, and the first one of the tier goes.
fn turn_back(keys: &mut Vec<Key>, heads: &mut Vec<usize>, tier: usize, key: Key) -> Key
    requires tiered { IsTiered TIER heads.old.items keys.old.items }
    requires within { tier < length heads.old.items }
    ensures { MovesKeys keys.old heads.old keys.new heads.new
        (tier * TIER + TIER) key (tier * TIER) result }
{
    let head = head_of(heads, tier);
    heads[tier] = behind(head);
    exchange(keys, tier * TIER + head, key)
}

// A key comes in front of a tier, and the last one of those up to another tier goes.
fn ripple_on(keys: &mut Vec<Key>, heads: &mut Vec<usize>, from: usize, to: usize, key: Key) -> Key
    requires tiered { IsTiered TIER heads.old.items keys.old.items }
    requires order { from ≤ to }
    requires within { to ≤ length heads.old.items }
    ensures { MovesKeys keys.old heads.old keys.new heads.new (from * TIER) key (to * TIER) result }
{
    let mut carry = key;
    let mut tier = from;
    while tier < to {
        carry = turn_on(keys, heads, tier, carry);
        tier += 1;
    }
    carry
}

// A key comes in front of a tier, and the first one of those before it down to another tier goes.
fn ripple_back(keys: &mut Vec<Key>, heads: &mut Vec<usize>, from: usize, to: usize, key: Key) -> Key
    requires tiered { IsTiered TIER heads.old.items keys.old.items }
    requires order { to ≤ from }
    requires within { from ≤ length heads.old.items }
    ensures { MovesKeys keys.old heads.old keys.new heads.new (from * TIER) key (to * TIER) result }
{
    let mut carry = key;
    let mut tier = from;
    while to < tier {
        tier -= 1;
        carry = turn_back(keys, heads, tier, carry);
    }
    carry
}

// Whether a place is nearer to the front of its tier than to its end. The front of a tier is.
fn is_near_front(place: usize) -> bool
    ensures { result ≡ false → 0 < place % TIER }
{
    place % TIER < TIER / 2
}

// A key comes into its place in a tier, and the last one of the tier goes. The keys on the shorter side of the place move.
fn enter(keys: &mut Vec<Key>, heads: &mut Vec<usize>, place: usize, key: Key) -> Key
    requires tiered { IsTiered TIER heads.old.items keys.old.items }
    requires within { place < length heads.old.items * TIER }
    ensures { MovesKeys keys.old heads.old keys.new heads.new
        place key ((place / TIER + 1) * TIER) result }
{
    let tier = place / TIER;
    if is_near_front(place) {
        let first = pull_back(keys, heads, place, tier * TIER, key);
        return turn_on(keys, heads, tier, first);
    }
    push_on(keys, heads, place, (tier + 1) * TIER, key)
}

// A key comes behind a tier, and the one of a place in the tier goes. The keys on the shorter side of the place move.
fn leave(keys: &mut Vec<Key>, heads: &mut Vec<usize>, place: usize, key: Key) -> Key
    requires tiered { IsTiered TIER heads.old.items keys.old.items }
    requires within { place < length heads.old.items * TIER }
    ensures { MovesKeys keys.old heads.old keys.new heads.new
        ((place / TIER + 1) * TIER) key place result }
{
    let tier = place / TIER;
    if is_near_front(place) {
        let first = turn_back(keys, heads, tier, key);
        return push_on(keys, heads, tier * TIER, place, first);
    }
    pull_back(keys, heads, (tier + 1) * TIER, place, key)
}

// A key comes in front of a tier, and the one in front of a place in the tier goes. The keys on the shorter side of the place move.
fn arrive(keys: &mut Vec<Key>, heads: &mut Vec<usize>, place: usize, key: Key) -> Key
    requires tiered { IsTiered TIER heads.old.items keys.old.items }
    requires within { place ≤ length heads.old.items * TIER }
    ensures { MovesKeys keys.old heads.old keys.new heads.new
        (place / TIER * TIER) key place result }
{
    let tier = place / TIER;
    if is_near_front(place) {
        return push_on(keys, heads, tier * TIER, place, key);
    }
    let last = turn_on(keys, heads, tier, key);
    pull_back(keys, heads, (tier + 1) * TIER, place, last)
}

// A key comes in front of a place in a tier, and the first one of the tier goes. The keys on the shorter side of the place move.
fn depart(keys: &mut Vec<Key>, heads: &mut Vec<usize>, place: usize, key: Key) -> Key
    requires tiered { IsTiered TIER heads.old.items keys.old.items }
    requires within { place ≤ length heads.old.items * TIER }
    ensures { MovesKeys keys.old heads.old keys.new heads.new
        place key (place / TIER * TIER) result }
{
    let tier = place / TIER;
    if is_near_front(place) {
        return pull_back(keys, heads, place, tier * TIER, key);
    }
    let last = push_on(keys, heads, place, (tier + 1) * TIER, key);
    turn_back(keys, heads, tier, last)
}

/// A key comes into its place in the full tiers, those from there up to another place move on by one, and the last one of these
/// goes. Of the tiers between both only the heads move.
pub(crate) fn pass_on(
    keys: &mut Vec<Key>,
    heads: &mut Vec<usize>,
    from: usize,
    to: usize,
    key: Key,
) -> Key
    requires tiered { IsTiered TIER heads.old.items keys.old.items }
    requires order { from ≤ to }
    requires within { to ≤ length heads.old.items * TIER }
    ensures { MovesKeys keys.old heads.old keys.new heads.new from key to result }
{
    if from / TIER == to / TIER {
        return push_on(keys, heads, from, to, key);
    }
    let last = enter(keys, heads, from, key);
    let carry = ripple_on(keys, heads, from / TIER + 1, to / TIER, last);
    arrive(keys, heads, to, carry)
}

/// A key comes in front of a place in the full tiers, those before it down to another place move back by one, and the first one of
/// these goes. Of the tiers between both only the heads move.
pub(crate) fn pass_back(
    keys: &mut Vec<Key>,
    heads: &mut Vec<usize>,
    from: usize,
    to: usize,
    key: Key,
) -> Key
    requires tiered { IsTiered TIER heads.old.items keys.old.items }
    requires order { to ≤ from }
    requires within { from ≤ length heads.old.items * TIER }
    ensures { MovesKeys keys.old heads.old keys.new heads.new from key to result }
{
    if from / TIER == to / TIER {
        return pull_back(keys, heads, from, to, key);
    }
    let first = depart(keys, heads, from, key);
    let carry = ripple_back(keys, heads, from / TIER, to / TIER + 1, first);
    leave(keys, heads, to, carry)
}
