// A list of keys in tiers.
ghost use Rattle.std.specs.Prelude.{◌≡◌, ◌+◌, ◌*◌, ◌^◌, ◌<◌, ◌≤◌, [], length, All, OnErr, OnOk, insert, remove, take, drop, ◌++◌, slice_get, slice_index_or, vec_len, vec_capacity, option_copied};
ghost use Rattle.qm_match.specs.declared.order.Key.{Key};
ghost use Rattle.qm_ready.specs.Rows.{HasNumbersOnce, IsRow, HaveSameKeys};
ghost use Rattle.qm_ready.specs.Tiers.{IsTiered, laid, turned};
ghost use Rattle.qm_ready.specs.Moving.{MovesKeys};
ghost use Rattle.qm_ready.specs.declared.moves.TheConstants.{TIER};

use crate::moves::{TIER, pass_back, pass_on, slot_of};
use crate::runs::{pull_run, push_run};
use crate::sorting::sort;
use qm_match::{Key, Schedule};
use std::alloc::{AllocError, Global};
use std::marker::Model;

/// A list of keys in which one comes and goes anywhere with few moves: a tiered vector. The keys stand in tiers of 512, each a
/// ring with a head of its own, and a last one that isn't full. Where a key comes, those behind it in its tier move by one, and
/// of each tier behind only the head does; so do they where one goes. With 65,536 keys that is at most 512 and 128 steps. Where one
/// goes and another one comes elsewhere, only tiers from the one place to the other are touched.
///
/// Contracts see a `Tiered`: the list, and for how many keys there is room. Only `reserve` takes memory.
#[derive(Drop)]
pub(crate) struct Tiers {
    keys: Vec<Key>,
    // Of each full tier the place of its first key.
    heads: Vec<usize>,
}

impl Model for Tiers {
    ghost use Rattle.std.specs.Prelude.{◌+◌, ◌*◌, min, vec_capacity};
    ghost use Rattle.qm_match.specs.declared.order.Key.{Key};
    ghost use Rattle.qm_ready.specs.Tiers.{IsTiered, Tiered, laid};
    ghost use Rattle.qm_ready.specs.declared.moves.TheConstants.{TIER};

    ghost Value = { Tiered Key };

    ghost view = { λ t. record {
      list = laid TIER t.heads.items t.keys.items;
      capacity = min (vec_capacity t.keys) (vec_capacity t.heads * TIER + 511);
    } };

    ghost invariant = { λ t. IsTiered TIER t.heads.items t.keys.items };
}

// Puts a key in at a place behind all full tiers. There is room, so it takes no memory.
fn put(keys: &mut Vec<Key>, place: usize, key: Key)
    requires within { place ≤ vec_len keys.old }
    requires room { vec_len keys.old < vec_capacity keys.old }
    ensures items { keys.new.items ≡ insert keys.old.items place key }
    ensures len { vec_len keys.new ≡ vec_len keys.old + 1 }
    ensures capacity { vec_capacity keys.new ≡ vec_capacity keys.old }
{
    let Ok(()) = keys.insert(place, key) else {
        unreachable!()
    };
}

// Puts a key in at a place. The last tier may be full then.
fn insert(keys: &mut Vec<Key>, heads: &mut Vec<usize>, place: usize, key: Key)
    requires tiered { IsTiered TIER heads.old.items keys.old.items }
    requires within { place ≤ length keys.old.items }
    requires room { length keys.old.items < vec_capacity keys.old }
    ensures list { laid TIER heads.new.items keys.new.items
        ≡ insert (laid TIER heads.old.items keys.old.items) place key }
    ensures within { All (λ h. h < TIER) heads.new.items }
    ensures tiers { length heads.new.items ≡ length heads.old.items }
    ensures len { length keys.new.items ≡ length keys.old.items + 1 }
    ensures capacity { vec_capacity keys.new ≡ vec_capacity keys.old }
    ensures heads_capacity { vec_capacity heads.new ≡ vec_capacity heads.old }
{
    let ends = heads.len() * TIER;
    if ends <= place {
        put(keys, place, key);
        return;
    }
    let last = pass_on(keys, heads, place, ends, key);
    put(keys, ends, last);
}

// A last tier that is full becomes a ring.
fn close(keys: &[Key], heads: &mut Vec<usize>)
    requires full { length heads.old.items * TIER ≤ length keys.now }
    requires last { length keys.now ≤ length heads.old.items * TIER + TIER }
    requires within { All (λ h. h < TIER) heads.old.items }
    requires room { length keys.now ≤ vec_capacity heads.old * TIER + 511 }
    ensures list { laid TIER heads.new.items keys.now ≡ laid TIER heads.old.items keys.now }
    ensures tiered { IsTiered TIER heads.new.items keys.now }
    ensures capacity { vec_capacity heads.new ≡ vec_capacity heads.old }
{
    if keys.len() == (heads.len() + 1) * TIER {
        heads.push_reserved(0);
    }
}

// A ring turns from a place on, so that its head is there.
fn turn(keys: &mut Vec<Key>, base: usize, head: usize)
    requires base { base ≤ length keys.old.items }
    requires head { base + head ≤ length keys.old.items }
    ensures items { keys.new.items
        ≡ take base keys.old.items ++ turned head (drop base keys.old.items) }
    ensures len { vec_len keys.new ≡ vec_len keys.old }
    ensures capacity { vec_capacity keys.new ≡ vec_capacity keys.old }
{
    keys[base..].rotate_left(head);
}

// A ring behind which no key stands becomes a last tier.
fn open(keys: &mut Vec<Key>, heads: &mut Vec<usize>)
    requires tiered { IsTiered TIER heads.old.items keys.old.items }
    requires some { 0 < length keys.old.items }
    ensures list { laid TIER heads.new.items keys.new.items
        ≡ laid TIER heads.old.items keys.old.items }
    ensures within { All (λ h. h < TIER) heads.new.items }
    ensures some { length heads.new.items * TIER < length keys.new.items }
    ensures last { length keys.new.items ≤ length heads.new.items * TIER + TIER }
    ensures len { length keys.new.items ≡ length keys.old.items }
    ensures capacity { vec_capacity keys.new ≡ vec_capacity keys.old }
    ensures heads_capacity { vec_capacity heads.new ≡ vec_capacity heads.old }
{
    if heads.len() * TIER < keys.len() {
        return;
    }
    let Some(head) = heads.pop() else {
        unreachable!()
    };
    turn(keys, heads.len() * TIER, head);
}

// Takes out the key at a place. The last tier isn't empty.
fn remove(keys: &mut Vec<Key>, heads: &mut Vec<usize>, place: usize)
    requires within { All (λ h. h < TIER) heads.old.items }
    requires some { length heads.old.items * TIER < length keys.old.items }
    requires last { length keys.old.items ≤ length heads.old.items * TIER + TIER }
    requires place { place < length keys.old.items }
    ensures list { laid TIER heads.new.items keys.new.items
        ≡ remove (laid TIER heads.old.items keys.old.items) place }
    ensures tiered { IsTiered TIER heads.new.items keys.new.items }
    ensures len { length keys.new.items + 1 ≡ length keys.old.items }
    ensures capacity { vec_capacity keys.new ≡ vec_capacity keys.old }
    ensures heads_capacity { vec_capacity heads.new ≡ vec_capacity heads.old }
{
    let ends = heads.len() * TIER;
    if ends <= place {
        let _ = keys.remove(place);
        return;
    }
    let first = keys.remove(ends);
    let _ = pass_back(keys, heads, ends, place, first);
}

// A key comes into its place, those from there up to another place move on by one, and the last one of these goes.
fn push_through(
    keys: &mut Vec<Key>,
    heads: &mut Vec<usize>,
    from: usize,
    to: usize,
    key: Key,
) -> Key
    requires tiered { IsTiered TIER heads.old.items keys.old.items }
    requires order { from ≤ to }
    requires within { to ≤ length keys.old.items }
    ensures { MovesKeys keys.old heads.old keys.new heads.new from key to result }
{
    let ends = heads.len() * TIER;
    if to <= ends {
        return pass_on(keys, heads, from, to, key);
    }
    if ends <= from {
        return push_run(keys, from, to - from, key);
    }
    let carry = pass_on(keys, heads, from, ends, key);
    push_run(keys, ends, to - ends, carry)
}

// A key comes in front of a place, those before it down to another place move back by one, and the first one of these goes.
fn pull_through(
    keys: &mut Vec<Key>,
    heads: &mut Vec<usize>,
    from: usize,
    to: usize,
    key: Key,
) -> Key
    requires tiered { IsTiered TIER heads.old.items keys.old.items }
    requires order { to ≤ from }
    requires within { from ≤ length keys.old.items }
    ensures { MovesKeys keys.old heads.old keys.new heads.new from key to result }
{
    let ends = heads.len() * TIER;
    if from <= ends {
        return pass_back(keys, heads, from, to, key);
    }
    if ends <= to {
        return pull_run(keys, to, from - to, key);
    }
    let carry = pull_run(keys, ends, from - ends, key);
    pass_back(keys, heads, ends, to, carry)
}

// The key at a place goes, and another one comes in, at the place that it then has.
fn shift(keys: &mut Vec<Key>, heads: &mut Vec<usize>, from: usize, to: usize, key: Key)
    requires tiered { IsTiered TIER heads.old.items keys.old.items }
    requires from { from < length keys.old.items }
    requires to { to < length keys.old.items }
    ensures list { laid TIER heads.new.items keys.new.items
        ≡ insert (remove (laid TIER heads.old.items keys.old.items) from) to key }
    ensures tiered { IsTiered TIER heads.new.items keys.new.items }
    ensures len { length keys.new.items ≡ length keys.old.items }
    ensures capacity { vec_capacity keys.new ≡ vec_capacity keys.old }
    ensures heads_capacity { vec_capacity heads.new ≡ vec_capacity heads.old }
{
    if to <= from {
        let _ = push_through(keys, heads, to, from + 1, key);
    } else {
        let _ = pull_through(keys, heads, to + 1, from, key);
    }
}

// Where the key of a place is kept.
fn slot(keys: &[Key], heads: &[usize], place: usize) -> usize
    requires tiered { IsTiered TIER heads.now keys.now }
    requires place { place < length keys.now }
    ensures reads { (d : Key) → slice_index_or (laid TIER heads.now keys.now) place d
        ≡ slice_index_or keys.now result d }
    ensures within { result < length keys.now }
{
    if place < heads.len() * TIER {
        slot_of(keys, heads, place)
    } else {
        place
    }
}

// All rings begin in front.
fn flatten(heads: &mut Vec<usize>)
    ensures flat { All (λ h. h ≡ 0) heads.new.items }
    ensures len { length heads.new.items ≡ length heads.old.items }
    ensures capacity { vec_capacity heads.new ≡ vec_capacity heads.old }
{
    for tier in 0..heads.len() {
        heads[tier] = 0;
    }
}

impl Tiers {
    /// No key. It takes no memory.
    pub(crate) fn new(alloc: Global) -> Tiers
        ensures { result.list ≡ [] }
    {
        Tiers {
            keys: Vec::new(alloc),
            heads: Vec::new(alloc),
        }
    }

    /// How many keys there are.
    pub(crate) fn len(&self) -> usize
        ensures len { result ≡ length self.now.list }
        ensures small { self.now.capacity < 2 ^ 64 }
    {
        self.keys.len()
    }

    /// For how many keys there is room, those that are there among them.
    pub(crate) fn capacity(&self) -> usize
        ensures { result ≡ self.now.capacity }
    {
        let tiers = self.heads.capacity().saturating_mul(TIER);
        self.keys.capacity().min(tiers.saturating_add(511))
    }

    /// The key at a place.
    pub(crate) fn get(&self, place: usize) -> Option<&Key>
        ensures { option_copied result ≡ slice_get self.now.list place }
    {
        if self.keys.len() <= place {
            return None;
        }
        Some(&self.keys[slot(&self.keys, &self.heads, place)])
    }

    /// Makes room for so many keys more. Where there is room it takes no memory, and succeeds.
    pub(crate) fn reserve(&mut self, count: usize) -> Result<(), AllocError>
        ensures ok { OnOk result (length self.new.list + count ≤ self.new.capacity) }
        ensures err { OnErr result (self.old.capacity < length self.old.list + count) }
        ensures no_less { self.old.capacity ≤ self.new.capacity }
        ensures list { self.new.list ≡ self.old.list }
    {
        self.keys.reserve_exact(count)?;
        let tiers = (self.keys.len() + count) / TIER;
        self.heads.reserve_exact(tiers - self.heads.len())
    }

    /// Puts a key in at a place. There is room, so it takes no memory.
    pub(crate) fn insert(&mut self, place: usize, key: Key)
        requires within { place ≤ length self.old.list }
        requires room { length self.old.list < self.old.capacity }
        ensures list { self.new.list ≡ insert self.old.list place key }
        ensures len { length self.new.list ≡ length self.old.list + 1 }
        ensures capacity { self.new.capacity ≡ self.old.capacity }
    {
        insert(&mut self.keys, &mut self.heads, place, key);
        close(&self.keys, &mut self.heads);
    }

    /// Takes out the key at a place.
    pub(crate) fn remove(&mut self, place: usize)
        requires { place < length self.old.list }
        ensures list { self.new.list ≡ remove self.old.list place }
        ensures len { length self.new.list + 1 ≡ length self.old.list }
        ensures capacity { self.new.capacity ≡ self.old.capacity }
        ensures small { self.new.capacity < 2 ^ 64 }
    {
        open(&mut self.keys, &mut self.heads);
        remove(&mut self.keys, &mut self.heads, place);
    }

    /// Takes out the key at a place, and puts another one in at the place that it then has. Only tiers from the one place to the
    /// other are touched.
    pub(crate) fn shift(&mut self, from: usize, to: usize, key: Key)
        requires from { from < length self.old.list }
        requires to { to < length self.old.list }
        ensures list { self.new.list ≡ insert (remove self.old.list from) to key }
        ensures len { length self.new.list ≡ length self.old.list }
        ensures capacity { self.new.capacity ≡ self.old.capacity }
    {
        shift(&mut self.keys, &mut self.heads, from, to, key);
    }

    /// Lets all keys go, and keeps their room.
    pub(crate) fn clear(&mut self)
        ensures list { self.new.list ≡ [] }
        ensures capacity { self.new.capacity ≡ self.old.capacity }
    {
        self.keys.clear();
        self.heads.clear();
    }

    /// Puts the keys, whose numbers differ, in the order of starts. It takes no memory.
    pub(crate) fn sort(&mut self, schedule: Schedule)
        requires { HasNumbersOnce self.old.list }
        ensures in_order { IsRow schedule self.new.list }
        ensures same { HaveSameKeys self.old.list self.new.list }
        ensures len { length self.new.list ≡ length self.old.list }
        ensures capacity { self.new.capacity ≡ self.old.capacity }
    {
        flatten(&mut self.heads);
        sort(&mut self.keys, schedule);
    }
}
