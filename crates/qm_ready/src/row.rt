// The row of a queue.
ghost use Rattle.std.specs.Prelude.{◌≡◌, ℕ, ◌+◌, ◌-◌, ◌<◌, ◌≤◌, ◌==◌, ◌&&◌, false, [], length, All, None, Some, IfSome, OnErr, OnOk, if◌then◌else◌, slice_get, option_copied};
ghost use Rattle.qm_match.specs.Keys.{comes_before};
ghost use Rattle.qm_ready.specs.Rows.{IsRow, first_key, first_number, has_key, key_numbered, with_key, without, HasSameRoom, HaveSameKeys};

use crate::gathering::Gathering;
use crate::places::{place_beside, place_of, stands_at};
use crate::steps::Steps;
use crate::tiers::Tiers;
use qm_match::{Key, Schedule};
use std::alloc::{AllocError, Global};
use std::marker::Model;
use std::sync::ledger::Ledger;

/// The keys of the jobs that a queue can take. Contracts see a `Row`: how the queue chooses, the keys in the order of starts,
/// and how many more have room.
///
/// Only `reserve` takes memory: 12 bytes a key. An insertion, a removal and a replacement ask a logarithm of the keys, and make
/// steps in proportion to a square root of them (`Tiers`), wherever the key stands.
#[derive(Drop)]
pub struct ReadyRow {
    pub(crate) schedule: Schedule,
    pub(crate) keys: Tiers,
    pub(crate) spare: usize,
}

impl Model for ReadyRow {
    ghost use Rattle.qm_ready.specs.Rows.{Row};
    ghost use Rattle.qm_ready.specs.Kept.{IsKept};

    ghost Value = { Row };

    ghost view = { λ r. record { schedule = r.schedule; keys = r.keys.list; spare = r.spare } };

    ghost invariant = { λ r. IsKept r.schedule r.keys.list r.spare r.keys.capacity };
}

// The key in front, by one look.
fn look<'a, L: Ledger>(keys: &'a Tiers, steps: &mut Steps<L>) -> Option<&'a Key>
    ensures first { option_copied result ≡ first_key keys.now.list }
    ensures looks { steps.new ≡ steps.old + 1 }
{
    steps.take();
    keys.get(0)
}

impl ReadyRow {
    /// No key, and room for none. It takes no memory.
    pub fn new(alloc: Global, schedule: Schedule) -> ReadyRow
        ensures { result ≡ record { schedule = schedule; keys = []; spare = 0 } }
    {
        ReadyRow {
            schedule,
            keys: Tiers::new(alloc),
            spare: 0,
        }
    }

    /// Makes room for so many keys more. Where there is room it takes no memory, and succeeds. Else it makes room for an eighth
    /// more than all keys then are, so that a row whose keys come one by one is moved seldom.
    pub fn reserve(&mut self, count: usize) -> Result<(), AllocError>
        ensures ok { OnOk result (count ≤ self.new.spare) }
        ensures err { OnErr result (self.old.spare < count) }
        ensures no_less { self.old.spare ≤ self.new.spare }
        ensures schedule { self.new.schedule ≡ self.old.schedule }
        ensures keys { self.new.keys ≡ self.old.keys }
        ensures in_order { IsRow self.new.schedule self.new.keys }
    {
        if count <= self.spare {
            return Ok(());
        }
        let all = self.keys.len().saturating_add(count);
        let more = count.saturating_add(all / 8);
        self.keys.reserve(more)?;
        self.spare = self.keys.capacity() - self.keys.len();
        Ok(())
    }

    /// Puts in the key of a job, for which there is room. No key of its number is there.
    pub fn insert(&mut self, key: Key)
        requires room { 0 < self.old.spare }
        requires absent { key_numbered key.number self.old.keys ≡ None }
        ensures inserted { self.new ≡ record {
          schedule = self.old.schedule;
          keys = with_key self.old.schedule key self.old.keys;
          spare = self.old.spare - 1;
        } }
        ensures each { (number : ℕ) → key_numbered number self.new.keys
            ≡ (if key.number == number then Some key else key_numbered number self.old.keys) }
        ensures room { HasSameRoom self.old self.new }
        ensures in_order { IsRow self.new.schedule self.new.keys }
    {
        let place = place_of(&self.keys, self.schedule, &key);
        self.keys.insert(place, key);
        self.spare -= 1;
    }

    /// Takes out the key of a job, and says whether just this key was there. Else nothing changes.
    pub fn remove(&mut self, key: &Key) -> bool
        ensures found { result ≡ has_key key.now self.old.keys }
        ensures removed { self.new ≡ (if result then record {
          schedule = self.old.schedule;
          keys = without key.now.number self.old.keys;
          spare = self.old.spare + 1;
        } else self.old) }
        ensures each { (number : ℕ) → key_numbered number self.new.keys
            ≡ (if result && key.now.number == number then None
            else key_numbered number self.old.keys) }
        ensures room { HasSameRoom self.old self.new }
        ensures in_order { IsRow self.new.schedule self.new.keys }
    {
        let place = place_of(&self.keys, self.schedule, key);
        if !stands_at(&self.keys, place, key) {
            return false;
        }
        self.keys.remove(place);
        self.spare += 1;
        true
    }

    /// Puts a key in the place of another one of its number, and says whether just that one was there. Else nothing changes. Only
    /// keys that stand between the places of both move.
    pub fn replace(&mut self, old: &Key, key: Key) -> bool
        requires number { key.number ≡ old.now.number }
        ensures found { result ≡ has_key old.now self.old.keys }
        ensures replaced { self.new ≡ (if result then record self.old {
          keys = with_key self.old.schedule key (without key.number self.old.keys);
        } else self.old) }
        ensures each { (number : ℕ) → key_numbered number self.new.keys
            ≡ (if result && key.number == number then Some key
            else key_numbered number self.old.keys) }
        ensures room { HasSameRoom self.old self.new }
        ensures in_order { IsRow self.new.schedule self.new.keys }
    {
        let from = place_of(&self.keys, self.schedule, old);
        if !stands_at(&self.keys, from, old) {
            return false;
        }
        let to = place_beside(&self.keys, self.schedule, from, &key);
        self.keys.shift(from, to, key);
        true
    }

    /// The number of the job that starts first, by one look, if any job is there.
    pub fn first<L: Ledger>(&self, steps: &mut Steps<L>) -> Option<u32>
        ensures first { result ≡ first_number self.now.keys }
        ensures least { IfSome (first_key self.now.keys)
            (λ first. All (λ k. comes_before self.now.schedule k first ≡ false) self.now.keys) }
        ensures looks { steps.new ≡ steps.old + 1 }
        ensures in_order { IsRow self.now.schedule self.now.keys }
    {
        match look(&self.keys, steps) {
            None => None,
            Some(key) => Some(key.number),
        }
    }

    /// Puts the same keys in the order of another schedule. It takes no memory.
    pub fn rebuild(&mut self, schedule: Schedule)
        ensures schedule { self.new.schedule ≡ schedule }
        ensures each { HaveSameKeys self.old.keys self.new.keys }
        ensures spare { self.new.spare ≡ self.old.spare }
        ensures in_order { IsRow self.new.schedule self.new.keys }
    {
        self.keys.sort(schedule);
        self.schedule = schedule;
    }

    /// Lets all keys go, and keeps their room, so that others can be gathered there.
    pub fn gather(self, schedule: Schedule) -> Gathering
        ensures { result ≡ record {
          schedule = schedule;
          keys = [];
          spare = self.spare + length self.keys;
        } }
    {
        let ReadyRow {
            schedule: _,
            keys,
            spare,
        } = self;
        Gathering::over(keys, spare, schedule)
    }

    /// How the queue chooses.
    pub fn schedule(&self) -> Schedule
        ensures { result ≡ self.now.schedule }
    {
        self.schedule
    }

    /// The key at a place in the order of starts, from 0.
    pub fn get(&self, place: usize) -> Option<&Key>
        ensures key { option_copied result ≡ slice_get self.now.keys place }
        ensures in_order { IsRow self.now.schedule self.now.keys }
    {
        self.keys.get(place)
    }

    /// For how many keys there is room, those that are there among them.
    pub fn room(&self) -> usize
        ensures { result ≡ length self.now.keys + self.now.spare }
    {
        self.keys.len() + self.spare
    }

    /// How many keys there are.
    pub fn len(&self) -> usize
        ensures len { result ≡ length self.now.keys }
        ensures in_order { IsRow self.now.schedule self.now.keys }
    {
        self.keys.len()
    }
}
