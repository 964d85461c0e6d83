// Timers in order.
ghost use Rattle.std.specs.Prelude.{◌≡◌, ℕ, Bool, ◌+◌, ◌-◌, ◌<◌, ◌≤◌, ◌↔◌, [], All, IsNone, IfSome, Some, None, true, OnErr, OnOk, is_some, if◌then◌else◌, filter, vec_len, vec_capacity, insert};
ghost use Rattle.qm_tables.specs.Timers.{IsInOrder, IsLeast, due_at, inserted, later_than, moment_of, timer_of, with_timer, without, KeepsLater, KeepsNumbers, KeepsRoom, SetsMoment};

use crate::timers::places::{
    Timer, find_by_number, place_by_moment, place_by_now, place_by_number,
};
use crate::timers::sifting::{keep_later, keep_numbers};
use qm_kinds::Moment;
use std::alloc::{AllocError, Global};
use std::marker::Model;

/// Moments, each with a number that no other has. Contracts see a `Waiting`: the pairs of a moment and a number, in
/// order of the moments and at one moment of the numbers, and how many more have room.
///
/// Only `reserve` and `reserve_for` take memory. An insertion, a removal and a search ask a logarithm of the timers; the first two also
/// move those that stand behind, 16 bytes each, in both of two lists. `remove_due` and `retain` take out any number of timers
/// in one pass over both lists.
#[derive(Drop)]
pub struct Timers {
    by_moment: Vec<Timer>,
    // The same in order of the numbers.
    by_number: Vec<Timer>,
}

impl Model for Timers {
    ghost use Rattle.std.specs.Prelude.{◌-◌, min, vec_len, vec_capacity};
    ghost use Rattle.qm_tables.specs.Timers.{Waiting};
    ghost use Rattle.qm_tables.specs.TimersKept.{AreKept};

    ghost Value = { Waiting };

    ghost view = { λ t. record {
      timers = t.by_moment.items;
      spare = min (vec_capacity t.by_moment - vec_len t.by_moment) (vec_capacity t.by_number - vec_len t.by_number);
    } };

    ghost invariant = { λ t. AreKept t.by_moment.items t.by_number.items };
}

// Puts a timer in at a place. There is room, so it takes no memory.
fn put(timers: &mut Vec<Timer>, place: usize, at: Moment, number: u32)
    requires place { place ≤ vec_len timers.old }
    requires room { vec_len timers.old < vec_capacity timers.old }
    ensures items { timers.new.items ≡ insert timers.old.items place (at, number) }
    ensures len { vec_len timers.new ≡ vec_len timers.old + 1 }
    ensures capacity { vec_capacity timers.new ≡ vec_capacity timers.old }
{
    let _ = timers.insert(place, (at, number));
}

// Whether both are the same moment, or neither is one.
fn are_same(moment: &Option<Moment>, other: &Option<Moment>) -> bool
    ensures { result ≡ true → moment.now ≡ other.now }
{
    match (moment, other) {
        (None, None) => true,
        (Some(moment), Some(other)) => *moment == *other,
        _ => false,
    }
}

impl Timers {
    /// No timer, and room for none. It takes no memory.
    pub fn new(alloc: Global) -> Timers
        ensures { result ≡ record { timers = []; spare = 0 } }
    {
        Timers {
            by_moment: Vec::new(alloc),
            by_number: Vec::new(alloc),
        }
    }

    /// Makes room for one timer more. Where there is room it takes no memory, and succeeds.
    pub fn reserve(&mut self) -> Result<(), AllocError>
        ensures ok { OnOk result (0 < self.new.spare) }
        ensures err { OnErr result (self.old.spare ≡ 0) }
        ensures no_less { self.old.spare ≤ self.new.spare }
        ensures timers { self.new.timers ≡ self.old.timers }
    {
        self.reserve_for(1)
    }

    /// Makes room for so many timers more. Where there is room it takes no memory, and succeeds.
    pub fn reserve_for(&mut self, count: usize) -> Result<(), AllocError>
        ensures ok { OnOk result (count ≤ self.new.spare) }
        ensures err { OnErr result (self.old.spare < count) }
        ensures no_less { self.old.spare ≤ self.new.spare }
        ensures timers { self.new.timers ≡ self.old.timers }
    {
        self.by_moment.reserve(count)?;
        self.by_number.reserve(count)
    }

    /// Puts in a timer, for which there is room. Its number has none.
    pub fn insert(&mut self, at: Moment, number: u32)
        requires room { 0 < self.old.spare }
        requires absent { timer_of number self.old.timers ≡ None }
        ensures inserted { self.new ≡ record {
          timers = inserted (at, number) self.old.timers;
          spare = self.old.spare - 1;
        } }
        ensures in_order { IsInOrder self.new.timers }
    {
        let place = place_by_moment(&self.by_moment, (at, number));
        put(&mut self.by_moment, place, at, number);
        let place = place_by_number(&self.by_number, number);
        put(&mut self.by_number, place, at, number);
    }

    /// Takes out the timer of a number, and says whether it has one.
    pub fn remove(&mut self, number: u32) -> bool
        ensures found { result ≡ is_some (timer_of number self.old.timers) }
        ensures timers { self.new.timers ≡ without number self.old.timers }
        ensures gone { timer_of number self.new.timers ≡ None }
        ensures spare { self.new.spare ≡ (if result then self.old.spare + 1 else self.old.spare) }
        ensures in_order { IsInOrder self.new.timers }
    {
        let Some(place) = find_by_number(&self.by_number, number) else {
            return false;
        };
        let timer = self.by_number.remove(place);
        let place = place_by_moment(&self.by_moment, timer);
        self.by_moment.remove(place);
        true
    }

    /// The first timer, where its moment has come.
    pub fn due(&self, now: Moment) -> Option<(Moment, u32)>
        ensures none { IsNone result ↔ All (λ t. now < t.0) self.now.timers }
        ensures due { IfSome result (λ t. t.0 ≤ now) }
        ensures least { IfSome result (λ t. IsLeast t self.now.timers) }
        ensures moment { IfSome result (λ t. moment_of t.1 self.now.timers ≡ Some t.0) }
        ensures in_order { IsInOrder self.now.timers }
    {
        let timer = self.by_moment.first().copied()?;
        if timer.0 <= now { Some(timer) } else { None }
    }
    /// The timers whose moment has come, in their order.
    pub fn due_now(&self, now: Moment) -> &[(Moment, u32)]
        ensures due { result.now ≡ due_at now self.now.timers }
        ensures in_order { IsInOrder self.now.timers }
    {
        &self.by_moment[..place_by_now(&self.by_moment, now)]
    }

    /// Takes out the timers whose moment has come. It looks at each timer once in both lists.
    pub fn remove_due(&mut self, now: Moment)
        ensures timers { self.new.timers ≡ later_than now self.old.timers }
        ensures each { KeepsLater now self.old.timers self.new.timers }
        ensures spare { KeepsRoom self.old self.new }
        ensures in_order { IsInOrder self.new.timers }
    {
        keep_later(&mut self.by_moment, now);
        keep_later(&mut self.by_number, now);
    }

    /// Takes out the timers of the numbers that aren't kept. It asks of each timer's number in both lists.
    pub fn retain<F: Fn(u32) -> bool>(&mut self, keeps: F)
        ghost kept: { ℕ → Bool }
        requires call { F.IsAlwaysCallable keeps }
        requires answers { (number : ℕ) (answer : Bool) → F.post keeps number answer → answer ≡ kept number }
        ensures timers { self.new.timers ≡ filter (λ t. kept t.1) self.old.timers }
        ensures each { KeepsNumbers kept self.old.timers self.new.timers }
        ensures spare { KeepsRoom self.old self.new }
        ensures in_order { IsInOrder self.new.timers }
    {
        keep_numbers(&mut self.by_moment, &keeps);
        keep_numbers(&mut self.by_number, &keeps);
    }

    /// The moment for which a number has a timer, if it has one.
    pub fn moment_of(&self, number: u32) -> Option<Moment>
        ensures moment { result ≡ moment_of number self.now.timers }
        ensures in_order { IsInOrder self.now.timers }
    {
        let place = find_by_number(&self.by_number, number)?;
        Some(self.by_number[place].0)
    }

    /// Gives a number a timer for a moment, for which there is room, in place of any other; or none. Where it has just that
    /// one, nothing is moved.
    pub fn set(&mut self, number: u32, at: Option<Moment>)
        requires room { IfSome at (λ _. 0 < self.old.spare) }
        ensures timers { self.new.timers ≡ with_timer number at self.old.timers }
        ensures each { SetsMoment number at self.old.timers self.new.timers }
        ensures spare { KeepsRoom self.old self.new }
        ensures in_order { IsInOrder self.new.timers }
    {
        if are_same(&self.moment_of(number), &at) {
            return;
        }
        self.remove(number);
        if let Some(at) = at {
            self.insert(at, number);
        }
    }
}
