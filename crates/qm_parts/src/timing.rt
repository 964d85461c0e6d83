// The moments that entries wait for, and those until which they are kept.
ghost use Rattle.std.specs.Prelude.{◌≡◌, ◌≤◌, ◌<◌, IfSome, OnErr, OnOk};
ghost use Rattle.qm_parts.specs.Spare.{KeepsTimerRoom};
ghost use Rattle.qm_parts.specs.Timing.{KeepsTimersElsewhere, is_at_home};
ghost use Rattle.qm_tables.specs.Timers.{later_than, with_timer, KeepsLater, SetsMoment};

use crate::parts::Parts;
use crate::tables::TableSet;
use qm_kinds::{Moment, Name};
use qm_tables::{EntryTable, Timers};
use std::alloc::AllocError;

// Whether the entry of a number has this queue as its home.
fn is_at_home(entries: &EntryTable, number: u32, home: &Name) -> bool
    ensures { result ≡ is_at_home number home.now entries.now.entries }
{
    match entries.get(number) {
        None => false,
        Some(entry) => entry.home == *home,
    }
}

impl TableSet {
    /// Makes room for one timer more. Where there is room it takes no memory, and succeeds.
    pub fn reserve_timer(&mut self) -> Result<(), AllocError>
        ensures ok { OnOk result (0 < self.new.spare_timers) }
        ensures err { OnErr result (self.old.spare_timers ≡ 0) }
        ensures no_less { self.old.spare_timers ≤ self.new.spare_timers }
        ensures tables { self.new ≡ record self.old { spare_timers = self.new.spare_timers } }
    {
        self.timers.reserve()
    }

    /// Makes room for so many timers more. Where there is room it takes no memory, and succeeds.
    pub fn reserve_timers(&mut self, count: usize) -> Result<(), AllocError>
        ensures ok { OnOk result (count ≤ self.new.spare_timers) }
        ensures err { OnErr result (self.old.spare_timers < count) }
        ensures no_less { self.old.spare_timers ≤ self.new.spare_timers }
        ensures tables { self.new ≡ record self.old { spare_timers = self.new.spare_timers } }
    {
        self.timers.reserve_for(count)
    }

    /// Gives a number a timer for a moment, for which there is room, in place of any other; or none.
    pub fn set_timer(&mut self, number: u32, at: Option<Moment>)
        requires room { IfSome at (λ _. 0 < self.old.spare_timers) }
        ensures tables { self.new ≡ record self.old {
          timers = with_timer number at self.old.timers;
          spare_timers = self.new.spare_timers;
        } }
        ensures each { SetsMoment number at self.old.timers self.new.timers }
        ensures room { KeepsTimerRoom self.old self.new }
    {
        self.timers.set(number, at);
    }

    /// Takes out the timers whose moment has come. It looks at each timer once in both lists.
    pub fn remove_due_timers(&mut self, now: Moment)
        ensures tables { self.new ≡ record self.old {
          timers = later_than now self.old.timers;
          spare_timers = self.new.spare_timers;
        } }
        ensures each { KeepsLater now self.old.timers self.new.timers }
        ensures room { KeepsTimerRoom self.old self.new }
    {
        self.timers.remove_due(now);
    }

    /// Takes out the timers of the entries that have this queue as their home. It asks a logarithm of the entries for each
    /// timer in both lists.
    pub fn remove_timers_of(&mut self, home: &Name)
        ensures tables { self.new ≡ record self.old {
          timers = self.new.timers;
          spare_timers = self.new.spare_timers;
        } }
        ensures each { KeepsTimersElsewhere home.now self.old self.new }
        ensures room { KeepsTimerRoom self.old self.new }
    {
        let entries = &self.entries;
        self.timers
            .retain(|number| !is_at_home(entries, number, home));
    }
}

impl Parts {
    /// The timers: for each number at most one, in order of their moments.
    pub fn timers(&self) -> &Timers
        ensures timers { result.now.timers ≡ self.now.timers }
        ensures room { result.now.spare ≡ self.now.spare_timers }
    {
        &self.tables.timers
    }

    /// Makes room for one timer more. Where there is room it takes no memory, and succeeds.
    pub fn reserve_timer(&mut self) -> Result<(), AllocError>
        ensures ok { OnOk result (0 < self.new.spare_timers) }
        ensures err { OnErr result (self.old.spare_timers ≡ 0) }
        ensures no_less { self.old.spare_timers ≤ self.new.spare_timers }
        ensures tables { self.new ≡ record self.old { spare_timers = self.new.spare_timers } }
    {
        self.tables.reserve_timer()
    }

    /// Makes room for so many timers more. Where there is room it takes no memory, and succeeds.
    pub fn reserve_timers(&mut self, count: usize) -> Result<(), AllocError>
        ensures ok { OnOk result (count ≤ self.new.spare_timers) }
        ensures err { OnErr result (self.old.spare_timers < count) }
        ensures no_less { self.old.spare_timers ≤ self.new.spare_timers }
        ensures tables { self.new ≡ record self.old { spare_timers = self.new.spare_timers } }
    {
        self.tables.reserve_timers(count)
    }

    /// Gives a number a timer for a moment, for which there is room, in place of any other; or none. Where it has just that
    /// one, nothing is moved.
    pub fn set_timer(&mut self, number: u32, at: Option<Moment>)
        requires room { IfSome at (λ _. 0 < self.old.spare_timers) }
        ensures tables { self.new ≡ record self.old {
          timers = with_timer number at self.old.timers;
          spare_timers = self.new.spare_timers;
        } }
        ensures each { SetsMoment number at self.old.timers self.new.timers }
        ensures room { KeepsTimerRoom self.old self.new }
    {
        self.tables.set_timer(number, at);
    }

    /// Takes out the timers whose moment has come. It looks at each timer once in both lists.
    pub fn remove_due_timers(&mut self, now: Moment)
        ensures tables { self.new ≡ record self.old {
          timers = later_than now self.old.timers;
          spare_timers = self.new.spare_timers;
        } }
        ensures each { KeepsLater now self.old.timers self.new.timers }
        ensures room { KeepsTimerRoom self.old self.new }
    {
        self.tables.remove_due_timers(now);
    }

    /// Takes out the timers of the entries that have this queue as their home. It asks a logarithm of the entries for each
    /// timer in both lists.
    pub fn remove_timers_of(&mut self, home: &Name)
        ensures tables { self.new ≡ record self.old {
          timers = self.new.timers;
          spare_timers = self.new.spare_timers;
        } }
        ensures each { KeepsTimersElsewhere home.now self.old self.new }
        ensures room { KeepsTimerRoom self.old self.new }
    {
        self.tables.remove_timers_of(home);
    }
}
