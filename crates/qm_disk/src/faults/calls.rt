// The calls of a form in memory.
ghost use Rattle.std.specs.Prelude.{◌≡◌, ◌↔◌, ◌≤◌, Contains, false, if◌then◌else◌};
ghost use Rattle.qm_disk.specs.Faults.{counted};

use crate::Faults;
use std::marker::Model;

/// The calls of a form in memory. Contracts see a `HeldCalls`: the numbers of those that fail, how many were made, and
/// how many failed.
#[derive(Drop)]
pub struct Calls {
    fail: Vec<u64>,
    made: u64,
    faults: Faults,
}

impl Model for Calls {
    ghost use Rattle.qm_disk.specs.Faults.{HeldCalls};

    ghost Value = { HeldCalls };

    ghost view = { λ c. record { fail = c.fail.items; made = c.made; faults = c.faults } };
}

impl Calls {
    /// No call was made yet. Each whose number, counted from 1, is listed fails.
    pub fn new(fail: Vec<u64>) -> Calls
        ensures { result ≡ record { fail = fail.items; made = 0; faults = 0 } }
    {
        Calls {
            fail,
            made: 0,
            faults: Faults::new(),
        }
    }

    /// Counts one more call, and says whether it may be made: where its number is listed it failed.
    pub fn begin(&mut self) -> bool
        ensures listed { Contains self.old.fail (counted self.old.made) ↔ (result ≡ false) }
        ensures counts { self.new ≡ record self.old {
          made = counted self.old.made;
          faults = if result then self.old.faults else counted self.old.faults;
        } }
        ensures never_falls { self.old.faults ≤ self.new.faults }
    {
        self.made = self.made.saturating_add(1);
        let fails = self.fail.contains(&self.made);
        if fails {
            self.faults.count();
        }
        !fails
    }

    /// Counts a call that failed though it isn't listed.
    pub fn count_fault(&mut self)
        ensures counts { self.new ≡ record self.old { faults = counted self.old.faults } }
        ensures never_falls { self.old.faults ≤ self.new.faults }
    {
        self.faults.count();
    }
}
