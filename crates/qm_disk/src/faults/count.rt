// How often something of the outside failed.
ghost use Rattle.std.specs.Prelude.{◌≡◌, ◌≤◌, is_ok, IsErr};
ghost use Rattle.qm_disk.specs.Faults.{counted, Tells};

use std::marker::Model;

/// How often calls failed. Contracts see the number, which stands at the end of its type.
#[derive(Drop)]
pub struct Faults {
    count: u64,
}

impl Model for Faults {
    ghost use Rattle.std.specs.Prelude.{ℕ};

    ghost Value = { ℕ };

    ghost view = { λ f. f.count };
}

impl Faults {
    /// No call failed yet.
    pub fn new() -> Faults
        ensures { result ≡ 0 }
    {
        Faults { count: 0 }
    }

    /// Counts a call that failed.
    pub fn count(&mut self)
        ensures one_more { self.new ≡ counted self.old }
        ensures never_falls { self.old ≤ self.new }
    {
        self.count = self.count.saturating_add(1);
    }

    /// What a call answers whose outcome is this: where it failed, the fault, which is counted.
    pub fn counted<T, E: Drop, F: Drop>(&mut self, outcome: Result<T, E>, fault: F) -> Result<T, F>
        ensures variant { is_ok result ≡ is_ok outcome }
        ensures told { Tells self.old self.new (IsErr result) }
    {
        match outcome {
            Ok(value) => Ok(value),
            Err(_) => {
                self.count();
                Err(fault)
            }
        }
    }
}
