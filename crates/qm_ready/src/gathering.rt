// Keys that are to become a row.
ghost use Rattle.std.specs.Prelude.{◌≡◌, ◌+◌, ◌-◌, ◌<◌, ◌≤◌, ◌++◌, ◌∷◌, [], length};
ghost use Rattle.qm_ready.specs.Rows.{HasNumbersOnce, IsRow, HaveSameKeys};

use crate::row::ReadyRow;
use crate::tiers::Tiers;
use qm_match::{Key, Schedule};
use std::marker::Model;

/// Keys in any order, that are to become a row. Contracts see a `Row`: how its queue chooses, the keys as they came, and how many
/// more have room. No call takes memory.
#[derive(Drop)]
pub struct Gathering {
    schedule: Schedule,
    keys: Tiers,
    spare: usize,
}

impl Model for Gathering {
    ghost use Rattle.std.specs.Prelude.{◌+◌, ◌≤◌, length};
    ghost use Rattle.qm_ready.specs.Rows.{Row};

    ghost Value = { Row };

    ghost view = { λ g. record { schedule = g.schedule; keys = g.keys.list; spare = g.spare } };

    ghost invariant = { λ g. length g.keys.list + g.spare ≤ g.keys.capacity };
}

impl Gathering {
    // No key, in the room of others.
    pub(crate) fn over(keys: Tiers, spare: usize, schedule: Schedule) -> Gathering
        requires { length keys.list + spare ≤ keys.capacity }
        ensures { result ≡ record {
          schedule = schedule;
          keys = [];
          spare = spare + length keys.list;
        } }
    {
        let mut keys = keys;
        let spare = spare + keys.len();
        keys.clear();
        Gathering {
            schedule,
            keys,
            spare,
        }
    }

    /// One key more, for which there is room.
    pub fn add(&mut self, key: Key)
        requires { 0 < self.old.spare }
        ensures { self.new ≡ record self.old {
          keys = self.old.keys ++ key ∷ [];
          spare = self.old.spare - 1;
        } }
    {
        self.keys.insert(self.keys.len(), key);
        self.spare -= 1;
    }

    /// The row of these keys, whose numbers differ. Of n keys it makes some n log n comparisons.
    pub fn into_row(self) -> ReadyRow
        requires { HasNumbersOnce self.keys }
        ensures schedule { result.schedule ≡ self.schedule }
        ensures each { HaveSameKeys self.keys result.keys }
        ensures spare { result.spare ≡ self.spare }
        ensures room { length result.keys ≡ length self.keys }
        ensures in_order { IsRow result.schedule result.keys }
    {
        let Gathering {
            schedule,
            keys,
            spare,
        } = self;
        let mut keys = keys;
        keys.sort(schedule);
        ReadyRow {
            schedule,
            keys,
            spare,
        }
    }
}
