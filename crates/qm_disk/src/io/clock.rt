// Clocks: the trait, one in memory, and the system's.
ghost use Rattle.std.specs.Prelude.{◌≡◌, ◌++◌, ◌∷◌, [], ℕ, ◌<◌, List, Option, length, slice_get, is_some, Some, None};
ghost use Rattle.std.specs.Io.KnownBytes.{Appends};
ghost use Rattle.std.specs.Duration.{as_nanos};
ghost use Rattle.qm_disk.specs.Adapters.{system_of, last_told};
ghost use Rattle.qm_disk.specs.Clock.{behind_next, moment_since_1970};

use crate::io::told::Told;
use qm_kinds::Moment;
use std::marker::Model;
use std::time;
use std::time::{Duration, SystemTime, UNIX_EPOCH};

/// What tells the moment.
pub trait Clock {
    /// The moments that it told, in their order, where it keeps them.
    ghost told: { Self → Option (List ℕ) };

    /// The present moment, in UTC. It may lie before one that was told.
    fn tell(&mut self) -> Moment
        ensures appended { Appends (told self.old) (told self.new) (result ∷ []) }
        ensures told { is_some (told self.new) ≡ is_some (told self.old) };
}

/// A clock in memory. Contracts see a `HeldClock`: the moments that it told, and those to come.
#[derive(Drop)]
pub struct MemoryClock {
    moments: Vec<Moment>,
    at: usize,
    told: Told<Moment>,
}

impl Model for MemoryClock {
    ghost use Rattle.std.specs.Prelude.{◌<◌, drop, length};
    ghost use Rattle.qm_disk.specs.Clock.{HeldClock};

    ghost Value = { HeldClock };

    ghost view = { λ c. record { told = c.told.items; ahead = drop c.at c.moments.items } };

    ghost invariant = { λ c. c.at < length c.moments.items };
}

impl MemoryClock {
    /// A clock that tells these moments, and then the last of them for ever.
    pub fn new(moments: Vec<Moment>) -> MemoryClock
        requires { 0 < length moments.items }
        ensures { result ≡ record { told = []; ahead = moments.items } }
    {
        MemoryClock {
            moments,
            at: 0,
            told: Told::new(),
        }
    }
}

impl Clock for MemoryClock {
    ghost told = { λ clock. Some clock.told };

    /// The next moment, which is the last one where no other is to come. It takes no memory.
    fn tell(&mut self) -> Moment
        ensures next { slice_get self.old.ahead 0 ≡ Some result }
        ensures told { self.new ≡ record {
          told = self.old.told ++ result ∷ [];
          ahead = behind_next self.old.ahead;
        } }
    {
        let moment = self.moments[self.at];
        if self.at + 1 < self.moments.len() {
            self.at += 1;
        }
        self.told = self.told.and(&moment);
        moment
    }
}

// The moment so long behind 1-JAN-1970, if it isn't behind the last one.
fn moment_since_1970(time: Duration) -> Option<Moment>
    ensures { result ≡ moment_since_1970 (as_nanos time) }
{
    // 1-JAN-1970, in hundredths of a second.
    const EPOCH: u64 = 40_587 * 8_640_000;
    let hundredths = u64::try_from(time.as_nanos() / 10_000_000).ok()?;
    Moment::new(hundredths.checked_add(EPOCH)?)
}

/// The clock of the system, in UTC. It keeps no list of what it told.
#[derive(Drop)]
pub struct SystemClock<S> {
    system: S,
    last: Moment,
}

impl<S: time::Clock> SystemClock<S> {
    /// The clock of this system, which has told nothing yet.
    pub fn new(system: S) -> SystemClock<S>
        ensures system { system_of result ≡ system }
        ensures last { last_told result ≡ 0 }
    {
        SystemClock {
            system,
            last: Moment::BASE,
        }
    }

    // The moment that the system tells, if it tells one that there is.
    fn read(&self) -> Option<Moment> {
        let now = SystemTime::now(&self.system).ok()?;
        moment_since_1970(now.duration_since(UNIX_EPOCH).ok()?)
    }
}

impl<S: time::Clock> Clock for SystemClock<S> {
    ghost told = { λ _. None };

    /// The moment of the system, in whole hundredths of a second. Where it tells none, one before 1-JAN-1970, which std doesn't
    /// tell, or one behind the last moment there is, this is the moment that was told last, and at first 17-NOV-1858.
    fn tell(&mut self) -> Moment
        ensures last { last_told self.new ≡ result }
        ensures system { system_of self.new ≡ system_of self.old }
    {
        if let Some(moment) = self.read() {
            self.last = moment;
        }
        self.last
    }
}
