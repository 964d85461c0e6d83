// Moments, as hundredths of a second.
ghost use Rattle.std.specs.Prelude.{◌≡◌, ◌≤◌, SomeIff};

use std::marker::Model;

/// A day, in hundredths of a second.
pub const DAY: u64 = 8_640_000;

/// The end of 31-DEC-9999, in hundredths of a second from the base of the system time.
pub const LAST_MOMENT: u64 = 25_690_901_759_999;

/// A moment, as hundredths of a second from 17-NOV-1858 00:00:00.00, the base of the system time.
/// The last one is the end of 31-DEC-9999.
#[derive(Clone, Copy, PartialEq, Eq, PartialOrd, Ord)]
pub struct Moment {
    hundredths: u64,
}

impl Model for Moment {
    ghost use Rattle.std.specs.Prelude.{ℕ, ◌≤◌};
    ghost use Rattle.qm_kinds.specs.declared.moment.TheConstants.{LAST_MOMENT};

    ghost Value = { ℕ };

    ghost view = { λ m. m.hundredths };

    ghost invariant = { λ m. m.hundredths ≤ LAST_MOMENT };

    ghost inverse = { λ n. record { hundredths = n } };
}

impl Moment {
    /// The base of the system time.
    pub const BASE: Moment = Moment { hundredths: 0 };

    /// The moment so many hundredths of a second after the base, or none past the end of the year 9999.
    pub fn new(hundredths: u64) -> Option<Moment>
        ensures { SomeIff result (hundredths ≤ LAST_MOMENT) hundredths }
    {
        if hundredths <= LAST_MOMENT {
            Some(Moment { hundredths })
        } else {
            None
        }
    }

    /// Hundredths of a second since the base.
    pub fn hundredths(self) -> u64
        ensures value { result ≡ self }
        ensures within { result ≤ LAST_MOMENT }
    {
        self.hundredths
    }
}
