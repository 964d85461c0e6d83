// A count that only proofs read.
ghost use Rattle.std.specs.Prelude.{◌≡◌, ◌+◌, ◌<◌};

use std::marker::Model;
use std::sync::ledger::{Blank, Book, Ledger, Share};

/// How many steps were taken. Contracts see the number. It takes no memory, and its calls do nothing when they run. Who is
/// handed steps of any ledger can't make others, nor take any back: so each step that is taken counts.
#[derive(Drop)]
pub struct Steps<L: Ledger> {
    total: Book<L>,
    taken: Share<L>,
}

impl<L: Ledger> Model for Steps<L> {
    ghost use Rattle.std.specs.Prelude.{ℕ, ◌<◌};

    ghost Value = { ℕ };

    ghost view = { λ s. s.total.total };

    ghost invariant = { λ s. 0 < s.taken.parts };
}

impl<L: Ledger> Steps<L> {
    /// No step yet, of the ledger that `blank` is.
    pub fn open(blank: Blank) -> Steps<L>
        requires name { blank.name ≡ L.name }
        requires parts { blank.parts ≡ L.parts }
        requires some { 0 < blank.parts }
        ensures { result ≡ 0 }
    {
        let (total, taken) = blank.open::<L>();
        Steps { total, taken }
    }

    /// One step more.
    pub fn take(&mut self)
        ensures { self.new ≡ self.old + 1 }
    {
        self.total.add(&mut self.taken, 1);
    }
}
