// What reading and writing owe, whatever lies behind them.
ghost use Rattle.std.specs.Prelude.{◌≡◌, ◌<◌, ◌≤◌, ℕ, List, Option, length, take, is_some, IfOk, OnErr, OnOk, Ok};
ghost use Rattle.std.specs.Io.KnownBytes.{Appends, Consumes, IsAtEnd, Keeps};
ghost use Rattle.qm_disk.specs.Faults.{counted};

use crate::Failed;

/// Bytes that come in.
pub trait Source {
    /// The bytes that reads give from here on, where they are told.
    ghost remaining: { Self → Option (List ℕ) };

    /// How often the source has failed.
    ghost faults: { Self → ℕ };

    /// Puts the next bytes at the front of `into` and answers how many: 0 into a place that isn't
    /// empty is the end of the input. What stands behind them in `into` is left open.
    ///
    /// After `Failed` no byte is lost. Each call that fails is counted by one, and no other is.
    fn read(&mut self, into: &mut [u8]) -> Result<usize, Failed>
        ensures room { IfOk result (λ count. count ≤ length into.new) }
        ensures next { IfOk result (λ count.
            Consumes (remaining self.old) (remaining self.new) (take count into.new)) }
        ensures end { IfOk result (λ count.
            count ≡ 0 → 0 < length into.new → IsAtEnd (remaining self.new)) }
        ensures failed { OnErr result (Keeps (remaining self.old) (remaining self.new)) }
        ensures told { is_some (remaining self.new) ≡ is_some (remaining self.old) }

        ensures quiet { OnOk result (faults self.new ≡ faults self.old) }
        ensures cause { OnErr result (faults self.new ≡ counted (faults self.old)) }
        ensures never_falls { faults self.old ≤ faults self.new };
}

/// Bytes that go out.
pub trait Sink {
    /// The bytes that the sink has taken, where they are told.
    ghost taken: { Self → Option (List ℕ) };

    /// How often the sink has failed.
    ghost faults: { Self → ℕ };

    /// Takes the first bytes of `piece` and answers how many: one at least of a piece that isn't
    /// empty.
    ///
    /// After `Failed` none of the piece counts as taken. Each call that fails is counted by one, and
    /// no other is.
    fn write(&mut self, piece: &[u8]) -> Result<usize, Failed>
        ensures room { IfOk result (λ count. count ≤ length piece.now) }
        ensures some { result ≡ Ok 0 → length piece.now ≡ 0 }
        ensures appended { IfOk result (λ count.
            Appends (taken self.old) (taken self.new) (take count piece.now)) }
        ensures failed { OnErr result (Keeps (taken self.old) (taken self.new)) }
        ensures told { is_some (taken self.new) ≡ is_some (taken self.old) }

        ensures quiet { OnOk result (faults self.new ≡ faults self.old) }
        ensures cause { OnErr result (faults self.new ≡ counted (faults self.old)) }
        ensures never_falls { faults self.old ≤ faults self.new };
}
