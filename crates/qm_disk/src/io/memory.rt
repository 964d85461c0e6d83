// A source and a sink in memory, which fail at the calls that a list names.
ghost use Rattle.std.specs.Prelude.{◌≡◌, ◌≤◌, [], ◌++◌, length, min, take, drop, Contains, IfOk, OnOk, OnErr, Ok, Some};
ghost use Rattle.qm_disk.specs.Faults.{counted};

use crate::{Calls, Failed, Sink, Source};
use std::alloc::Global;
use std::marker::Model;

// Copies as many bytes as both have, and answers how many.
fn copy_front(from: &[u8], into: &mut [u8]) -> usize
    ensures count { result ≡ min (length from.now) (length into.old) }
    ensures copied { from.now ≡ take result into.new ++ drop result from.now }
{
    let count = from.len().min(into.len());
    into[..count].copy_from_slice(&from[..count]);
    count
}

/// Bytes in memory that come in. Contracts see a `HeldSource`: the bytes left, and the calls.
#[derive(Drop)]
pub struct MemorySource {
    bytes: Vec<u8>,
    at: usize,
    reads: Calls,
}

impl Model for MemorySource {
    ghost use Rattle.std.specs.Prelude.{◌≤◌, drop, length};
    ghost use Rattle.qm_disk.specs.MemoryStreams.{HeldSource};

    ghost Value = { HeldSource };

    ghost view = { λ s. record {
      left = drop s.at s.bytes.items;
      fail = s.reads.fail;
      calls = s.reads.made;
      faults = s.reads.faults;
    } };

    ghost invariant = { λ s. s.at ≤ length s.bytes.items };
}

impl MemorySource {
    /// A source that gives these bytes. It fails at each call whose number, counted from 1, is
    /// listed in `fail`, and at no other.
    pub fn new(bytes: Vec<u8>, fail: Vec<u64>) -> MemorySource
        ensures { result ≡ record { left = bytes.items; fail = fail.items; calls = 0; faults = 0 } }
    {
        MemorySource {
            bytes,
            at: 0,
            reads: Calls::new(fail),
        }
    }

    /// The bytes left.
    pub fn held(&self) -> &[u8]
        ensures { result.now ≡ self.now.left }
    {
        &self.bytes[self.at..]
    }
}

impl Source for MemorySource {
    ghost remaining = { λ source. Some source.left };

    ghost faults = { λ source. source.faults };

    /// Gives as many bytes as there is room for.
    fn read(&mut self, into: &mut [u8]) -> Result<usize, Failed>
        ensures unlisted { OnOk result (¬ Contains self.old.fail (counted self.old.calls)) }
        ensures listed { OnErr result (Contains self.old.fail (counted self.old.calls)) }

        ensures count { IfOk result (λ count. count ≡ min (length self.old.left) (length into.new)) }
        ensures next { IfOk result (λ count. self.old.left ≡ take count into.new ++ self.new.left) }
        ensures ok { IfOk result (λ count. self.new ≡ record self.old {
          left = drop count self.old.left;
          calls = counted self.old.calls;
        }) }

        ensures err { OnErr result (self.new ≡ record self.old {
          calls = counted self.old.calls;
          faults = counted self.old.faults;
        }) }
        ensures quiet { OnOk result (self.new.faults ≡ self.old.faults) }
        ensures cause { OnErr result (self.new.faults ≡ counted self.old.faults) }
        ensures never_falls { self.old.faults ≤ self.new.faults }
    {
        if !self.reads.begin() {
            return Err(Failed);
        }
        let count = copy_front(&self.bytes[self.at..], into);
        self.at += count;
        Ok(count)
    }
}

/// Bytes that go out into memory. Contracts see a `HeldSink`: the bytes taken, and the calls.
#[derive(Drop)]
pub struct MemorySink {
    bytes: Vec<u8>,
    writes: Calls,
}

impl Model for MemorySink {
    ghost use Rattle.qm_disk.specs.MemoryStreams.{HeldSink};

    ghost Value = { HeldSink };

    ghost view = { λ s. record {
      taken = s.bytes.items;
      fail = s.writes.fail;
      calls = s.writes.made;
      faults = s.writes.faults;
    } };
}

impl MemorySink {
    /// A sink that has taken nothing. It fails at each call whose number, counted from 1, is
    /// listed in `fail`, and at another only for want of memory.
    pub fn new(alloc: Global, fail: Vec<u64>) -> MemorySink
        ensures { result ≡ record { taken = []; fail = fail.items; calls = 0; faults = 0 } }
    {
        MemorySink {
            bytes: Vec::new(alloc),
            writes: Calls::new(fail),
        }
    }

    /// The bytes taken.
    pub fn held(&self) -> &[u8]
        ensures { result.now ≡ self.now.taken }
    {
        &self.bytes
    }
}

impl Sink for MemorySink {
    ghost taken = { λ sink. Some sink.taken };

    ghost faults = { λ sink. sink.faults };

    /// Takes the whole piece.
    fn write(&mut self, piece: &[u8]) -> Result<usize, Failed>
        ensures unlisted { OnOk result (¬ Contains self.old.fail (counted self.old.calls)) }

        ensures count { IfOk result (λ count. count ≡ length piece.now) }
        ensures some { result ≡ Ok 0 → length piece.now ≡ 0 }
        ensures ok { OnOk result (self.new ≡ record self.old {
          taken = self.old.taken ++ piece.now;
          calls = counted self.old.calls;
        }) }

        ensures err { OnErr result (self.new ≡ record self.old {
          calls = counted self.old.calls;
          faults = counted self.old.faults;
        }) }
        ensures quiet { OnOk result (self.new.faults ≡ self.old.faults) }
        ensures cause { OnErr result (self.new.faults ≡ counted self.old.faults) }
        ensures never_falls { self.old.faults ≤ self.new.faults }
    {
        if !self.writes.begin() {
            return Err(Failed);
        }
        if self.bytes.extend_from_slice(piece).is_err() {
            self.writes.count_fault();
            return Err(Failed);
        }
        Ok(piece.len())
    }
}
