// The bodies of records, one behind another.
ghost use Rattle.std.specs.Prelude.{◌≡◌, ◌+◌, ◌<◌, ◌≤◌, [], ◌∷◌, ◌++◌, IsTrue, IsErr, length, take, drop, vec_len, vec_capacity, OnOk, OnErr, slice_get, slice_index, Some};
ghost use Rattle.qm_disk.specs.Disk.{OnlyLooks, TellsFaults};
ghost use Rattle.qm_glog.specs.Records.{size_of};
ghost use Rattle.qm_glog.specs.Cut.{AreEnds, AreEnds-prop};

use qm_disk::{Disk, DiskFault};
use std::alloc::{AllocError, Global};

/// The bodies of records, one behind another in one piece of memory. Beside its bytes a body takes the eight bytes
/// of the place where it ends.
#[derive(Drop)]
pub(crate) struct Bodies {
    bytes: Vec<u8>,
    ends: Vec<usize>,
    ghost are_ends: { AreEnds 0 ends.items (vec_len bytes) } by { AreEnds-prop 0 ends.items (vec_len bytes) },
}

impl Bodies {
    ghost use Rattle.qm_glog.specs.Bodies.{list_of, free_bytes, free_ends};

    // No bodies.
    pub(crate) fn new(alloc: Global) -> Self
        ensures { list_of result ≡ [] }
    {
        Bodies {
            bytes: Vec::new(alloc),
            ends: Vec::new(alloc),
        }
    }

    // How many there are.
    pub(crate) fn len(&self) -> usize
        ensures { result ≡ length (list_of self.now) }
    {
        self.ends.len()
    }

    // Where a body begins.
    fn start(&self, index: usize) -> usize
        requires { index < vec_len self.now.ends }
        ensures start { result ≡ slice_index (0 ∷ self.now.ends.items) index }
        ensures in_order { result ≤ slice_index self.now.ends.items index }
    {
        if index == 0 {
            return 0;
        }
        self.ends[index - 1]
    }

    // Where a body ends.
    fn end(&self, index: usize) -> usize
        requires { index < vec_len self.now.ends }
        ensures end { result ≡ slice_index self.now.ends.items index }
        ensures within { result ≤ vec_len self.now.bytes }
    {
        self.ends[index]
    }

    // A body; the first has index 0.
    pub(crate) fn get(&self, index: usize) -> &[u8]
        requires { index < length (list_of self.now) }
        ensures { slice_get (list_of self.now) index ≡ Some result.now }
    {
        let start = self.start(index);
        let end = self.end(index);
        &self.bytes[start..end]
    }

    // Makes memory for so many bytes, and for the end of one body.
    pub(crate) fn reserve(&mut self, bytes: usize) -> Result<(), AllocError>
        ensures bytes { OnOk result (bytes ≤ free_bytes self.new) }
        ensures end { OnOk result (0 < free_ends self.new) }
        ensures no_fewer_bytes { free_bytes self.old ≤ free_bytes self.new }
        ensures no_fewer_ends { free_ends self.old ≤ free_ends self.new }
        ensures list { list_of self.new ≡ list_of self.old }
    {
        self.ends.reserve(1)?;
        self.bytes.reserve(bytes)
    }

    // Adds a body, for which there is memory.
    pub(crate) fn push_reserved(&mut self, body: &[u8])
        requires bytes { length body.now ≤ free_bytes self.old }
        requires end { 0 < free_ends self.old }
        ensures { list_of self.new ≡ list_of self.old ++ body.now ∷ [] }
    {
        self.bytes.extend_from_slice(body).unwrap();
        self.ends.push_reserved(self.bytes.len());
    }

    // Adds a body.
    pub(crate) fn push(&mut self, body: &[u8]) -> Result<(), AllocError>
        ensures { OnOk result (list_of self.new ≡ list_of self.old ++ body.now ∷ []) }
    {
        self.reserve(body.len())?;
        self.push_reserved(body);
        Ok(())
    }

    // Adds a body that stands in a file, for which there is memory.
    pub(crate) fn read<D: Disk>(
        &mut self,
        disk: &mut D,
        file: u8,
        at: u64,
        count: usize,
    ) -> Result<(), DiskFault>
        requires file { file ≤ 2 }
        requires within { IsTrue D.meaning.tells → at + count ≤ length (D.meaning.seen disk.old file) }
        requires bytes { count ≤ free_bytes self.old }
        requires end { 0 < free_ends self.old }
        ensures added { OnOk result (IsTrue D.meaning.tells
            → list_of self.new ≡ list_of self.old ++ take count (drop at (D.meaning.seen disk.old file)) ∷ []) }
        ensures size { OnOk result (size_of (list_of self.new) ≡ size_of (list_of self.old) + 5 + count) }
        ensures looks { OnlyLooks D.meaning disk.old disk.new }
        ensures faults { TellsFaults D.meaning disk.old disk.new (IsErr result) }
    {
        read_onto(disk, file, at, count, &mut self.bytes)?;
        self.ends.push_reserved(self.bytes.len());
        Ok(())
    }
}

// Reads so many bytes of a file to the end of others, for which there is memory. An `Err` leaves these.
fn read_onto<D: Disk>(
    disk: &mut D,
    file: u8,
    at: u64,
    count: usize,
    bytes: &mut Vec<u8>,
) -> Result<(), DiskFault>
    requires file { file ≤ 2 }
    requires within { IsTrue D.meaning.tells → at + count ≤ length (D.meaning.seen disk.old file) }
    requires room { vec_len bytes.old + count ≤ vec_capacity bytes.old }
    ensures before { take (vec_len bytes.old) bytes.new.items ≡ bytes.old.items }
    ensures len { OnOk result (vec_len bytes.new ≡ vec_len bytes.old + count) }
    ensures read { OnOk result (IsTrue D.meaning.tells
        → drop (vec_len bytes.old) bytes.new.items ≡ take count (drop at (D.meaning.seen disk.old file))) }
    ensures err { OnErr result (bytes.new.items ≡ bytes.old.items) }
    ensures looks { OnlyLooks D.meaning disk.old disk.new }
    ensures faults { TellsFaults D.meaning disk.old disk.new (IsErr result) }
{
    let start = bytes.len();
    bytes.resize(start + count, 0).unwrap();
    let read = disk.read(file, at, &mut bytes[start..]);
    if let Err(fault) = read {
        bytes.truncate(start);
        return Err(fault);
    }
    Ok(())
}
