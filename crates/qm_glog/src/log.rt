// The log and its calls on records.
ghost use Rattle.std.specs.Prelude.{◌≡◌, ◌+◌, ◌<◌, ◌≤◌, IsTrue, length, vec_capacity, OnOk, IsErrOf, slice_get, Some};
ghost use Rattle.qm_disk.specs.Disk.{TellsFaults};
ghost use Rattle.qm_glog.specs.Records.{size_of};
ghost use Rattle.qm_glog.specs.Bodies.{list_of, free_bytes, free_ends};
ghost use Rattle.qm_kinds.specs.declared.limits.TheConstants.{GREATEST_CAP};

use crate::AppendFault;
use crate::bodies::Bodies;
use crate::spare::spell;
use crate::through::write_through;
use qm_disk::Disk;
use qm_kinds::GREATEST_CAP;
use std::alloc::{AllocError, Global};

/// The records of one file of a disk, which it doesn't own.
#[derive(Drop)]
pub struct Log {
    file: u8,
    cap: u64,
    /// The place of the closed gate.
    end: u64,
    bodies: Bodies,
    /// One more than the bytes of the longest body for which there is memory, or 0.
    spare: usize,
    /// Memory for the next record as it is written.
    buffer: Vec<u8>,
    ghost in_disk: { file ≤ 2 },
    ghost capped: { cap ≤ GREATEST_CAP },
    ghost at_end: { end ≡ size_of (list_of bodies) },
    ghost has_end: { 0 < spare → 0 < free_ends bodies },
    ghost has_bytes: { 0 < spare → spare ≤ free_bytes bodies + 1 },
    ghost has_buffer: { 0 < spare → spare + 4 ≤ vec_capacity buffer },
}

impl Log {
    ghost use Rattle.qm_glog.specs.Log.{bodies_of, file_of, cap_of, spare_of, StandsIn, IsAsLeft};
    ghost use Rattle.qm_glog.specs.Appending.{Appended, Appends};

    // The log with these bodies and this end, with nothing spare.
    pub(crate) fn of(alloc: Global, file: u8, cap: u64, bodies: Bodies, end: u64) -> Self
        requires file { file ≤ 2 }
        requires cap { cap ≤ GREATEST_CAP }
        requires end { end ≡ size_of (list_of bodies) }
        ensures bodies { bodies_of result ≡ list_of bodies }
        ensures place { StandsIn file cap result }
    {
        Log {
            file,
            cap,
            end,
            bodies,
            spare: 0,
            buffer: Vec::new(alloc),
        }
    }

    /// How many records there are.
    pub fn count(&self) -> usize
        ensures { result ≡ length (bodies_of self.now) }
    {
        self.bodies.len()
    }

    /// The body of a record; the first has index 0.
    pub fn record(&self, index: usize) -> &[u8]
        requires { index < length (bodies_of self.now) }
        ensures { slice_get (bodies_of self.now) index ≡ Some result.now }
    {
        self.bodies.get(index)
    }

    /// The place of the closed gate behind the last record, in bytes.
    pub fn end(&self) -> u64
        ensures { result ≡ size_of (bodies_of self.now) }
    {
        self.end
    }

    /// Makes so many bytes spare for the body of one record. An `Err` leaves what was spare.
    pub fn reserve(&mut self, bytes: usize) -> Result<(), AllocError>
        ensures ok { OnOk result (bytes < spare_of self.new) }
        ensures no_less { spare_of self.old ≤ spare_of self.new }
        ensures bodies { bodies_of self.new ≡ bodies_of self.old }
        ensures place { StandsIn (file_of self.old) (cap_of self.old) self.new }
    {
        let record = bytes.checked_add(5).ok_or(AllocError)?;
        self.bodies.reserve(bytes)?;
        self.buffer.clear();
        self.buffer.reserve(record)?;
        self.spare = self.spare.max(bytes + 1);
        Ok(())
    }

    /// Adds a record, by four calls on the disk, two of them syncs; it takes no memory but what was made spare. At
    /// `Ok` the record is acknowledged: from then on each crash leaves it. At `Full` nothing has changed. After
    /// `Disk` the file has to be opened again as a new log.
    pub fn append<D: Disk>(&mut self, disk: &mut D, body: &[u8]) -> Result<(), AppendFault>
        requires room { length body.now < spare_of self.old }
        // The file is as this log's last call left it, and no call of this log answered `Disk`.
        requires left { IsTrue D.meaning.tells → IsAsLeft D.meaning self.old disk.old }

        ensures answer { Appended D.meaning body.now self.old self.new disk.old disk.new result }
        ensures place { StandsIn (file_of self.old) (cap_of self.old) self.new }
        ensures leaves { Appends D.meaning body.now self.old disk.old disk.new }
        ensures faults { TellsFaults D.meaning disk.old disk.new (IsErrOf result AppendFault.Disk) }
    {
        let need = self.end.saturating_add(body.len() as u64).saturating_add(6);
        if need > self.cap {
            return Err(AppendFault::Full {
                need,
                cap: self.cap,
            });
        }
        spell(&mut self.buffer, body);
        // The record has to be on the disk before its gate opens.
        write_through(disk, self.file, self.end + 1, &self.buffer)?;
        write_through(disk, self.file, self.end, &[1])?;
        self.bodies.push_reserved(body);
        self.end += 5 + body.len() as u64;
        self.spare = 0;
        Ok(())
    }
}
