// The files in order of their names.
ghost use Rattle.std.specs.Prelude.{◌≡◌, ◌+◌, ◌-◌, ◌<◌, ◌≤◌, [], length, filter, not, false, None, IsSome, OnErr, OnOk, vec_len, vec_capacity, option_copied};
ghost use Rattle.qm_model.specs.Common.{ENTRIES_LIMIT, is_spool_full, AreFiles, spooled, file_named, same_file_name};
ghost use Rattle.qm_tables.specs.Spool.{count_of, with_bytes, HasRoomFor, bytes_named, is_too_much};
ghost use Rattle.qm_tables.specs.SpoolCounts.{SameCounts, IsCountedAs, IsCountedMore, IsCountedLess};

use crate::spool::limits::passes;
use crate::spool::place::place_of;
use crate::spool::spooled::{Spooled, extend, reserve_bytes, set_named};
use qm_keyed::put;
use qm_kinds::{FILE_LIMIT, FILES_LIMIT, FileName, SPOOL_LIMIT};
use std::alloc::{AllocError, Global};
use std::marker::Model;

/// Files, each under its name, and how many entries name each. Contracts see a `Kept`: the files in order of their names,
/// how many entries name each, for how many bytes more each has room, and for how many files more there is room.
///
/// Only `reserve_file` and `reserve_bytes` take memory, and `from_files` and `files`, which copy. Each other call asks a
/// logarithm of the files; a new file and a removal also move those that stand behind, without their bytes.
#[derive(Drop)]
pub struct Spool {
    pub(crate) files: Vec<Spooled>,
    // How many bytes all files have.
    pub(crate) size: u32,
}

impl Model for Spool {
    ghost use Rattle.std.specs.Prelude.{◌-◌, vec_len, vec_capacity};
    ghost use Rattle.qm_tables.specs.Spool.{Kept};
    ghost use Rattle.qm_tables.specs.SpoolRows.{kept_of, AreSpooled};

    ghost Value = { Kept };

    ghost view = { λ s. kept_of s.files.items (vec_capacity s.files - vec_len s.files) };

    ghost invariant = { λ s. AreSpooled s.files.items s.size };
}

impl Spool {
    /// No file, and room for none. It takes no memory.
    pub fn new(alloc: Global) -> Spool
        ensures { result ≡ record { files = []; counts = []; rooms = []; spare = 0 } }
    {
        Spool {
            files: Vec::new(alloc),
            size: 0,
        }
    }

    /// Makes room for one file more. Where there is room it takes no memory, and succeeds.
    pub fn reserve_file(&mut self) -> Result<(), AllocError>
        ensures ok { OnOk result (0 < self.new.spare) }
        ensures err { OnErr result (self.old.spare ≡ 0) }
        ensures no_less { self.old.spare ≤ self.new.spare }
        ensures files { self.new ≡ record self.old { spare = self.new.spare } }
    {
        self.files.reserve(1)
    }

    /// Makes room for so many more bytes of a file that is there.
    pub fn reserve_bytes(&mut self, name: &FileName, more: usize) -> Result<(), AllocError>
        requires { IsSome (file_named name.now self.old.files) }
        ensures ok { OnOk result (more ≤ count_of name.now self.new.rooms) }
        ensures err { OnErr result (count_of name.now self.old.rooms < more) }
        ensures files { self.new ≡ record self.old { rooms = self.new.rooms } }
    {
        let Ok(place) = place_of(&self.files, name) else {
            unreachable!()
        };
        reserve_bytes(&mut self.files, place, more)
    }

    /// The bytes of a file.
    pub fn bytes(&self, name: &FileName) -> Option<&[u8]>
        ensures found { option_copied result ≡ bytes_named name.now self.now.files }
        ensures files { AreFiles self.now.files }
    {
        let Ok(place) = place_of(&self.files, name) else {
            return None;
        };
        Some(self.files[place].bytes.as_slice())
    }

    /// How many entries name a file. There are none where it isn't there.
    pub fn count(&self, name: &FileName) -> u32
        ensures count { result ≡ count_of name.now self.now.counts }
        ensures there { 0 < result → IsSome (file_named name.now self.now.files) }
    {
        let Ok(place) = place_of(&self.files, name) else {
            return 0;
        };
        self.files[place].named
    }

    /// How many bytes all files have.
    pub fn size(&self) -> u32
        ensures { result ≡ spooled self.now.files }
    {
        self.size
    }

    // Whether a file of this size, or all files together, would pass its limit with so many more bytes.
    fn is_too_much(&self, size: usize, more: usize) -> bool
        requires { size ≤ FILE_LIMIT }
        ensures { result ≡ is_too_much size more self.now.files }
    {
        passes(FILE_LIMIT, size, more) || passes(SPOOL_LIMIT, self.size as usize, more)
    }

    /// Whether the file, all files together, or their number would pass its limit with so many more bytes of the file.
    pub fn is_full_for(&self, name: &FileName, more: usize) -> bool
        ensures { result ≡ is_spool_full name.now more self.now.files }
    {
        match place_of(&self.files, name) {
            Ok(place) => self.is_too_much(self.files[place].bytes.len(), more),
            Err(_) => self.is_too_much(0, more) || self.files.len() >= FILES_LIMIT,
        }
    }

    /// Puts bytes behind those of a file that has room for them.
    pub fn append(&mut self, name: &FileName, more: &[u8])
        requires { HasRoomFor self.old name.now more.now }
        ensures { self.new ≡ record self.old {
          files = with_bytes name.now more.now self.old.files;
          rooms = self.new.rooms;
        } }
    {
        let Ok(place) = place_of(&self.files, name) else {
            unreachable!()
        };
        extend(&mut self.files, place, more);
        self.size += more.len() as u32;
    }

    /// Puts in a file that isn't there, for which there is room. It has the very bytes, no copy of them, and no entry names
    /// it.
    pub fn insert_file(&mut self, name: FileName, bytes: Vec<u8>)
        requires room { 0 < self.old.spare }
        requires absent { file_named name self.old.files ≡ None }
        requires fits { is_spool_full name (length bytes.items) self.old.files ≡ false }
        ensures files { self.new ≡ record self.old {
          files = with_bytes name bytes.items self.old.files;
          counts = self.new.counts;
          rooms = self.new.rooms;
          spare = self.old.spare - 1;
        } }
        ensures counts { SameCounts self.old.counts self.new.counts }
        ensures bytes { IsCountedAs name (vec_capacity bytes - vec_len bytes)
            self.old.rooms self.new.rooms }
    {
        let Err(place) = place_of(&self.files, &name) else {
            unreachable!()
        };
        let size = bytes.len() as u32;
        let file = Spooled {
            name,
            bytes,
            named: 0,
        };
        put(&mut self.files, place, file);
        self.size += size;
    }

    /// Counts one more entry that names a file, which is there.
    pub fn enter(&mut self, name: &FileName)
        requires there { IsSome (file_named name.now self.old.files) }
        requires few { count_of name.now self.old.counts < ENTRIES_LIMIT }
        ensures files { self.new ≡ record self.old { counts = self.new.counts } }
        ensures counts { IsCountedMore name.now self.old.counts self.new.counts }
    {
        let Ok(place) = place_of(&self.files, name) else {
            unreachable!()
        };
        let named = self.files[place].named + 1;
        set_named(&mut self.files, place, named);
    }

    /// Counts one entry less that names a file. There is one.
    pub fn leave(&mut self, name: &FileName)
        requires { 0 < count_of name.now self.old.counts }
        ensures files { self.new ≡ record self.old { counts = self.new.counts } }
        ensures counts { IsCountedLess name.now self.old.counts self.new.counts }
    {
        let Ok(place) = place_of(&self.files, name) else {
            unreachable!()
        };
        let named = self.files[place].named - 1;
        set_named(&mut self.files, place, named);
    }

    /// Takes out a file that is there and that no entry names, and frees its bytes.
    pub fn remove(&mut self, name: &FileName)
        requires there { IsSome (file_named name.now self.old.files) }
        requires unnamed { count_of name.now self.old.counts ≡ 0 }
        ensures files { self.new ≡ record self.old {
          files = filter (λ f. not (same_file_name f.name name.now)) self.old.files;
          counts = self.new.counts;
          rooms = self.new.rooms;
          spare = self.old.spare + 1;
        } }
        ensures counts { SameCounts self.old.counts self.new.counts }
    {
        let Ok(place) = place_of(&self.files, name) else {
            unreachable!()
        };
        let file = self.files.remove(place);
        self.size -= file.bytes.len() as u32;
    }
}
