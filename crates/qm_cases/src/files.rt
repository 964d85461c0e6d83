// What the three files of a disk hold.
use qm_disk::MemoryDisk;
use std::alloc::{AllocError, Global};

/// What the three files of a disk hold.
#[derive(Drop)]
pub(crate) struct Files {
    master: Vec<u8>,
    one: Vec<u8>,
    two: Vec<u8>,
}

/// How a file is spoiled at a place: cut there, or the byte raised by one.
#[derive(Clone, Copy)]
pub(crate) enum Spoil {
    Cut,
    Raised,
}

impl Files {
    /// Files without a byte.
    pub(crate) fn new(alloc: Global) -> Files {
        Files {
            master: Vec::new(alloc),
            one: Vec::new(alloc),
            two: Vec::new(alloc),
        }
    }

    /// The files of a disk, as they read.
    pub(crate) fn of(alloc: Global, disk: &MemoryDisk) -> Result<Files, AllocError> {
        Ok(Files {
            master: disk.held(0).to_vec(alloc)?,
            one: disk.held(1).to_vec(alloc)?,
            two: disk.held(2).to_vec(alloc)?,
        })
    }

    /// A disk with these files, which fails at the calls of these numbers.
    pub(crate) fn disk(&self, alloc: Global, failing: &[u64]) -> Result<MemoryDisk, AllocError> {
        Ok(MemoryDisk::new(
            alloc,
            self.master.to_vec(alloc)?,
            self.one.to_vec(alloc)?,
            self.two.to_vec(alloc)?,
            failing.to_vec(alloc)?,
        ))
    }

    /// The file of a number: the master is 0.
    pub(crate) fn get(&self, number: usize) -> &[u8] {
        match number {
            0 => &self.master,
            1 => &self.one,
            _ => &self.two,
        }
    }

    /// The file of a number, to be changed.
    pub(crate) fn get_mut(&mut self, number: usize) -> &mut Vec<u8> {
        match number {
            0 => &mut self.master,
            1 => &mut self.one,
            _ => &mut self.two,
        }
    }

    /// Whether these are those.
    pub(crate) fn are(&self, others: &Files) -> bool {
        self.master == others.master && self.one == others.one && self.two == others.two
    }

    /// The same files, of which the one of a number is spoiled at a place.
    pub(crate) fn spoiled(
        &self,
        alloc: Global,
        number: usize,
        spoil: Spoil,
        place: usize,
    ) -> Result<Files, AllocError> {
        let mut files = Files::of(alloc, &self.disk(alloc, &[])?)?;
        let file = files.get_mut(number);
        match spoil {
            Spoil::Cut => file.truncate(place),
            Spoil::Raised => {
                if let Some(byte) = file.get_mut(place) {
                    *byte = byte.wrapping_add(1);
                }
            }
        }
        Ok(files)
    }
}
