// The files of a system as a spool keeps them, and back.
ghost use Rattle.std.specs.Prelude.{◌≡◌, ◌≤◌, [], IfOk, map, All};
ghost use Rattle.qm_model.specs.Consistent.{AreFiles, spooled};
ghost use Rattle.qm_tables.specs.SpoolCounts.{CountsOf};
ghost use Rattle.qm_tables.specs.SpoolRows.{file_of};

use crate::spool::spooled::Spooled;
use crate::spool::table::Spool;
use qm_kinds::{File, SPOOL_LIMIT, Seq};
use std::alloc::{AllocError, Global};

// A file as the spool keeps it, named by no entry so far.
fn keep_file(alloc: Global, file: &File) -> Result<Spooled, AllocError>
    ensures rows { IfOk result (λ kept. file_of kept ≡ file.now) }
    ensures unnamed { IfOk result (λ kept. kept.named ≡ 0) }
{
    Ok(Spooled {
        name: file.name,
        bytes: Vec::from_slice(alloc, file.bytes.as_slice())?,
        named: 0,
    })
}

fn keep_files(alloc: Global, files: &[File]) -> Result<Vec<Spooled>, AllocError>
    ensures rows { IfOk result (λ kept. map file_of kept.items ≡ files.now) }
    ensures unnamed { IfOk result (λ kept. All (λ f. f.named ≡ 0) kept.items) }
{
    let mut kept = Vec::new(alloc);
    for file in files {
        kept.push(keep_file(alloc, file)?)?;
    }
    Ok(kept)
}

fn copy_file(alloc: Global, file: &Spooled) -> Result<File, AllocError>
    ensures { IfOk result (λ copy. copy ≡ file_of file.now) }
{
    Ok(File {
        name: file.name,
        bytes: Seq::of(Vec::from_slice(alloc, file.bytes.as_slice())?),
    })
}

fn copy_files(alloc: Global, files: &[Spooled]) -> Result<Vec<File>, AllocError>
    ensures { IfOk result (λ copies. copies.items ≡ map file_of files.now) }
{
    let mut copies = Vec::new(alloc);
    for file in files {
        copies.push(copy_file(alloc, file)?)?;
    }
    Ok(copies)
}

// How many bytes all files have.
fn size_of_all(files: &[Spooled]) -> u32
    requires { spooled (map file_of files.now) ≤ SPOOL_LIMIT }
    ensures { result ≡ spooled (map file_of files.now) }
{
    let mut size = 0u32;
    for file in files {
        size += file.bytes.as_slice().len() as u32;
    }
    size
}

impl Spool {
    /// The files of a site, copied. No entry names one so far. Where there is no memory for them, there is no spool.
    pub fn from_files(alloc: Global, files: &[File]) -> Result<Spool, AllocError>
        requires { AreFiles files.now }
        ensures files { IfOk result (λ spool. spool.files ≡ files.now) }
        ensures unnamed { IfOk result (λ spool. CountsOf [] spool.counts) }
    {
        let files = keep_files(alloc, files)?;
        let size = size_of_all(files.as_slice());
        Ok(Spool { files, size })
    }

    /// A copy of the files.
    pub fn files(&self, alloc: Global) -> Result<Seq<File>, AllocError>
        ensures { IfOk result (λ files. files ≡ self.now.files) }
    {
        Ok(Seq::of(copy_files(alloc, self.files.as_slice())?))
    }
}
