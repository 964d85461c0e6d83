// Files of a folder as devices. They tell nothing of their contents: that they keep what is appended is a premise.
ghost use Rattle.std.specs.Prelude.{◌≡◌, false, []};
ghost use Rattle.qm_symb.specs.Faults.{file_faults};

use crate::{Device, DeviceFault};
use qm_disk::Faults;
use qm_kinds::Name;
use std::alloc::AllocError;
use std::fs::{Files, Metadata, OpenFile, OpenOptions};
use std::io::{ErrorKind, Write};
use std::{fs, io};

/// The devices of a folder: the file of a device has its name and `.OUT`.
///
/// Each block is appended by a call of its own, which opens the file, made empty where it isn't there: so a file may be
/// taken away between two blocks. Where a call fails the file may have the beginning of its block. It isn't cut off,
/// since another node may have appended behind it. Nothing is synced.
///
/// Only a plain file that may be read and written is appended to, or a link to one. Anything else in its place is a fault,
/// as a folder, a pipe, a terminal, or a link to one of these or to nothing; it isn't written to, and no call waits for
/// whoever may read it.
///
/// It doesn't keep the numbers 0 to 2 free of its files: what uses it opens the site's files first, which does.
#[derive(Drop)]
pub struct FileDevice<R: Files> {
    rt: R,
    folder: String,
    faults: Faults,
}

impl<R: Files> FileDevice<R> {
    /// The devices of this folder, `.` for the one in which the program runs. It opens nothing yet.
    pub fn new(rt: R, folder: String) -> Self
        ensures { file_faults result ≡ 0 }
    {
        FileDevice {
            rt,
            folder,
            faults: Faults::new(),
        }
    }
}

// The path of the file of a device.
fn path_of(folder: &String, device: &Name) -> Result<String, AllocError> {
    let mut path = folder.clone()?;
    for part in ["/", device.as_str(), ".OUT"] {
        path.push_str(part)?;
    }
    Ok(path)
}

// Writes the whole block. Calls that are interrupted are made again, and short ones are gone on with.
pub(crate) fn append_whole<W: Write>(file: &mut W, block: &[u8]) -> io::Result<()> {
    file.write_all(block)
}

fn must_be_plain(found: &Metadata) -> io::Result<()> {
    if found.is_file() {
        Ok(())
    } else {
        Err(ErrorKind::Unsupported.into())
    }
}

// Makes an empty file, unless something of this name is there. A link isn't followed: one to nothing stays so.
fn make<R: Files>(rt: &R, path: &str) -> io::Result<()> {
    let made = OpenOptions::new()
        .append(true)
        .create_new(true)
        .open(rt, path);
    match made {
        Ok(_) => Ok(()),
        Err(error) if error.kind() == ErrorKind::AlreadyExists => Ok(()),
        Err(error) => Err(error),
    }
}

// Opens a plain file that is there. It is looked at first, since opening a device may wait, and again when it is open. It is
// opened for reading too: to open a pipe for writing alone waits for a reader.
fn open_found<R: Files>(rt: &R, path: &str) -> io::Result<R::File> {
    must_be_plain(&fs::metadata(rt, path)?)?;
    let file = OpenOptions::new().read(true).append(true).open(rt, path)?;
    must_be_plain(&file.metadata()?)?;
    Ok(file)
}

// Opens a plain file, made empty where nothing is there, also where it was taken away since it was looked at.
fn open_plain<R: Files>(rt: &R, path: &str) -> io::Result<R::File> {
    match open_found(rt, path) {
        Err(error) if error.kind() == ErrorKind::NotFound => {
            make(rt, path)?;
            open_found(rt, path)
        }
        opened => opened,
    }
}

// Appends a block to the file of this path.
fn append<R: Files>(rt: &R, path: &str, block: &[u8]) -> io::Result<()> {
    let mut file = open_plain(rt, path)?;
    append_whole(&mut file, block)
}

fn append_to<R: Files>(rt: &R, folder: &String, device: &Name, block: &[u8]) -> io::Result<()> {
    let path = path_of(folder, device)?;
    append(rt, path.as_str(), block)
}

impl<R: Files> Device for FileDevice<R> {
    ghost meaning = { record {
      tells = false;
      taken = λ device. [];
      faults = λ device. device.faults;
    } };

    /// Appends the block to the file of the device.
    fn hand(&mut self, _run: u64, device: &Name, block: &[u8]) -> Result<(), DeviceFault> {
        self.faults.counted(
            append_to(&self.rt, &self.folder, device, block),
            DeviceFault,
        )
    }
}
