// The folder of the files: its lock, and the mark that tells whether the last run ended well.
//
// A sync that fails leaves the new bytes in the system's cache, where they count as written. Who reads them later is
// told no fault, and a loss of power takes them all the same, with whatever was acknowledged behind them. So a run marks
// that it has begun, before it changes anything, and that it ended, where all is known to be on the disk; and a run that
// doesn't find the mark of an end makes all that it reads durable anew.
use crate::SiteFile;
use std::fs::{Files, OpenFile, OpenOptions};
use std::io;
use std::os::unix::fs::FileExt;
use std::path::Path;

// What the lock's file holds while a run goes on, and where one ended badly.
const BEGUN: [u8; 6] = *b"begun\n";
// What it holds where the last run left nothing behind that isn't known to be on the disk.
const ENDED: [u8; 6] = *b"ended\n";

// How the last run in the folder ended.
#[derive(Clone, Copy, Debug, PartialEq, Eq)]
pub(crate) enum LastRun {
    Ended,
    Broken,
}

/// The folder while it is held: no other run gets its lock.
#[derive(Drop)]
pub(crate) struct Folder<R: Files> {
    lock: R::File,
    // They keep the numbers 0 to 2, where the caller left them free.
    _streams: [Option<R::File>; 3],
}

impl<R: Files> Folder<R>
where
    R::File: SiteFile,
{
    /// Takes the lock in this file, which is made where it isn't there, and marks that a run has begun. It fails with
    /// `WouldBlock` where another run holds the lock.
    pub(crate) fn hold(rt: &R, name: &str) -> io::Result<(Folder<R>, LastRun)> {
        let mut streams = [None, None, None];
        keep_streams(rt, name, &mut streams)?;
        let lock = open_or_make(rt, name)?;
        lock.lock_now()?;
        let last = last_run(&lock)?;
        mark(&lock, &BEGUN)?;
        let folder = Folder {
            lock,
            _streams: streams,
        };
        Ok((folder, last))
    }

    /// Marks that the run ended with all that it wrote on the disk.
    pub(crate) fn end(&self) -> io::Result<()> {
        mark(&self.lock, &ENDED)
    }
}

// A stream that the caller left closed leaves its number free, and the next file that is opened gets it: what is printed
// then goes into that file. So the folder itself takes these numbers first. It can be neither read nor written, so that a
// closed stream goes on failing.
fn keep_streams<R: Files>(rt: &R, name: &str, streams: &mut [Option<R::File>; 3]) -> io::Result<()>
where
    R::File: SiteFile,
{
    for stream in streams {
        let folder = open_folder(rt, name)?;
        if folder.number() > 2 {
            return Ok(());
        }
        *stream = Some(folder);
    }
    Ok(())
}

fn last_run<F: OpenFile + FileExt>(lock: &F) -> io::Result<LastRun> {
    if lock.metadata()?.len() != 6 {
        return Ok(LastRun::Broken);
    }
    let mut found = [0; 6];
    lock.read_exact_at(&mut found, 0)?;
    Ok(if found == ENDED {
        LastRun::Ended
    } else {
        LastRun::Broken
    })
}

fn mark<F: OpenFile + FileExt>(lock: &F, text: &[u8; 6]) -> io::Result<()> {
    lock.set_len(6)?;
    lock.write_all_at(text, 0)?;
    lock.sync_data()
}

/// Opens a file, made empty where it isn't there.
pub(crate) fn open_or_make<R: Files>(rt: &R, name: &str) -> io::Result<R::File> {
    OpenOptions::new()
        .read(true)
        .write(true)
        .create(true)
        .open(rt, name)
}

/// Opens a file that is there.
pub(crate) fn open_existing<R: Files>(rt: &R, name: &str) -> io::Result<R::File> {
    OpenOptions::new().read(true).write(true).open(rt, name)
}

// Opens the folder of a file.
fn open_folder<R: Files>(rt: &R, name: &str) -> io::Result<R::File> {
    let mut options = OpenOptions::new();
    options.read(true);
    match Path::new(name).parent() {
        Some(folder) if !folder.to_string_lossy().is_empty() => options.open(rt, folder),
        _ => options.open(rt, "."),
    }
}

/// Makes the names in the folder of this file durable.
pub(crate) fn sync_folder<R: Files>(rt: &R, name: &str) -> io::Result<()> {
    open_folder(rt, name)?.sync_all()
}
