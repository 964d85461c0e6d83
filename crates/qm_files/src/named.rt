// One file of the folder, by its name.
use crate::SiteFile;
use crate::folder::{open_existing, open_or_make, sync_folder};
use std::fs::{Files, OpenFile};
use std::io::ErrorKind;
use std::os::unix::fs::FileExt;
use std::{fs, io};

/// One file. It is opened, and locked, at the first call on it.
#[derive(Drop)]
pub(crate) struct Named<R: Files> {
    name: String,
    file: Option<R::File>,
    // The last sync is known to have held, and nothing was written since.
    is_synced: bool,
}

impl<R: Files> Named<R>
where
    R::File: SiteFile,
{
    pub(crate) fn new(name: String) -> Self {
        Named {
            name,
            file: None,
            is_synced: true,
        }
    }

    /// Whether the last sync is known to have held, and nothing was written since.
    pub(crate) fn is_synced(&self) -> bool {
        self.is_synced
    }

    /// Whether the last sync of another run held isn't known.
    pub(crate) fn doubt(&mut self) {
        self.is_synced = false;
    }

    /// Makes durable what the file reads, where it is there and that isn't known: a copy is made beside it and synced, takes
    /// its name, and the name is synced. The copy has the file's permissions. What was there before stays until the copy is
    /// whole.
    pub(crate) fn renew(&mut self, rt: &R) -> io::Result<()> {
        if self.is_synced {
            return Ok(());
        }
        // (its lock goes with it)
        self.file = None;
        self.file = match open_existing(rt, self.name.as_str()) {
            Ok(old) => Some(self.copied(rt, old)?),
            Err(error) if error.kind() == ErrorKind::NotFound => None,
            Err(error) => return Err(error),
        };
        self.is_synced = true;
        Ok(())
    }

    // The copy that took the name of this file.
    fn copied(&self, rt: &R, old: R::File) -> io::Result<R::File> {
        let name = self.name.as_str();
        old.lock_now()?;
        let mut beside = self.name.clone()?;
        beside.push_str(".NEW")?;
        clear(rt, beside.as_str())?;
        fs::copy(rt, name, beside.as_str())?;
        let new = open_existing(rt, beside.as_str())?;
        new.lock_now()?;
        new.sync_all()?;
        fs::rename(rt, beside.as_str(), name)?;
        sync_folder(rt, name)?;
        Ok(new)
    }

    // The open file. It is made empty where it isn't there, and its name in the folder is made durable: whoever made it
    // may have died before that.
    fn opened(&mut self, rt: &R) -> io::Result<&R::File> {
        if self.file.is_none() {
            let file = open_or_make(rt, self.name.as_str())?;
            file.lock_now()?;
            sync_folder(rt, self.name.as_str())?;
            self.file = Some(file);
        }
        match &self.file {
            Some(file) => Ok(file),
            None => Err(ErrorKind::NotFound.into()),
        }
    }

    pub(crate) fn size(&mut self, rt: &R) -> io::Result<u64> {
        Ok(self.opened(rt)?.metadata()?.len())
    }

    pub(crate) fn read(&mut self, rt: &R, at: u64, into: &mut [u8]) -> io::Result<()> {
        self.opened(rt)?.read_exact_at(into, at)
    }

    pub(crate) fn write(&mut self, rt: &R, at: u64, bytes: &[u8]) -> io::Result<()> {
        self.is_synced = false;
        self.opened(rt)?.write_all_at(bytes, at)
    }

    pub(crate) fn cut(&mut self, rt: &R, size: u64) -> io::Result<()> {
        self.is_synced = false;
        self.opened(rt)?.set_len(size)
    }

    /// Syncs what is needed to read the bytes again: they, and the length where it grew. The times of the file can wait.
    pub(crate) fn sync(&mut self, rt: &R) -> io::Result<()> {
        self.is_synced = false;
        self.opened(rt)?.sync_data()?;
        self.is_synced = true;
        Ok(())
    }
}

// What lies where the copy will stand goes first: it isn't written through.
fn clear<R: Files>(rt: &R, beside: &str) -> io::Result<()> {
    match fs::remove_file(rt, beside) {
        Err(error) if error.kind() != ErrorKind::NotFound => Err(error),
        _ => Ok(()),
    }
}
