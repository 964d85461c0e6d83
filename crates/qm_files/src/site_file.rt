// What is asked of an open file beside what std's traits have.
use std::fs::File;
use std::io;
use std::os::fd::AsRawFd;
use std::os::unix::fs::FileExt;

/// An open file that is read and written at places, and can be locked.
pub trait SiteFile: FileExt {
    /// The number that the system gave it: the least that was free.
    fn number(&self) -> i32;

    /// Locks the file until it is closed, without waiting. It fails with `WouldBlock` where the file is locked by
    /// another open of it, in this process or in another.
    fn lock_now(&self) -> io::Result<()>;
}

impl SiteFile for File {
    fn number(&self) -> i32 {
        self.as_raw_fd()
    }

    fn lock_now(&self) -> io::Result<()> {
        Ok(self.try_lock()?)
    }
}
