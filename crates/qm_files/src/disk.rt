// Three files of the system as one disk. It tells nothing of their contents: that they behave as a disk is a premise.
ghost use Rattle.std.proofs.Common.{lit≤, ◌≡◌, ◌≤◌, false, []};
ghost use Rattle.qm_disk.specs.Crash.{untold};
ghost use Rattle.qm_files.specs.Faults.{file_faults};

use crate::SiteFile;
use crate::folder::{Folder, LastRun};
use crate::named::Named;
use qm_disk::{Disk, DiskFault, Faults};
use std::fs::Files;
use std::io;
use std::io::ErrorKind;

/// Three files of a folder, and a fourth that is its lock.
///
/// At the first call the lock is taken, without waiting, and held until the disk is dropped: so no other process has the
/// files meanwhile. While another has it, each call is a fault.
///
/// A sync that failed may have left bytes in the system's cache that no disk holds. So behind a call that failed, and where
/// the last run in the folder didn't end well, the next call first makes durable what each file reads whose last sync isn't
/// known to have held. Where that fails, the call is a fault, and the one behind it tries again.
///
/// Each file is opened at the first call on it, and made empty where it isn't there.
#[derive(Drop)]
pub struct FileDisk<R: Files> {
    site: Site<R>,
    faults: Faults,
}

// How the last call on the files ended.
#[derive(Clone, Copy, Debug, PartialEq, Eq)]
enum Ending {
    Well,
    // The last run in the folder ended badly, or a call failed.
    Badly,
    // Another process has the lock, or one of the files locked.
    InUse,
}

#[derive(Drop)]
struct Site<R: Files> {
    rt: R,
    lock: String,
    folder: Option<Folder<R>>,
    files: [Named<R>; 3],
    last: Ending,
}

impl<R: Files> FileDisk<R>
where
    R::File: SiteFile,
{
    /// The disk over the files of these names: the lock, and file 0, file 1 and file 2. It opens none yet.
    pub fn new(rt: R, lock: String, master: String, one: String, two: String) -> Self
        ensures { file_faults result ≡ 0 }
    {
        FileDisk {
            site: Site {
                rt,
                lock,
                folder: None,
                files: [Named::new(master), Named::new(one), Named::new(two)],
                last: Ending::Well,
            },
            faults: Faults::new(),
        }
    }

    /// Whether the last call failed since another process has the folder or one of its files.
    pub fn is_in_use(&self) -> bool {
        self.site.last == Ending::InUse
    }

    /// Lets the folder go. Where the last call succeeded, and all that was written was synced, the next run finds the mark
    /// of that, and else makes what it reads durable anew; so nothing is lost where no mark can be made.
    pub fn close(self)
    where
        R: Drop,
    {
        let _ = self.site.end();
    }
}

impl<R: Files> Site<R>
where
    R::File: SiteFile,
{
    fn end(&self) -> io::Result<()> {
        let [master, one, two] = &self.files;
        let is_synced = master.is_synced() && one.is_synced() && two.is_synced();
        match &self.folder {
            Some(folder) if is_synced && self.last == Ending::Well => folder.end(),
            _ => Ok(()),
        }
    }

    // Takes the folder at the first call, and mends what isn't known to be on the disk.
    fn begin(&mut self) -> io::Result<()> {
        if self.folder.is_none() {
            let (folder, last) = Folder::hold(&self.rt, self.lock.as_str())?;
            self.folder = Some(folder);
            if last == LastRun::Broken {
                self.last = Ending::Badly;
                doubt_all(&mut self.files);
            }
        }
        if self.last != Ending::Well {
            renew_all(&self.rt, &mut self.files)?;
            self.last = Ending::Well;
        }
        Ok(())
    }

    // Keeps in mind how a call ended.
    fn noted<T: Drop>(&mut self, answer: io::Result<T>) -> io::Result<T> {
        if let Err(error) = &answer {
            self.last = match error.kind() {
                ErrorKind::WouldBlock => Ending::InUse,
                _ => Ending::Badly,
            };
        }
        answer
    }

    fn size(&mut self, file: u8) -> io::Result<u64>
        requires { file ≤ 2 }
    {
        self.begin()?;
        self.files[file as usize].size(&self.rt)
    }

    fn read(&mut self, file: u8, at: u64, into: &mut [u8]) -> io::Result<()>
        requires { file ≤ 2 }
    {
        self.begin()?;
        self.files[file as usize].read(&self.rt, at, into)
    }

    fn write(&mut self, file: u8, at: u64, bytes: &[u8]) -> io::Result<()>
        requires { file ≤ 2 }
    {
        self.begin()?;
        self.files[file as usize].write(&self.rt, at, bytes)
    }

    fn cut(&mut self, file: u8, size: u64) -> io::Result<()>
        requires { file ≤ 2 }
    {
        self.begin()?;
        self.files[file as usize].cut(&self.rt, size)
    }

    fn sync(&mut self, file: u8) -> io::Result<()>
        requires { file ≤ 2 }
    {
        self.begin()?;
        self.files[file as usize].sync(&self.rt)
    }
}

fn doubt_all<R: Files>(files: &mut [Named<R>; 3])
where
    R::File: SiteFile,
{
    files[0].doubt();
    files[1].doubt();
    files[2].doubt();
}

fn renew_all<R: Files>(rt: &R, files: &mut [Named<R>; 3]) -> io::Result<()>
where
    R::File: SiteFile,
{
    files[0].renew(rt)?;
    files[1].renew(rt)?;
    files[2].renew(rt)
}

impl<R: Files> Disk for FileDisk<R>
where
    R::File: SiteFile,
{
    ghost meaning = { record {
      tells = false;
      seen = λ disk f. [];
      may_leave = λ disk f c. ⊥;
      moment = λ disk. 0;
      left_since = λ disk t crashed. ⊥;
      faults = λ disk. disk.faults;
    } };

    ghost reads_a_crash_state = { λ disk f told le. untold told };

    ghost counts_now = { λ disk t crashed le left. left 0 (lit≤ tt) };

    ghost only_now = { λ disk crashed left. absurd left };

    fn size(&mut self, file: u8) -> Result<u64, DiskFault> {
        let answer = self.site.size(file);
        self.faults.counted(self.site.noted(answer), DiskFault)
    }

    fn read(&mut self, file: u8, at: u64, into: &mut [u8]) -> Result<(), DiskFault> {
        let answer = self.site.read(file, at, into);
        self.faults.counted(self.site.noted(answer), DiskFault)
    }

    fn write(&mut self, file: u8, at: u64, bytes: &[u8]) -> Result<(), DiskFault> {
        let answer = self.site.write(file, at, bytes);
        self.faults.counted(self.site.noted(answer), DiskFault)
    }

    fn cut(&mut self, file: u8, size: u64) -> Result<(), DiskFault> {
        let answer = self.site.cut(file, size);
        self.faults.counted(self.site.noted(answer), DiskFault)
    }

    fn sync(&mut self, file: u8) -> Result<(), DiskFault> {
        let answer = self.site.sync(file);
        self.faults.counted(self.site.noted(answer), DiskFault)
    }
}
