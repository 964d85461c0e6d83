// One device with three files: what they read, and what a crash may leave of them.
ghost use Rattle.std.specs.Prelude.{◌≡◌, ◌+◌, ◌≤◌, ℕ, List, IsTrue, IsErr, length, take, drop, IfOk, OnOk};
ghost use Rattle.qm_disk.specs.Disk.{Meaning, CrashState, Only, Follows, Torn, Cut, spliced, IsLeft, KeepsOthers, KeepsAll, Elapses, TellsFaults};

use thiserror::Error;

/// The device failed at a call. Its count of faults has risen.
#[derive(Clone, Copy, Debug, PartialEq, Eq, Error)]
#[error("the disk failed")]
pub struct DiskFault;

/// One device with three files, which are named 0, 1 and 2. Places and sizes are in bytes.
///
/// Between two syncs of a file each range written, and all past its old end, may hold any bytes after a
/// crash, and what was cut off may be there, with any bytes, or not. Other bytes stay. After a sync that
/// held, a crash leaves what a read gives. A crash leaves one state of the whole device, which has of each
/// file one of its contents, chosen file by file.
///
/// At a fault of a write or a cut nothing more is said of the file than what a crash may leave: what it then
/// reads is one of these.
pub trait Disk {
    /// What the calls speak of: what the files read, what a crash may leave of them, and how many calls failed.
    ghost meaning: { Meaning Self };

    /// The size of a file.
    fn size(&mut self, file: u8) -> Result<u64, DiskFault>
        requires { file ≤ 2 }
        ensures size { IfOk result (λ size. IsTrue meaning.tells → size ≡ length (meaning.seen self.old file)) }
        ensures kept { KeepsAll meaning self.old self.new }
        ensures time { Elapses meaning self.old self.new }
        ensures faults { TellsFaults meaning self.old self.new (IsErr result) };

    /// Reads the bytes from a place on, which lie within the file, into the whole of `into`.
    fn read(&mut self, file: u8, at: u64, into: &mut [u8]) -> Result<(), DiskFault>
        requires file { file ≤ 2 }
        requires within { IsTrue meaning.tells → at + length into.old ≤ length (meaning.seen self.old file) }
        ensures bytes { OnOk result (IsTrue meaning.tells
            → into.new ≡ take (length into.old) (drop at (meaning.seen self.old file))) }
        ensures kept { KeepsAll meaning self.old self.new }
        ensures time { Elapses meaning self.old self.new }
        ensures faults { TellsFaults meaning self.old self.new (IsErr result) };

    /// Writes over what is there, and past the end. The place isn't past the end.
    fn write(&mut self, file: u8, at: u64, bytes: &[u8]) -> Result<(), DiskFault>
        requires file { file ≤ 2 }
        requires place { IsTrue meaning.tells → at ≤ length (meaning.seen self.old file) }
        ensures written { OnOk result (IsTrue meaning.tells
            → meaning.seen self.new file ≡ spliced at bytes.now (meaning.seen self.old file)) }
        ensures crash { Follows (Torn at (length bytes.now))
            (meaning.may_leave self.old file) (meaning.may_leave self.new file) }
        ensures others { KeepsOthers meaning file self.old self.new }
        ensures time { Elapses meaning self.old self.new }
        ensures faults { TellsFaults meaning self.old self.new (IsErr result) };

    /// Cuts the file to a size, which isn't above its own.
    fn cut(&mut self, file: u8, size: u64) -> Result<(), DiskFault>
        requires file { file ≤ 2 }
        requires size { IsTrue meaning.tells → size ≤ length (meaning.seen self.old file) }
        ensures cut { OnOk result (IsTrue meaning.tells
            → meaning.seen self.new file ≡ take size (meaning.seen self.old file)) }
        ensures crash { Follows (Cut size) (meaning.may_leave self.old file) (meaning.may_leave self.new file) }
        ensures others { KeepsOthers meaning file self.old self.new }
        ensures time { Elapses meaning self.old self.new }
        ensures faults { TellsFaults meaning self.old self.new (IsErr result) };

    /// After it a crash leaves of the file what a read gives.
    fn sync(&mut self, file: u8) -> Result<(), DiskFault>
        requires { file ≤ 2 }
        ensures durable { OnOk result (IsTrue meaning.tells
            → Only (meaning.seen self.new file) (meaning.may_leave self.new file)) }
        ensures reads { meaning.seen self.new file ≡ meaning.seen self.old file }
        ensures crash { (c : List ℕ) → meaning.may_leave self.new file c → meaning.may_leave self.old file c }
        ensures others { KeepsOthers meaning file self.old self.new }
        ensures time { Elapses meaning self.old self.new }
        ensures faults { TellsFaults meaning self.old self.new (IsErr result) };

    /// A crash may leave what the files read.
    ghost reads_a_crash_state: { (disk : Self) (f : ℕ) → IsTrue meaning.tells → f ≤ 2 → meaning.may_leave disk f (meaning.seen disk f) };

    /// This moment is one of those since an earlier one.
    ghost counts_now: { (disk : Self) (t : ℕ) (crashed : CrashState) → t ≤ meaning.moment disk → IsLeft (meaning.may_leave disk) crashed → meaning.left_since disk t crashed };

    /// Since this moment there is no other.
    ghost only_now: { (disk : Self) (crashed : CrashState) → meaning.left_since disk (meaning.moment disk) crashed → IsLeft (meaning.may_leave disk) crashed };
}
