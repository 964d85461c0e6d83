// A disk in memory. It keeps a record of its calls, so that a crash may leave of it all that the contract allows.
ghost use Rattle.std.specs.Prelude.{◌≡◌, ◌⊎◌, ◌↔◌, ◌+◌, ◌≤◌, Contains, List, drop, IsErr, ◌++◌, ◌∷◌, [], ℕ, true, false, if◌then◌else◌, is_ok, length, take, IfOk, OnOk, OnErr};
ghost use Rattle.qm_disk.specs.Disk.{spliced, Only, IsLeft, Follows, Torn, Cut, KeepsAll, KeepsOthers, Elapses, TellsFaults};
ghost use Rattle.qm_disk.specs.Calls.{reading, reading_of, first_of, replayed, LeftOf, LeftSince, IsWrite, IsTruncate, Notes, Syncs, ReadsOthers, padded, part, crash_changed, crashed, changed as after_change};
ghost use Rattle.qm_disk.specs.declared.calls.Change.TheVariants.{Look};
ghost use Rattle.qm_disk.specs.Faults.{counted};
ghost use Rattle.qm_disk.specs.Crash.{left_now, left_only_now, reads_left};

use crate::calls::{Call, Change};
use crate::{Disk, DiskFault, Faults};
use std::alloc::{AllocError, Global};

/// A disk in memory, which fails at the calls that a list names.
#[derive(Drop)]
pub struct MemoryDisk {
    alloc: Global,
    /// What the files held at the making.
    first: [Vec<u8>; 3],
    /// What a file reads, where it was changed.
    changed: [Option<Vec<u8>>; 3],
    /// The calls, the oldest first.
    calls: Vec<Call>,
    /// How many calls were made.
    made: u64,
    /// The numbers of the calls that fail.
    fail: Vec<u64>,
    faults: Faults,
    ghost replays: { (f : ℕ) → f ≤ 2 → reading_of first changed f ≡ replayed f calls.items (first_of first f) },
}

impl MemoryDisk {
    ghost use Rattle.qm_disk.specs.Memory.{held_of, left_of, in_memory, made_of, fail_of, crash_of};

    /// A disk whose files hold these bytes, all of them on the disk. Calls are numbered from 1 over all three
    /// files, and those whose number stands in `fail` fail. Another call fails where memory runs out. Each of
    /// both counts as a fault.
    pub fn new(alloc: Global, master: Vec<u8>, one: Vec<u8>, two: Vec<u8>, fail: Vec<u64>) -> Self
        ensures master { held_of result 0 ≡ master.items }
        ensures one { held_of result 1 ≡ one.items }
        ensures two { held_of result 2 ≡ two.items }
        ensures durable { (f : ℕ) → f ≤ 2 → Only (held_of result f) (left_of result f) }
        ensures made { made_of result ≡ 0 }
        ensures faults { in_memory.faults result ≡ 0 }
        ensures listed { fail_of result ≡ fail.items }
    {
        MemoryDisk {
            alloc,
            first: [master, one, two],
            changed: [None, None, None],
            calls: Vec::new(alloc),
            made: 0,
            fail,
            faults: Faults::new(),
        }
    }

    /// The disk that a crash leaves, which fails at no listed call. It has of each file its content at its last
    /// sync that held, or at the making, and by `pick` of what came later: 0 nothing; 1 all writes and cuts, one
    /// that failed by the list included; 2 the same, but of each write the first half alone, rounded down. A gap
    /// has bytes 0, and a cut to more than is there changes nothing. Fails where memory runs out.
    pub fn after_crash(&self, pick: u8) -> Result<MemoryDisk, AllocError>
        requires { pick ≤ 2 }
        ensures kept { IfOk result (λ disk. (f : ℕ) → f ≤ 2 → held_of disk f ≡ crash_of self.now pick f) }
        ensures allowed { IfOk result (λ disk. IsLeft (left_of self.now) (held_of disk)) }
        ensures durable { IfOk result (λ disk. (f : ℕ) → f ≤ 2 → Only (held_of disk f) (left_of disk f)) }
        ensures unlisted { IfOk result (λ disk. fail_of disk ≡ []) }
        ensures faults { IfOk result (λ disk. in_memory.faults disk ≡ 0) }
    {
        let master = self.crash_file(0, pick)?;
        let one = self.crash_file(1, pick)?;
        let two = self.crash_file(2, pick)?;
        Ok(MemoryDisk::new(self.alloc, master, one, two, Vec::new(self.alloc)))
    }

    // What the crash leaves of one file.
    fn crash_file(&self, file: u8, pick: u8) -> Result<Vec<u8>, AllocError>
        requires { file ≤ 2 }
        ensures { IfOk result (λ kept. kept.items ≡ crash_of self.now pick file) }
    {
        let i = file as usize;
        kept_at_crash(self.alloc, &self.first[i], &self.calls, file, pick)
    }

    /// What a file holds.
    pub fn held(&self, file: u8) -> &[u8]
        requires { file ≤ 2 }
        ensures { result.now ≡ held_of self.now file }
    {
        let i = file as usize;
        bytes_of(&self.first[i], &self.changed[i])
    }
}

// Writes bytes at any place; a gap has bytes 0.
fn splice_padded(content: &mut Vec<u8>, at: usize, bytes: &[u8]) -> Result<(), AllocError>
    ensures { OnOk result (content.new.items ≡ spliced at bytes.now (padded at content.old.items)) }
{
    if at > content.len() {
        content.resize(at, 0)?;
    }
    splice(content, at, bytes)
}

// How many of so many bytes a write leaves in a crash of this kind.
fn part_of(pick: u8, count: usize) -> usize
    ensures value { result ≡ part pick count }
    ensures within { result ≤ count }
{
    if pick == 1 { count } else { count / 2 }
}

// What a change makes of what the file reads, and of what a crash of this kind keeps.
fn replay(
    change: &Change,
    pick: u8,
    content: &mut Vec<u8>,
    kept: &mut Vec<u8>,
) -> Result<(), AllocError>
    ensures content { OnOk result (content.new.items ≡ after_change change.now content.old.items) }
    ensures kept { OnOk result (kept.new.items ≡ crash_changed pick change.now content.old.items kept.old.items) }
{
    match change {
        Change::Look => Ok(()),
        Change::Write { at, bytes, held } => {
            if pick != 0 {
                let left = part_of(pick, bytes.len());
                splice_padded(kept, *at as usize, &bytes[..left])?;
            }
            if *held {
                splice_padded(content, *at as usize, bytes)?;
            }
            Ok(())
        }
        Change::Truncate { size, held } => {
            if pick != 0 {
                kept.truncate(*size as usize);
            }
            if *held {
                content.truncate(*size as usize);
            }
            Ok(())
        }
        Change::Sync { held } => {
            if *held {
                kept.clear();
                kept.extend_from_slice(content)?;
            }
            Ok(())
        }
    }
}

// What a crash of this kind leaves of a file.
fn kept_at_crash(
    alloc: Global,
    first: &Vec<u8>,
    calls: &[Call],
    file: u8,
    pick: u8,
) -> Result<Vec<u8>, AllocError>
    ensures { IfOk result (λ kept. kept.items ≡ crashed pick file calls.now first.now.items first.now.items) }
{
    let mut content = first.to_vec(alloc)?;
    let mut kept = first.to_vec(alloc)?;
    for call in calls {
        if call.file == file {
            replay(&call.change, pick, &mut content, &mut kept)?;
        }
    }
    Ok(kept)
}

fn bytes_of<'a>(first: &'a Vec<u8>, changed: &'a Option<Vec<u8>>) -> &'a [u8]
    ensures { result.now ≡ reading first.now.items changed.now }
{
    match changed {
        None => first,
        Some(bytes) => bytes,
    }
}

// Takes the bytes out, to be changed: a copy of the first ones, where there are no others.
fn taken(
    alloc: Global,
    first: &Vec<u8>,
    changed: &mut Option<Vec<u8>>,
) -> Result<Vec<u8>, AllocError>
    ensures ok { IfOk result (λ bytes. bytes.items ≡ reading first.now.items changed.old) }
    ensures err { OnErr result (changed.new ≡ changed.old) }
{
    match changed.take() {
        None => first.to_vec(alloc),
        Some(bytes) => Ok(bytes),
    }
}

// Writes bytes at a place that isn't past the end.
fn splice(content: &mut Vec<u8>, at: usize, bytes: &[u8]) -> Result<(), AllocError>
    requires { at ≤ length content.old.items }
    ensures ok { OnOk result (content.new.items ≡ spliced at bytes.now content.old.items) }
    ensures err { OnErr result (content.new.items ≡ content.old.items) }
{
    let covered = (content.len() - at).min(bytes.len());
    content.extend_from_slice(&bytes[covered..])?;
    content[at..at + covered].copy_from_slice(&bytes[..covered]);
    Ok(())
}

// Writes over a file, unless the call is to fail. Says whether it held.
fn overwrite(
    alloc: Global,
    first: &Vec<u8>,
    changed: &mut Option<Vec<u8>>,
    at: usize,
    bytes: &[u8],
    may: bool,
) -> bool
    requires { at ≤ length (reading first.now.items changed.old) }
    ensures refused { may ≡ false → result ≡ false }
    ensures reads { reading first.now.items changed.new
        ≡ (if result then spliced at bytes.now (reading first.now.items changed.old) else reading first.now.items changed.old) }
{
    if !may {
        return false;
    }
    let Ok(mut content) = taken(alloc, first, changed) else {
        return false;
    };
    let held = splice(&mut content, at, bytes).is_ok();
    *changed = Some(content);
    held
}

// Cuts a file, unless the call is to fail. Says whether it held.
fn shorten(
    alloc: Global,
    first: &Vec<u8>,
    changed: &mut Option<Vec<u8>>,
    size: usize,
    may: bool,
) -> bool
    ensures refused { may ≡ false → result ≡ false }
    ensures reads { reading first.now.items changed.new
        ≡ (if result then take size (reading first.now.items changed.old) else reading first.now.items changed.old) }
{
    if !may {
        return false;
    }
    let Ok(mut content) = taken(alloc, first, changed) else {
        return false;
    };
    content.truncate(size);
    *changed = Some(content);
    true
}

// Counts a call, and says whether it may be made: its number doesn't stand in the list.
fn next_call(made: &mut u64, fail: &[u64]) -> bool
    ensures made { made.new ≡ counted made.old }
    ensures listed { Contains fail.now made.new ↔ (result ≡ false) }
{
    *made = made.saturating_add(1);
    !fail.contains(made)
}

// Whether a call that is on record holds.
fn outcome_of(held: bool) -> Result<(), AllocError>
    ensures { is_ok result ≡ held }
{
    if held { Ok(()) } else { Err(AllocError) }
}

// The same for a file of three.
fn overwrite_file(
    alloc: Global,
    first: &[Vec<u8>; 3],
    changed: &mut [Option<Vec<u8>>; 3],
    file: u8,
    at: u64,
    bytes: &[u8],
    may: bool,
) -> bool
    requires file { file ≤ 2 }
    requires place { at ≤ length (reading_of first.now changed.old file) }
    ensures refused { may ≡ false → result ≡ false }
    ensures here { reading_of first.now changed.new file
        ≡ (if result then spliced at bytes.now (reading_of first.now changed.old file) else reading_of first.now changed.old file) }
    ensures others { ReadsOthers file first.now changed.old changed.new }
{
    let i = file as usize;
    overwrite(alloc, &first[i], &mut changed[i], at as usize, bytes, may)
}

fn note_write(
    alloc: Global,
    calls: &mut Vec<Call>,
    first: &[Vec<u8>; 3],
    changed: &mut [Option<Vec<u8>>; 3],
    file: u8,
    at: u64,
    bytes: &[u8],
    may: bool,
) -> Result<(), AllocError>
    requires file { file ≤ 2 }
    requires place { at ≤ length (reading_of first.now changed.old file) }
    ensures notes { Notes (IsWrite at bytes.now) file calls.old.items calls.new.items
        (reading_of first.now changed.old file) (reading_of first.now changed.new file) }
    ensures others { ReadsOthers file first.now changed.old changed.new }
    ensures refused { may ≡ false → IsErr result }
    ensures ok { OnOk result (reading_of first.now changed.new file
        ≡ spliced at bytes.now (reading_of first.now changed.old file)) }
{
    let copy = bytes.to_vec(alloc)?;
    calls.reserve(1)?;
    let held = overwrite_file(alloc, first, changed, file, at, bytes, may);
    let change = Change::Write {
        at,
        bytes: copy,
        held,
    };
    calls.push_reserved(Call { file, change });
    outcome_of(held)
}

fn note_truncate(
    alloc: Global,
    calls: &mut Vec<Call>,
    first: &[Vec<u8>; 3],
    changed: &mut [Option<Vec<u8>>; 3],
    file: u8,
    size: u64,
    may: bool,
) -> Result<(), AllocError>
    requires { file ≤ 2 }
    ensures notes { Notes (IsTruncate size) file calls.old.items calls.new.items
        (reading_of first.now changed.old file) (reading_of first.now changed.new file) }
    ensures others { ReadsOthers file first.now changed.old changed.new }
    ensures refused { may ≡ false → IsErr result }
    ensures ok { OnOk result (reading_of first.now changed.new file
        ≡ take size (reading_of first.now changed.old file)) }
{
    calls.reserve(1)?;
    let i = file as usize;
    let held = shorten(alloc, &first[i], &mut changed[i], size as usize, may);
    let change = Change::Truncate { size, held };
    calls.push_reserved(Call { file, change });
    outcome_of(held)
}

fn note_sync(calls: &mut Vec<Call>, file: u8, held: bool) -> Result<(), AllocError>
    ensures refused { held ≡ false → IsErr result }
    ensures syncs { Syncs file (is_ok result) calls.old.items calls.new.items }
{
    let change = Change::Sync { held };
    calls.push(Call { file, change })?;
    outcome_of(held)
}

fn note_look(calls: &mut Vec<Call>, file: u8, held: bool) -> Result<(), AllocError>
    ensures refused { held ≡ false → IsErr result }
    ensures notes { (calls.new.items ≡ calls.old.items)
        ⊎ (calls.new.items ≡ calls.old.items ++ record { file = file; change = Look } ∷ []) }
{
    let change = Change::Look;
    calls.push(Call { file, change })?;
    outcome_of(held)
}

impl Disk for MemoryDisk {
    ghost use Rattle.qm_disk.specs.Memory.{held_of, left_of, in_memory, TakesNumber};

    ghost meaning = { in_memory };

    ghost reads_a_crash_state = { λ m f told le. reads_left m.first m.changed m.calls.items f (m.replays f le) };

    ghost counts_now = { λ m t crashed le left. left_now m.first m.calls.items t crashed le left };

    ghost only_now = { λ m crashed left. left_only_now m.first m.calls.items crashed left };

    fn size(&mut self, file: u8) -> Result<u64, DiskFault>
        requires { file ≤ 2 }
        ensures size { IfOk result (λ size. size ≡ length (held_of self.old file)) }
        ensures kept { KeepsAll in_memory self.old self.new }
        ensures time { Elapses in_memory self.old self.new }
        ensures faults { TellsFaults in_memory self.old self.new (IsErr result) }
        ensures number { TakesNumber self.old self.new result }
    {
        let may = next_call(&mut self.made, self.fail.as_slice());
        self.faults
            .counted(note_look(&mut self.calls, file, may), DiskFault)?;
        Ok(self.held(file).len() as u64)
    }

    fn read(&mut self, file: u8, at: u64, into: &mut [u8]) -> Result<(), DiskFault>
        requires file { file ≤ 2 }
        requires within { at + length into.old ≤ length (held_of self.old file) }
        ensures bytes { OnOk result (into.new ≡ take (length into.old) (drop at (held_of self.old file))) }
        ensures kept { KeepsAll in_memory self.old self.new }
        ensures time { Elapses in_memory self.old self.new }
        ensures faults { TellsFaults in_memory self.old self.new (IsErr result) }
        ensures number { TakesNumber self.old self.new result }
    {
        let may = next_call(&mut self.made, self.fail.as_slice());
        self.faults
            .counted(note_look(&mut self.calls, file, may), DiskFault)?;
        let from = at as usize;
        into.copy_from_slice(&self.held(file)[from..from + into.len()]);
        Ok(())
    }

    fn write(&mut self, file: u8, at: u64, bytes: &[u8]) -> Result<(), DiskFault>
        requires file { file ≤ 2 }
        requires place { at ≤ length (held_of self.old file) }
        ensures written { OnOk result (held_of self.new file ≡ spliced at bytes.now (held_of self.old file)) }
        ensures crash { Follows (Torn at (length bytes.now)) (left_of self.old file) (left_of self.new file) }
        ensures others { KeepsOthers in_memory file self.old self.new }
        ensures time { Elapses in_memory self.old self.new }
        ensures faults { TellsFaults in_memory self.old self.new (IsErr result) }
        ensures number { TakesNumber self.old self.new result }
    {
        let may = next_call(&mut self.made, self.fail.as_slice());
        let outcome = note_write(
            self.alloc,
            &mut self.calls,
            &self.first,
            &mut self.changed,
            file,
            at,
            bytes,
            may,
        );
        self.faults.counted(outcome, DiskFault)
    }

    fn cut(&mut self, file: u8, size: u64) -> Result<(), DiskFault>
        requires file { file ≤ 2 }
        requires size { size ≤ length (held_of self.old file) }
        ensures cut { OnOk result (held_of self.new file ≡ take size (held_of self.old file)) }
        ensures crash { Follows (Cut size) (left_of self.old file) (left_of self.new file) }
        ensures others { KeepsOthers in_memory file self.old self.new }
        ensures time { Elapses in_memory self.old self.new }
        ensures faults { TellsFaults in_memory self.old self.new (IsErr result) }
        ensures number { TakesNumber self.old self.new result }
    {
        let may = next_call(&mut self.made, self.fail.as_slice());
        let outcome = note_truncate(
            self.alloc,
            &mut self.calls,
            &self.first,
            &mut self.changed,
            file,
            size,
            may,
        );
        self.faults.counted(outcome, DiskFault)
    }

    fn sync(&mut self, file: u8) -> Result<(), DiskFault>
        requires { file ≤ 2 }
        ensures durable { OnOk result (Only (held_of self.new file) (left_of self.new file)) }
        ensures reads { held_of self.new file ≡ held_of self.old file }
        ensures crash { (c : List ℕ) → left_of self.new file c → left_of self.old file c }
        ensures others { KeepsOthers in_memory file self.old self.new }
        ensures time { Elapses in_memory self.old self.new }
        ensures faults { TellsFaults in_memory self.old self.new (IsErr result) }
        ensures number { TakesNumber self.old self.new result }
    {
        let may = next_call(&mut self.made, self.fail.as_slice());
        self.faults
            .counted(note_sync(&mut self.calls, file, may), DiskFault)
    }
}
