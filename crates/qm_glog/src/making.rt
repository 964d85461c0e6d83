// How a log is made.
ghost use Rattle.std.specs.Prelude.{◌≡◌, ◌+◌, ◌<◌, ◌≤◌, ◌^◌, [], ◌∷◌, ◌++◌, IsTrue, IsErr, length, IfOk, OnOk, IsErrOf};
ghost use Rattle.qm_disk.specs.Disk.{ChangesOnly, TellsFaults};
ghost use Rattle.qm_glog.specs.Records.{behind_gate, text as text_for, size_of};
ghost use Rattle.qm_glog.specs.Bodies.{contents, list_of};
ghost use Rattle.qm_glog.specs.Log.{bodies_of, IsAsLeft, StandsIn};

use crate::MakeFault;
use crate::bodies::Bodies;
use crate::log::Log;
use crate::through::replace;
use qm_disk::{Disk, DiskFault};
use qm_kinds::GREATEST_CAP;
use std::alloc::{AllocError, Global};

// Adds an open record to the text of a file.
#[tactic(auto, unfolding(crate::specs::Records::behind_gate))]
fn add_record(text: &mut Vec<u8>, body: &[u8]) -> Result<(), AllocError>
    requires { length body.now < 2 ^ 32 }
    ensures { OnOk result (text.new.items ≡ text.old.items ++ 1 ∷ behind_gate body.now) }
{
    let length = body.len() as u32;
    text.extend_from_slice(&[1])?;
    text.extend_from_slice(&length.to_le_bytes())?;
    text.extend_from_slice(body)
}

// Open records of these bodies.
fn records_text(alloc: Global, rows: &[Vec<u8>]) -> Result<Vec<u8>, AllocError>
    requires { size_of (contents rows.now) < 2 ^ 32 }
    ensures { IfOk result (λ text. text.items ≡ text_for (contents rows.now)) }
{
    let mut text = Vec::new(alloc);
    for row in rows {
        add_record(&mut text, row)?;
    }
    Ok(text)
}

// The same bodies as a log keeps them.
fn collect(alloc: Global, rows: &[Vec<u8>]) -> Result<Bodies, AllocError>
    ensures { IfOk result (λ bodies. list_of bodies ≡ contents rows.now) }
{
    let mut bodies = Bodies::new(alloc);
    for row in rows {
        bodies.push(row)?;
    }
    Ok(bodies)
}

/// Makes an empty log with the greatest cap in a file, whatever it holds, by three calls on the disk. It takes no
/// memory. At its fault, and at a crash before `Ok`, the file may hold anything.
pub fn format<D: Disk>(alloc: Global, disk: &mut D, file: u8) -> Result<Log, DiskFault>
    requires { file ≤ 2 }
    ensures empty { IfOk result (λ log. bodies_of log ≡ []) }
    ensures place { IfOk result (StandsIn file GREATEST_CAP) }
    ensures left { IfOk result (λ log. IsTrue D.meaning.tells → IsAsLeft D.meaning log disk.new) }
    ensures written { OnOk result (IsTrue D.meaning.tells → D.meaning.seen disk.new file ≡ 0 ∷ []) }
    ensures changes { ChangesOnly D.meaning file disk.old disk.new }
    ensures faults { TellsFaults D.meaning disk.old disk.new (IsErr result) }
{
    replace(disk, file, &[0])?;
    Ok(Log::of(alloc, file, GREATEST_CAP, Bodies::new(alloc), 0))
}

/// Makes a log of these records, which fit under its cap, in a file, whatever it holds, by three calls on the disk.
/// All memory is taken before the first. At `Disk`, and at a crash before `Ok`, the file may hold anything.
pub fn create<D: Disk>(
    alloc: Global,
    disk: &mut D,
    file: u8,
    cap: u64,
    rows: &[Vec<u8>],
) -> Result<Log, MakeFault>
    requires file { file ≤ 2 }
    requires cap { cap ≤ GREATEST_CAP }
    requires room { size_of (contents rows.now) + 1 ≤ cap }

    ensures records { IfOk result (λ log. bodies_of log ≡ contents rows.now) }
    ensures place { IfOk result (StandsIn file cap) }
    ensures left { IfOk result (λ log. IsTrue D.meaning.tells → IsAsLeft D.meaning log disk.new) }
    ensures written { OnOk result (IsTrue D.meaning.tells
        → D.meaning.seen disk.new file ≡ text_for (contents rows.now) ++ 0 ∷ []) }
    ensures changes { ChangesOnly D.meaning file disk.old disk.new }
    ensures unchanged { IsErrOf result MakeFault.NoMemory → disk.new ≡ disk.old }
    ensures faults { TellsFaults D.meaning disk.old disk.new (IsErrOf result MakeFault.Disk) }
{
    let bodies = collect(alloc, rows)?;
    let mut text = records_text(alloc, rows)?;
    let end = text.len() as u64;
    text.extend_from_slice(&[0])?;
    replace(disk, file, &text)?;
    Ok(Log::of(alloc, file, cap, bodies, end))
}
