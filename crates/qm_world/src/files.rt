// Worlds, and the records of queue files.
ghost use Rattle.std.specs.Prelude.{◌≡◌, ◌++◌, length, map, option_to_list, IfOk, IfErr, All};
ghost use Rattle.qm_history.specs.Common.{Spells, system_of, HasSpelling, record_text, first_world, IsSound};
ghost use Rattle.qm_restore.specs.Restoring.{Judges};
ghost use Rattle.qm_world.specs.Texts.{texts, AreOfSite};

use qm_history::{World, programs_begin_sound};
use qm_kinds::{Record, Seq};
use qm_record::{no_record_begins_another, read_record, write_record};
use qm_restore::{Bodies, RestoreFault, restore, site_files_are_accepted};
use std::alloc::{AllocError, Global};

// The record that bytes spell.
fn read(alloc: Global, text: &[u8]) -> Result<Record, AllocError>
    ensures { IfOk result (λ r. Spells HasSpelling record_text r text.now) }
{
    match read_record(alloc, text) {
        Ok(record) => Ok(record),
        Err(_) => Err(AllocError),
    }
}

// The records of a queue file.
fn read_log<B: Bodies>(alloc: Global, file: &B) -> Result<Vec<Record>, AllocError>
    ensures spelled { IfOk result (λ log. All HasSpelling log.items) }
    ensures texts { IfOk result (λ log. B.bodies file.now ≡ map record_text log.items) }
{
    let mut log = Vec::new(alloc);
    for index in 0..file.count() {
        log.push(read(alloc, file.body(index))?)?;
    }
    Ok(log)
}

// How many nodes the site has whose queue file this is.
fn count_nodes<B: Bodies>(alloc: Global, file: &B) -> Result<usize, RestoreFault>
    ensures site { IfOk result (AreOfSite (B.bodies file.now)) }
    ensures judged { IfErr result (Judges (B.bodies file.now)) }
{
    let image = restore(alloc, file)?;
    let count = image.nodes().len();
    drop(image);
    Ok(count)
}

// The world of a log in which each node is live, and none was manager.
fn begin(alloc: Global, log: Vec<Record>, nodes: usize, epoch: u64) -> Result<World, AllocError>
    requires { nodes ≡ length (system_of log.items).nodes }
    ensures { IfOk result (λ world. world ≡ first_world log.items epoch) }
{
    let live = vec![in alloc; true; nodes]?;
    let held = vec![in alloc; 0; nodes]?;
    Ok(World {
        log: Seq::of(log),
        doubt: None,
        manager: None,
        greatest: epoch,
        live: Seq::of(live),
        held: Seq::of(held),
    })
}

/// The world with which a program begins on a queue file that is live, where this is the greatest recorded epoch: each node of the
/// site is live, and none is manager. Where the file is that of no site, the first record that can't stand there.
pub fn first_world<B: Bodies>(alloc: Global, file: &B, epoch: u64) -> Result<World, RestoreFault>
    ensures texts { IfOk result (λ world. B.bodies file.now ≡ map record_text world.log) }
    ensures first { IfOk result (λ world. world ≡ first_world world.log epoch) }
    ensures sound { IfOk result IsSound }
    ensures judged { IfErr result (Judges (B.bodies file.now)) }
{
    site_files_are_accepted();
    no_record_begins_another();
    programs_begin_sound();
    let nodes = count_nodes(alloc, file)?;
    let log = read_log(alloc, file)?;
    Ok(begin(alloc, log, nodes, epoch)?)
}

// The spellings of records.
fn spell_log(alloc: Global, log: &[Record]) -> Result<Vec<Vec<u8>>, AllocError>
    requires { All HasSpelling log.now }
    ensures { IfOk result (λ spelled. texts spelled.items ≡ map record_text log.now) }
{
    let mut spelled = Vec::new(alloc);
    for record in log {
        spelled.push(write_record(alloc, record)?)?;
    }
    Ok(spelled)
}

/// The records of a sound world's log as a queue file has them, and behind them the one that is in doubt.
pub fn texts_of(alloc: Global, world: &World) -> Result<Vec<Vec<u8>>, AllocError>
    requires { IsSound world.now }
    ensures { IfOk result (λ spelled. texts spelled.items
        ≡ map record_text (world.now.log ++ option_to_list world.now.doubt)) }
{
    let mut spelled = spell_log(alloc, world.log.as_slice())?;
    if let Some(record) = &world.doubt {
        spelled.push(write_record(alloc, record)?)?;
    }
    Ok(spelled)
}
