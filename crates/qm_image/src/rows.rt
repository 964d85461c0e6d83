// The image of a system's rows.
ghost use Rattle.std.specs.Prelude.{◌≡◌, IfOk, OnOk, [], ◌∷◌, ◌++◌, ◌<◌, All, IsSome};
ghost use Rattle.qm_model.specs.Common.{ENTRIES_LIMIT, IsConsistent, file_named};
ghost use Rattle.qm_parts.specs.Tables.{with_tables};
ghost use Rattle.qm_tables.specs.Spool.{count_of};
ghost use Rattle.qm_tables.specs.SpoolCounts.{CountsOf};
ghost use Rattle.qm_image.specs.Image.{system_of};
ghost use Rattle.qm_image.specs.Restoring.{HasOwnRun, DifferInEntries, IsNamedOnceMore, HasTimerOf};
ghost use Rattle.qm_image.specs.Timers.{AreTimersOf};

use crate::image::Image;
use crate::moments::moment_in;
use qm_kinds::{Entry, Queue, Seq, System};
use qm_parts::{Parts, TableSet};
use qm_tables::{FormTable, QueueTable, Spool};
use std::alloc::{AllocError, Global};

fn copy_queues(alloc: Global, queues: &[Queue]) -> Result<Vec<Queue>, AllocError>
    ensures { IfOk result (λ copies. copies.items ≡ queues.now) }
{
    let mut copies = Vec::new(alloc);
    for queue in queues {
        copies.push(queue.copy(alloc)?)?;
    }
    Ok(copies)
}

// The tables of a system without its entries.
fn tables_of(alloc: Global, system: &System) -> Result<TableSet, AllocError>
    requires { IsConsistent system.now }
    ensures tables { IfOk result (λ tables. with_tables system.now tables ≡ record system.now { entries = [] }) }
    ensures timers { IfOk result (λ tables. tables.timers ≡ []) }
{
    let nodes = Seq::of(Vec::from_slice(alloc, system.nodes.as_slice())?);
    let forms = FormTable::of(
        alloc,
        system.forms.as_slice(),
        system.characteristics.as_slice(),
    )?;
    let queues = QueueTable::of(copy_queues(alloc, system.queues.as_slice())?);
    Ok(TableSet::new(alloc, nodes, forms, queues, system.next_run))
}

// Puts one entry more into tables, with the timer that it wants, and counts that it names its file.
fn restore_one(parts: &mut TableSet, spool: &mut Spool, entry: &Entry) -> Result<(), AllocError>
    requires there { IsSome (file_named entry.now.file spool.old.files) }
    requires few { count_of entry.now.file spool.old.counts < ENTRIES_LIMIT }
    requires last { All (λ e. e.number < entry.now.number) parts.old.entries }
    requires run { HasOwnRun parts.old entry.now }
    ensures entries { OnOk result (parts.new.entries ≡ parts.old.entries ++ entry.now ∷ []) }
    ensures tables { DifferInEntries parts.old parts.new }
    ensures files { spool.new ≡ record spool.old { counts = spool.new.counts } }
    ensures counts { OnOk result (IsNamedOnceMore entry.now.file spool.old.counts spool.new.counts) }
    ensures timers { OnOk result (HasTimerOf entry.now parts.old.timers parts.new.timers) }
{
    parts.reserve_timer()?;
    parts.reserve_entry()?;
    parts.reserve_runs(1)?;
    parts.set_timer(entry.number, moment_in(&entry.state));
    spool.enter(&entry.file);
    parts.restore_entry(*entry);
    Ok(())
}

// Puts the entries of a system into its tables, with the timers that they want, and counts which files they name.
fn restore_entries(
    parts: &mut TableSet,
    spool: &mut Spool,
    system: &System,
) -> Result<(), AllocError>
    requires consistent { IsConsistent system.now }
    requires tables { with_tables system.now parts.old ≡ record system.now { entries = [] } }
    requires files { spool.old.files ≡ system.now.files }
    requires unnamed { CountsOf [] spool.old.counts }
    requires untimed { AreTimersOf [] parts.old.timers }
    ensures tables { OnOk result (with_tables system.now parts.new ≡ system.now) }
    ensures files { spool.new.files ≡ spool.old.files }
    ensures counts { OnOk result (CountsOf parts.new.entries spool.new.counts) }
    ensures timers { OnOk result (AreTimersOf parts.new.entries parts.new.timers) }
{
    for entry in system.entries.as_slice() {
        restore_one(parts, spool, entry)?;
    }
    Ok(())
}

// The tables of a system, of whose files it is counted which entries name them. (Each large value that is alive where a call may
// fail makes the proof longer: so the tables don't stand beside the other parts of an image until nothing of them can fail, and
// they go by a call.)
fn parts_of(alloc: Global, spool: &mut Spool, system: &System) -> Result<Parts, AllocError>
    requires consistent { IsConsistent system.now }
    requires files { spool.old.files ≡ system.now.files }
    requires unnamed { CountsOf [] spool.old.counts }
    ensures tables { IfOk result (λ parts. with_tables system.now parts ≡ system.now) }
    ensures files { spool.new.files ≡ spool.old.files }
    ensures counts { IfOk result (λ parts. CountsOf parts.entries spool.new.counts) }
    ensures timers { IfOk result (λ parts. AreTimersOf parts.entries parts.timers) }
{
    let mut tables = tables_of(alloc, system)?;
    match restore_entries(&mut tables, spool, system) {
        Ok(()) => Parts::of(alloc, tables),
        Err(AllocError) => {
            drop(tables);
            Err(AllocError)
        }
    }
}

// The number of the next entry.
fn next_number(system: &System) -> u32
    ensures { result ≡ system.now.next_entry }
{
    system.next_entry
}

impl Image {
    /// The image of a system. Where there is no memory for it, there is none.
    #[tactic(auto, unfolding(crate::specs::Image::system_of))]
    pub fn from_rows(alloc: Global, system: &System) -> Result<Image, AllocError>
        requires { IsConsistent system.now }
        ensures { IfOk result (λ image. system_of image ≡ system.now) }
    {
        let may = Seq::of(Vec::from_slice(alloc, system.may.as_slice())?);
        let mut spool = Spool::from_files(alloc, system.files.as_slice())?;
        match parts_of(alloc, &mut spool, system) {
            Ok(parts) => Ok(Image {
                alloc,
                parts,
                spool,
                may,
                next_entry: next_number(system),
                last: system.last,
            }),
            Err(AllocError) => Err(AllocError),
        }
    }
}
