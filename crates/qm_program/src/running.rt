// A script is read, the site is opened for its lines, and these are served there: by one thread in their order, or those of each node
// by a thread of its own.
ghost use Rattle.std.specs.Prelude.{◌≡◌, ◌≤◌, ℕ, List, Option, IfErr, IfOk, IsTrue, None, Ok, Some, length, map};
ghost use Rattle.qm_acting.specs.Spare.{KeepsSpare};
ghost use Rattle.qm_node.specs.Sides.{side_of};
ghost use Rattle.qm_history.specs.Common.{script_lines, NODES_LIMIT};
ghost use Rattle.qm_script.specs.ClusterLines.{user_lines_view};
ghost use Rattle.qm_cluster.specs.Ends.{serving_end};
ghost use Rattle.qm_chest.specs.Opening.{IsOpened};
ghost use Rattle.qm_serving.specs.Serving.{outside, Serves};
ghost use Rattle.qm_chest.specs.At.{chest_names};
ghost use Rattle.qm_serving.specs.ClusterServing.{ServesAtOnce};
ghost use Rattle.qm_program.specs.Causes.{HasCause, counts};
ghost use Rattle.qm_program.specs.Ends.{EndsUnopened, EndsUnserved, end_of_lines, end_of_opening, end_of_reading, end_of_serving, status_of};
ghost use Rattle.qm_program.specs.Reading.{Reads};
ghost use Rattle.qm_program.specs.Running.{EndsBehind, RunsAtOnce, RunsTo};

use crate::outcome::{End, Outcome};
use crate::serving::{AtOnce, InOrder, Way};
use qm_chest::Chest;
use qm_cluster::ServeEnd;
use qm_disk::{Clock, Disk, ReadEnd, Sink, Source, read_whole};
use qm_kinds::{ScriptKind, TEXT_LIMIT};
use qm_node::Station;
use qm_script::{LinesEnd, UserLine, a_script_has_a_limit, read_lines};
use qm_serving::{Served, serve_by_each, serve_by_one};
use qm_store::LoadFault;
use qm_symb::Symbiont;
use std::alloc::Global;
use std::marker::{Send, Sync};
use std::sync::Wait;
use std::thread::Threads;

impl From<ServeEnd> for End {
    ghost from_gives = { λ fault end. end ≡ end_of_serving (serving_end fault) };

    fn from(end: ServeEnd) -> End {
        match end {
            ServeEnd::Served => End::Ok,
            ServeEnd::DiskFailed => End::Journal,
            ServeEnd::SinkFailed => End::Write,
            ServeEnd::HistoryFull => End::HistoryFull,
            ServeEnd::Damaged { file, place } => End::Damaged { file, place },
            ServeEnd::NoMemory => End::NoMemory,
        }
    }
}

impl From<LinesEnd> for End {
    ghost from_gives = { λ fault end. end ≡ end_of_lines fault };

    fn from(end: LinesEnd) -> End {
        match end {
            LinesEnd::Fault { line, kind } => End::Script { line, kind },
            LinesEnd::NoMemory => End::NoMemory,
        }
    }
}

impl From<ReadEnd> for End {
    ghost from_gives = { λ fault end. end ≡ end_of_reading fault };

    fn from(end: ReadEnd) -> End {
        match end {
            ReadEnd::Failed => End::Read,
            ReadEnd::TooLong => End::Script {
                line: 0,
                kind: ScriptKind::Long,
            },
            ReadEnd::NoMemory => End::NoMemory,
        }
    }
}

// The end where the files couldn't be read: what is wrong with the text for any cluster comes before that.
fn unserved_end(alloc: Global, script: &[u8], other: End) -> End
    ensures { EndsUnserved None script.now other result }
{
    match read_lines(alloc, None, script) {
        Ok(_) => other,
        Err(end) => End::from(end),
    }
}

// The same by why they couldn't. Want of memory is told at once.
fn unopened_end(alloc: Global, script: &[u8], fault: LoadFault) -> End
    ensures { EndsUnopened script.now fault result }
{
    match fault {
        LoadFault::NoMemory => End::NoMemory,
        fault => unserved_end(alloc, script, End::from(fault)),
    }
}

// A site that was opened for the lines of a script.
struct Ready<'a, D> {
    chest: Chest<D>,
    lines: Vec<UserLine<'a>>,
}

// Reads the lines of a script for the cluster of a site that was opened. At `Err` the run is over.
fn lines_for<'a, W: Way<D, Y>, O: Sink, D: Disk, C: Clock, Y: Symbiont>(
    alloc: Global,
    script: &'a [u8],
    chest: Chest<D>,
    stations: &[Station<C, Y>],
    sink: &O,
) -> Result<Ready<'a, D>, Outcome<D>>
    ensures same { IfOk result (λ ready. ready.chest ≡ chest) }
    ensures lines { IfOk result (λ ready.
        script_lines (Some (chest_names chest)) script.now
        ≡ Ok (user_lines_view ready.lines.items)) }
    ensures status { IfErr result (λ over. over.status ≡ status_of over.end) }
    ensures ends { (disk : D) → IsOpened D.meaning disk chest
        → IfErr result (λ over. EndsBehind D.meaning W.served script.now over.turns.items
        (outside disk (O.taken sink.now) (map (side_of C.told) stations.now))
        (outside over.disk (O.taken sink.now) (map (side_of C.told) stations.now))
        (O.faults sink.now) (O.faults sink.now) over.end) }
{
    let names = chest.names();
    match read_lines(alloc, Some(names), script) {
        Ok(lines) => Ok(Ready { chest, lines }),
        Err(end) => Err(Outcome::of(alloc, End::from(end), chest.give_back())),
    }
}

// Opens the site of a disk for a script that was read, and reads the script's lines. At `Err` the run is over.
fn open_lines<'a, W: Way<D, Y>, O: Sink, D: Disk, C: Clock, Y: Symbiont>(
    alloc: Global,
    script: &'a [u8],
    disk: D,
    stations: &[Station<C, Y>],
    sink: &O,
) -> Result<Ready<'a, D>, Outcome<D>>
    ensures opened { IfOk result (λ ready. IsOpened D.meaning disk ready.chest) }
    ensures lines { IfOk result (λ ready.
        script_lines (Some (chest_names ready.chest)) script.now
        ≡ Ok (user_lines_view ready.lines.items)) }
    ensures status { IfErr result (λ over. over.status ≡ status_of over.end) }
    ensures ends { IfErr result (λ over. EndsBehind D.meaning W.served script.now over.turns.items
        (outside disk (O.taken sink.now) (map (side_of C.told) stations.now))
        (outside over.disk (O.taken sink.now) (map (side_of C.told) stations.now))
        (O.faults sink.now) (O.faults sink.now) over.end) }
{
    match Chest::open(alloc, disk) {
        Ok(chest) => lines_for::<W, O, D, C, Y>(alloc, script, chest, stations, sink),
        Err((disk, fault)) => {
            let end = unopened_end(alloc, script, fault);
            Err(Outcome::of(alloc, end, disk))
        }
    }
}

// The outcome of lines that were served.
fn outcome_of<D: Disk>(served: Served<D>) -> Outcome<D>
    ensures end { result.end ≡ end_of_serving (serving_end served.end) }
    ensures status { result.status ≡ status_of result.end }
    ensures disk { result.disk ≡ served.disk }
    ensures turns { result.turns.items ≡ served.turns.items }
{
    let Served { end, disk, turns } = served;
    Outcome::with(End::from(end), disk, turns)
}

// Serves a script that was read, by one thread.
fn serve_text_in_order<O: Sink, D: Disk, C: Clock, Y: Symbiont>(
    alloc: Global,
    script: &[u8],
    disk: D,
    stations: &mut [Station<C, Y>],
    sink: &mut O,
) -> Outcome<D>
    requires stations { NODES_LIMIT ≤ length stations.old }
    ensures status { result.status ≡ status_of result.end }
    ensures ends { EndsBehind D.meaning (Serves D.meaning Y.meaning) script.now
        result.turns.items
        (outside disk (O.taken sink.old) (map (side_of C.told) stations.old))
        (outside result.disk (O.taken sink.new) (map (side_of C.told) stations.new))
        (O.faults sink.old) (O.faults sink.new) result.end }
{
    match open_lines::<InOrder, O, D, C, Y>(alloc, script, disk, stations, sink) {
        Ok(Ready { chest, lines }) => outcome_of(serve_by_one(
            alloc, chest, &lines, stations, sink,
        )),
        Err(over) => over,
    }
}

// The same, each node's lines by a thread of its own.
fn serve_text_at_once<
    R: Threads + Wait + Sync,
    O: Sink,
    D: Disk + Drop + Send,
    C: Clock + Send,
    Y: Symbiont + Send,
>(
    rt: &R,
    alloc: Global,
    script: &[u8],
    disk: D,
    stations: &mut [Station<C, Y>],
    sink: &mut O,
) -> Outcome<D>
where
    Y::Cursor: Send,
    requires stations { NODES_LIMIT ≤ length stations.old }
    ensures status { result.status ≡ status_of result.end }
    ensures ends { EndsBehind D.meaning (ServesAtOnce D.meaning Y.meaning) script.now
        result.turns.items
        (outside disk (O.taken sink.old) (map (side_of C.told) stations.old))
        (outside result.disk (O.taken sink.new) (map (side_of C.told) stations.new))
        (O.faults sink.old) (O.faults sink.new) result.end }
{
    match open_lines::<AtOnce, O, D, C, Y>(alloc, script, disk, stations, sink) {
        Ok(Ready { chest, lines }) => outcome_of(serve_by_each(
            rt, alloc, chest, &lines, stations, sink,
        )),
        Err(over) => over,
    }
}

/// Serves a script by one thread, its lines in their order: it is read whole, then the site is opened, and its lines are served there.
pub(crate) fn serve_in_order<S: Source, O: Sink, D: Disk, C: Clock, Y: Symbiont>(
    alloc: Global,
    source: &mut S,
    sink: &mut O,
    disk: D,
    stations: &mut [Station<C, Y>],
) -> Outcome<D>
    requires stations { NODES_LIMIT ≤ length stations.old }
    ensures status { result.status ≡ status_of result.end }
    ensures cause { HasCause D.meaning.tells (D.meaning.seen disk) (S.remaining source.old)
        result.turns.items
        (counts (S.faults source.old) (O.faults sink.old) (D.meaning.faults disk))
        (counts (S.faults source.new) (O.faults sink.new) (D.meaning.faults result.disk)) result.end }
    ensures reads { Reads (S.remaining source.old) (S.remaining source.new) result.end }
    ensures serves { RunsTo D.meaning Y.meaning (S.remaining source.old) result.turns.items
        (outside disk (O.taken sink.old) (map (side_of C.told) stations.old))
        (outside result.disk (O.taken sink.new) (map (side_of C.told) stations.new)) result.end }
    ensures spare { IsTrue D.meaning.tells → KeepsSpare D.meaning disk result.disk }
{
    a_script_has_a_limit();
    match read_whole(alloc, source, TEXT_LIMIT) {
        Ok(script) => serve_text_in_order(alloc, &script, disk, stations, sink),
        Err(end) => Outcome::of(alloc, End::from(end), disk),
    }
}

/// The same, each node's lines by a thread of its own, where one can be made.
pub(crate) fn serve_at_once<
    R: Threads + Wait + Sync,
    S: Source,
    O: Sink,
    D: Disk + Drop + Send,
    C: Clock + Send,
    Y: Symbiont + Send,
>(
    rt: &R,
    alloc: Global,
    source: &mut S,
    sink: &mut O,
    disk: D,
    stations: &mut [Station<C, Y>],
) -> Outcome<D>
where
    Y::Cursor: Send,
    requires stations { NODES_LIMIT ≤ length stations.old }
    ensures status { result.status ≡ status_of result.end }
    ensures cause { HasCause D.meaning.tells (D.meaning.seen disk) (S.remaining source.old)
        result.turns.items
        (counts (S.faults source.old) (O.faults sink.old) (D.meaning.faults disk))
        (counts (S.faults source.new) (O.faults sink.new) (D.meaning.faults result.disk)) result.end }
    ensures reads { Reads (S.remaining source.old) (S.remaining source.new) result.end }
    ensures serves { RunsAtOnce D.meaning Y.meaning (S.remaining source.old) result.turns.items
        (outside disk (O.taken sink.old) (map (side_of C.told) stations.old))
        (outside result.disk (O.taken sink.new) (map (side_of C.told) stations.new)) result.end }
    ensures spare { IsTrue D.meaning.tells → KeepsSpare D.meaning disk result.disk }
{
    a_script_has_a_limit();
    match read_whole(alloc, source, TEXT_LIMIT) {
        Ok(script) => serve_text_at_once(rt, alloc, &script, disk, stations, sink),
        Err(end) => Outcome::of(alloc, End::from(end), disk),
    }
}
