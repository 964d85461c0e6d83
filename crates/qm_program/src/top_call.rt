// The top call.
ghost use Rattle.std.specs.Prelude.{◌≡◌, ◌≢◌, ◌≤◌, map, length, Some, string_bytes};
ghost use Rattle.qm_node.specs.Sides.{side_of};
ghost use Rattle.qm_kinds.specs.declared.limits.TheConstants.{NODES_LIMIT};
ghost use Rattle.qm_serving.specs.Serving.{outside};
ghost use Rattle.qm_program.specs.Causes.{counts};
ghost use Rattle.qm_program.specs.Doing.{DoesTask};
ghost use Rattle.qm_program.specs.Ends.{status_of};
ghost use Rattle.qm_program.specs.Task.{task_of};
ghost use Rattle.qm_program.specs.declared.task.Task.TheVariants.{Cluster};

use crate::laws::sound_scripts_are_served;
use crate::making::make;
use crate::outcome::{End, Outcome};
use crate::running::{serve_at_once, serve_in_order};
use crate::showing::show;
use crate::task::{Task, asks_for_cluster, read_task};
use qm_disk::{Clock, Disk, Sink, Source};
use qm_node::Station;
use qm_symb::Symbiont;
use std::alloc::{AllocError, Global};
use std::marker::{Send, Sync};
use std::sync::Wait;
use std::thread::Threads;

/// The program between its words and its status.
///
/// With the words `init`, the names of a cluster's nodes, and maybe a cap, the files of the disk are made anew, whatever they held: a
/// site of these nodes, all down, with the form DEFAULT and the stopped queue SYS$BATCH; and `initialized` is written.
///
/// With the word `run` a script of at most 16,777,216 bytes is read from the source to its end. The files are read, which changes
/// nothing, and then the script's lines are served in order, each at its node, with the steps behind it; and behind the last line
/// the nodes work on for themselves, one behind another, until none may step, and leave. Each turn of a node takes one reading of its
/// own clock. The first call for which none is manager makes its node manager, under a new epoch. What a call changes is on the disk,
/// by a record that no crash can take away, before its answer is written, and that before the next turn is made. A call at which
/// the disk fails is told so (`%QMAN-F-JOURNAL`); the next one takes over, and the run goes on. The turns are handed out.
///
/// With the word `cluster` a script is read and the files are opened as for `run`. Then each node serves its own lines, in their
/// order, and works on for itself behind them, by a thread of its own; a node for which no thread can be made is served by the
/// calling one. All turns, one behind another as the nodes got them, are a history of one queue system that is asked one call at
/// a time; they are handed out. Behind the last one the lines of each node are written, node by node in the cluster's order, and
/// then `turns:` and the name of the node of each turn. Nothing is promised of when a node gets its turn, or that it does.
///
/// With the word `show` the files are read, which changes nothing, and the listing of all queues and entries is written, as SHOW
/// QUEUE/ALL_JOBS gives it, without prefixes. No node becomes manager, and no epoch is begun.
///
/// The ends are tried in this order: `Usage` (other words; nothing is read), `Read` (the source failed), `Script` (what was read
/// is no script of the files' cluster, or of any, where these aren't a site's or can't be read), `Journal`, `Unformatted` and
/// `Damaged` as the files tell, which are only looked at so far. While the lines of a `run` are served, `Write` (the sink
/// failed), `Damaged`, `HistoryFull` (as many turns are kept as can be) and `NoMemory` end it as they arise. In a `cluster` a
/// node's turns end at `Damaged`, `HistoryFull` or `NoMemory`, and the other nodes go on; where several ends came, `NoMemory`
/// counts first, then `Damaged`, `Write` and `HistoryFull`, and for the first two nothing is written, since some node's lines may
/// not be whole. `Journal` comes behind a script that was served whole, where the disk failed at some turn. At each end the disk
/// and the turns come back. Epochs of 2^61 and more can't be gone on from, which is told as `NoMemory`.
///
/// Laws say what follows from the field `does` where a script is served, by `run` or by `cluster`. A crash at any moment leaves
/// what it might before, or a log of some moment of the turns ([`crate::a_crash_leaves_a_moment_of_the_run`]); from each of these
/// a program goes on with what was acknowledged ([`crate::programs_go_on_with_what_was_acknowledged`]), and so it does behind the
/// run ([`crate::programs_go_on_behind_runs`]). And what the devices of a node took is the blocks of its steps, which come in
/// stretches ([`crate::blocks_come_in_stretches`]).
pub fn qman<
    R: Threads + Wait + Sync,
    S: Source,
    O: Sink,
    D: Disk + Drop + Send,
    C: Clock + Send,
    Y: Symbiont + Send,
>(
    rt: &R,
    alloc: Global,
    words: &[String],
    source: &mut S,
    sink: &mut O,
    disk: D,
    stations: &mut [Station<C, Y>],
) -> Outcome<D>
where
    Y::Cursor: Send,
    // The k-th station is that of the k-th node.
    requires stations { NODES_LIMIT ≤ length stations.old }

    ensures status { result.status ≡ status_of result.end }

    // What is read, what the sink takes, what the clocks tell, what the devices get, which turns are made, what the disk holds, then
    // and at each moment, and how it ends: by what the words ask for.
    ensures does { DoesTask D.meaning Y.meaning S.remaining
        (task_of (map string_bytes words.now)) source.old source.new
        (outside disk (O.taken sink.old) (map (side_of C.told) stations.old))
        (outside result.disk (O.taken sink.new) (map (side_of C.told) stations.new))
        (counts (S.faults source.old) (O.faults sink.old) (D.meaning.faults disk))
        (counts (S.faults source.new) (O.faults sink.new) (D.meaning.faults result.disk)) result.turns.items result.end }
{
    sound_scripts_are_served();
    if asks_for_cluster(words) {
        serve_at_once(rt, alloc, source, sink, disk, stations)
    } else {
        alone(alloc, words, source, sink, disk, stations)
    }
}

/// The program between its words and its status, for all words but `cluster`. It waits for no thread, so it returns as the
/// source, the sink, the disk, the clocks and the devices do. What it does is told at [`qman`].
pub fn alone<S: Source, O: Sink, D: Disk, C: Clock, Y: Symbiont>(
    alloc: Global,
    words: &[String],
    source: &mut S,
    sink: &mut O,
    disk: D,
    stations: &mut [Station<C, Y>],
) -> Outcome<D>
    // They ask for no nodes that work at once.
    requires words { task_of (map string_bytes words.now) ≢ Some Cluster }
    requires stations { NODES_LIMIT ≤ length stations.old }
    ensures status { result.status ≡ status_of result.end }
    ensures does { DoesTask D.meaning Y.meaning S.remaining
        (task_of (map string_bytes words.now)) source.old source.new
        (outside disk (O.taken sink.old) (map (side_of C.told) stations.old))
        (outside result.disk (O.taken sink.new) (map (side_of C.told) stations.new))
        (counts (S.faults source.old) (O.faults sink.old) (D.meaning.faults disk))
        (counts (S.faults source.new) (O.faults sink.new) (D.meaning.faults result.disk)) result.turns.items result.end }
{
    sound_scripts_are_served();
    match read_task(alloc, words) {
        Ok(Some(Task::Run)) => serve_in_order(alloc, source, sink, disk, stations),
        Ok(Some(Task::Cluster)) => unreachable!(),
        Ok(Some(Task::Show)) => show(alloc, sink, disk),
        Ok(Some(Task::Init { nodes, cap })) => make(alloc, nodes.as_slice(), cap, sink, disk),
        Ok(None) => Outcome::of(alloc, End::Usage, disk),
        Err(AllocError) => Outcome::of(alloc, End::NoMemory, disk),
    }
}
