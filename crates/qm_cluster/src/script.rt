// The turns of several nodes on one thread.
ghost use Rattle.std.specs.Prelude.{◌≡◌, ◌<◌, ◌≤◌, ℕ, [], Some, Contains, length, slice_get, IfErr, OnOk, IsTrue};
ghost use Rattle.qm_history.specs.Chest.{turns_kept};
ghost use Rattle.qm_script.specs.ClusterLines.{user_lines_view};
ghost use Rattle.qm_node.specs.Ends.{IsUndamaged, TellsWrite};
ghost use Rattle.qm_cluster.specs.Runs.{AllStop, AllStopWorking, AreFresh, AreOfNodes, AreReading, IsCluster, RunsNodes, ServesLines, Serving, Stopping, names_of, numbers_of, site_of, so_far};

use crate::directly::Directly;
use crate::node::{serve_part, work_on};
use crate::part::Part;
use qm_disk::{Clock, Sink};
use qm_history::Serve;
use qm_kinds::Name;
use qm_node::{Next, Seat, Station, TurnEnd};
use qm_script::UserLine;
use qm_symb::Symbiont;
use std::alloc::Global;

// The place of the node of this name.
fn place_of<Y: Symbiont>(seats: &[Seat<'_, Y>], name: &Name) -> usize
    requires { Contains (names_of seats.now) name.now }
    ensures within { result < length seats.now }
    ensures name { slice_get (names_of seats.now) result ≡ Some name.now }
{
    'places: for place in 0..seats.len() {
        if seats[place].name() == *name {
            return place;
        }
    }
    unreachable!()
}

/// Serves the lines of a script in their order, each at its node, with the steps that come behind it.
pub(crate) fn serve_lines<'a, S: Serve, O: Sink, C: Clock, Y: Symbiont>(
    alloc: Global,
    manager: &mut Directly<S>,
    lines: &'a [UserLine<'a>],
    seats: &mut [Seat<'a, Y>],
    stations: &mut [Station<C, Y>],
    sink: &mut O,
) -> Result<(), TurnEnd>
    requires cluster { IsCluster S.meaning manager.old seats.old (length stations.old) }
    requires kept { length (S.meaning.turns manager.old) ≤ turns_kept }
    requires serves { S.meaning.serves manager.old }
    requires of_nodes { AreOfNodes seats.old (user_lines_view lines.now) }
    requires reading { AreReading (user_lines_view lines.now) seats.old }
    ensures serves { OnOk result (ServesLines S.meaning Y.meaning (user_lines_view lines.now)
        (site_of C.told manager.old (O.taken sink.old) seats.old stations.old)
        (site_of C.told manager.new (O.taken sink.new) seats.new stations.new)) }
    ensures stops { IfErr result (AllStop S.meaning Y.meaning
        (so_far (numbers_of (user_lines_view lines.now)) 0)
        (site_of C.told manager.old (O.taken sink.old) seats.old stations.old)
        (site_of C.told manager.new (O.taken sink.new) seats.new stations.new)) }
    ensures sink { TellsWrite (O.faults sink.old) (O.faults sink.new) result }
    ensures undamaged { IsTrue S.meaning.tells → IfErr result IsUndamaged }
{
    'lines: for line in lines {
        let place = place_of(seats, &line.node);
        match serve_part(
            alloc,
            manager,
            place as u8,
            Part::Steps,
            &Next::Line(line),
            &mut seats[place],
            &mut stations[place],
            sink,
        ) {
            Ok(()) => {}
            Err(end) => return Err(end),
        }
    }
    Ok(())
}

/// Lets the nodes work on for themselves behind the last line, in the cluster's order, each until it has left or is stopped.
pub(crate) fn run_nodes<S: Serve, O: Sink, C: Clock, Y: Symbiont>(
    alloc: Global,
    manager: &mut Directly<S>,
    seats: &mut [Seat<'_, Y>],
    stations: &mut [Station<C, Y>],
    sink: &mut O,
) -> Result<(), TurnEnd>
    requires cluster { IsCluster S.meaning manager.old seats.old (length stations.old) }
    requires kept { length (S.meaning.turns manager.old) ≤ turns_kept }
    requires serves { S.meaning.serves manager.old }
    requires reading { AreReading [] seats.old }
    ensures runs { OnOk result (RunsNodes S.meaning Y.meaning
        (site_of C.told manager.old (O.taken sink.old) seats.old stations.old)
        (site_of C.told manager.new (O.taken sink.new) seats.new stations.new)) }
    ensures stops { IfErr result (AllStopWorking S.meaning Y.meaning
        (site_of C.told manager.old (O.taken sink.old) seats.old stations.old)
        (site_of C.told manager.new (O.taken sink.new) seats.new stations.new)) }
    ensures sink { TellsWrite (O.faults sink.old) (O.faults sink.new) result }
    ensures undamaged { IsTrue S.meaning.tells → IfErr result IsUndamaged }
{
    'nodes: for place in 0..seats.len() {
        match work_on(
            alloc,
            manager,
            place as u8,
            &mut seats[place],
            &mut stations[place],
            sink,
        ) {
            Ok(()) => {}
            Err(end) => return Err(end),
        }
    }
    Ok(())
}

/// Serves a script of several nodes on one thread: its lines in their order, each with the steps behind it, and then the nodes in
/// the cluster's order, each until it has left or is stopped. Each seat stands in front of its lines, and each node has a station.
///
/// What was done is on the disks before its answer is handed to the sink, and that before the next turn is made. It stops where
/// the sink fails (`Write`), as many turns are kept as can be (`HistoryFull`), a file isn't sound (`Damaged`), or memory runs out
/// (`NoMemory`). A disk that fails doesn't stop it. The sink's count of failed calls rises by one at `Write` alone, and no file
/// is told as damaged where the disks tell what they hold.
pub fn serve_script<'a, S: Serve, O: Sink, C: Clock, Y: Symbiont>(
    alloc: Global,
    manager: &mut Directly<S>,
    lines: &'a [UserLine<'a>],
    seats: &mut [Seat<'a, Y>],
    stations: &mut [Station<C, Y>],
    sink: &mut O,
) -> Result<(), TurnEnd>
    requires cluster { IsCluster S.meaning manager.old seats.old (length stations.old) }
    requires kept { length (S.meaning.turns manager.old) ≤ turns_kept }
    requires serves { S.meaning.serves manager.old }
    requires of_nodes { AreOfNodes seats.old (user_lines_view lines.now) }
    requires fresh { AreFresh (user_lines_view lines.now) seats.old }
    ensures serves { OnOk result (Serving S.meaning Y.meaning (user_lines_view lines.now)
        (site_of C.told manager.old (O.taken sink.old) seats.old stations.old)
        (site_of C.told manager.new (O.taken sink.new) seats.new stations.new)) }
    ensures stops { IfErr result (Stopping S.meaning Y.meaning (user_lines_view lines.now)
        (site_of C.told manager.old (O.taken sink.old) seats.old stations.old)
        (site_of C.told manager.new (O.taken sink.new) seats.new stations.new)) }
    ensures sink { TellsWrite (O.faults sink.old) (O.faults sink.new) result }
    ensures undamaged { IsTrue S.meaning.tells → IfErr result IsUndamaged }
{
    match serve_lines(alloc, manager, lines, seats, stations, sink) {
        Ok(()) => run_nodes(alloc, manager, seats, stations, sink),
        Err(end) => Err(end),
    }
}
