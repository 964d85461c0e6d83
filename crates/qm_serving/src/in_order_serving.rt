// How the lines of a script are served by one thread, in their order.
ghost use Rattle.std.specs.Prelude.{◌≡◌, ◌≤◌, length, map};
ghost use Rattle.qm_chest.specs.At.{chest_disk, chest_names, chest_turns};
ghost use Rattle.qm_chest.specs.Opening.{IsFresh, IsOpened, IsScriptOf};
ghost use Rattle.qm_cluster.specs.Ends.{CountsSink, serving_end};
ghost use Rattle.qm_cluster.specs.Fresh.{each_lines, own_view};
ghost use Rattle.qm_kinds.specs.declared.limits.TheConstants.{NODES_LIMIT};
ghost use Rattle.qm_node.specs.Sides.{side_of};
ghost use Rattle.qm_serving.specs.Serving.{Serves, outside};
ghost use Rattle.qm_script.specs.ClusterLines.{user_lines_view};

use crate::served::{Served, left_at};
use qm_chest::{Chest, calls_are_noted};
use qm_cluster::{
    Directly, ServeEnd, end_of_turns, lines_are_of_their_cluster, own_lines, seats_of, serve_script,
};
use qm_disk::{Clock, Disk, Sink};
use qm_node::Station;
use qm_script::UserLine;
use qm_symb::Symbiont;
use std::alloc::{AllocError, Global};

/// Serves a script of the site's nodes on one thread, on a site that was just opened: its lines in their order, each with the
/// steps behind it, and then the nodes in the cluster's order, each until it has left or is stopped. The node of each place has
/// the station of that place.
///
/// What was done is on the disks before its answer is handed to the sink, and that before the next turn is made. A disk that
/// fails doesn't end it: the next call takes over.
pub fn serve_by_one<'a, O: Sink, D: Disk, C: Clock, Y: Symbiont>(
    alloc: Global,
    chest: Chest<D>,
    lines: &'a [UserLine<'a>],
    stations: &mut [Station<C, Y>],
    sink: &mut O,
) -> Served<D>
    requires fresh { IsFresh D.meaning chest }
    requires script { IsScriptOf (chest_names chest) (user_lines_view lines.now) }
    requires stations { NODES_LIMIT ≤ length stations.old }
    ensures serves { (disk : D) → IsOpened D.meaning disk chest
        → Serves D.meaning Y.meaning disk (chest_names chest) (user_lines_view lines.now)
        (outside (chest_disk chest) (O.taken sink.old) (map (side_of C.told) stations.old))
        (outside result.disk (O.taken sink.new)
        (map (side_of C.told) stations.new)) result.turns.items (serving_end result.end) }
    ensures sink { CountsSink (serving_end result.end) (O.faults sink.old) (O.faults sink.new) }
{
    let mut manager = Directly::new(chest);
    let end = serve_nodes(alloc, &mut manager, lines, stations, sink);
    left_at(end, manager.into_manager())
}

// Serves a script, and tells how that ended.
fn serve_nodes<'a, O: Sink, D: Disk, C: Clock, Y: Symbiont>(
    alloc: Global,
    manager: &mut Directly<Chest<D>>,
    lines: &'a [UserLine<'a>],
    stations: &mut [Station<C, Y>],
    sink: &mut O,
) -> ServeEnd
    requires fresh { IsFresh D.meaning manager.old }
    requires script { IsScriptOf (chest_names manager.old) (user_lines_view lines.now) }
    requires stations { NODES_LIMIT ≤ length stations.old }
    ensures serves { (disk : D) → IsOpened D.meaning disk manager.old
        → Serves D.meaning Y.meaning disk (chest_names manager.old) (user_lines_view lines.now)
        (outside (chest_disk manager.old) (O.taken sink.old) (map (side_of C.told) stations.old))
        (outside (chest_disk manager.new) (O.taken sink.new) (map (side_of C.told) stations.new))
        (chest_turns manager.new) (serving_end result) }
    ensures sink { CountsSink (serving_end result) (O.faults sink.old) (O.faults sink.new) }
{
    calls_are_noted::<D>();
    match own_lines(alloc, manager.manager().names(), lines) {
        Ok(own) => serve_own(alloc, manager, lines, own, stations, sink),
        Err(AllocError) => ServeEnd::NoMemory,
    }
}

// The same, each node having its own lines.
fn serve_own<'a, O: Sink, D: Disk, C: Clock, Y: Symbiont>(
    alloc: Global,
    manager: &mut Directly<Chest<D>>,
    lines: &'a [UserLine<'a>],
    own: Vec<Vec<UserLine<'a>>>,
    stations: &mut [Station<C, Y>],
    sink: &mut O,
) -> ServeEnd
    requires fresh { IsFresh D.meaning manager.old }
    requires script { IsScriptOf (chest_names manager.old) (user_lines_view lines.now) }
    requires own { own_view own.items
        ≡ each_lines (user_lines_view lines.now) (chest_names manager.old) }
    requires stations { NODES_LIMIT ≤ length stations.old }
    ensures serves { (disk : D) → IsOpened D.meaning disk manager.old
        → Serves D.meaning Y.meaning disk (chest_names manager.old) (user_lines_view lines.now)
        (outside (chest_disk manager.old) (O.taken sink.old) (map (side_of C.told) stations.old))
        (outside (chest_disk manager.new) (O.taken sink.new) (map (side_of C.told) stations.new))
        (chest_turns manager.new) (serving_end result) }
    ensures sink { CountsSink (serving_end result) (O.faults sink.old) (O.faults sink.new) }
{
    calls_are_noted::<D>();
    lines_are_of_their_cluster();
    let Ok(mut seats) = seats_of(alloc, manager.manager().names(), &own) else {
        return ServeEnd::NoMemory;
    };
    match serve_script(alloc, manager, lines, &mut seats, stations, sink) {
        Ok(()) => end_of_turns(manager.manager().turns()),
        Err(stopped) => ServeEnd::from(stopped),
    }
}
