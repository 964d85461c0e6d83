// How the lines of a script are served, each node by a thread of its own.
ghost use Rattle.std.specs.Prelude.{◌≡◌, ◌≤◌, List, length, map};
ghost use Rattle.qm_cluster.specs.Fresh.{each_lines, own_view};
ghost use Rattle.qm_node.specs.Sides.{side_of};
ghost use Rattle.qm_kinds.specs.declared.limits.TheConstants.{NODES_LIMIT};
ghost use Rattle.qm_script.specs.ClusterLines.{user_lines_view};
ghost use Rattle.qm_cluster.specs.Ends.{CountsSink, serving_end};
ghost use Rattle.qm_chest.specs.Opening.{IsOpened};
ghost use Rattle.qm_serving.specs.Serving.{outside};
ghost use Rattle.qm_chest.specs.At.{chest_disk, chest_names, chest_turns};
ghost use Rattle.qm_history.specs.Ends.{texts_printed};
ghost use Rattle.qm_history.specs.Script.{UserLine as AnyLine};
ghost use Rattle.qm_cluster.specs.ClusterEnding.{IsToldBy, worst_of};
ghost use Rattle.qm_cluster.specs.Gathered.{text_left};
ghost use Rattle.qm_cluster.specs.Printing.{turns_line};
ghost use Rattle.qm_serving.specs.ClusterServing.{ServesAtOnce};

use crate::cluster_running::run_nodes;
use crate::served::{Served, left_at};
use crate::site_laws::{
    nodes_begin_live, nodes_leave_what_is_noted, opened_sites_stand_for_no_notes,
    openings_keep_worlds,
};
use qm_chest::Chest;
use qm_cluster::{MadeTurns, ServeEnd, own_lines, print_texts};
use qm_disk::{Clock, Disk, Sink};
use qm_kinds::Name;
use qm_model::nodes_keep_their_names;
use qm_node::Station;
use qm_script::UserLine;
use qm_symb::Symbiont;
use std::alloc::{AllocError, Global};
use std::marker::{Brand, Send, Sync};
use std::sync::Wait;
use std::thread::Threads;

/// Serves a script of the site's nodes, on a site that was just opened: each node serves its own lines and carries out its own jobs by
/// a thread of its own, where one can be made. The node of each place has the station of that place. Behind all turns the texts of the
/// nodes are printed in the cluster's order, and behind them whose turn each was.
///
/// Once a turn was made it takes no memory of its own, so that the disk and the turns always come back. Where several ends came, want of
/// memory counts first, then a damaged file, then the sink, then a full history; for the first two nothing is printed.
pub fn serve_by_each<
    'a,
    R: Threads + Wait + Sync,
    D: Disk + Drop + Send,
    O: Sink,
    C: Clock + Send,
    Y: Symbiont + Send,
>(
    rt: &R,
    alloc: Global,
    chest: Chest<D>,
    lines: &'a [UserLine<'a>],
    stations: &mut [Station<C, Y>],
    sink: &mut O,
) -> Served<D>
where
    Y::Cursor: Send,
    requires opened { (disk : D) × IsOpened D.meaning disk chest }
    requires stations { NODES_LIMIT ≤ length stations.old }
    ensures serves { (disk : D) → IsOpened D.meaning disk chest
        → ServesAtOnce D.meaning Y.meaning disk (chest_names chest) (user_lines_view lines.now)
        (outside (chest_disk chest) (O.taken sink.old) (map (side_of C.told) stations.old))
        (outside result.disk (O.taken sink.new)
        (map (side_of C.told) stations.new)) result.turns.items (serving_end result.end) }
    ensures sink { CountsSink (serving_end result.end) (O.faults sink.old) (O.faults sink.new) }
{
    opened_sites_stand_for_no_notes::<D>();
    nodes_leave_what_is_noted::<D>();
    match own_lines(alloc, chest.names(), lines) {
        Ok(own) => serve_own(rt, alloc, chest, own, stations, sink),
        Err(AllocError) => left_at(ServeEnd::NoMemory, chest),
    }
}

// The same, each node having its own lines.
fn serve_own<
    'a,
    R: Threads + Wait + Sync,
    D: Disk + Drop + Send,
    O: Sink,
    C: Clock + Send,
    Y: Symbiont + Send,
>(
    rt: &R,
    alloc: Global,
    chest: Chest<D>,
    own: Vec<Vec<UserLine<'a>>>,
    stations: &mut [Station<C, Y>],
    sink: &mut O,
) -> Served<D>
where
    Y::Cursor: Send,
    requires opened { (disk : D) × IsOpened D.meaning disk chest }
    requires own { length own.items ≡ length (chest_names chest) }
    requires stations { NODES_LIMIT ≤ length stations.old }
    ensures serves { (disk : D) (script : List AnyLine)
        → own_view own.entry.items ≡ each_lines script (chest_names chest)
        → IsOpened D.meaning disk chest
        → ServesAtOnce D.meaning Y.meaning disk (chest_names chest) script
        (outside (chest_disk chest) (O.taken sink.old) (map (side_of C.told) stations.old))
        (outside result.disk (O.taken sink.new)
        (map (side_of C.told) stations.new)) result.turns.items (serving_end result.end) }
    ensures sink { CountsSink (serving_end result.end) (O.faults sink.old) (O.faults sink.new) }
{
    nodes_keep_their_names();
    opened_sites_stand_for_no_notes::<D>();
    nodes_begin_live::<D>();
    openings_keep_worlds::<D>();
    nodes_leave_what_is_noted::<D>();
    let Ok(names) = chest.names().to_vec(alloc) else {
        return left_at(ServeEnd::NoMemory, chest);
    };
    let (stations, _) = stations.split_at_mut(names.len());
    match run_nodes::<Brand, R, D, C, Y>(rt, alloc, chest, &names, &own, stations) {
        Ok(made) => tell(made, &names, sink),
        Err(chest) => left_at(ServeEnd::NoMemory, chest),
    }
}

// Prints what the nodes left, and tells how serving ended.
fn tell<D: Disk, O: Sink>(made: MadeTurns<Chest<D>>, names: &[Name], sink: &mut O) -> Served<D>
    ensures disk { result.disk ≡ chest_disk made.manager }
    ensures turns { result.turns.items ≡ chest_turns made.manager }
    ensures told { IsToldBy (worst_of (map text_left made.texts.items)) (O.taken sink.old)
        (O.taken sink.new) (O.faults sink.old) (O.faults sink.new)
        (texts_printed (turns_line names.now (chest_turns made.manager))
        (map text_left made.texts.items)) (chest_turns made.manager)
        (serving_end result.end) }
{
    let MadeTurns { manager, texts } = made;
    let end = print_texts(sink, names, &texts, manager.turns());
    left_at(end, manager)
}
