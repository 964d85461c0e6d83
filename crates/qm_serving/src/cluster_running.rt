// The turns of a site's nodes, from a site that was opened to what is left of it.
ghost use Rattle.std.specs.Prelude.{◌≡◌, ◌∷◌, ◌≤◌, [], length, map, IfErr, IfOk};
ghost use Rattle.qm_cluster.specs.Fresh.{own_view};
ghost use Rattle.qm_node.specs.Sides.{side_of};
ghost use Rattle.qm_kinds.specs.declared.limits.TheConstants.{NODES_LIMIT};
ghost use Rattle.qm_cluster.specs.Gathered.{text_left};
ghost use Rattle.qm_chest.specs.Opening.{IsOpened};
ghost use Rattle.qm_chest.specs.At.{chest_disk, chest_names};
ghost use Rattle.qm_serving.specs.ClusterRunning.{HaveRun};

use crate::site_laws::nodes_begin_live;
use qm_chest::{Chest, calls_are_noted};
use qm_cluster::{Begins, MadeTurns, make_turns};
use qm_disk::{Clock, Disk};
use qm_kinds::Name;
use qm_node::Station;
use qm_script::UserLine;
use qm_symb::Symbiont;
use std::alloc::Global;
use std::marker::{Send, Sync};
use std::sync::Wait;
use std::thread::Threads;

/// Lets the nodes of a site that was opened make their turns, each by a thread of its own. Where there is no memory for that, the site
/// comes back as it was.
pub(crate) fn run_nodes<
    'a,
    J: Begins<Chest<D>> + Send + Sync,
    R: Threads + Wait + Sync,
    D: Disk + Drop + Send,
    C: Clock + Send,
    Y: Symbiont + Send,
>(
    rt: &'a R,
    alloc: Global,
    chest: Chest<D>,
    names: &'a [Name],
    lines: &'a [Vec<UserLine<'a>>],
    stations: &mut [Station<C, Y>],
) -> Result<MadeTurns<Chest<D>>, Chest<D>>
where
    Y::Cursor: Send,
    requires began { J.began ≡ chest ∷ [] }
    requires names { names.now ≡ chest_names chest }
    requires few { length names.now ≤ NODES_LIMIT }
    requires opened { (disk : D) × IsOpened D.meaning disk chest }
    requires lines { length lines.now ≡ length names.now }
    requires stations { length stations.old ≡ length names.now }
    ensures ran { IfOk result (λ ran.
        HaveRun D.meaning Y.meaning (chest_names chest) (own_view lines.now) chest ran.manager
        (map text_left ran.texts.items)
        (map (side_of C.told) stations.old) (map (side_of C.told) stations.new)) }
    ensures none { IfErr result (λ back. (back ≡ chest) × (stations.new ≡ stations.old)) }
{
    calls_are_noted::<D>();
    nodes_begin_live::<D>();
    if names.is_empty() {
        return Ok(MadeTurns {
            manager: chest,
            texts: Vec::new(alloc),
        });
    }
    make_turns::<R, Chest<D>, J, C, Y>(rt, alloc, chest, names, lines, stations)
}
