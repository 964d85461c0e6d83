// Nodes come up and go down.
ghost use Rattle.std.specs.Prelude.{◌≡◌, map, filter, find, count_by, option_copied};
ghost use Rattle.qm_model.specs.Find.{is_among};
ghost use Rattle.qm_parts.specs.Nodes.{changed_node, is_run_on_one};
ghost use Rattle.qm_parts.specs.Runs.{least_entry};

use crate::parts::Parts;
use crate::rows::refill_all;
use crate::running::{lesser, see_order};
use crate::tables::TableSet;
use qm_kinds::{Entry, Name, Node, Run};

/// Which nodes come up, or go down.
#[derive(Clone, Copy)]
pub enum NodeChange<'a> {
    /// The node of this name comes up.
    Up(&'a Name),
    /// These nodes go down.
    Down(&'a [Name]),
    /// These nodes are up from here on, and no others.
    Exactly(&'a [Name]),
}

/// Whether a name is one of these.
pub fn is_among(names: &[Name], name: &Name) -> bool
    ensures { result ≡ is_among names.now name.now }
{
    for other in names {
        if *name == *other {
            return true;
        }
    }
    false
}

// The node is up or down as the change has it.
fn change_one(node: &mut Node, change: &NodeChange<'_>)
    ensures { node.new ≡ changed_node change.now node.old }
{
    node.up = match change {
        NodeChange::Up(name) => node.up || node.name == **name,
        NodeChange::Down(names) => node.up && !is_among(names, &node.name),
        NodeChange::Exactly(names) => is_among(names, &node.name),
    };
}

// Each node is up or down as the change has it.
fn change_each(nodes: &mut [Node], change: &NodeChange<'_>)
    ensures { nodes.new ≡ map (changed_node change.now) nodes.old }
{
    for node in nodes.iter_mut() {
        change_one(node, change);
    }
}

// How many of the runs are on one of these nodes.
fn count_on(runs: &[Run], nodes: &[Name]) -> usize
    ensures { result ≡ count_by (λ r. is_among nodes.now r.node) runs.now }
{
    let mut count = 0usize;
    for run in runs {
        if is_among(nodes, &run.node) {
            count += 1;
        }
    }
    count
}

// The least number of an entry that has one of the runs, on one of these nodes.
fn least_on(runs: &[Run], nodes: &[Name]) -> Option<u32>
    ensures { result ≡ least_entry (filter (λ r. is_among nodes.now r.node) runs.now) }
{
    let mut least = None;
    for run in runs {
        if is_among(nodes, &run.node) {
            least = Some(lesser(least, run.entry));
        }
    }
    least
}

impl TableSet {
    /// Nodes come up or go down. What runs on them stays as it is.
    pub fn change_nodes(&mut self, change: &NodeChange<'_>)
        ensures { self.new ≡ record self.old {
          nodes = map (changed_node change.now) self.old.nodes;
        } }
    {
        change_each(self.nodes.as_mut_slice(), change);
    }

    /// How many entries have a run on one of these nodes. It looks at each run.
    pub fn count_runs_on(&self, nodes: &[Name]) -> usize
        ensures { result ≡ count_by (is_run_on_one nodes.now) self.now.entries }
    {
        count_on(self.runs.as_slice(), nodes)
    }

    /// The entry of the least number that has a run on one of these nodes. It looks at each run, and asks a logarithm of the
    /// entries.
    pub fn first_run_on(&self, nodes: &[Name]) -> Option<&Entry>
        ensures { option_copied result ≡ find (is_run_on_one nodes.now) self.now.entries }
    {
        see_order(&self.entries, &self.runs);
        match least_on(self.runs.as_slice(), nodes) {
            None => None,
            Some(number) => self.entries.get(number),
        }
    }
}

impl Parts {
    /// Nodes come up or go down. What runs on them stays as it is. The rows are built anew: queues on a node that is down take
    /// no job.
    pub fn change_nodes(&mut self, change: &NodeChange<'_>)
        ensures { self.new ≡ record self.old {
          nodes = map (changed_node change.now) self.old.nodes;
        } }
    {
        self.tables.change_nodes(change);
        refill_all(self.alloc, &self.tables, &mut self.rows);
    }

    /// How many entries have a run on one of these nodes, aborting or not. It looks at each run.
    pub fn count_runs_on(&self, nodes: &[Name]) -> usize
        ensures { result ≡ count_by (is_run_on_one nodes.now) self.now.entries }
    {
        self.tables.count_runs_on(nodes)
    }

    /// The entry of the least number that has a run on one of these nodes, aborting or not. It looks at each run, and asks a
    /// logarithm of the entries.
    pub fn first_run_on(&self, nodes: &[Name]) -> Option<&Entry>
        ensures { option_copied result ≡ find (is_run_on_one nodes.now) self.now.entries }
    {
        self.tables.first_run_on(nodes)
    }
}
