// What is kept of the nodes: which are live, the epochs that they hold, and the greatest epoch.
ghost use Rattle.std.specs.Prelude.{◌≡◌, ◌==◌, ◌&&◌, not, ◌<◌, ◌↔◌, false, true, slice_get, unwrap_or, IfOk, Some, vec_len};
ghost use Rattle.std.specs.List.{list_all};

use crate::nodes::names_of_all;
use qm_kinds::{Input, Name, Node};
use std::alloc::{AllocError, Global};

/// What is kept of the nodes, in the cluster's order.
#[derive(Drop)]
pub struct Members {
    pub(crate) alloc: Global,
    pub(crate) names: Vec<Name>,
    /// Whether each serves its lines.
    pub(crate) live: Vec<bool>,
    /// The epoch that each holds, or 0.
    pub(crate) held: Vec<u64>,
    /// The greatest epoch that was recorded or tried.
    pub(crate) greatest: u64,
    ghost all_live: { vec_len live ≡ vec_len names },
    ghost all_held: { vec_len held ≡ vec_len names },
}

impl Members {
    ghost use Rattle.qm_history.specs.Calls.{is_start};
    ghost use Rattle.qm_chest.specs.Checking.{AreFirstMembers};
    ghost use Rattle.qm_chest.specs.Members.{is_live_in};

    /// What is kept of nodes of which each is live and none holds an epoch.
    pub(crate) fn new(alloc: Global, nodes: &[Node], greatest: u64) -> Result<Members, AllocError>
        ensures { IfOk result (AreFirstMembers nodes.now greatest) }
    {
        let names = names_of_all(alloc, nodes)?;
        let live = vec![in alloc; true; nodes.len()]?;
        let held = vec![in alloc; 0; nodes.len()]?;
        Ok(Members {
            alloc,
            names,
            live,
            held,
            greatest,
        })
    }

    /// Whether the node of this place serves its lines.
    pub(crate) fn is_live(&self, node: u8) -> bool
        requires { node < vec_len self.now.names }
        ensures { result ≡ is_live_in self.now node }
    {
        self.live[usize::from(node)]
    }

    /// Whether the node is down for a call that asks for this: it isn't live, and the call isn't to start it.
    pub(crate) fn is_down(&self, node: u8, input: &Input) -> bool
        requires { node < vec_len self.now.names }
        ensures { result ≡ not (is_live_in self.now node) && not (is_start input.now) }
    {
        !self.is_live(node) && !matches!(input, Input::StartNode)
    }

    /// The epoch that the node of this place holds, or 0.
    pub(crate) fn held_by(&self, node: u8) -> u64
        requires { node < vec_len self.now.names }
        ensures { result ≡ unwrap_or (slice_get self.now.held.items node) 0 }
    {
        self.held[usize::from(node)]
    }

    /// Whether no node has been manager so far.
    pub(crate) fn is_none_taken(&self) -> bool
        ensures { result ≡ list_all (λ epoch. epoch == 0) self.now.held.items }
    {
        self.held.iter().all(|epoch| *epoch == 0)
    }

    /// The name of the node of this place.
    pub(crate) fn name(&self, node: u8) -> Name
        requires { node < vec_len self.now.names }
        ensures { slice_get self.now.names.items node ≡ Some result }
    {
        self.names[usize::from(node)]
    }
}
