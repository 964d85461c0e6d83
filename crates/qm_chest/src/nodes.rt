// The lists of nodes of a takeover.
ghost use Rattle.std.specs.Prelude.{◌≡◌, ◌<◌, length, map, vec_len, IfOk, MatchOption, None, Some};
ghost use Rattle.qm_history.specs.Common.{is_among, node_at, nodes_where};
ghost use Rattle.qm_history.specs.Takeover.{nodes_on};
ghost use Rattle.qm_chest.specs.Nodes.{are_called, is_one, nodes_among, nodes_listed};
ghost use Rattle.qm_chest.specs.Taking.{lost_by, may_by, may_manage, took_by, up_by};

use crate::members::Members;
use qm_kinds::{Boxed, Input, Name, Node, Request, Seq};
use std::alloc::{AllocError, Global};

/// Nodes of the cluster, told by whether each is live.
#[derive(Clone, Copy)]
pub(crate) enum Which {
    /// Those that are up and not live.
    Lost,
    /// Those that are live.
    Live,
}

// Whether the node is one of those.
fn is_one(which: Which, live: bool, node: &Node) -> bool
    ensures { result ≡ is_one which live node.now }
{
    match which {
        Which::Lost => node.up && !live,
        Which::Live => live,
    }
}

// The names of those, in the cluster's order.
fn names_where(
    alloc: Global,
    which: Which,
    live: &[bool],
    nodes: &[Node],
) -> Result<Vec<Name>, AllocError>
    requires { length live.now ≡ length nodes.now }
    ensures { IfOk result (λ names. names.items ≡ nodes_where (is_one which) live.now nodes.now) }
{
    let mut names = Vec::new(alloc);
    for (place, node) in nodes.iter().enumerate() {
        if is_one(which, live[place], node) {
            names.push(node.name)?;
        }
    }
    Ok(names)
}

/// The names of all nodes.
pub(crate) fn names_of_all(alloc: Global, nodes: &[Node]) -> Result<Vec<Name>, AllocError>
    ensures { IfOk result (λ names. names.items ≡ map (λ n. n.name) nodes.now) }
{
    nodes.iter().map(|node| node.name).collect(alloc)
}

// Whether a name is one of these.
fn is_among(names: &[Name], name: &Name) -> bool
    ensures { result ≡ is_among names.now name.now }
{
    names.iter().any(|other| *name == *other)
}

// The names of the nodes that are among these, in the cluster's order.
fn names_among(alloc: Global, nodes: &[Node], names: &[Name]) -> Result<Vec<Name>, AllocError>
    ensures { IfOk result (λ found. found.items ≡ nodes_among names.now nodes.now) }
{
    let mut found = Vec::new(alloc);
    for node in nodes {
        if is_among(names, &node.name) {
            found.push(node.name)?;
        }
    }
    Ok(found)
}

// The nodes that a command lists, if it lists some.
fn listed(input: &Input) -> Option<&[Name]>
    ensures { MatchOption result (nodes_on input.now ≡ None)
        (λ names. nodes_on input.now ≡ Some names.now) }
{
    match input {
        Input::TakeManager { on: Some(names) } => Some(names.as_slice()),
        _ => None,
    }
}

// The nodes that a command lists, where an empty list stands for all.
fn names_listed(alloc: Global, nodes: &[Node], names: &[Name]) -> Result<Vec<Name>, AllocError>
    ensures { IfOk result (λ found. found.items ≡ nodes_listed nodes.now names.now) }
{
    if names.is_empty() {
        names_of_all(alloc, nodes)
    } else {
        names_among(alloc, nodes, names)
    }
}

// The nodes that may be manager from a takeover on, of which these may so far.
fn names_that_may(
    alloc: Global,
    nodes: &[Node],
    may: &[Name],
    input: &Input,
) -> Result<Vec<Name>, AllocError>
    ensures { IfOk result (λ names. names.items ≡ may_by nodes.now may.now (nodes_on input.now)) }
{
    match listed(input) {
        Some(names) => names_listed(alloc, nodes, names),
        None => Vec::from_slice(alloc, may),
    }
}

// The name of the node of this place.
fn name_of(nodes: &[Node], node: u8) -> Name
    requires { node < length nodes.now }
    ensures { result ≡ node_at node nodes.now }
{
    nodes[usize::from(node)].name
}

// Whether a command lists the node of this place.
fn is_listed(nodes: &[Node], names: &[Name], node: u8) -> bool
    requires { node < length nodes.now }
    ensures { result ≡ is_among (nodes_listed nodes.now names.now) (node_at node nodes.now) }
{
    names.is_empty() || is_among(names, &name_of(nodes, node))
}

/// Whether the node of this place may be manager by the list that a command gives, or by the one that is kept.
pub(crate) fn is_named(nodes: &[Node], may: &[Name], input: &Input, node: u8) -> bool
    requires { node < length nodes.now }
    ensures { result ≡ may_manage nodes.now may.now input.now node }
{
    match listed(input) {
        Some(names) => is_listed(nodes, names, node),
        None => is_among(may, &name_of(nodes, node)),
    }
}

impl Members {
    /// Whether the nodes are those of the cluster.
    pub(crate) fn are_nodes(&self, nodes: &[Node]) -> bool
        ensures { result ≡ are_called nodes.now self.now.names.items }
    {
        if nodes.len() != self.names.len() {
            return false;
        }
        for (place, node) in nodes.iter().enumerate() {
            if node.name != self.names[place] {
                return false;
            }
        }
        true
    }

    // The nodes whose runs a takeover finds lost.
    fn nodes_lost(&self, nodes: &[Node]) -> Result<Vec<Name>, AllocError>
        requires { length nodes.now ≡ vec_len self.now.names }
        ensures { IfOk result (λ names. names.items ≡ lost_by self.now nodes.now) }
    {
        if self.is_none_taken() {
            names_of_all(self.alloc, nodes)
        } else {
            names_where(self.alloc, Which::Lost, &self.live, nodes)
        }
    }

    // The nodes that are up from a takeover of this node on.
    fn nodes_up(&self, nodes: &[Node], node: u8) -> Result<Vec<Name>, AllocError>
        requires nodes { length nodes.now ≡ vec_len self.now.names }
        requires there { node < vec_len self.now.names }
        ensures { IfOk result (λ names. names.items ≡ up_by self.now.live.items node nodes.now) }
    {
        let mut live = Vec::from_slice(self.alloc, &self.live)?;
        live[usize::from(node)] = true;
        names_where(self.alloc, Which::Live, live.as_slice(), nodes)
    }

    /// The request that tells of a takeover of a node, on nodes and a list that were read.
    pub(crate) fn request(
        &self,
        nodes: &[Node],
        may: &[Name],
        input: &Input,
        node: u8,
        epoch: u64,
    ) -> Result<Boxed<Request>, AllocError>
        requires nodes { length nodes.now ≡ vec_len self.now.names }
        requires there { node < vec_len self.now.names }
        ensures { IfOk result (λ asked. asked ≡ took_by self.now nodes.now may.now node input.now epoch) }
    {
        let request = Request::Took {
            epoch,
            gone: Seq::of(self.nodes_lost(nodes)?),
            up: Seq::of(self.nodes_up(nodes, node)?),
            may: Seq::of(names_that_may(self.alloc, nodes, may, input)?),
        };
        Boxed::new(self.alloc, request)
    }
}
