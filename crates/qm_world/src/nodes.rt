// The lists of nodes of a takeover.
ghost use Rattle.std.specs.Prelude.{◌≡◌, ◌↔◌, ◌<◌, true, length, map, IfOk};
ghost use Rattle.qm_history.specs.Common.{System, is_among, node_at, NamesNodes};
ghost use Rattle.qm_history.specs.World.{gone_in, is_none_taken, nodes_where, up_with};
ghost use Rattle.qm_world.specs.Nodes.{is_one};

use qm_history::World;
use qm_kinds::{Name, Node};
use std::alloc::{AllocError, Global};

/// Nodes of the cluster, told by whether each is live.
#[derive(Clone, Copy)]
pub(crate) enum Which {
    /// Those that are up and not live.
    Lost,
    /// Those that are live.
    Live,
}

// Whether the node is one of those.
fn is_one(which: Which, live: bool, node: &Node) -> bool
    ensures { result ≡ is_one which live node.now }
{
    match which {
        Which::Lost => node.up && !live,
        Which::Live => live,
    }
}

// The names of those, in the cluster's order, as far as of each is told whether it is live.
fn names_where(
    alloc: Global,
    which: Which,
    live: &[bool],
    nodes: &[Node],
) -> Result<Vec<Name>, AllocError>
    requires { length live.now ≡ length nodes.now }
    ensures { IfOk result (λ names. names.items ≡ nodes_where (is_one which) live.now nodes.now) }
{
    let mut names = Vec::new(alloc);
    for (place, node) in nodes.iter().enumerate() {
        if is_one(which, live[place], node) {
            names.push(node.name)?;
        }
    }
    Ok(names)
}

// The names of all nodes.
fn names_of_all(alloc: Global, nodes: &[Node]) -> Result<Vec<Name>, AllocError>
    ensures { IfOk result (λ names. names.items ≡ map (λ n. n.name) nodes.now) }
{
    nodes.iter().map(|node| node.name).collect(alloc)
}

// Whether no node of this run of the program has been manager so far.
fn is_none_taken(world: &World) -> bool
    ensures { result ≡ is_none_taken world.now }
{
    world.held.as_slice().iter().all(|epoch| *epoch == 0)
}

// The nodes whose runs a takeover finds lost.
fn gone_in(alloc: Global, world: &World, nodes: &[Node]) -> Result<Vec<Name>, AllocError>
    requires { length world.now.live ≡ length nodes.now }
    ensures { IfOk result (λ names. (s : System) → s.nodes ≡ nodes.now
        → names.items ≡ gone_in world.now s) }
{
    if is_none_taken(world) {
        names_of_all(alloc, nodes)
    } else {
        names_where(alloc, Which::Lost, world.live.as_slice(), nodes)
    }
}

// The nodes that are up from a takeover of this node on.
fn up_with(alloc: Global, world: &World, node: u8, nodes: &[Node]) -> Result<Vec<Name>, AllocError>
    requires within { node < length nodes.now }
    requires live { length world.now.live ≡ length nodes.now }
    ensures { IfOk result (λ names. (s : System) → s.nodes ≡ nodes.now
        → names.items ≡ up_with world.now node s) }
{
    let mut live = Vec::from_slice(alloc, world.live.as_slice())?;
    live[usize::from(node)] = true;
    names_where(alloc, Which::Live, live.as_slice(), nodes)
}

// Whether two lists have the same names, in one order.
fn are_same(a: &[Name], b: &[Name]) -> bool
    ensures { (result ≡ true) ↔ (a.now ≡ b.now) }
{
    a == b
}

// The name of the node of this place.
fn name_of(node: u8, nodes: &[Node]) -> Name
    requires { node < length nodes.now }
    ensures { result ≡ node_at node nodes.now }
{
    nodes[usize::from(node)].name
}

// Whether a name is one of these.
fn is_among(names: &[Name], name: &Name) -> bool
    ensures { result ≡ is_among names.now name.now }
{
    names.iter().any(|other| *name == *other)
}

/// Whether the lists of a takeover say which nodes are gone and which are up, as the rules have it, and name the node among
/// those that may be manager.
pub(crate) fn names_nodes(
    alloc: Global,
    world: &World,
    node: u8,
    nodes: &[Node],
    gone: &[Name],
    up: &[Name],
    may: &[Name],
) -> Result<bool, AllocError>
    requires within { node < length nodes.now }
    requires live { length world.now.live ≡ length nodes.now }
    ensures { IfOk result (λ names. (s : System) → s.nodes ≡ nodes.now
        → (names ≡ true) ↔ NamesNodes world.now s node gone.now up.now may.now) }
{
    if !is_among(may, &name_of(node, nodes)) {
        return Ok(false);
    }
    let lost = gone_in(alloc, world, nodes)?;
    let live = up_with(alloc, world, node, nodes)?;
    Ok(are_same(gone, &lost) && are_same(up, &live))
}
