// Which nodes a site can have.
ghost use Rattle.std.specs.Prelude.{◌≡◌, ◌≤◌, true, nat_le, length, bytes_eq};
ghost use Rattle.std.specs.List.{list_any, list_all};
ghost use Rattle.qm_kinds.specs.declared.name.TheConstants.{NODE_NAME_BYTES};
ghost use Rattle.qm_restore.specs.Site.{are_distinct, are_nodes};

use qm_kinds::{NODE_NAME_BYTES, NODES_LIMIT, Name, Node};

// Whether one of the nodes has the name.
fn has_name(name: &Name, nodes: &[Node]) -> bool
    ensures { result ≡ list_any (λ other. bytes_eq name.now other.name) nodes.now }
{
    nodes.iter().any(|other| *name == other.name)
}

// Whether each node has a name of its own.
fn are_distinct(nodes: &[Node]) -> bool
    ensures { result ≡ are_distinct nodes.now }
{
    for (i, node) in nodes.iter().enumerate() {
        if has_name(&node.name, &nodes[i + 1..]) {
            return false;
        }
    }
    true
}

// Whether each node has a short name.
fn are_short(nodes: &[Node]) -> bool
    ensures { result ≡ list_all (λ node. nat_le (length node.name) NODE_NAME_BYTES) nodes.now }
{
    nodes
        .iter()
        .all(|node| node.name.as_bytes().len() <= NODE_NAME_BYTES)
}

/// Whether a site can have these nodes: at least one and not too many, each under a short name of its own.
pub(crate) fn are_nodes(nodes: &[Node]) -> bool
    ensures { result ≡ are_nodes nodes.now }
{
    !nodes.is_empty() && nodes.len() <= NODES_LIMIT && are_short(nodes) && are_distinct(nodes)
}
