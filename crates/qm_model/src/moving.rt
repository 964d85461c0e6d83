// Laws about the moment and the numbers of a system.
ghost use Rattle.std.specs.Prelude.{◌≡◌, ◌≤◌, ◌+◌, length};
ghost use Rattle.qm_model.specs.Laws.{OfEachAccepted, OfEachBuilt, node_names};

/// An accepted request makes its moment the last one, which so never falls where no request comes with an earlier moment.
/// Each job that it starts takes one run number, and no number of an entry is given back.
pub fn requests_move_on()
    ensures last { OfEachAccepted (λ s now a. a.system.last ≡ now) }
    ensures later { OfEachAccepted (λ s now a. s.last ≤ now → s.last ≤ a.system.last) }
    ensures runs { OfEachAccepted (λ s now a. a.system.next_run ≡ s.next_run + length a.reply.started) }
    ensures entries { OfEachAccepted (λ s now a. s.next_entry ≤ a.system.next_entry) }
{}

/// No request takes a node's name or its place in the cluster, and a request that is built leaves the nodes as they are.
pub fn nodes_keep_their_names()
    ensures names { OfEachAccepted (λ s now a. node_names a.system ≡ node_names s) }
    ensures built { OfEachBuilt (λ s now a. a.system.nodes ≡ s.nodes) }
{}
