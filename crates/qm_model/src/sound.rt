// Laws about what keeps a system consistent.
ghost use Rattle.std.specs.Prelude.{ℕ};
ghost use Rattle.qm_kinds.specs.declared.system.System.{System};
ghost use Rattle.qm_model.specs.Consistent.{IsConsistent};
ghost use Rattle.qm_model.specs.Applied.{at_moment};
ghost use Rattle.qm_model.specs.Due.{due};
ghost use Rattle.qm_model.specs.Laws.{ChangesKeepConsistent, IsBuiltOfNode, KeepConsistent};
ghost use Rattle.qm_model.specs.Lawful.{IsLawful};
ghost use Rattle.qm_model.specs.Settling.{settled};

/// A consistent system stays so when the jobs that can start are started.
pub fn settling_keeps_consistent()
    ensures { (s : System) → IsConsistent s → IsConsistent (settled s).system }
{}

/// A consistent system stays so when what is due at a moment is done, also where that moment becomes its last one.
pub fn due_keeps_consistent()
    ensures due { (s : System) (now : ℕ) → IsConsistent s → IsConsistent (due now s) }
    ensures found { (s : System) (now : ℕ) → IsConsistent s → IsConsistent (due now (at_moment now s)) }
{}

/// A consistent system stays so at every accepted request that is lawful.
pub fn requests_keep_consistent()
    ensures { KeepConsistent IsLawful }
{}

/// A consistent system stays so at every accepted request that is built and comes from one of its nodes.
pub fn built_requests_keep_consistent()
    ensures { KeepConsistent IsBuiltOfNode }
{}

/// The change of a request that is built and comes from one of its nodes leaves a consistent system consistent, where nothing
/// refuses the request: also before the jobs that can start are started.
pub fn built_changes_keep_consistent()
    ensures { ChangesKeepConsistent IsBuiltOfNode }
{}
