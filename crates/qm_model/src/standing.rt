// Laws about where entries stand.
ghost use Rattle.std.specs.Prelude.{◌≡◌, All};
ghost use Rattle.qm_kinds.specs.declared.entry.Entry.{Entry};
ghost use Rattle.qm_kinds.specs.declared.system.System.{System};
ghost use Rattle.qm_model.specs.Consistent.{IsConsistent};
ghost use Rattle.qm_model.specs.Standing.{IsNotAborting, IsNotRunning, OfEachAborting, OfEachRunning, StandsInOne, stands_in};

/// In a consistent system each entry stands in exactly one queue. An entry that runs or is aborting stands where it runs,
/// and any other in its home.
pub fn entries_stand_in_one_queue()
    ensures one { (s : System) → IsConsistent s → All (StandsInOne s.queues) s.entries }
    ensures running { OfEachRunning (λ e queue. stands_in e ≡ queue) }
    ensures aborting { OfEachAborting (λ e queue. stands_in e ≡ queue) }
    ensures at_home { (e : Entry) → IsNotRunning e → IsNotAborting e → stands_in e ≡ e.home }
{}
