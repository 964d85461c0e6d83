// Laws about which jobs fit a queue, and about the order in which it takes them.
ghost use Rattle.std.specs.Prelude.{◌≡◌, is_none};
ghost use Rattle.qm_kinds.specs.declared.queue.Queue.{Queue};
ghost use Rattle.qm_kinds.specs.declared.entry.Entry.{Entry};
ghost use Rattle.qm_kinds.specs.declared.system.System.{System};
ghost use Rattle.qm_model.specs.Before.{before, IsIrreflexive, IsTotal, IsTransitive};
ghost use Rattle.qm_model.specs.Fitting.{fits, misfit_of};

/// In each queue no job comes before itself, a job that comes before another comes before all that follow that one, and
/// of two jobs of different numbers one comes first.
pub fn order_is_strict_and_total()
    ensures irreflexive { (q : Queue) → IsIrreflexive (before q) }
    ensures transitive { (q : Queue) → IsTransitive (before q) }
    ensures total { (q : Queue) → IsTotal (λ e. e.number) (before q) }
{}

/// A job fits a queue exactly where there is no reason why it doesn't.
pub fn fits_without_a_reason()
    ensures { (s : System) (e : Entry) (q : Queue) → fits s e q ≡ is_none (misfit_of s e q) }
{}
