// What the runs of a node have to do.
ghost use Rattle.std.specs.Prelude.{ℕ, List, All};
ghost use Rattle.qm_kinds.specs.declared.system.System.{System};
ghost use Rattle.qm_model.specs.Consistent.{IsConsistent};
ghost use Rattle.qm_model.specs.Duties.{duties, HasProperWork};

/// In a consistent system each work that a node gets can be carried out, whatever node it is and whatever works it has.
pub fn duties_have_proper_works()
    ensures { (s : System) (node known : List ℕ) → IsConsistent s → All HasProperWork (duties s node known) }
{}
