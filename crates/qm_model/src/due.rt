// What a moment leaves as it is.
ghost use Rattle.std.specs.Prelude.{◌≡◌, map};
ghost use Rattle.qm_model.specs.Due.{due, entry_at, WhereNothingIsDue};

/// Where no job's moment has come, nothing changes.
pub fn what_is_not_due_stays()
    ensures system { WhereNothingIsDue (λ s now. due now s ≡ s) }
    ensures entries { WhereNothingIsDue (λ s now. map (entry_at now) s.entries ≡ s.entries) }
{}
