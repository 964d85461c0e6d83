// How many runs there are at most.
ghost use Rattle.std.specs.Prelude.{◌≡◌};
ghost use Rattle.qm_tables.specs.declared.runs.limits.TheConstants.{MOST_RUNS};

/// How many runs there can be at once: as many as 32 bits count.
pub(crate) const MOST_RUNS: usize = 4_294_967_295;

/// There can be as many runs at once as 32 bits count, and no fewer.
pub fn runs_are_counted_in_32_bits()
    ensures { MOST_RUNS ≡ 4294967295 }
{}
