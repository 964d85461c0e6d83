// What definitions of other crates cite.
ghost use Rattle.std.specs.Prelude.{◌≡◌};
ghost use Rattle.qm_kinds.specs.declared.limits.TheConstants.{TEXT_LIMIT};

/// A script has 16,777,216 bytes at most. Definitions cite the number by its name, so here it is said.
pub fn a_script_has_a_limit()
    ensures { TEXT_LIMIT ≡ 16777216 }
{}
