// The numbers that definitions cite by their names.
ghost use Rattle.std.specs.Prelude.{◌≡◌};
ghost use Rattle.qm_kinds.specs.declared.limits.TheConstants.{TEXT_LIMIT};
ghost use Rattle.qm_symb.specs.declared.symbiont.TheConstants.{DEVICE_FAULT_STATUS};

/// A run whose device failed ends with status 1028, and the text of a work has at most 16,777,216 bytes.
pub fn runs_have_limits()
    ensures fault { DEVICE_FAULT_STATUS ≡ 1028 }
    ensures text { TEXT_LIMIT ≡ 16777216 }
{}
