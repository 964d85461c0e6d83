// Laws of files of records: what `open` finds is determined by the bytes.
ghost use Rattle.std.specs.Prelude.{◌≡◌, ℕ, List};
ghost use Rattle.qm_glog.specs.Records.{IsLog, IsDamaged};
ghost use Rattle.qm_kinds.specs.declared.limits.TheConstants.{GREATEST_CAP};

/// A file is the log of one list of records.
pub fn one_list()
    ensures { (file : List ℕ) (a b : List (List ℕ)) → IsLog file a → IsLog file b → a ≡ b }
{}

/// A file that is a log isn't damaged.
pub fn sound_if_log()
    ensures { (file : List ℕ) (a : List (List ℕ)) (place : ℕ) → IsLog file a → IsDamaged file place → ⊥ }
{}

/// A file is damaged at one place.
pub fn one_place()
    ensures { (file : List ℕ) (p q : ℕ) → IsDamaged file p → IsDamaged file q → p ≡ q }
{}

/// A log takes at most 268,435,456 bytes, however great a cap it is given. Definitions cite the number by its name, so here
/// it is said.
pub fn a_log_has_a_greatest_cap()
    ensures { GREATEST_CAP ≡ 268435456 }
{}
