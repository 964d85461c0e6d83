// Laws of the texts of moments.
ghost use Rattle.std.specs.Prelude.{◌≡◌, ◌≤◌, ℕ, List, length, Ok, Err, IfOk};
ghost use Rattle.qm_kinds.specs.declared.moment.TheConstants.{LAST_MOMENT};
ghost use Rattle.qm_model.specs.MomentText.{moment_text, without_blank};
ghost use Rattle.qm_time.specs.Moments.{moment_at};
ghost use Rattle.qm_time.specs.Laws.{SameUpTo};
ghost use Rattle.qm_time.specs.declared.moment.TheConstants.{TIME_BYTES};
ghost use Rattle.qm_time.specs.declared.fault.TimeFault.TheVariants.{Form};

/// What is printed of a moment, without the blank before a day of one digit, reads back to the moment, whatever the
/// present one is.
pub fn printed_moments_read_back()
    ensures { (moment now : ℕ) → moment ≤ LAST_MOMENT
        → moment_at (without_blank (moment_text moment)) now ≡ Ok moment }
{}

/// A fault of form depends on the bytes up to its place alone: with them no time goes on, whatever stands behind.
pub fn no_time_goes_on_at_a_fault()
    ensures { (text other : List ℕ) (now place : ℕ) → moment_at text now ≡ Err (Form place)
        → SameUpTo place text other → moment_at other now ≡ Err (Form place) }
{}

/// No time has more than `TIME_BYTES` bytes.
pub fn times_are_short()
    ensures { (text : List ℕ) (now : ℕ)
        → IfOk (moment_at text now) (λ _. length text ≤ TIME_BYTES) }
{}
