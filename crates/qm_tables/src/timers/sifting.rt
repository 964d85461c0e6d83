// Some of the timers of a list are taken out, in one pass.
ghost use Rattle.std.specs.Prelude.{◌≡◌, ◌≤◌, ℕ, Bool, filter, vec_len, vec_capacity};
ghost use Rattle.qm_tables.specs.Timers.{later_than};

use crate::timers::places::Timer;
use qm_kinds::Moment;

/// Keeps the timers whose moment hasn't come.
pub(crate) fn keep_later(timers: &mut Vec<Timer>, now: Moment)
    ensures items { timers.new.items ≡ later_than now timers.old.items }
    ensures len { vec_len timers.new ≤ vec_len timers.old }
    ensures capacity { vec_capacity timers.new ≡ vec_capacity timers.old }
{
    timers.retain(|timer| now < timer.0);
}

/// Keeps the timers of those numbers that are to be kept.
pub(crate) fn keep_numbers<F: Fn(u32) -> bool>(timers: &mut Vec<Timer>, keeps: &F)
    ghost kept: { ℕ → Bool }
    requires call { F.IsAlwaysCallable keeps.now }
    requires answers { (number : ℕ) (answer : Bool) → F.post keeps.now number answer → answer ≡ kept number }
    ensures items { timers.new.items ≡ filter (λ t. kept t.1) timers.old.items }
    ensures len { vec_len timers.new ≤ vec_len timers.old }
    ensures capacity { vec_capacity timers.new ≡ vec_capacity timers.old }
{
    timers.retain(|timer| keeps(timer.1));
}
