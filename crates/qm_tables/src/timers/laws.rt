// What follows for whoever keeps timers.
ghost use Rattle.std.specs.Prelude.{◌≡◌, ◌==◌, ℕ, List, Some, None, if◌then◌else◌};
ghost use Rattle.qm_tables.specs.Timers.{IsInOrder, inserted, timer_of, without};

/// An insertion gives one number its timer, and a removal takes one number's away. All others keep theirs.
pub fn other_numbers_keep_their_timers()
    ensures inserted { (t : ℕ × ℕ) (ts : List (ℕ × ℕ)) (number : ℕ) → timer_of t.1 ts ≡ None
        → timer_of number (inserted t ts) ≡ (if t.1 == number then Some t else timer_of number ts) }
    ensures removed { (gone number : ℕ) (ts : List (ℕ × ℕ))
        → timer_of number (without gone ts) ≡ (if gone == number then None else timer_of number ts) }
{}

/// Timers that are kept have one order: they are the same where each number has the same timer.
pub fn numbers_determine_the_timers()
    ensures { (xs ys : List (ℕ × ℕ)) → IsInOrder xs → IsInOrder ys
        → ((number : ℕ) → timer_of number xs ≡ timer_of number ys) → xs ≡ ys }
{}
