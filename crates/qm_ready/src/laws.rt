// What follows for whoever keeps rows.
ghost use Rattle.std.specs.Prelude.{◌≡◌, ◌≤◌, ℕ, List, IsSome, length, option_map};
ghost use Rattle.std.specs.Ordering.{nat_cmp};
ghost use Rattle.qm_model.specs.Common.{Entry, Queue, System, IsInOrder, entry_numbered, next_job};
ghost use Rattle.qm_match.specs.declared.order.Key.{Key};
ghost use Rattle.qm_match.specs.declared.order.Schedule.{Schedule};
ghost use Rattle.qm_match.specs.Keys.{schedule_of};
ghost use Rattle.qm_ready.specs.Rows.{HasNumbersOnce, IsRow, first_number, key_numbered};
ghost use Rattle.qm_ready.specs.Jobs.{IsRowOf, fitting};

/// Keys that are kept have one order: two rows of one schedule are the same where each number has the same key.
pub fn numbers_determine_the_row()
    ensures { (s : Schedule) (xs ys : List Key) → IsRow s xs → IsRow s ys
        → ((number : ℕ) → key_numbered number xs ≡ key_numbered number ys) → xs ≡ ys }
{}

/// The first key of the row of those jobs that fit a queue is that of the job which the queue starts next.
pub fn the_first_key_is_the_next_job()
    ensures { (s : System) (q : Queue) (keys : List Key) → IsInOrder nat_cmp (λ e. e.number) s.entries
        → IsRowOf (schedule_of q) (fitting s q) keys
        → first_number keys ≡ option_map (λ e. e.number) (next_job s q) }
{}

/// There are no more keys than entries, where each number that has a key is that of an entry.
pub fn keys_are_no_more()
    ensures { (keys : List Key) (entries : List Entry) → HasNumbersOnce keys
        → ((number : ℕ) → IsSome (key_numbered number keys) → IsSome (entry_numbered number entries))
        → length keys ≤ length entries }
{}
