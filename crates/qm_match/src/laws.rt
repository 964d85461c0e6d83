// What follows for whoever keeps keys in order.
ghost use Rattle.std.specs.Prelude.{◌≡◌, ◌≢◌, ◌||◌, true, false};
ghost use Rattle.qm_model.specs.Common.{Entry, Queue, before};
ghost use Rattle.qm_match.specs.declared.order.Key.{Key};
ghost use Rattle.qm_match.specs.declared.order.Schedule.{Schedule};
ghost use Rattle.qm_match.specs.Keys.{comes_before, key_of, schedule_of};

/// By a queue's schedule the keys of two jobs stand as the queue takes the jobs.
pub fn keys_stand_as_jobs()
    ensures { (q : Queue) (a b : Entry)
        → comes_before (schedule_of q) (key_of a) (key_of b) ≡ before q a b }
{}

/// In each schedule no key comes before itself, a key that comes before another comes before all that follow that one, and
/// of two keys of different numbers one comes first.
pub fn key_order_is_strict_and_total()
    ensures irreflexive { (s : Schedule) (a : Key) → comes_before s a a ≡ false }
    ensures transitive { (s : Schedule) (a b c : Key)
        → comes_before s a b ≡ true → comes_before s b c ≡ true → comes_before s a c ≡ true }
    ensures total { (s : Schedule) (a b : Key)
        → a.number ≢ b.number → (comes_before s a b || comes_before s b a) ≡ true }
{}
