// What rows stand in order of.
ghost use Rattle.std.specs.Prelude.{◌≡◌, Bool};
ghost use Rattle.std.specs.Ordering.{is_eq, is_lt};

use qm_kinds::{Characteristic, Form, Name, Queue, Run};

/// A row with a key of type `K`, of which a table has one row each.
pub trait Keyed<K: Ord> {
    ghost key: { Self → K };

    // the row has this key
    ghost has: { K → Self → Bool };

    // the row's key is greater than this one
    ghost follows: { K → Self → Bool };

    /// The key of the row.
    fn key(&self) -> &K
        ensures { result.now ≡ key self.now };

    ghost has_tests: { (wanted : K) (row : Self) → has wanted row ≡ is_eq (K.cmp (key row) wanted) };

    ghost follows_tests: { (wanted : K) (row : Self) → follows wanted row ≡ is_lt (K.cmp wanted (key row)) };
}

/// Queues stand by name.
impl Keyed<Name> for Queue {
    ghost use Rattle.std.specs.Prelude.{refl, bytes_eq};
    ghost use Rattle.std.specs.Ordering.{is_lt};
    ghost use Rattle.std.specs.Cmp.Lexicographic.{texts_ties};
    ghost use Rattle.qm_model.specs.Find.{name_cmp};

    ghost key = { λ q. q.name };

    ghost has = { λ name q. bytes_eq q.name name };

    ghost follows = { λ name q. is_lt (name_cmp name q.name) };

    fn key(&self) -> &Name {
        &self.name
    }

    ghost has_tests = { λ name q. texts_ties q.name name };

    ghost follows_tests = { λ name q. refl };
}

/// Forms stand by number,
impl Keyed<u16> for Form {
    ghost use Rattle.std.specs.Prelude.{◌==◌, nat_lt};
    ghost use Rattle.std.specs.Cmp.{unsigned_ties};
    ghost use Rattle.qm_keyed.specs.Numbers.{lesser_is};

    ghost key = { λ f. f.number };

    ghost has = { λ number f. f.number == number };

    ghost follows = { λ number f. nat_lt number f.number };

    fn key(&self) -> &u16 {
        &self.number
    }

    ghost has_tests = { λ number f. unsigned_ties f.number number };

    ghost follows_tests = { λ number f. lesser_is number f.number };
}

/// and by name too.
impl Keyed<Name> for Form {
    ghost use Rattle.std.specs.Prelude.{refl, bytes_eq};
    ghost use Rattle.std.specs.Ordering.{is_lt};
    ghost use Rattle.std.specs.Cmp.Lexicographic.{texts_ties};
    ghost use Rattle.qm_model.specs.Find.{name_cmp};

    ghost key = { λ f. f.name };

    ghost has = { λ name f. bytes_eq f.name name };

    ghost follows = { λ name f. is_lt (name_cmp name f.name) };

    fn key(&self) -> &Name {
        &self.name
    }

    ghost has_tests = { λ name f. texts_ties f.name name };

    ghost follows_tests = { λ name f. refl };
}

/// Characteristics stand by number.
impl Keyed<u8> for Characteristic {
    ghost use Rattle.std.specs.Prelude.{◌==◌, nat_lt};
    ghost use Rattle.std.specs.Cmp.{unsigned_ties};
    ghost use Rattle.qm_keyed.specs.Numbers.{lesser_is};

    ghost key = { λ c. c.number };

    ghost has = { λ number c. c.number == number };

    ghost follows = { λ number c. nat_lt number c.number };

    fn key(&self) -> &u8 {
        &self.number
    }

    ghost has_tests = { λ number c. unsigned_ties c.number number };

    ghost follows_tests = { λ number c. lesser_is number c.number };
}

/// Runs stand by number.
impl Keyed<u64> for Run {
    ghost use Rattle.std.specs.Prelude.{◌==◌, nat_lt};
    ghost use Rattle.std.specs.Cmp.{unsigned_ties};
    ghost use Rattle.qm_keyed.specs.Numbers.{lesser_is};

    ghost key = { λ r. r.run };

    ghost has = { λ number r. r.run == number };

    ghost follows = { λ number r. nat_lt number r.run };

    fn key(&self) -> &u64 {
        &self.run
    }

    ghost has_tests = { λ number r. unsigned_ties r.run number };

    ghost follows_tests = { λ number r. lesser_is number r.run };
}
