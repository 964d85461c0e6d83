// Forms, characteristics and sets of characteristics.
ghost use Rattle.std.specs.Prelude.{◌≡◌, ◌==◌, ◌<◌, ◌^◌, ◌↔◌, IsTrue, IsBitSet, bit_and, bit_or};

use crate::name::Name;

/// A set of characteristics: the bit `n` says whether the characteristic of number `n` (0 to 127) is in it.
#[derive(Clone, Copy)]
pub struct CharacteristicSet(pub u128);

impl CharacteristicSet {
    /// The set that has no characteristic.
    pub fn new() -> CharacteristicSet
        ensures { result.0 ≡ 0 }
    {
        CharacteristicSet(0)
    }

    /// The set and, in it, the characteristic of this number, which is 0 to 127.
    pub fn insert(self, number: u8) -> CharacteristicSet
        requires { number < 128 }
        ensures { result.0 ≡ bit_or self.0 (2 ^ number) }
    {
        CharacteristicSet(self.0 | 1 << number)
    }

    /// Whether the characteristic of this number, which is 0 to 127, is in the set.
    pub fn contains(self, number: u8) -> bool
        requires { number < 128 }
        ensures { IsTrue result ↔ IsBitSet self.0 number }
    {
        self.0 & (1 << number) != 0
    }

    /// Whether each characteristic of this set is in the other.
    pub fn is_subset(self, of: CharacteristicSet) -> bool
        ensures { result ≡ (bit_and self.0 of.0 == self.0) }
    {
        self.0 & of.0 == self.0
    }
}

/// How text is set on a page. `length` counts lines and `width` columns, margins included.
#[derive(Clone, Copy)]
pub struct Shape {
    pub length: u8,
    pub width: u8,
    pub top: u8,
    pub bottom: u8,
    pub left: u8,
    pub right: u8,
    /// Whether a line that is too long goes on in the next one. Else it is cut.
    pub wrap: bool,
}

/// A form: the paper (its stock) and how text is set on it. Numbers are 0 to 999.
#[derive(Clone, Copy)]
pub struct Form {
    pub name: Name,
    pub number: u16,
    pub stock: Name,
    pub shape: Shape,
}

/// A characteristic that a queue can have and a job can ask for. Numbers are 0 to 127.
#[derive(Clone, Copy)]
pub struct Characteristic {
    pub name: Name,
    pub number: u8,
}
