// The checkpoint of a job.
ghost use Rattle.std.specs.Prelude.{◌≡◌, ◌≤◌, length, nat_eq};
ghost use Rattle.std.specs.Cmp.{partial_equiv_from_equiv};
ghost use Rattle.std.specs.Cmp.Lexicographic.{pointwise, nat_list_eq_equiv};
ghost use Rattle.qm_kinds.specs.Text.{mark_of};

use crate::fault::MarkFault;
use crate::short_bytes::ShortBytes;
use std::marker::Model;

/// A checkpoint of a job: at most 255 bytes, none before the first checkpoint.
#[derive(Clone, Copy)]
pub struct Mark {
    bytes: ShortBytes<255>,
}

impl Model for Mark {
    ghost use Rattle.std.specs.Prelude.{ℕ, List, length, ◌≤◌};

    ghost Value = { List ℕ };

    ghost view = { λ m. m.bytes };

    ghost invariant = { λ m. length m.bytes ≤ 255 };

    ghost inverse = { λ bytes. record { bytes = bytes } };
}

impl Mark {
    /// The mark of these bytes.
    pub fn new(bytes: &[u8]) -> Result<Mark, MarkFault>
        ensures { result ≡ mark_of bytes.now }
    {
        if bytes.len() > 255 {
            return Err(MarkFault::TooLong {
                length: bytes.len(),
            });
        }
        Ok(Mark {
            bytes: ShortBytes::new(bytes),
        })
    }

    /// The bytes of the mark.
    pub fn as_bytes(&self) -> &[u8]
        ensures value { result.now ≡ self.now }
        ensures few { length self.now ≤ 255 }
    {
        self.bytes.as_bytes()
    }
}

impl PartialEq for Mark {
    ghost eq = { pointwise nat_eq };

    ghost laws = { partial_equiv_from_equiv nat_list_eq_equiv };

    fn eq(&self, other: &Self) -> bool {
        self.as_bytes() == other.as_bytes()
    }
}

impl Eq for Mark {
    ghost laws = { nat_list_eq_equiv };
}
