// Bytes that lie in the value itself, so that a name or a mark takes no memory and can be copied.
ghost use Rattle.std.specs.Prelude.{◌≡◌, ◌≤◌, ◌<◌, length, map, take};
ghost use Rattle.std.specs.Char.{to_ascii_uppercase};
ghost use Rattle.qm_kinds.specs.Text.{text_unless};

use crate::fault::NameFault;
use std::marker::Model;

/// At most `CAP` bytes, and at most 255.
#[derive(Clone, Copy)]
pub(crate) struct ShortBytes<const CAP: usize> {
    size: u8,
    bytes: [u8; CAP],
}

impl<const CAP: usize> Model for ShortBytes<CAP> {
    ghost use Rattle.std.specs.Prelude.{IfSome, ◌≡◌, ◌≤◌, ◌-◌, ◌++◌, List, ℕ, length, take, drop, replicate};
    ghost use Rattle.qm_kinds.specs.Padding.{padded_bytes, padded_size};

    ghost Value = { List ℕ };

    ghost view = { λ s. take s.size s.bytes };

    ghost invariant = { λ s. (s.size ≤ CAP) × (length s.bytes ≡ CAP) × (drop s.size s.bytes ≡ replicate (CAP - s.size) 0) };

    ghost inverse = { λ text. record { bytes = text ++ replicate (CAP - length text) 0; size = length text } };

    ghost inverse_ok = { λ s h i. record { bytes = padded_bytes CAP s.size s.bytes h.0 h.1 h.2 i; size = padded_size CAP s.size s.bytes h.0 h.1 i } };
}

impl<const CAP: usize> ShortBytes<CAP> {
    /// These bytes.
    pub(crate) fn new(bytes: &[u8]) -> Self
        requires fits { length bytes.now ≤ CAP }
        requires small { length bytes.now < 256 }
        ensures { result ≡ bytes.now }
    {
        let mut padded = [0; CAP];
        padded[..bytes.len()].copy_from_slice(bytes);
        ShortBytes {
            bytes: padded,
            size: bytes.len() as u8,
        }
    }

    /// These bytes, with small letters raised.
    pub(crate) fn raised(text: &[u8]) -> Self
        requires fits { length text.now ≤ CAP }
        requires small { length text.now < 256 }
        ensures { result ≡ map to_ascii_uppercase text.now }
    {
        let mut raised = [0; CAP];
        for (i, b) in text.iter().enumerate() {
            raised[i] = b.to_ascii_uppercase();
        }
        ShortBytes::new(&raised[..text.len()])
    }

    /// The bytes, and behind them zeros up to `CAP`.
    pub(crate) fn padded(&self) -> &[u8]
        ensures front { take (length self.now) result.now ≡ self.now }
        ensures size { length result.now ≡ CAP }
    {
        &self.bytes
    }

    /// The bytes.
    pub(crate) fn as_bytes(&self) -> &[u8]
        ensures value { result.now ≡ self.now }
        ensures fits { length self.now ≤ CAP }
    {
        &self.bytes[..self.size as usize]
    }
}

/// The bytes of a name or a pattern, with small letters raised, where no bad byte was found.
pub(crate) fn read_text(text: &[u8], bad: Option<usize>) -> Result<ShortBytes<39>, NameFault>
    ensures { result ≡ text_unless bad text.now }
{
    if text.is_empty() {
        return Err(NameFault::Empty);
    }
    if text.len() > 39 {
        return Err(NameFault::TooLong { length: text.len() });
    }
    match bad {
        Some(place) => Err(NameFault::BadByte { place }),
        None => Ok(ShortBytes::raised(text)),
    }
}
