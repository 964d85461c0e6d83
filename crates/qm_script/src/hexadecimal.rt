// Bytes in hexadecimal, two digits each, of either case.
ghost use Rattle.std.specs.Prelude.{◌≡◌, ◌≢◌, true, false, IfOk, is_some};
ghost use Rattle.std.specs.List.{list_all};
ghost use Rattle.hex.specs.declared.error.FromHexError.TheVariants.{OutOfMemory};
ghost use Rattle.qm_history.specs.Acts.{hex_bytes, hex_digit};
ghost use Rattle.qm_script.specs.Asked.{can_be_added, is_count};

use hex::FromHexError;
use qm_kinds::Seq;
use std::alloc::{AllocError, Global};

/// The most bytes that an act adds to a file.
const BYTES_LIMIT: usize = 65_536;

// Whether a byte is a digit.
fn is_digit(byte: u8) -> bool
    ensures { result ≡ is_some (hex_digit byte) }
{
    matches!(byte, b'0'..=b'9' | b'A'..=b'F' | b'a'..=b'f')
}

// Whether all bytes are digits.
fn are_digits(text: &[u8]) -> bool
    ensures { result ≡ list_all (λ b. is_some (hex_digit b)) text.now }
{
    text.iter().all(|byte| is_digit(*byte))
}

// Whether an act adds so many bytes.
fn is_count(count: usize) -> bool
    ensures { result ≡ is_count count }
{
    1 <= count && count <= BYTES_LIMIT
}

/// Whether a text spells 1 to 65,536 bytes.
#[tactic(auto, using(crate::proofs::HexText::odd_adds_nothing, crate::proofs::HexText::digits_add, crate::proofs::HexText::others_add_nothing))]
pub(crate) fn spells_some(text: &[u8]) -> bool
    ensures { result ≡ can_be_added (hex_bytes text.now) }
{
    if text.len() % 2 == 1 {
        return false;
    }
    is_count(text.len() / 2) && are_digits(text)
}

// Whether memory for the bytes ran out; any other fault is one of the text.
fn is_of_memory(fault: FromHexError) -> bool
    ensures memory { result ≡ true → fault ≡ OutOfMemory }
    ensures text { result ≡ false → fault ≢ OutOfMemory }
{
    matches!(fault, FromHexError::OutOfMemory)
}

/// The bytes that a text spells, if it is pairs of digits. It takes memory in proportion to the text.
#[tactic(auto, using(crate::proofs::HexText::decoded_ok))]
pub(crate) fn read_bytes(alloc: Global, text: &[u8]) -> Result<Option<Seq<u8>>, AllocError>
    ensures { IfOk result (λ bytes. bytes ≡ hex_bytes text.now) }
{
    match hex::decode(alloc, text) {
        Ok(bytes) => Ok(Some(Seq::of(bytes))),
        Err(fault) => {
            if is_of_memory(fault) {
                Err(AllocError)
            } else {
                Ok(None)
            }
        }
    }
}
