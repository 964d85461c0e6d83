// Lines that are told.
use qm_kinds::Moment;
use qm_plans::push_line;
use std::alloc::{AllocError, Global};

/// Tells bytes on a line.
pub(crate) fn tell_bytes(told: &mut Vec<u8>, bytes: &[u8]) -> Result<(), AllocError> {
    told.extend_from_slice(bytes)?;
    push_line(told, "")
}

/// Adds pieces, one behind the other.
pub(crate) fn push_pieces(text: &mut Vec<u8>, pieces: &[&str]) -> Result<(), AllocError> {
    for piece in pieces {
        text.extend_from_slice(piece.as_bytes())?;
    }
    Ok(())
}

/// Tells pieces, one behind the other, on a line.
pub(crate) fn tell_pieces(told: &mut Vec<u8>, pieces: &[&str]) -> Result<(), AllocError> {
    push_pieces(told, pieces)?;
    push_line(told, "")
}

/// Tells a moment, in hundredths of a second.
pub(crate) fn tell_moment(
    alloc: Global,
    told: &mut Vec<u8>,
    moment: Moment,
) -> Result<(), AllocError> {
    push_line(told, format!(in alloc; "{}", moment.hundredths())?.as_str())
}

/// Tells a text and a number behind it.
pub(crate) fn tell_number(
    alloc: Global,
    told: &mut Vec<u8>,
    text: &str,
    number: u64,
) -> Result<(), AllocError> {
    push_line(told, format!(in alloc; "{text} {number}")?.as_str())
}
