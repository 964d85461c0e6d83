// What a call by an item list asks for.
ghost use Rattle.std.specs.Prelude.{◌≡◌, IfOk};
ghost use Rattle.qm_model.specs.Texts.{cut_at_blank};
ghost use Rattle.qm_sjc.specs.Meant.{items_mean};
ghost use Rattle.qm_history.specs.Reading.{function_of, is_function, items_by, items_from, with_scans};
ghost use Rattle.qm_history.specs.Acts.{hex_bytes};

use crate::act::fault;
use crate::hexadecimal::read_bytes;
use crate::script::cut_at_blank;
use qm_kinds::{Input, Name, ParseKind, RequestKind};
use qm_scans::Scans;
use qm_sjc::read_item_list;
use qm_time::plain_number_up_to;
use std::alloc::{AllocError, Global};

/// The greatest number that is read of a function.
const FUNCTION_LIMIT: u64 = 65_535;

// Whether a number is that of a function: of a request, or of a listing.
fn is_function(number: u16) -> bool
    ensures { result ≡ is_function number }
{
    RequestKind::of(number).is_some() || matches!(number, 41..=47)
}

// The function that a number names.
fn function_of(text: &[u8]) -> Option<u16>
    ensures { result ≡ function_of text.now }
{
    match plain_number_up_to(FUNCTION_LIMIT, text) {
        Some(number) if is_function(number as u16) => Some(number as u16),
        _ => None,
    }
}

// A query goes on with the listing of its function that was begun.
fn with_scans(scans: &Scans, input: Input) -> Input
    ensures { result ≡ with_scans scans.now input }
{
    let Input::Show(query) = input else {
        return input;
    };
    Input::Show(scans.scanned(query))
}

// What a function asks for with a list of items in hexadecimal.
fn items_by(
    alloc: Global,
    function: u16,
    digits: &[u8],
    user: Name,
    scans: &Scans,
) -> Result<Input, AllocError>
    ensures { IfOk result (λ input. input
        ≡ items_by items_mean user scans.now (Some function) (hex_bytes digits.now)) }
{
    let Some(bytes) = read_bytes(alloc, digits)? else {
        return Ok(fault(ParseKind::Hex));
    };
    let asked = read_item_list(alloc, function, bytes.as_slice(), user)?;
    Ok(with_scans(scans, asked))
}

/// What the text of a call by an item list asks for: a function number, a blank and the bytes in hexadecimal, at a node that has begun
/// these listings. It takes memory in proportion to the text.
pub fn items_asked(
    alloc: Global,
    text: &[u8],
    user: Name,
    scans: &Scans,
) -> Result<Input, AllocError>
    ensures { IfOk result (λ input. input
        ≡ items_from items_mean user scans.now (cut_at_blank text.now)) }
{
    let Some((number, digits)) = cut_at_blank(text) else {
        return Ok(fault(ParseKind::Form));
    };
    let Some(function) = function_of(number) else {
        return Ok(fault(ParseKind::Form));
    };
    items_by(alloc, function, digits, user, scans)
}
