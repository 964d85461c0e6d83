// Requests for files, forms and characteristics, and listings.
ghost use Rattle.std.specs.Prelude.{◌≡◌, ◌∷◌, [], option_map};
ghost use Rattle.qm_kinds.specs.Files.{file_name_of};
ghost use Rattle.qm_values.specs.Asked.{read_in, append_of, fill_of, form_of, define_form, define_characteristic, query_of};
ghost use Rattle.qm_values.specs.Values.{definable_name_said};

use crate::codes::*;
use crate::items::Item;
use crate::reading::{
    definable_name_in, file_in, pattern_in, shape_in, short_in, short_name_in, small_in,
};
use qm_kinds::{Characteristic, Form, Kinds, Listing, Pattern, Query, Request, Seq, Shape};

/// Bytes are added to a file.
pub(crate) fn append_of(items: &[Item], bytes: Option<Seq<u8>>) -> Option<Request>
    ensures { result ≡ append_of items.now bytes }
{
    let file = file_in(items, FILE)?;
    let bytes = bytes?;
    Some(Request::Append { file, bytes })
}

/// Lines are added to a file.
pub(crate) fn fill_of(items: &[Item]) -> Option<Request>
    ensures { result ≡ fill_of items.now }
{
    let file = file_in(items, FILE)?;
    let lines = short_in(items, LINES)?;
    Some(Request::Fill { file, lines })
}

/// A file is deleted.
pub(crate) fn drop_of(items: &[Item]) -> Option<Request>
    ensures { result ≡ option_map Request.Drop (read_in file_name_of FILE items.now) }
{
    let file = file_in(items, FILE)?;
    Some(Request::Drop { file })
}

// The shape of a form for which none is given.
const DEFAULT_SHAPE: Shape = Shape {
    length: 66,
    width: 132,
    top: 0,
    bottom: 6,
    left: 0,
    right: 0,
    wrap: false,
};

/// A new form, whose stock has by default its name.
pub(crate) fn define_form(items: &[Item]) -> Option<Request>
    ensures { result ≡ define_form items.now }
{
    let name = definable_name_in(items, NAME)?;
    let number = short_in(items, NUMBER)?;
    Some(Request::DefineForm(Form {
        name,
        number,
        stock: short_name_in(items, STOCK).unwrap_or(name),
        shape: shape_in(items, SHAPE).unwrap_or(DEFAULT_SHAPE),
    }))
}

/// A new characteristic.
pub(crate) fn define_characteristic(items: &[Item]) -> Option<Request>
    ensures { result ≡ define_characteristic items.now }
{
    let name = definable_name_in(items, NAME)?;
    let number = small_in(items, NUMBER)?;
    Some(Request::DefineCharacteristic(Characteristic { name, number }))
}

/// A form is deleted.
pub(crate) fn delete_form(items: &[Item]) -> Option<Request>
    ensures { result ≡ option_map Request.DeleteForm (read_in definable_name_said NAME items.now) }
{
    let name = definable_name_in(items, NAME)?;
    Some(Request::DeleteForm { name })
}

/// A characteristic is deleted.
pub(crate) fn delete_characteristic(items: &[Item]) -> Option<Request>
    ensures { result
        ≡ option_map Request.DeleteCharacteristic (read_in definable_name_said NAME items.now) }
{
    let name = definable_name_in(items, NAME)?;
    Some(Request::DeleteCharacteristic { name })
}

const ALL_KINDS: Kinds = Kinds {
    batch: true,
    print: true,
    generic_batch: true,
    generic_print: true,
};

// The pattern that each name matches.
fn any_name() -> Pattern
    ensures { result ≡ 42 ∷ [] }
{
    Pattern::read(b"*").unwrap()
}

/// The question for a listing, row by row, whatever its user and kind.
pub fn query_of(listing: Listing, items: &[Item]) -> Query
    ensures { result ≡ query_of listing items.now }
{
    Query {
        listing,
        pattern: pattern_in(items, SEARCH).unwrap_or(any_name()),
        number: None,
        user: None,
        kinds: ALL_KINDS,
        queue: None,
        after: None,
        single: true,
    }
}
