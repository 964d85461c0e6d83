// Fields, as they stand in bytes.
use crate::lines::tell_number;
use qm_bytes::{
    BadField, Width, put_file_name, put_long_bytes, put_mark, put_moment, put_number,
    put_optional_moment, put_optional_name, put_set, put_truth, read_byte, read_file_name,
    read_long_bytes, read_mark, read_moment, read_name, read_number, read_number_up_to,
    read_optional_moment, read_optional_name, read_set, read_truth, take_name, take_number,
};
use qm_kinds::{CharacteristicSet, FileName, Mark, Moment, Name};
use qm_plans::push_line;
use std::alloc::{AllocError, Global};

// One field of each kind up to names.
#[derive(Drop)]
struct Names {
    truth: bool,
    number: u16,
    file: FileName,
    name: Option<Name>,
}

// One field of each other kind but the last.
#[derive(Drop)]
struct Values {
    other: Option<Moment>,
    moment: Moment,
    set: CharacteristicSet,
    mark: Mark,
}

fn read_names(bytes: &mut &[u8]) -> Result<Names, BadField> {
    Ok(Names {
        truth: read_truth(bytes)?,
        number: read_number(bytes, Width::Two)? as u16,
        file: read_file_name(bytes)?,
        name: read_optional_name(bytes)?,
    })
}

fn read_values(bytes: &mut &[u8]) -> Result<Values, BadField> {
    Ok(Values {
        other: read_optional_moment(bytes)?,
        moment: read_moment(bytes)?,
        set: read_set(bytes)?,
        mark: read_mark(bytes)?,
    })
}

fn put_names(out: &mut Vec<u8>, names: &Names) -> Result<(), AllocError> {
    put_truth(out, names.truth)?;
    put_number(out, Width::Two, u64::from(names.number))?;
    put_file_name(out, &names.file)?;
    put_optional_name(out, &names.name)
}

fn put_values(out: &mut Vec<u8>, values: &Values) -> Result<(), AllocError> {
    put_optional_moment(out, values.other)?;
    put_moment(out, values.moment)?;
    put_set(out, values.set)?;
    put_mark(out, &values.mark)
}

// Writes the first fields as they are read, and says whether they could be read.
fn copy_names(bytes: &mut &[u8], out: &mut Vec<u8>) -> Result<bool, AllocError> {
    match read_names(bytes) {
        Ok(names) => {
            put_names(out, &names)?;
            Ok(true)
        }
        Err(_) => Ok(false),
    }
}

// The same of the fields behind them.
fn copy_values(bytes: &mut &[u8], out: &mut Vec<u8>) -> Result<bool, AllocError> {
    match read_values(bytes) {
        Ok(values) => {
            put_values(out, &values)?;
            Ok(true)
        }
        Err(_) => Ok(false),
    }
}

// Writes a text of four bytes at most, and says whether it is one.
fn put_text(out: &mut Vec<u8>, text: &[u8]) -> Result<bool, AllocError> {
    if text.len() > 4 {
        return Ok(false);
    }
    put_long_bytes(out, text)?;
    Ok(true)
}

// The same of the last field, a text.
fn copy_text(alloc: Global, bytes: &mut &[u8], out: &mut Vec<u8>) -> Result<bool, AllocError> {
    match read_long_bytes(alloc, bytes) {
        Ok(Ok(text)) => put_text(out, text.as_slice()),
        Ok(Err(fault)) => Err(fault),
        Err(_) => Ok(false),
    }
}

// The same of all fields.
fn copy_fields(alloc: Global, bytes: &mut &[u8], out: &mut Vec<u8>) -> Result<bool, AllocError> {
    Ok(copy_names(bytes, out)? && copy_values(bytes, out)? && copy_text(alloc, bytes, out)?)
}

/// Tells whether one field of each kind, one behind the other, is written as it was read.
pub(crate) fn tell_copied(
    alloc: Global,
    told: &mut Vec<u8>,
    bytes: &[u8],
) -> Result<(), AllocError> {
    let mut rest = bytes;
    let mut out = Vec::new(alloc);
    let are_copied = copy_fields(alloc, &mut rest, &mut out)?;
    let is_same = are_copied && rest.is_empty() && out.as_slice() == bytes;
    push_line(
        told,
        if is_same {
            "the same"
        } else {
            "something else"
        },
    )
}

// Tells a number that was taken, and the place behind it.
fn tell_taken(
    alloc: Global,
    told: &mut Vec<u8>,
    number: u64,
    next: usize,
) -> Result<(), AllocError> {
    push_line(told, format!(in alloc; "{number}, then {next}")?.as_str())
}

/// Tells the number of so many bytes, one or two, that is taken at a place.
pub(crate) fn tell_number_at(
    alloc: Global,
    told: &mut Vec<u8>,
    bytes: &[u8],
    (count, place): (usize, usize),
) -> Result<(), AllocError> {
    let width = if count == 1 { Width::One } else { Width::Two };
    match take_number(bytes, place, width) {
        Some((number, next)) => tell_taken(alloc, told, number, next),
        None => push_line(told, "none"),
    }
}

/// Tells the place behind the name that is taken at a place.
pub(crate) fn tell_name_at(
    alloc: Global,
    told: &mut Vec<u8>,
    bytes: &[u8],
    place: usize,
) -> Result<(), AllocError> {
    match take_name(bytes, place) {
        Some((_name, next)) => tell_number(alloc, told, "then", next as u64),
        None => push_line(told, "none"),
    }
}

// How many bytes are left where a reader stops.
fn left_by<T: Drop>(outcome: Result<T, BadField>) -> Option<usize> {
    match outcome {
        Err(fault) => Some(fault.left),
        Ok(_) => None,
    }
}

// How many bytes are left where the reader of such a field stops.
fn left_in(alloc: Global, field: &str, bytes: &[u8]) -> Option<usize> {
    let mut rest = bytes;
    match field {
        "name-in" => left_by(read_name(&mut rest)),
        "moment-in" => left_by(read_moment(&mut rest)),
        "number-in" => left_by(read_number_up_to(&mut rest, Width::Two, 512)),
        "text-in" => left_by(read_long_bytes(alloc, &mut rest)),
        _ => left_by(read_byte(&mut rest, 0, 1)),
    }
}

/// Tells how many bytes are left where the reader of such a field stops: of a name, a moment, a number of two bytes up to 512, a
/// text with its length, or a byte up to 1.
pub(crate) fn tell_stop(
    alloc: Global,
    told: &mut Vec<u8>,
    field: &str,
    bytes: &[u8],
) -> Result<(), AllocError> {
    match left_in(alloc, field, bytes) {
        Some(left) => push_line(told, format!(in alloc; "{left} left")?.as_str()),
        None => push_line(told, "read"),
    }
}
