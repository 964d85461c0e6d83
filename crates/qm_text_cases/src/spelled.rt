// The one full spelling of what a command, or a call by an item list, asks for.
use crate::commands::{is_told_of, now, tell_typed, user};
use crate::items::{asked, bytes_of, function_and_list};
use crate::lines::tell_bytes;
use qm_dcl::read_command;
use qm_kinds::{Input, Moment};
use qm_plans::push_line;
use qm_spelling::{PrintFault, print_command};
use std::alloc::{AllocError, Global};

// The spelling of an input, where some command asks for it.
fn spelling(alloc: Global, input: &Input) -> Result<Option<Vec<u8>>, AllocError> {
    match print_command(alloc, input) {
        Ok(text) => Ok(Some(text)),
        Err(PrintFault::NoCommand) => Ok(None),
        Err(PrintFault::NoMemory) => Err(AllocError),
    }
}

// Whether a text and a spelling, which is read at another moment, ask for the same.
fn asks_for_the_same(alloc: Global, text: &[u8], spelled: &[u8]) -> Result<bool, AllocError> {
    let mut typed = Vec::new(alloc);
    tell_typed(alloc, &mut typed, text, now())?;
    is_told_of(alloc, spelled, Moment::BASE, &typed)
}

// Tells the spelling of what a text asks for, and whether that reads to something else at another moment.
fn tell_beside(
    alloc: Global,
    told: &mut Vec<u8>,
    text: &[u8],
    spelled: &[u8],
) -> Result<(), AllocError> {
    tell_bytes(told, spelled)?;
    if asks_for_the_same(alloc, text, spelled)? {
        Ok(())
    } else {
        push_line(told, "which reads to something else")
    }
}

// The same of a text that was read.
fn tell_input(
    alloc: Global,
    told: &mut Vec<u8>,
    text: &[u8],
    input: &Input,
) -> Result<(), AllocError> {
    match spelling(alloc, input)? {
        Some(spelled) => tell_beside(alloc, told, text, &spelled),
        None => push_line(told, "no spelling"),
    }
}

/// Tells the full spelling of what a text asks for, and whether that reads to something else at another moment.
pub(crate) fn tell_spelling(
    alloc: Global,
    told: &mut Vec<u8>,
    text: &[u8],
) -> Result<(), AllocError> {
    match read_command(alloc, text, user(), now()) {
        Ok(input) => {
            let end = tell_input(alloc, told, text, &input);
            drop(input);
            end
        }
        Err(_) => push_line(told, "no command"),
    }
}

// Tells the full spelling of what a call asks for, if some command asks for it too.
fn tell_called(alloc: Global, told: &mut Vec<u8>, input: &Input) -> Result<(), AllocError> {
    match spelling(alloc, input)? {
        Some(spelled) => tell_bytes(told, &spelled),
        None => push_line(told, "no spelling"),
    }
}

// The same of the call of a function with a list of these bytes.
fn tell_call(
    alloc: Global,
    told: &mut Vec<u8>,
    function: u16,
    bytes: &[u8],
) -> Result<(), AllocError> {
    match asked(alloc, function, bytes) {
        Ok(input) => {
            let end = tell_called(alloc, told, &input);
            drop(input);
            end
        }
        Err(_) => push_line(told, "no call"),
    }
}

/// Tells the full spelling of what a call asks for, if some command asks for it too.
pub(crate) fn tell_called_spelling(
    alloc: Global,
    told: &mut Vec<u8>,
    text: &str,
) -> Result<(), AllocError> {
    let (function, list) = function_and_list(text);
    tell_call(alloc, told, function, &bytes_of(alloc, list)?)
}
