// Calls by item lists, and what each asks for, or what is wrong with it and where.
use crate::commands::{now, tell_input, tell_typed, user};
use qm_kinds::{Input, ParseKind};
use qm_plans::{number_and_rest, push_line, push_times};
use qm_sjc::{CallFault, read_call};
use qm_values::{ItemFault, read_items};
use std::alloc::{AllocError, Global};

// The end of a list, in hexadecimal.
const END: &str = "00000000";

// What becomes of an item of a list.
#[derive(Clone, Copy)]
enum Change {
    // Its value loses its last byte.
    Shorter,
    // Its value has a byte 0 more.
    Longer,
    // It comes twice.
    Twice,
}

const CHANGES: [(&str, Change); 3] = [
    ("shorter", Change::Shorter),
    ("longer", Change::Longer),
    ("twice", Change::Twice),
];

// Adds the bytes of a word in hexadecimal.
fn push_word(alloc: Global, bytes: &mut Vec<u8>, word: &str) -> Result<(), AllocError> {
    match hex::decode(alloc, word) {
        Ok(more) => bytes.extend_from_slice(&more),
        Err(_) => Err(AllocError),
    }
}

// Adds the bytes of words in hexadecimal.
fn push_words(alloc: Global, bytes: &mut Vec<u8>, words: &str) -> Result<(), AllocError> {
    for word in words.split_whitespace() {
        push_word(alloc, bytes, word)?;
    }
    Ok(())
}

/// The bytes of words in hexadecimal.
pub(crate) fn bytes_of(alloc: Global, words: &str) -> Result<Vec<u8>, AllocError> {
    let mut bytes = Vec::new(alloc);
    push_words(alloc, &mut bytes, words)?;
    Ok(bytes)
}

// What stands in front of a mark, and behind it.
fn parted<'a>(text: &'a str, mark: &str) -> (&'a str, &'a str) {
    text.split_once(mark).unwrap_or((text, ""))
}

// What is wrong with bytes that are no list.
fn fault_of(fault: ItemFault) -> CallFault {
    let (place, kind) = match fault {
        ItemFault::Cut { place } => (place, ParseKind::Cut),
        ItemFault::NoEnd { place } => (place, ParseKind::NoEnd),
        ItemFault::After { place } => (place, ParseKind::After),
        ItemFault::NoMemory => return CallFault::NoMemory,
    };
    CallFault::At { place, kind }
}

/// What a call asks for, or what is wrong with it.
#[tactic(auto, using(crate::proofs::Lists::items_are_short))]
pub(crate) fn asked(alloc: Global, function: u16, bytes: &[u8]) -> Result<Input, CallFault> {
    match read_items(alloc, bytes) {
        Ok(items) => read_call(alloc, function, &items, user()),
        Err(fault) => Err(fault_of(fault)),
    }
}

fn tell_fault(alloc: Global, told: &mut Vec<u8>, fault: CallFault) -> Result<(), AllocError> {
    match fault {
        CallFault::At { place, kind } => {
            push_line(told, format!(in alloc; "byte {place}: {kind}")?.as_str())
        }
        CallFault::NoMemory => Err(AllocError),
    }
}

// Tells what a call asks for, or what is wrong with it.
fn tell_call(
    alloc: Global,
    told: &mut Vec<u8>,
    function: u16,
    bytes: &[u8],
) -> Result<(), AllocError> {
    match asked(alloc, function, bytes) {
        Ok(input) => {
            let end = tell_input(alloc, told, &input);
            drop(input);
            end
        }
        Err(fault) => tell_fault(alloc, told, fault),
    }
}

// Tells whether a call asks for something, or what is wrong with it.
fn tell_whether(
    alloc: Global,
    told: &mut Vec<u8>,
    function: u16,
    bytes: &[u8],
) -> Result<(), AllocError> {
    match asked(alloc, function, bytes) {
        Ok(input) => {
            drop(input);
            push_line(told, "asks")
        }
        Err(fault) => tell_fault(alloc, told, fault),
    }
}

// Tells whether a call asks for what is typed, of which this is told.
fn tell_beside_typed(
    alloc: Global,
    told: &mut Vec<u8>,
    function: u16,
    list: &[u8],
    asks: bool,
    typed: &[u8],
) -> Result<(), AllocError> {
    let mut called = Vec::new(alloc);
    tell_call(alloc, &mut called, function, list)?;
    if asks && called.as_slice() == typed {
        push_line(told, "the same")
    } else {
        told.extend_from_slice(&called)?;
        told.extend_from_slice(typed)
    }
}

// Tells whether a call asks for what a command asks for, which stands behind the list and a `$`.
fn tell_same(
    alloc: Global,
    told: &mut Vec<u8>,
    function: u16,
    text: &str,
) -> Result<(), AllocError> {
    let (list, command) = parted(text, " $ ");
    let mut typed = Vec::new(alloc);
    let asks = tell_typed(alloc, &mut typed, command.as_bytes(), now())?;
    tell_beside_typed(alloc, told, function, &bytes_of(alloc, list)?, asks, &typed)
}

// Tells of a list cut to each length.
fn tell_cut(
    alloc: Global,
    told: &mut Vec<u8>,
    function: u16,
    bytes: &[u8],
) -> Result<(), AllocError> {
    push_line(told, "cut")?;
    for end in 0..bytes.len() {
        tell_whether(alloc, told, function, bytes.get(..end).unwrap_or(b""))?;
    }
    Ok(())
}

// Raises the byte at a place by so much.
fn raise(bytes: &mut Vec<u8>, place: usize, by: u8) {
    if let Some(byte) = bytes.get_mut(place) {
        *byte = byte.wrapping_add(by);
    }
}

// Tells of a list with the byte at a place raised by one.
fn tell_raised_at(
    alloc: Global,
    told: &mut Vec<u8>,
    function: u16,
    bytes: &[u8],
    place: usize,
) -> Result<(), AllocError> {
    let mut other = Vec::from_slice(alloc, bytes)?;
    raise(&mut other, place, 1);
    tell_whether(alloc, told, function, &other)
}

// Tells of a list with each of its bytes raised by one.
fn tell_raised(
    alloc: Global,
    told: &mut Vec<u8>,
    function: u16,
    bytes: &[u8],
) -> Result<(), AllocError> {
    push_line(told, "raised")?;
    for place in 0..bytes.len() {
        tell_raised_at(alloc, told, function, bytes, place)?;
    }
    Ok(())
}

// Adds an item that is changed.
fn push_changed(
    alloc: Global,
    bytes: &mut Vec<u8>,
    word: &str,
    change: Change,
) -> Result<(), AllocError> {
    let start = bytes.len();
    push_word(alloc, bytes, word)?;
    match change {
        Change::Shorter => {
            bytes.pop();
            raise(bytes, start, 255);
        }
        Change::Longer => {
            bytes.push(0)?;
            raise(bytes, start, 1);
        }
        Change::Twice => push_word(alloc, bytes, word)?,
    }
    Ok(())
}

// Adds a list with one of its items changed.
fn push_list_changed(
    alloc: Global,
    bytes: &mut Vec<u8>,
    list: &str,
    changed: usize,
    change: Change,
) -> Result<(), AllocError> {
    let mut index = 0usize;
    for word in list.split_whitespace() {
        let end = if index == changed {
            push_changed(alloc, bytes, word, change)
        } else {
            push_word(alloc, bytes, word)
        };
        end?;
        index = index.saturating_add(1);
    }
    Ok(())
}

// Tells of a list with one of its items changed.
fn tell_changed_at(
    alloc: Global,
    told: &mut Vec<u8>,
    function: u16,
    list: &str,
    changed: usize,
    change: Change,
) -> Result<(), AllocError> {
    let mut bytes = Vec::new(alloc);
    push_list_changed(alloc, &mut bytes, list, changed, change)?;
    tell_whether(alloc, told, function, &bytes)
}

// Whether a word is an item, and of a value that can get shorter where it is to.
fn can_change(word: &str, change: Change) -> bool {
    match change {
        Change::Shorter => word != END && !word.starts_with("0000"),
        Change::Longer | Change::Twice => word != END,
    }
}

// Tells of a list with each of its items changed in turn.
fn tell_changed(
    alloc: Global,
    told: &mut Vec<u8>,
    function: u16,
    list: &str,
    change: Change,
) -> Result<(), AllocError> {
    let mut index = 0usize;
    for word in list.split_whitespace() {
        if can_change(word, change) {
            tell_changed_at(alloc, told, function, list, index, change)?;
        }
        index = index.saturating_add(1);
    }
    Ok(())
}

// Tells of the items in front of the end of a list, with one of this code and of the value `1` behind them.
fn tell_beside_code(
    alloc: Global,
    told: &mut Vec<u8>,
    function: u16,
    front: &[u8],
    code: u8,
) -> Result<(), AllocError> {
    let mut more = Vec::from_slice(alloc, front)?;
    more.extend_from_slice(&[1, 0, code, 0, b'1', 0, 0, 0, 0])?;
    tell_whether(alloc, told, function, &more)
}

// Tells of a list with an item of each code behind the others.
fn tell_beside(
    alloc: Global,
    told: &mut Vec<u8>,
    function: u16,
    bytes: &[u8],
) -> Result<(), AllocError> {
    push_line(told, "beside")?;
    let front = bytes.get(..bytes.len().saturating_sub(4)).unwrap_or(b"");
    for code in 0..38u8 {
        tell_beside_code(alloc, told, function, front, code)?;
    }
    Ok(())
}

// Tells of a list with each of its items changed in turn, in each way.
fn tell_all_changed(
    alloc: Global,
    told: &mut Vec<u8>,
    function: u16,
    list: &str,
) -> Result<(), AllocError> {
    for (name, change) in CHANGES {
        push_line(told, name)?;
        tell_changed(alloc, told, function, list, change)?;
    }
    Ok(())
}

// Tells of a list, which has these bytes, that is altered in each way.
fn tell_each_altered(
    alloc: Global,
    told: &mut Vec<u8>,
    function: u16,
    list: &str,
    bytes: &[u8],
) -> Result<(), AllocError> {
    tell_cut(alloc, told, function, bytes)?;
    tell_raised(alloc, told, function, bytes)?;
    tell_all_changed(alloc, told, function, list)?;
    tell_beside(alloc, told, function, bytes)
}

// Tells of a list that is altered in each way.
fn tell_altered(
    alloc: Global,
    told: &mut Vec<u8>,
    function: u16,
    list: &str,
) -> Result<(), AllocError> {
    tell_each_altered(alloc, told, function, list, &bytes_of(alloc, list)?)
}

// Adds a list that has so many times the second word behind the first.
fn push_many(alloc: Global, bytes: &mut Vec<u8>, text: &str) -> Result<(), AllocError> {
    let (times, words) = number_and_rest(text);
    let (front, piece) = parted(words, " ");
    push_words(alloc, bytes, front)?;
    push_times(bytes, times, &bytes_of(alloc, piece)?)?;
    push_word(alloc, bytes, END)
}

// Tells of such a list.
fn tell_many(
    alloc: Global,
    told: &mut Vec<u8>,
    function: u16,
    text: &str,
) -> Result<(), AllocError> {
    let mut bytes = Vec::new(alloc);
    push_many(alloc, &mut bytes, text)?;
    tell_whether(alloc, told, function, &bytes)
}

/// The number of the function that a text begins with, and the list behind it.
pub(crate) fn function_and_list(text: &str) -> (u16, &str) {
    let (number, list) = number_and_rest(text);
    (u16::try_from(number).unwrap_or(0), list)
}

// Tells what a call of these words asks for, or what is wrong with it.
fn tell_words(
    alloc: Global,
    told: &mut Vec<u8>,
    function: u16,
    list: &str,
) -> Result<(), AllocError> {
    tell_call(alloc, told, function, &bytes_of(alloc, list)?)
}

// Tells whether a call of these words asks for something, or what is wrong with it.
fn tell_whether_words(
    alloc: Global,
    told: &mut Vec<u8>,
    function: u16,
    list: &str,
) -> Result<(), AllocError> {
    tell_whether(alloc, told, function, &bytes_of(alloc, list)?)
}

/// Tells of the call of a function what its verb says: what it asks for, or what is wrong with it; whether it asks for what a command
/// asks for; whether it asks for something; or the same of lists that are altered.
pub(crate) fn tell_called(
    alloc: Global,
    told: &mut Vec<u8>,
    verb: &str,
    text: &str,
) -> Result<(), AllocError> {
    let (function, list) = function_and_list(text);
    match verb {
        "same" => tell_same(alloc, told, function, list),
        "altered" => tell_altered(alloc, told, function, list),
        "many" => tell_many(alloc, told, function, list),
        "whether" => tell_whether_words(alloc, told, function, list),
        _ => tell_words(alloc, told, function, list),
    }
}
