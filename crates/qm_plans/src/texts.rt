// Bytes as the text of a plan: `\n` is a line feed, `\x` and two digits of sixteen any byte.
use std::alloc::{AllocError, Global};

// The value of a digit of sixteen.
fn digit(letter: u8) -> u8 {
    match letter {
        b'a'..=b'f' => letter.wrapping_sub(b'a').wrapping_add(10),
        _ => letter.wrapping_sub(b'0'),
    }
}

// Adds what a text means that stands behind a `\`.
fn push_marked(bytes: &mut Vec<u8>, text: &[u8]) -> Result<(), AllocError> {
    match text {
        [b'n', rest @ ..] => {
            bytes.push(b'\n')?;
            bytes.extend_from_slice(rest)
        }
        [b'x', high, low, rest @ ..] => {
            bytes.push(digit(*high).wrapping_mul(16).wrapping_add(digit(*low)))?;
            bytes.extend_from_slice(rest)
        }
        _ => bytes.extend_from_slice(text),
    }
}

/// Adds the bytes that a text means.
pub fn push_bytes(bytes: &mut Vec<u8>, text: &str) -> Result<(), AllocError> {
    for (place, piece) in text.split("\\").enumerate() {
        if place == 0 {
            bytes.extend_from_slice(piece.as_bytes())?;
        } else {
            push_marked(bytes, piece.as_bytes())?;
        }
    }
    Ok(())
}

/// The number that a text begins with, and what stands behind the blank behind it.
pub fn number_and_rest(text: &str) -> (usize, &str) {
    let (number, rest) = text.split_once(" ").unwrap_or((text, ""));
    (number.parse::<usize>().unwrap_or(0), rest)
}

/// Adds these bytes so many times.
pub fn push_times(bytes: &mut Vec<u8>, times: usize, more: &[u8]) -> Result<(), AllocError> {
    for _ in 0..times {
        bytes.extend_from_slice(more)?;
    }
    Ok(())
}

/// Adds a line.
pub fn push_line(bytes: &mut Vec<u8>, line: &str) -> Result<(), AllocError> {
    bytes.extend_from_slice(line.as_bytes())?;
    bytes.push(b'\n')?;
    Ok(())
}

/// The numbers that a text names.
pub fn numbers(alloc: Global, text: &str) -> Result<Vec<u64>, AllocError> {
    let mut numbers = Vec::new(alloc);
    for word in text.split_whitespace() {
        numbers.push(word.parse::<u64>().unwrap_or(0))?;
    }
    Ok(numbers)
}
