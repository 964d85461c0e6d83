// Cases as the lines of a table: what is done, a `|`, and what is told of it.
use std::alloc::{AllocError, Global};
use std::process::Abort;

/// What the lines of a table are about.
pub(crate) trait Cases {
    /// Does what a text says, and tells what comes of it.
    fn told_of(&mut self, alloc: Global, text: &str) -> Result<String, AllocError>;
}

/// Each line of a table has, behind its `|`, what is told of the text in front of it.
pub(crate) fn assert_told<R: Abort, C: Cases>(
    rt: &R,
    alloc: Global,
    cases: &mut C,
    table: &str,
) -> Result<(), AllocError> {
    for line in table.lines() {
        let (text, wanted) = line.split_once("|").unwrap_or((line, ""));
        let told = cases.told_of(alloc, text)?;
        assert_eq!(rt; told.as_str(), wanted, "{text}");
    }
    Ok(())
}

/// The number that a text is.
pub(crate) fn number(text: &str) -> u64 {
    text.parse::<u64>().unwrap_or(0)
}

/// The bytes whose numbers a text names.
pub(crate) fn bytes(alloc: Global, text: &str) -> Result<Vec<u8>, AllocError> {
    let mut bytes = Vec::new(alloc);
    for word in text.split_whitespace() {
        bytes.push(word.parse::<u8>().unwrap_or(0))?;
    }
    Ok(bytes)
}
