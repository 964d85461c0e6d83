// Texts, and which command each is.
use qm_commands::Fault;
use qm_grammar::{Parsed, parse};
use qm_plans::push_line;
use std::alloc::{AllocError, Global};

// Which command a text is, or where it goes wrong, and how.
fn command_told(alloc: Global, parsed: &Parsed) -> Result<String, AllocError> {
    match parsed.command {
        Ok(command) => format!(in alloc; "{command:?}"),
        Err(Fault { place, kind }) => format!(in alloc; "{place} {kind:?}"),
    }
}

/// Tells which command a text is, or what is wrong with it and where; or which command it names, if it names one; or its parts.
pub(crate) fn tell_parsed(
    alloc: Global,
    told: &mut Vec<u8>,
    verb: &str,
    text: &[u8],
) -> Result<(), AllocError> {
    let parsed = parse(alloc, text)?;
    let line = match verb {
        "named" => format!(in alloc; "{:?}", parsed.named)?,
        "parts" => format!(in alloc; "{:?}", parsed.parts)?,
        _ => command_told(alloc, &parsed)?,
    };
    push_line(told, line.as_str())
}
