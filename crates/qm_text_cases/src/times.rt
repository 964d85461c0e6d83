// Moments as texts, printed and read.
use crate::lines::{tell_bytes, tell_moment};
use qm_kinds::Moment;
use qm_plans::push_line;
use qm_time::{print_time, read_time, text_of};
use std::alloc::{AllocError, Global};

// Half past one in the afternoon and some, in hundredths of a second from 17-NOV-1858: 13:45 and some seconds of a day in 2026.
const NOW: u64 = 530_250_391_025;

fn at(hundredths: u64) -> Moment {
    Moment::new(hundredths).unwrap_or(Moment::BASE)
}

// Tells the text of a moment that was printed, and whether its text in place is another.
fn tell_printed(told: &mut Vec<u8>, printed: &[u8], moment: Moment) -> Result<(), AllocError> {
    if printed != text_of(moment).as_str().as_bytes() {
        push_line(told, "two texts")?;
    }
    tell_bytes(told, printed)
}

/// Tells the text of a moment.
pub(crate) fn tell_day(
    alloc: Global,
    told: &mut Vec<u8>,
    hundredths: u64,
) -> Result<(), AllocError> {
    let moment = at(hundredths);
    tell_printed(told, &print_time(alloc, moment)?, moment)
}

/// Tells the moment that a text is read as, in hundredths of a second, or its fault.
pub(crate) fn tell_time(alloc: Global, told: &mut Vec<u8>, text: &[u8]) -> Result<(), AllocError> {
    match read_time(text, at(NOW)) {
        Ok(moment) => tell_moment(alloc, told, moment),
        Err(fault) => push_line(told, format!(in alloc; "{fault}")?.as_str()),
    }
}
