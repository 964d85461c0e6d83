// The bytes at which the text of a job is cut.

/// The end of a line.
pub(crate) const LINE_FEED: u8 = 10;

/// The end of a page.
pub(crate) const FORM_FEED: u8 = 12;
