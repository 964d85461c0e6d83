// Worked cases of the outside, the device and the log, as tests: what each crash leaves, also behind a call that
// failed; files that are judged at their gates; a stop within an append; each call of the device failing; what is asked of
// real files, of readers, of writers and of clocks.

mod clocks;
mod crashes;
mod files;
mod site_files;
mod stops;
mod streams;
mod told;
