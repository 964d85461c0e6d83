// Batch jobs: what each of their lines asks for, and `batch_step`, which follows them up to the next report. The lines, and what
// follows from each, are defined in `qm_model`; a step makes no list of lines.
mod cursor;
mod line;
mod moves;
mod parts;
mod step;

pub use cursor::{Cursor, batch_begin};
pub use line::{Line, read_line};
pub use step::batch_step;
