// The pages of print jobs: a `Cursor` goes through the blocks of a job one by one, and `print_step` hands the next one over. The
// blocks are defined in `qm_model`; a step costs what its block holds.
mod begin;
mod blocks;
mod cursor;
mod line;
mod page;
mod step;

pub use begin::{cursor_behind, print_begin};
pub use blocks::page_blocks;
pub use cursor::{Cursor, next_block};
pub use step::print_step;
