// What is reported of runs.
use qm_kinds::Mark;

/// What a symbiont reports of a run.
#[derive(Clone, Copy)]
pub enum Reported {
    /// A checkpoint.
    Mark(Mark),
    /// The end, with a completion status.
    End(u32),
}
