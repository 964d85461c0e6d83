// The chest.
ghost use Rattle.std.specs.Prelude.{◌≤◌, vec_len};
ghost use Rattle.qm_history.specs.Chest.{turns_kept};

use crate::members::Members;
use crate::work::Work;
use qm_history::Turn;
use std::alloc::Global;

/// How many turns are kept at most.
pub const TURNS_KEPT: usize = 1_000_000;

/// The value on which the nodes make their turns: what it works with, what it keeps of the nodes, and its turns.
#[derive(Drop)]
pub struct Chest<D> {
    pub(crate) alloc: Global,
    pub(crate) state: State<D>,
    pub(crate) turns: Vec<Turn>,
    ghost few: { vec_len turns ≤ turns_kept },
}

/// What the chest works with, and what it keeps of the nodes.
#[derive(Drop)]
pub struct State<D> {
    pub(crate) members: Members,
    pub(crate) work: Work<D>,
}
