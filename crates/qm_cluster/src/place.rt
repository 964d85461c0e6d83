// A node at the turnstile.
ghost use Rattle.std.specs.Prelude.{◌≡◌, ◌≤◌, [], length, map, vec_capacity};
ghost use Rattle.qm_cluster.specs.Through.{all_at, first_at};

use crate::begins::Begins;
use crate::noted::Noted;
use crate::shared::Shared;
use qm_disk::MemorySink;
use qm_history::Serve;
use qm_node::TurnEnd;
use qm_turn::{Pass, PassOf};
use std::alloc::Global;

/// A node at the turnstile: its pass, the text of its answers, and how its turns ended.
#[derive(Drop)]
pub(crate) struct TurnstileSeat<S, J> {
    pub(crate) pass: Pass<Shared<S, J>, Noted>,
    pub(crate) text: MemorySink,
    pub(crate) end: Result<(), TurnEnd>,
}

/// A seat for each pass, in their order, where there is room for all.
pub(crate) fn seats_of<S: Serve, J: Begins<S>>(
    alloc: Global,
    mut passes: Vec<PassOf<Shared<S, J>>>,
    mut seats: Vec<TurnstileSeat<S, J>>,
) -> Vec<TurnstileSeat<S, J>>
    requires none { seats.items ≡ [] }
    requires room { length passes.items ≤ vec_capacity seats }
    ensures { all_at result.items ≡ map first_at passes.items }
{
    'passes: while !passes.is_empty() {
        seats.push_reserved(TurnstileSeat {
            pass: passes.remove(0),
            text: MemorySink::new(alloc, Vec::new(alloc)),
            end: Ok(()),
        });
    }
    seats
}
