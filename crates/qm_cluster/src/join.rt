// The end of the nodes' turns: their passes are joined, and the turnstile is closed.
ghost use Rattle.std.specs.Prelude.{◌≡◌, ◌≤◌, [], length, vec_capacity};
ghost use Rattle.std.specs.List.{range_with_len};
ghost use Rattle.qm_cluster.specs.Gathered.{AreGathered, AreHere, SharedStands, all_left, numbers_at, passes_of, texts_at};

use crate::begins::Begins;
use crate::place::TurnstileSeat;
use crate::shared::Shared;
use qm_disk::MemorySink;
use qm_history::Serve;
use qm_node::TurnEnd;
use qm_turn::Turnstile;

/// What is left of a node: how its turns ended, and their text.
#[derive(Drop)]
pub struct LeftText {
    pub end: Result<(), TurnEnd>,
    pub text: MemorySink,
}

/// Joins the passes of all nodes, and closes the turnstile: gives the queue manager that the last turn left, and the texts of the
/// nodes, in their order, for which there is room.
pub(crate) fn join_all<S: Serve, J: Begins<S>>(
    turnstile: Turnstile<Shared<S, J>>,
    mut seats: Vec<TurnstileSeat<S, J>>,
    mut texts: Vec<LeftText>,
) -> (Shared<S, J>, Vec<LeftText>)
    requires here { AreHere turnstile.place seats.items }
    requires numbers { numbers_at seats.items ≡ range_with_len 0 turnstile.passes }
    requires some { 1 ≤ turnstile.passes }
    requires none { texts.items ≡ [] }
    requires room { length seats.items ≤ vec_capacity texts }
    ensures gathered { AreGathered (SharedStands S.meaning J.began) (passes_of seats.items) result.0 }
    ensures texts { all_left result.1.items ≡ texts_at seats.items }
{
    let TurnstileSeat {
        mut pass,
        text,
        end,
    } = seats.remove(0);
    texts.push_reserved(LeftText { end, text });
    'seats: while !seats.is_empty() {
        let TurnstileSeat {
            pass: other,
            text,
            end,
        } = seats.remove(0);
        turnstile.join(&mut pass, other);
        texts.push_reserved(LeftText { end, text });
    }
    (turnstile.close(pass), texts)
}
