// A pass: what one thread takes its turns with.
ghost use Rattle.std.specs.Prelude.{◌≡◌};
ghost use Rattle.qm_turn.specs.Rule.{IsResting, known};

use crate::told::Told;
use crate::view::View;
use atomic_table::Seat;
use std::marker::Model;

/// What a thread takes its turns with. Contracts see a `Known`: its turnstile, its number, the history as it has
/// seen it, the notes of its own turns, and the numbers and notes of the passes that were joined into it.
pub struct Pass<V, N> {
    pub(crate) seat: Seat<Option<V>, View<N>>,
    pub(crate) turns: u32,
}

impl<V, N> Model for Pass<V, N> {
    ghost use Rattle.std.specs.Prelude.{◌≡◌, [], length};
    ghost use Rattle.qm_turn.specs.Turns.{Known};
    ghost use Rattle.qm_turn.specs.declared.view.Phase.TheVariants.{Rests};

    ghost Value = { Known N };

    ghost view = { λ p. record {
      place = p.seat.table_id;
      number = p.seat.me.0.number;
      seen = p.seat.me.0.seen;
      mine = p.seat.me.0.mine;
      took = p.seat.me.0.took;
    } };

    ghost invariant = { λ p. (p.seat.me.1 ≡ []) × (p.seat.me.0.phase ≡ Rests) × (p.seat.me.0.heard ≡ []) × (p.turns ≡ length p.seat.me.0.mine) };
}

impl<V, N> Pass<V, N> {
    // The seat, which rests.
    pub(crate) fn into_seat(self) -> Seat<Option<V>, View<N>>
        ensures known { known result.table_id result.me.0 ≡ self }
        ensures rests { IsResting result.me }
    {
        let Self { seat, turns: _ } = self;
        seat
    }
}

impl<V, N> Drop for Pass<V, N> {
    fn drop(self) {
        let Self { seat: _, turns: _ } = self;
    }
}

/// A pass of a turnstile over a `V`.
pub type PassOf<V> = Pass<V, <V as Told>::Note>;

/// The pass has made 4,294,967,295 turns, and makes no more.
#[derive(Clone, Copy, Debug, Drop, PartialEq, Eq)]
pub struct TurnsSpent;
