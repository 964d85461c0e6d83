// The rule of the turnstile's table, and what each kind of step tells.

use crate::told::Told;
use crate::view::View;
use atomic_table::{Join, Play, Split, TableRule};
use std::marker::{Brand, PhantomData};

/// The turns have one order, and each pass knows its part of it. The key is the number of passes.
pub struct Order<V> {
    value: PhantomData<V>,
}

impl<V: Told> TableRule<Option<V>, View<V::Note>, u32> for Order<V> {
    ghost use Rattle.qm_turn.specs.Rule.{Kept, first_view};

    ghost holds = { λ passes. Kept V.stands passes };

    ghost first = { λ passes. first_view };
}

/// A ticket is drawn.
pub struct Draw;

impl<V, N> Play<Option<V>, View<N>> for Draw {
    ghost use Rattle.qm_turn.specs.Rule.{Draws};

    ghost then = { Draws };
}

/// The number that is served is compared with the ticket.
pub struct Look<V> {
    value: PhantomData<V>,
}

impl<V: Told> Play<Option<V>, View<V::Note>> for Look<V> {
    ghost use Rattle.qm_turn.specs.Rule.{Looks};

    ghost then = { Looks V.stands };
}

/// The note of a turn. Each call of `pass_on` picks it.
pub trait Noted<N> {
    ghost use Rattle.std.specs.Prelude.{List};

    // The note alone.
    ghost made: { List N };
}

impl<N> Noted<N> for Brand {
    ghost use Rattle.std.specs.Prelude.{[]};

    ghost made = { [] };
}

/// A turn ends.
pub struct PassOn<J> {
    note: PhantomData<J>,
}

impl<V, N, J: Noted<N>> Play<Option<V>, View<N>> for PassOn<J> {
    ghost use Rattle.qm_turn.specs.Rule.{PassesOn};

    ghost then = { PassesOn J.made };
}

/// The number of turns that have ended is read.
pub struct News;

impl<V, N> Play<Option<V>, View<N>> for News {
    ghost use Rattle.qm_turn.specs.Rule.{Hears};

    ghost then = { Hears };
}

/// A new pass gets the next number.
pub struct NextNumber;

impl<N> Split<View<N>> for NextNumber {
    ghost use Rattle.qm_turn.specs.Rule.{one_given, newcomer};

    ghost left = { one_given };

    ghost right = { newcomer };
}

/// One pass takes in another.
pub struct Together;

impl<N> Join<View<N>> for Together {
    ghost use Rattle.qm_turn.specs.Rule.{both, spent_view};

    ghost both = { both };

    ghost spent = { spent_view };
}
