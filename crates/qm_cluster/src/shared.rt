// A queue manager as the value of a turnstile.

use crate::begins::Begins;
use crate::noted::Noted;
use qm_history::Serve;
use qm_turn::Told;
use std::marker::PhantomData;

/// A queue manager that nodes share in turns, and that began so.
#[derive(Drop)]
pub struct Shared<S, J> {
    pub manager: S,
    pub began: PhantomData<J>,
}

impl<S: Serve, J: Begins<S>> Told for Shared<S, J> {
    ghost use Rattle.qm_cluster.specs.Sharing.{HasStood, MayBegin, StandsFor};

    type Note = Noted;

    ghost stands = { λ shared notes. StandsFor S.meaning.tells (MayBegin S.meaning J.began) S.meaning.turns (HasStood S.meaning J.began) shared.manager notes };
}
