// A node that waits for its turn at the turnstile.

use crate::begins::Begins;
use crate::shared::Shared;
use qm_history::{Answer, Call, Serve};
use qm_kinds::Moment;
use qm_node::Ask;
use qm_turn::{PassOf, Task, TurnsSpent, Turnstile};
use std::marker::{Model, PhantomData};
use std::sync::Wait;

/// One call of a node, at a moment that its clock told. Contracts see a `CallOfNode`.
#[derive(Drop)]
struct Asking<S: Serve, J: Begins<S>> {
    node: u8,
    now: Moment,
    call: Call,
    shared: PhantomData<Shared<S, J>>,
}

impl<S: Serve, J: Begins<S>> Model for Asking<S, J> {
    ghost use Rattle.qm_history.specs.Common.{IsAskable, input_of};
    ghost use Rattle.qm_cluster.specs.Sharing.{CallOfNode, IsThere};

    ghost Value = { CallOfNode };

    ghost view = { λ a. record { node = a.node; now = a.now; call = a.call } };

    ghost invariant = { λ a. IsThere S.meaning J.began a.node × IsAskable (input_of a.call) };
}

impl<S: Serve, J: Begins<S>> Task<Shared<S, J>> for Asking<S, J> {
    ghost use Rattle.qm_history.specs.Chest.{turns_kept};
    ghost use Rattle.qm_cluster.specs.Sharing.{Asks, MayBegin, note_of};

    type Answer = Answer;

    ghost note = { λ task before after answer. note_of task.call (S.meaning.turns before.manager) (S.meaning.turns after.manager) answer };

    ghost does = { λ task before after answer. Asks S.meaning.tells (MayBegin S.meaning J.began) turns_kept task (S.meaning.turns before.manager) (S.meaning.turns after.manager) answer };

    fn work(self, shared: &mut Shared<S, J>) -> Answer {
        let Asking {
            node,
            now,
            call,
            shared: _,
        } = self;
        shared.manager.serve(node, now, call)
    }
}

/// A node's pass at the turnstile behind which the queue manager stands.
#[derive(Drop)]
pub(crate) struct Waiting<'a, R, S: Serve, J: Begins<S>> {
    pub(crate) rt: &'a R,
    pub(crate) turnstile: &'a Turnstile<Shared<S, J>>,
    pub(crate) pass: &'a mut PassOf<Shared<S, J>>,
}

impl<'a, R: Wait, S: Serve, J: Begins<S>> Ask for Waiting<'a, R, S, J> {
    ghost use Rattle.std.specs.Prelude.{◌≡◌, ◌<◌, ◌-◌, ◌^◌, length};
    ghost use Rattle.qm_history.specs.Chest.{turns_kept};
    ghost use Rattle.qm_cluster.specs.Passing.{CanPass, IsTurnMade};
    ghost use Rattle.qm_cluster.specs.Sharing.{IsThere, MayBegin};

    ghost can_ask = { λ waiting node. CanPass waiting.turnstile.now.place node waiting.pass.now × IsThere S.meaning J.began node };

    // The pass had its turn, and the node waits by the same pass at the same turnstile.
    ghost asks = { λ old new node now asked told.
        IsTurnMade S.meaning.tells (MayBegin S.meaning J.began) turns_kept old.pass.now new.pass.now node now asked told
        × (new.pass.ghost_name ≡ old.pass.ghost_name) × (new.turnstile ≡ old.turnstile) };

    fn ask(&mut self, node: u8, now: Moment, call: Call) -> Answer {
        let asking: Asking<S, J> = Asking {
            node,
            now,
            call,
            shared: PhantomData,
        };
        match self.turnstile.turn(self.rt, &mut *self.pass, asking) {
            Ok(answer) => answer,
            Err(TurnsSpent) => unreachable!(),
        }
    }
}
