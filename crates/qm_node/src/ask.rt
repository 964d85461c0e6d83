// Whom a node asks.
ghost use Rattle.std.specs.Prelude.{ℕ};
ghost use Rattle.qm_history.specs.Common.{IsAskable, input_of, ShowsDuties};
ghost use Rattle.qm_history.specs.declared.call.Answer.{Answer as AnyAnswer};
ghost use Rattle.qm_history.specs.declared.call.Call.{Call as AnyCall};

use qm_history::{Answer, Call};
use qm_kinds::Moment;

/// Whom a node asks, one call at a time: the queue manager itself, or a pass at the turnstile behind which it stands.
pub trait Ask {
    /// The node of this number can ask it.
    ghost can_ask: { Self → ℕ → Type 0 };

    /// What it is before and behind a call of this node, at this reading of the node's clock, which it answers so.
    ghost asks: { Self → Self → ℕ → ℕ → AnyCall → AnyAnswer → Type 0 };

    /// Asks for what a call wants, and gives the answer.
    fn ask(&mut self, node: u8, now: Moment, call: Call) -> Answer
        requires can { can_ask self.old node }
        requires askable { IsAskable (input_of call) }
        ensures asks { asks self.old self.new node now call result }
        ensures duties { ShowsDuties result };
}
