// Laws of who is live behind a call.
ghost use Rattle.std.specs.Prelude.{◌≡◌, ◌≢◌, ℕ, false};
ghost use Rattle.qm_history.specs.declared.call.Call.{Call};
ghost use Rattle.qm_history.specs.declared.call.Call.TheVariants as call;
ghost use Rattle.qm_history.specs.declared.turn.Turn.{Turn};
ghost use Rattle.qm_history.specs.declared.world.World.{World};
ghost use Rattle.qm_history.specs.Common.{answer_of, after_turn, IsTurnOf, IsCutShort, is_live, IsSound};
ghost use Rattle.qm_node.specs.Living.{presence_of, live_behind};

/// Whether a node is live behind a call of its own that was served whole is told by the answer.
pub fn answers_tell_who_is_live()
    ensures { (w : World) (asked : Call) (t : Turn)
        → IsSound w → IsTurnOf w asked t
        → is_live (after_turn w t) t.node
        ≡ live_behind (is_live w t.node) (presence_of asked) (answer_of w t) }
{}

/// Whether other nodes are live stays as it was.
pub fn other_nodes_stay()
    ensures whole { (w : World) (asked : Call) (t : Turn) (node : ℕ)
        → IsSound w → node ≢ t.node → IsTurnOf w asked t
        → is_live (after_turn w t) node ≡ is_live w node }
    ensures cut { (w : World) (asked : Call) (t : Turn) (node : ℕ) → node ≢ t.node
        → IsCutShort w asked t → is_live (after_turn w t) node ≡ is_live w node }
{}

/// A node that left isn't live any more, whether its loss has room or not.
pub fn nodes_that_left_are_not_live()
    ensures { (w : World) (t : Turn) → IsTurnOf w call.Leave t
        → is_live (after_turn w t) t.node ≡ false }
{}
