// Laws of what an answer says of the listings of a node.
ghost use Rattle.std.specs.Prelude.{◌≡◌, ℕ, List, [], ◌∷◌, ◌++◌};
ghost use Rattle.qm_history.specs.Common.{Row, answered, IsTurnOf, Visit};
ghost use Rattle.qm_history.specs.declared.call.Call.{Call};
ghost use Rattle.qm_history.specs.Scans.{Scans, behind_turn, no_scans, scans_of};
ghost use Rattle.qm_history.specs.Text.{answer_lines, first_line_of, takeover_lines, told_takeover, turn_lines};
ghost use Rattle.qm_scans.specs.Behind.{behind_answer, is_single, step_of};

/// What a turn leaves of its node's listings is told by the call and its answer, where the call was served whole.
pub fn answers_tell_of_scans()
    ensures { (s : Scans) (v : Visit) (asked : Call) → IsTurnOf v.before asked v.turn
        → behind_turn s v ≡ behind_answer s (step_of asked) (answered v) }
{}

/// So is what is printed of it: a row is printed as its items just where the call asked for one by an item list.
pub fn answers_tell_how_rows_are_printed()
    ensures { (items_line : Row → List ℕ) (v : Visit) (asked : Call)
        → IsTurnOf v.before asked v.turn
        → turn_lines items_line v.before v.turn ≡ takeover_lines (told_takeover (answered v))
        ++ answer_lines items_line (first_line_of v.turn.why) (is_single (step_of asked))
        (answered v) }
{}

/// A node has begun no listing before its first turn, and each turn moves what the ones before left.
pub fn scans_follow_visits()
    ensures none { scans_of [] ≡ no_scans }
    ensures more { (visits : List Visit) (v : Visit)
        → scans_of (visits ++ v ∷ []) ≡ behind_turn (scans_of visits) v }
{}
