// Turns that change nothing, and texts and courses of histories.
ghost use Rattle.std.specs.Prelude.{◌≡◌, ◌<◌, ℕ, true, List, []};
ghost use Rattle.qm_history.specs.declared.turn.Turn.{Turn};
ghost use Rattle.qm_history.specs.declared.world.World.{World};
ghost use Rattle.qm_history.specs.Happening.{has_fence};
ghost use Rattle.qm_history.specs.Legal.{after_turn};
ghost use Rattle.qm_history.specs.Text.{text, text_of_node, visit_text};
ghost use Rattle.qm_history.specs.Visits.{Visit};
ghost use Rattle.qm_history.specs.World.{is_live};
ghost use Rattle.qm_history.specs.Laws.{OfSoundTurns};
ghost use Rattle.qm_history.specs.CourseLaws.{BeginsWithFirst, CompactionsMayCome, CoursesAreOfOwnTurns, CoursesStayBehindOthers, FollowsTurns, IsFenceAlone, IsListed, LineReader, OfEachCompaction, OfOtherEpochs, StandsBetween, StaysLegalWith, StaysLegalWithout, text_answered, VisitsFollow, RowPrinter};

/// TICK and COMPACT of a node that holds another epoch than the present manager's change nothing: the turn holds the fence
/// alone, or the node is down.
pub fn other_epochs_are_fenced()
    ensures world { OfOtherEpochs (λ w t role. after_turn w t ≡ w) }
    ensures fenced { OfOtherEpochs (λ w t role. is_live w t.node ≡ true → IsFenceAlone w t role) }
{}

/// A turn that holds a fence changes nothing.
pub fn fenced_turns_change_nothing()
    ensures { OfSoundTurns (λ w t. has_fence t.events ≡ true → after_turn w t ≡ w) }
{}

/// A legal history stays legal without a turn that holds a compaction alone, and with one more where that turn is legal, as it
/// is at a live node that holds the manager's epoch. All other turns are made in the same worlds, so their answers, listings
/// and duties stay.
pub fn compactions_can_go_and_come()
    ensures go { OfEachCompaction StaysLegalWithout }
    ensures come { OfEachCompaction StaysLegalWith }
    ensures may_come { CompactionsMayCome }
    ensures with_it { OfEachCompaction StandsBetween }
    ensures without_it { (w : World) (before behind : List Turn) → VisitsFollow w before behind }
{}

/// The transcript of a history is that of its turns, one behind another; and so is what stands in it of one node.
pub fn texts_follow_turns()
    ensures none { (items_line : RowPrinter) (w : World) → text items_line w [] ≡ [] }
    ensures one { (items_line : RowPrinter) → BeginsWithFirst items_line }
    ensures two { (items_line : RowPrinter) → FollowsTurns (text items_line) }
    ensures node { (items_line : RowPrinter) (node : ℕ) → FollowsTurns (text_of_node items_line node) }
{}

/// What is printed of a turn is the text of its answer, whoever says how a row is printed by its items, where the turn shows no
/// row of a call by an item list.
pub fn turns_tell_their_answers()
    ensures { (items_line : RowPrinter) (v : Visit) → IsListed v → visit_text items_line v ≡ text_answered v }
{}

/// The course of a node is one of its own turns alone, each in the world in which it is made. So it stays where other nodes'
/// turns come behind, and two histories in which the node makes the same turns in the same worlds have the same courses.
pub fn courses_are_of_own_turns()
    ensures own { (reads : LineReader) → CoursesAreOfOwnTurns reads }
    ensures behind { (reads : LineReader) → CoursesStayBehindOthers reads }
{}
