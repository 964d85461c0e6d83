// What the passes of all nodes know together, behind the joins.
ghost use Rattle.std.specs.Prelude.{◌≡◌, ◌≤◌, ◌<◌, ◌++◌, ◌∷◌, [], List, Option, ℕ, flat_map, map};
ghost use Rattle.std.specs.List.{AllByRecursion};
ghost use mathlib.Core.List.{IsPrefix};
ghost use Rattle.qm_history.specs.Common.{Input, Row, unread_of, Extent, IsCourse, NodeEnd, UserLine, Visit, visits_of};
ghost use Rattle.qm_history.specs.declared.world.World.{World};
ghost use Rattle.qm_history.specs.Text.{text_of_node};
ghost use Rattle.qm_turn.specs.History.{Agrees, notes, notes_by, numbers_of, times};
ghost use Rattle.qm_turn.specs.Turns.{Known, Joined, own};
ghost use Rattle.qm_cluster.specs.declared.noted.Noted.{Noted};
ghost use Rattle.qm_cluster.specs.Driving.{HasDriven, hidden_by};
ghost use Rattle.qm_cluster.specs.Passes.{AreOfTheirNodes, AreOwn, IsOfNode, KnowOwnTurns, TakesIn, turns_in, unread_in, unread_known};
ghost use Rattle.qm_cluster.specs.Sharing.{note_view};

/// A pass that took others in, one behind another, has seen all that it and each of them had; and it knows all that each of them
/// knew of its own turns and of those of the passes that it had taken in.
pub fn passes_see_beginnings()
    ensures first { (others : List (Known Noted)) (before after : Known Noted) → TakesIn before others after
        → IsPrefix before.seen after.seen }
    ensures others { (others : List (Known Noted)) (before after : Known Noted) → TakesIn before others after
        → AllByRecursion (λ (other : Known Noted). IsPrefix other.seen after.seen) others }
    ensures own { (others : List (Known Noted)) (before after : Known Noted) → TakesIn before others after
        → own after ≡ own before ++ flat_map own others }
    ensures one_more { (others : List (Known Noted)) (before other between after : Known Noted)
        → TakesIn before others between
        → Joined between other after → TakesIn before (others ++ other ∷ []) after }
{}

/// In a closed history, where the notes of each number that was given are known and no other number has any, the notes of each
/// number have turns of that node alone, if those that are known do.
pub fn closed_histories_have_known_turns()
    ensures { (log : List (ℕ × Noted)) (passes : ℕ) (pairs : List (ℕ × List Noted)) → Agrees log pairs
        → KnowOwnTurns pairs
        → ((k : ℕ) → k < passes → 1 ≤ times k (numbers_of pairs))
        → ((k : ℕ) → passes ≤ k → notes_by k log ≡ [])
        → (k : ℕ) → AllByRecursion (IsOfNode k) (notes_by k log) }
{}

/// Where the notes of each number have turns of that node alone, each turn is of the node whose pass made it. Then the turns of a
/// node are all of its own pass, in the whole history and in each beginning of it.
pub fn turns_are_of_the_nodes_of_their_passes()
    ensures each { (log : List (ℕ × Noted)) → ((k : ℕ) → AllByRecursion (IsOfNode k) (notes_by k log))
        → AreOfTheirNodes log }
    ensures own { (node : ℕ) (log : List (ℕ × Noted)) → AreOfTheirNodes log → AreOwn node log }
    ensures begins { (node : ℕ) (seen log : List (ℕ × Noted)) → IsPrefix seen log
        → AreOwn node log → AreOwn node seen }
{}

/// A pass that knows all turns of its node knows the node's course and text, as they are in the whole history.
pub fn courses_and_texts_are_whole()
    ensures visits { (node : ℕ) (w : World) (seen log : List (ℕ × Noted)) → IsPrefix seen log
        → AreOwn node log → notes_by node log ≡ notes_by node seen
        → visits_of node w (turns_in log) ≡ visits_of node w (turns_in seen) }
    ensures course { (read : UserLine → ℕ → List Visit → List ℕ → Input) (extent : Extent)
        (node : ℕ) (w : World) (seen log : List (ℕ × Noted)) (lines : List UserLine) (faults : ℕ)
        → visits_of node w (turns_in log) ≡ visits_of node w (turns_in seen)
        → IsCourse read extent w (turns_in seen) node lines faults
        → IsCourse read extent w (turns_in log) node lines faults }
    ensures text { (items_line : Row → List ℕ) (node : ℕ) (w : World) (seen log : List (ℕ × Noted))
        → visits_of node w (turns_in log) ≡ visits_of node w (turns_in seen)
        → text_of_node items_line node w (turns_in log) ≡ text_of_node items_line node w (turns_in seen) }
{}

/// In a closed history, where the notes of each number that was given are known and no other number has any, no more turns hide a
/// disk that failed than the notes that are known tell. A pass whose node made its turns knows of one at most, its last one, where
/// the node ended for want of memory or at a damaged file.
pub fn closed_histories_hide_what_passes_know()
    ensures closed { (log : List (ℕ × Noted)) (passes : ℕ) (pairs : List (ℕ × List Noted)) → Agrees log pairs
        → ((k : ℕ) → k < passes → 1 ≤ times k (numbers_of pairs))
        → ((k : ℕ) → passes ≤ k → notes_by k log ≡ [])
        → unread_of (map note_view (notes log)) ≤ unread_known pairs }
    ensures driven { (most node : ℕ) (stopped : NodeEnd) (old new : Known Noted) (told then : Option (List ℕ))
        → HasDriven most node stopped old new told then → unread_in new.mine ≤ hidden_by stopped }
{}
