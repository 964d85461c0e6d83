// What crashes leave of the log.
ghost use Rattle.std.specs.Prelude.{◌≡◌, ◌⊎◌, List, Some, Contains};
ghost use Rattle.qm_kinds.specs.declared.record.Record.{Record};
ghost use Rattle.qm_history.specs.declared.turn.Turn.{Turn};
ghost use Rattle.qm_history.specs.declared.world.World.{World};
ghost use Rattle.qm_history.specs.Happening.{Begins, AreOneOrTwo, acknowledged};
ghost use Rattle.qm_history.specs.Leaving.{MayBeLeft, MayBeLeftBehind, MayBeLeftIn, IsLeftWithin};
ghost use Rattle.qm_history.specs.Legal.{IsLegalTurn};
ghost use Rattle.qm_history.specs.World.{IsSound};
ghost use Rattle.qm_history.specs.Laws.{AreAccepted, BeginSoundBehindCrashes, CrashesLeaveAccepted, IsLeftBehind, LeavesBeginning, OfEachEventLeft, OfEachLeft, OfEachLeftBehind, OfSoundTurns, WasFound};
ghost use Rattle.qm_history.specs.FileLaws.{FilesHoldOneSystem, OfEachStart, StartsHaveHeldSystem};

use qm_model::nodes_keep_their_names;

/// A turn has one event or two. Of two, the first is a takeover, or the node comes up or goes, and the second is no takeover.
pub fn turns_have_one_event_or_two()
    ensures { (w : World) (t : Turn) → IsLegalTurn w t → AreOneOrTwo t.events }
{}

/// A crash at any moment of a turn leaves a log with which a program can begin. It begins with the log before the turn, so each
/// acknowledged record is there; and it is a beginning of the log behind the turn, with what is in doubt there, or the log
/// before the turn with the record that was in doubt then. A crash behind a turn leaves such a log too.
pub fn crashes_leave_a_beginning()
    ensures accepted { OfSoundTurns (λ w t. AreAccepted (MayBeLeft w t)) }
    ensures holds { (w : World) (t : Turn) (log : List Record) → MayBeLeft w t log → Begins w.log log }
    ensures beginning { (w : World) (t : Turn) → IsLegalTurn w t → LeavesBeginning w t }
    ensures behind { (w : World) → IsSound w → AreAccepted (MayBeLeftBehind w) }
{
    nodes_keep_their_names();
}

/// A program that begins on what a crash within a turn left goes on from it: in a sound world, whose log holds the record of
/// each request that was done before, of each takeover that stood, and each one in doubt that a reading had found.
pub fn programs_go_on_after_crashes()
    ensures sound { BeginSoundBehindCrashes }
    ensures acknowledged { OfEachEventLeft (λ w before e r log. acknowledged e ≡ Some r → Contains log r) }
    ensures kept { OfEachEventLeft (λ w before e r log. WasFound w before e r → Contains log r) }
{
    nodes_keep_their_names();
}

/// A crash at any moment of a legal history leaves an accepted log, which begins with the log before the history. It is what may
/// be left within one of its turns, or behind the last one; so the laws of one turn say which records are there.
pub fn crashes_of_histories_are_of_turns()
    ensures accepted { CrashesLeaveAccepted }
    ensures holds { OfEachLeft (λ w turns log. Begins w.log log) }
    ensures moment { OfEachLeft (λ w turns log. IsLeftWithin w turns log ⊎ IsLeftBehind w turns log) }
    ensures behind { OfEachLeftBehind MayBeLeftIn }
{
    nodes_keep_their_names();
}

/// A program that begins on files that hold what a crash left goes on in a sound world, whose system is the one that the log
/// stands for which was left. The records in the files may be others: behind a compaction they are the rows of an image. Where a
/// file is one log alone, and records of different texts differ, this is so of each world with which it may begin.
pub fn programs_go_on_from_what_is_left()
    ensures sound { OfEachStart (λ files w. IsSound w) }
    ensures system { StartsHaveHeldSystem }
    ensures one_system { FilesHoldOneSystem }
{}
