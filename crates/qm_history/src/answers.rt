// What calls are answered.
ghost use Rattle.std.specs.Prelude.{◌≡◌, List};
ghost use Rattle.std.specs.List.{AllByRecursion};
ghost use Rattle.qm_history.specs.declared.turn.Turn.{Turn};
ghost use Rattle.qm_history.specs.declared.world.World.{World};
ghost use Rattle.qm_history.specs.Answers.{answer_of};
ghost use Rattle.qm_history.specs.Chest.{turns_noted};
ghost use Rattle.qm_history.specs.Faults.{faults_told, is_journal, tells_disk_fault};
ghost use Rattle.qm_history.specs.Legal.{IsLegal, IsLegalTurn};
ghost use Rattle.qm_history.specs.Room.{IsAboveCap};
ghost use Rattle.qm_history.specs.CourseLaws.{NoneTellsJournal, OfAnsweredTurns, OfNotedCalls, OfTurnsInRoom, StayWithinRoom};

/// A turn is legal where its call may be answered anything. What its events say is that a disk failed exactly where its last
/// event tells of a record, a takeover or a compaction in doubt; so no call is told that where no turn tells it.
pub fn journal_tells_of_disks()
    ensures legal { OfAnsweredTurns IsLegalTurn }
    ensures answer { (w : World) (t : Turn) → is_journal (answer_of w t) ≡ tells_disk_fault t.events }
    ensures never { (w : World) (turns : List Turn) → faults_told turns ≡ 0 → NoneTellsJournal w turns }
{}

/// Where a turn tells of room what is so, each need that it tells is above its cap, which is that of a queue file or of the
/// master.
pub fn full_files_are_full()
    ensures { OfTurnsInRoom (λ m t. AllByRecursion (IsAboveCap m.cap) t.events) }
{}

/// Where each noted turn is one of the call that is noted with it, the turns are a legal history. Where up to the first one in which
/// a disk failed each tells of room what is so of its call, the history is within that room.
pub fn noted_calls_make_histories()
    ensures legal { OfNotedCalls (λ w notes. IsLegal w (turns_noted notes)) }
    ensures within { OfNotedCalls StayWithinRoom }
{}
