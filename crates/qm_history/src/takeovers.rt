// What a takeover tells.
ghost use Rattle.qm_history.specs.declared.turn.Turn.{Turn};
ghost use Rattle.qm_history.specs.declared.world.World.{World};
ghost use Rattle.qm_history.specs.Legal.{IsLegalTurn};
ghost use Rattle.qm_history.specs.Telling.{TellsWhatItRead};

/// A takeover that read the files tells whether the record in doubt is there, exactly where one is in doubt: one that stands, one
/// that fails behind a new epoch, and one behind which a full file, a record in doubt or a node that isn't named is told. So none
/// hides what it found.
pub fn takeovers_tell_what_they_read()
    ensures { (w : World) (t : Turn) → IsLegalTurn w t → TellsWhatItRead w t.events }
{}
