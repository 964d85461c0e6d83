// What can be wrong with a master file.
ghost use Rattle.qm_history.specs.Judged.{ReadsOneWay};
ghost use Rattle.qm_history.specs.FileLaws.{MastersBreakOnce, SoundMastersStand, UnformattedMastersStand};

/// Where files are read in one way, a master is damaged at one place at most, and one that is damaged is neither sound nor
/// unformatted.
pub fn masters_are_judged_once()
    ensures sound { SoundMastersStand }
    ensures one_place { MastersBreakOnce }
    ensures unformatted { UnformattedMastersStand }
{}

/// The files of a site are read in one way: each is at most one log, and none where it is broken off, which it is at one place.
pub fn queue_files_read_one_way()
    ensures { ReadsOneWay }
{}
