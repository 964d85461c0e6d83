// The world with which a program begins.
ghost use Rattle.std.specs.Prelude.{◌≡◌, ℕ, List};
ghost use Rattle.qm_model.specs.Common.{Record, System, system_of, image_of};
ghost use Rattle.qm_history.specs.Start.{first_world};
ghost use Rattle.qm_history.specs.World.{system_in, IsSound};
ghost use Rattle.qm_history.specs.Laws.{OfFirstWorlds};
ghost use Rattle.qm_history.specs.FileLaws.{FilesBeginOneWorld, HeldLogsBegin, OfEachStart, StartsAreHeld};

/// A program that begins on an accepted log begins in a sound world, whose system is the one that the log stands for. The
/// image of a system stands for that system.
pub fn programs_begin_sound()
    ensures sound { OfFirstWorlds (λ log w. IsSound w) }
    ensures system { (log : List Record) (epoch : ℕ) → system_in (first_world log epoch) ≡ system_of log }
    ensures image { (s : System) → system_of (image_of s) ≡ s }
{}

/// Where files hold a log, a program can begin on them, in a sound world whose system is the one that the log stands for. Each
/// world with which it can begin is sound, and the files hold its log. Where a file is one log alone, and records of different
/// texts differ, there is just one such world.
pub fn files_that_hold_a_log_begin_a_world()
    ensures begins { HeldLogsBegin }
    ensures sound { OfEachStart (λ files w. IsSound w) }
    ensures holds { StartsAreHeld }
    ensures one { FilesBeginOneWorld }
{}
