// What follows from what a run leaves, whether one thread serves its script or each node has its own.
ghost use Rattle.std.specs.Prelude.{◌≡◌, ◌≢◌, ℕ, Bool, List, Option, IsTrue};
ghost use Rattle.qm_history.specs.Common.{CrashState, HoldIn, HoldWithin, HoldWorld, after_turns, system_in, NODES_LIMIT, GREATEST_CAP, LEAST_CAP, LAST_MOMENT};
ghost use Rattle.qm_history.specs.declared.turn.Turn.{Turn};
ghost use Rattle.qm_history.specs.declared.world.World.{World};
ghost use Rattle.qm_chest.specs.Noting.{StartsEarly};
ghost use Rattle.qm_history.specs.Ends.{show_text};
ghost use Rattle.qm_listing.specs.Listing.{IsListingOf};
ghost use Rattle.qm_kinds.specs.declared.name.TheConstants.{NODE_NAME_BYTES, SHORT_NAME_BYTES};
ghost use Rattle.qm_program.specs.Causes.{Counts, HasCause};
ghost use Rattle.qm_program.specs.Doing.{EndsWell, HasSoundScript, IsWithoutFault};
ghost use Rattle.qm_program.specs.Running.{RunsAtOnce, RunsTo};
ghost use Rattle.qm_program.specs.Surviving.{CrashesAreOfMoments, DevicesTakeStretches, GoesOnBehind, GoesOnIn, GoesOnWithin, ProgramsGoOnBehind};
ghost use Rattle.qm_program.specs.declared.task.TheConstants.{USUAL_CAP};
ghost use Rattle.qm_program.specs.declared.outcome.End.{End};

use qm_chest::sites_begin_one_world;
use qm_disk::Disk;
use qm_history::{
    acknowledged_records_stay, crashes_of_histories_are_of_turns,
    files_that_hold_a_log_begin_a_world, histories_are_events, programs_go_on_after_crashes,
    steps_come_in_stretches,
};
use qm_store::{held_files_load, one_content};
use qm_symb::Symbiont;

/// A crash at any moment of a run leaves what a crash before it might leave; or the files then hold a log that may be left at some
/// moment of its turns.
pub fn a_crash_leaves_a_moment_of_the_run<D: Disk, Y: Symbiont>()
    ensures run { CrashesAreOfMoments D.meaning (RunsTo D.meaning Y.meaning) }
    ensures cluster { CrashesAreOfMoments D.meaning (RunsAtOnce D.meaning Y.meaning) }
{}

/// A program goes on from each such log, in a sound world: within a turn from one that may be left there, with each record that was
/// acknowledged in the turns before it; behind turns from their log, with or without the record that is in doubt then, and with each
/// record that was acknowledged in them; and at any moment of turns in one of these two ways.
pub fn programs_go_on_with_what_was_acknowledged()
    ensures within { (w : World) (before : List Turn) (t : Turn) (crashed : CrashState)
        → HoldWithin crashed (after_turns w before) t
        → GoesOnWithin w before t crashed }
    ensures behind { (w : World) (turns : List Turn) (crashed : CrashState)
        → HoldWorld crashed (after_turns w turns)
        → GoesOnBehind w turns crashed }
    ensures moment { (w : World) (turns : List Turn) (crashed : CrashState)
        → HoldIn crashed w turns → GoesOnIn w turns crashed }
{
    files_that_hold_a_log_begin_a_world();
    programs_go_on_after_crashes();
    histories_are_events();
    acknowledged_records_stay();
    crashes_of_histories_are_of_turns();
}

/// So it does behind a run that made turns, on the files as they read and whatever a crash makes of them.
pub fn programs_go_on_behind_runs<D: Disk, Y: Symbiont>()
    ensures run { ProgramsGoOnBehind D.meaning (RunsTo D.meaning Y.meaning) }
    ensures cluster { ProgramsGoOnBehind D.meaning (RunsAtOnce D.meaning Y.meaning) }
{
    programs_go_on_with_what_was_acknowledged();
}

/// What the devices of each node of the cluster took in a run is the blocks of the steps of its course, which come in stretches, one for
/// each fetch that gave a run to the node. In a run without a turn they took nothing.
pub fn blocks_come_in_stretches<D: Disk, Y: Symbiont>()
    ensures run { DevicesTakeStretches D.meaning (RunsTo D.meaning Y.meaning) Y.meaning }
    ensures cluster { DevicesTakeStretches D.meaning (RunsAtOnce D.meaning Y.meaning) Y.meaning }
{
    steps_come_in_stretches();
}

/// The listing of a disk's site is that of the system of each world with which a run may begin on its files.
pub fn listings_are_of_the_world_of_a_run<D: Disk>()
    ensures { (disk : D) (text : List ℕ) (w : World)
        → IsListingOf D.meaning disk text → IsTrue D.meaning.tells
        → StartsEarly (D.meaning.seen disk) w → text ≡ show_text (system_in w) }
{
    sites_begin_one_world();
}

/// Over a script and files that are sound a run ends well, or for want of memory, or as many turns are kept as can be, where nothing
/// failed.
pub(crate) fn sound_scripts_are_served()
    ensures { (tells : Bool) (files : CrashState) (left : Option (List ℕ)) (turns : List Turn)
        (old new : Counts) (end : End) → end ≢ End.Usage → IsTrue tells → HasSoundScript left files
        → IsWithoutFault old.source new.source → IsWithoutFault old.sink new.sink → IsWithoutFault old.disk new.disk
        → HasCause tells files left turns old new end → EndsWell turns end }
{
    held_files_load();
    one_content();
}

/// The last moment is 25,690,901,759,999 hundredths of a second behind the base date. Definitions cite the number by its name,
/// so here it is said.
pub fn moments_have_a_last_one()
    ensures { LAST_MOMENT ≡ 25690901759999 }
{}

/// The name of a node has at most 6 bytes, and that of a queue, a device, a form, a stock or a characteristic at most 31, and a
/// cluster has at most 8 nodes. Definitions cite the numbers by their names, so here they are said.
pub fn names_have_limits()
    ensures node { NODE_NAME_BYTES ≡ 6 }
    ensures short { SHORT_NAME_BYTES ≡ 31 }
    ensures nodes { NODES_LIMIT ≡ 8 }
{}

/// What a queue file may take at most is 4,096 to 268,435,456 bytes, and 134,217,728 where `init` is told nothing. Definitions cite the
/// numbers by their names, so here they are said.
pub fn queue_files_have_limits()
    ensures least { LEAST_CAP ≡ 4096 }
    ensures most { GREATEST_CAP ≡ 268435456 }
    ensures usual { USUAL_CAP ≡ 134217728 }
{}
