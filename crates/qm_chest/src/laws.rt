// Laws of the parts of calls, and of files between two calls.
ghost use Rattle.std.specs.Prelude.{◌≡◌, ℕ, Bool, List, ◌∷◌, Option, None, Some};
ghost use Rattle.qm_history.specs.Common.{Input, Keeps, IsServed, IsTurnOf, CrashState, System, Starts};
ghost use Rattle.qm_history.specs.Chest.{AddsTurn, TellsRoom};
ghost use Rattle.qm_history.specs.declared.call.Answer.{Answer};
ghost use Rattle.qm_history.specs.declared.call.Call.{Call};
ghost use Rattle.qm_history.specs.declared.event.Event.{Event};
ghost use Rattle.qm_history.specs.declared.world.World.{World};
ghost use Rattle.qm_store.specs.Recorded.{Holds, Recorded};
ghost use Rattle.qm_restore.specs.QueueFile.{IsSiteFile};
ghost use Rattle.qm_chest.specs.Checking.{BeginsWorld};
ghost use Rattle.qm_chest.specs.Holding.{AllHold, MayHold};
ghost use Rattle.qm_chest.specs.Parts.{AreTwoParts, IsAnsweredBy, IsWholeCall, Part};
ghost use Rattle.qm_chest.specs.Turns.{made_turn};
ghost use Rattle.qm_chest.specs.declared.place.Place.{Place as AnyPlace};

use qm_disk::Disk;
use qm_glog::one_list;
use qm_history::files_that_hold_a_log_begin_a_world;
use qm_record::no_record_begins_another;
use qm_restore::site_files_are_accepted;

/// Behind an event with which a turn may begin, and in which no disk failed, come other events: both parts are one. The world, the
/// room and the disks go on, and a crash leaves a beginning.
pub fn parts_come_one_behind_another<D: Disk>()
    ensures { (w : World) (reading : ℕ) (asked : Input) (failed : Bool) (e : Event) (events : List Event)
        (old mid new : D) → AreTwoParts D.meaning w reading asked failed e events old mid new
        → Part D.meaning None w reading asked failed (e ∷ events) old new }
{}

/// A part that is the whole call is its turn, where its events are those of the call served whole. With an answer that the call may get
/// it is what the call adds to a history, and it tells of room what is so.
pub fn whole_parts_are_turns<D: Disk>()
    ensures turn { (w : World) (node reading : ℕ) (asked : Call) (failed : Bool) (events : List Event) (old new : D)
        → IsWholeCall D.meaning w node reading asked failed events old new
        → IsServed w node reading asked events
        → IsTurnOf w asked (made_turn node reading asked events) }
    ensures adds { (w : World) (node reading : ℕ) (asked : Call) (failed : Bool) (events : List Event) (old new : D)
        (told : Answer) → IsWholeCall D.meaning w node reading asked failed events old new
        → IsAnsweredBy w node reading asked failed events told
        → AddsTurn D.meaning w old new asked
        (made_turn node reading asked events) told }
    ensures room { (w : World) (node reading : ℕ) (asked : Call) (failed : Bool) (events : List Event) (old new : D)
        → IsWholeCall D.meaning w node reading asked failed events old new
        → TellsRoom D.meaning w (D.meaning.seen old) asked
        (Some (made_turn node reading asked events)) }
{}

/// Files that may hold a world, whatever a crash makes of them, keep it: what was acknowledged is there.
pub fn files_keep_their_world<D: Disk>()
    ensures { (cap : ℕ) (w : World) (place : Option AnyPlace) (disk : D) → w.manager ≡ None
        → AllHold D.meaning (MayHold cap w place) disk
        → Keeps D.meaning w disk }
{
    site_files_are_accepted();
}

/// On files that hold a site a program begins in one world, which is sound: its log is what the files hold, no node has been manager, and
/// each is live.
pub fn sites_begin_one_world()
    ensures begins { (files : CrashState) (r : Recorded) (s : System) → Holds files r
        → IsSiteFile r.bodies s → (w : World) × Starts files w }
    ensures one { (files : CrashState) (r : Recorded) (s : System) (w : World) → Holds files r
        → IsSiteFile r.bodies s → Starts files w → BeginsWorld r s w }
{
    site_files_are_accepted();
    one_list();
    no_record_begins_another();
    files_that_hold_a_log_begin_a_world();
}
