// How a new site is made.
ghost use Rattle.std.specs.Prelude.{◌≡◌, [], ℕ, List, IsTrue, All, IfOk};
ghost use Rattle.qm_store.specs.Loading.{FailsBy};
ghost use Rattle.qm_store.specs.Making.{IsQueueCap, KeepsFile};
ghost use Rattle.qm_history.specs.Common.{CrashState, TellsFaults, Tells, site_of, Starts, system_in, AreNodes, image_of, CanBeWritten};
ghost use Rattle.qm_history.specs.declared.world.World.{World};
ghost use Rattle.qm_program.specs.Ends.{status_of};
ghost use Rattle.qm_program.specs.Making.{BeginsNew, HasNewSite, HoldNewSite, Makes, made_disk, new_world};

use crate::outcome::{End, Outcome};
use qm_disk::{Disk, Sink, write_whole};
use qm_glog::{MakeFault, one_list};
use qm_history::files_that_hold_a_log_begin_a_world;
use qm_kinds::{Name, Node, Record};
use qm_record::no_record_begins_another;
use qm_restore::{new_rows, new_sites_are_consistent};
use qm_store::{WriteFault, at_rest_is_held, held_by_records};
use std::alloc::{AllocError, Global};

// Nodes of these names, all down.
fn nodes_down(alloc: Global, names: &[Name]) -> Result<Vec<Node>, AllocError>
    ensures { IfOk result (λ nodes. nodes.items ≡ (site_of names.now).nodes) }
{
    names
        .iter()
        .map(|name| Node {
            name: *name,
            up: false,
        })
        .collect(alloc)
}

// The rows of a new site of nodes of these names.
fn site_rows(alloc: Global, names: &[Name]) -> Result<Vec<Record>, AllocError>
    requires { AreNodes (site_of names.now).nodes }
    ensures rows { IfOk result (λ rows. rows.items ≡ image_of (site_of names.now)) }
    ensures can_be_written { IfOk result (λ rows. All CanBeWritten rows.items) }
{
    new_sites_are_consistent();
    let nodes = nodes_down(alloc, names)?;
    new_rows(alloc, &nodes)
}

// Makes the files of a new site. An `Err` hands the disk back.
fn make_files<D: Disk>(
    alloc: Global,
    names: &[Name],
    cap: u64,
    disk: D,
) -> Result<D, (D, MakeFault)>
    requires nodes { AreNodes (site_of names.now).nodes }
    requires cap { IsQueueCap cap }
    ensures made { IfOk result (λ disk.
        IsTrue D.meaning.tells → HasNewSite D.meaning names.now cap disk) }
    ensures other { KeepsFile D.meaning 2 disk (made_disk result) }
    ensures faults { TellsFaults D.meaning disk (made_disk result) (FailsBy result MakeFault.Disk) }
{
    at_rest_is_held::<D>();
    held_by_records();
    new_sites_are_consistent();
    let Ok(rows) = site_rows(alloc, names) else {
        return Err((disk, MakeFault::NoMemory));
    };
    match qm_store::init(alloc, disk, &rows, cap) {
        Ok(database) => Ok(database.give_back()),
        Err((disk, WriteFault::Disk)) => Err((disk, MakeFault::Disk)),
        Err((disk, WriteFault::NoMemory)) => Err((disk, MakeFault::NoMemory)),
        // The rows of a new site take less than the least cap.
        Err((_, WriteFault::Full { .. })) => unreachable!(),
    }
}

/// Makes a new site of nodes of these names, whatever the disk holds: its rows in the first queue file, which may have so many
/// bytes, under a master that tells of no epoch; each node is down, and may be queue manager. Then `initialized` is written. At
/// `Journal` and at `NoMemory`, and at a crash before the end, the master and the first queue file may hold anything. The second
/// queue file stays as it is.
pub(crate) fn make<O: Sink, D: Disk>(
    alloc: Global,
    names: &[Name],
    cap: u64,
    sink: &mut O,
    disk: D,
) -> Outcome<D>
    requires nodes { AreNodes (site_of names.now).nodes }
    requires cap { IsQueueCap cap }

    ensures status { result.status ≡ status_of result.end }
    ensures turns { result.turns.items ≡ [] }
    ensures makes { Makes D.meaning names.now cap
        disk result.disk (O.taken sink.old) (O.taken sink.new) result.end }

    // Each fault is told, and nothing else is.
    ensures disk { TellsFaults D.meaning disk result.disk (result.end ≡ End.Journal) }
    ensures sink { Tells (O.faults sink.old) (O.faults sink.new) (result.end ≡ End.Write) }
{
    match make_files(alloc, names, cap, disk) {
        Ok(disk) => match write_whole(sink, b"initialized\n") {
            Ok(()) => Outcome::of(alloc, End::Ok, disk),
            Err(_) => Outcome::of(alloc, End::Write, disk),
        },
        Err((disk, fault)) => Outcome::of(alloc, End::from(fault), disk),
    }
}

/// On the files of a new site a program begins in one world: its log is the site's rows, which stand for its system; no node has
/// been queue manager, and each is live. No epoch is recorded.
pub fn new_sites_begin_one_world()
    ensures begins { (names : List (List ℕ)) (cap : ℕ) (files : CrashState)
        → HoldNewSite names cap files → BeginsNew names files }
    ensures one { (names : List (List ℕ)) (cap : ℕ) (files : CrashState) (w : World)
        → HoldNewSite names cap files → Starts files w
        → w ≡ new_world names }
    ensures system { (names : List (List ℕ)) → system_in (new_world names) ≡ site_of names }
{
    one_list();
    no_record_begins_another();
    files_that_hold_a_log_begin_a_world();
}
