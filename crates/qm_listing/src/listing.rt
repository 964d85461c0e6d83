// The listing of a site by its files.
ghost use Rattle.std.specs.Prelude.{◌≡◌, IsTrue, IsErrOf, IfErr, IfOk};
ghost use Rattle.qm_acting.specs.Reading.{IsRestoreFault};
ghost use Rattle.qm_acting.specs.Standing.{restored_standing};
ghost use Rattle.qm_disk.specs.Disk.{OnlyLooks, TellsFaults};
ghost use Rattle.qm_glog.specs.declared.fault.OpenFault.TheVariants as fault;
ghost use Rattle.qm_history.specs.Ends.{all_jobs, show_text};
ghost use Rattle.qm_listing.specs.Listing.{IsListingOf};

use qm_acting::{Restored, restore};
use qm_disk::Disk;
use qm_image::Refused;
use qm_kinds::{Kinds, Listing, Pattern, Query};
use qm_show::show_rows;
use qm_store::{Closed, LoadFault, held_files_load};
use std::alloc::{AllocError, Global};

/// The listing of a site, or why there is none, and the disk with its files.
#[derive(Drop)]
pub struct Listed<D> {
    pub disk: D,
    pub text: Result<Vec<u8>, LoadFault>,
}

// The question for all queues, and below each for the entries of all users.
fn all_jobs() -> Query
    ensures { result ≡ all_jobs }
{
    Query {
        listing: Listing::Queues,
        pattern: Pattern::read(b"*").unwrap(),
        number: None,
        user: None,
        kinds: Kinds {
            batch: true,
            print: true,
            generic_batch: true,
            generic_print: true,
        },
        queue: None,
        after: None,
        single: false,
    }
}

// The listing of files that were read.
fn listing_of<D: Disk>(alloc: Global, restored: &Restored<D>) -> Result<Vec<u8>, AllocError>
    ensures { IfOk result (λ text. text.items ≡ show_text (restored_standing restored.now).system) }
{
    match restored.view(&all_jobs()) {
        Ok(rows) => show_rows(alloc, &rows),
        Err(Refused::NoMemory) => Err(AllocError),
        // All rows of queues are never refused.
        Err(Refused::By(_)) => unreachable!(),
    }
}

/// The lines that SHOW QUEUE/ALL_JOBS lists, `rows: N` first, of the site that the files of a disk hold: each queue, and below it
/// each entry that stands there, of all users. Entries that a run left running are shown so.
///
/// The master and the live queue file are read, each behind a sync; nothing is changed, and no epoch is begun. `Disk` comes where a
/// call of the disk fails, `Unformatted` where the master doesn't begin with a record, and `Damaged` with the place of the first
/// record that is cut short or can't stand there. The disk is handed back in each case.
///
/// OpenVMS DCL Dictionary, SHOW QUEUE.
pub fn list_queues<D: Disk>(alloc: Global, disk: D) -> Listed<D>
    ensures listing { IfOk result.text (λ text. IsListingOf D.meaning disk text.items) }
    ensures fault { IsTrue D.meaning.tells
        → IfErr result.text (IsRestoreFault (D.meaning.seen disk)) }

    // The files read as before, and a crash at any moment leaves what it might before.
    ensures looks { OnlyLooks D.meaning disk result.disk }
    ensures faults { TellsFaults D.meaning disk result.disk (IsErrOf result.text fault.Disk) }
{
    held_files_load();
    match restore(alloc, Closed::of(alloc, disk)) {
        Ok(restored) => {
            let text = match listing_of(alloc, &restored) {
                Ok(text) => Ok(text),
                Err(AllocError) => Err(LoadFault::NoMemory),
            };
            let disk = restored.close().give_back();
            Listed { disk, text }
        }
        Err((closed, fault)) => Listed {
            disk: closed.give_back(),
            text: Err(fault),
        },
    }
}
