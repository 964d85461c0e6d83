// How the records of a queue file become the image of a system.
ghost use Rattle.std.specs.Prelude.{◌≡◌, ◌<◌, length, take, IsErr, IfOk, IfErr, OnOk};
ghost use Rattle.qm_history.specs.Common.{IsNext, AreNodes, IsConsistent, HasSpelling};
ghost use Rattle.qm_image.specs.Image.{system_of};
ghost use Rattle.qm_restore.specs.QueueFile.{IsSiteFile};
ghost use Rattle.qm_restore.specs.Restoring.{rows_count, OfBody, Judges, IsReplayed, Leaves, LeavesBy, IsRefused, RefusesRead, Stands};
ghost use Rattle.qm_restore.specs.Site.{new_system};

use crate::bodies::Bodies;
use crate::fault::{Flaw, RestoreFault};
use crate::judging::can_act;
use crate::laws::new_sites_are_consistent;
use crate::rows::read_rows;
use crate::site::new_system;
use qm_image::{Image, Refused};
use qm_kinds::{Body, Node, Record};
use qm_model::requests_keep_consistent;
use qm_record::{RecordFault, read_record};
use qm_state::{commit, prepare};
use std::alloc::{AllocError, Global};

// How many rows a new site has.
const ROWS: usize = 3;

// Does what a record says, if it can stand there.
fn replay(image: &mut Image, what: &Record) -> Result<bool, AllocError>
    requires sound { IsConsistent (system_of image.old) }
    requires spelled { HasSpelling what.now }
    ensures sound { IsConsistent (system_of image.new) }
    ensures done { IfOk result (λ done.
        IsReplayed done (system_of image.old) what.now (system_of image.new)) }
    // Memory is wanted for what can stand there alone.
    ensures no_memory { IsErr result → IsNext (system_of image.old) what.now }
{
    let Body::Ask(request) = &what.body else {
        return Ok(false);
    };
    if !can_act(image, what.moment, what.node, request) {
        return Ok(false);
    }
    requests_keep_consistent();
    match prepare(image, what.moment, what.node, request) {
        Ok(prepared) => {
            commit(image, prepared);
            Ok(true)
        }
        Err(Refused::By(_)) => Ok(false),
        Err(Refused::NoMemory) => Err(AllocError),
    }
}

// Does what the record of this index says, as it was read.
fn replay_read(
    image: &mut Image,
    index: usize,
    read: &Result<Record, RecordFault>,
) -> Result<(), RestoreFault>
    requires sound { IsConsistent (system_of image.old) }
    requires spelled { IfOk read.now HasSpelling }
    ensures sound { IsConsistent (system_of image.new) }
    ensures leaves { OnOk result (LeavesBy read.now (system_of image.old) (system_of image.new)) }
    ensures refused { IfErr result (RefusesRead index read.now (system_of image.old)) }
{
    match read {
        Ok(record) => {
            if replay(image, record)? {
                Ok(())
            } else {
                Err(RestoreFault::Unlawful {
                    index,
                    flaw: Flaw::Refused,
                })
            }
        }
        Err(RecordFault::Bad { .. }) => Err(RestoreFault::Unlawful {
            index,
            flaw: Flaw::Unreadable,
        }),
        Err(RecordFault::NoMemory) => Err(RestoreFault::NoMemory),
    }
}

// Does what the record of this index says. It stays where it was read: it is large.
fn restore_record<B: Bodies>(
    alloc: Global,
    log: &B,
    index: usize,
    image: &mut Image,
) -> Result<(), RestoreFault>
    requires within { index < length (B.bodies log.now) }
    requires sound { IsConsistent (system_of image.old) }
    ensures sound { IsConsistent (system_of image.new) }
    ensures leaves { OnOk result (OfBody (B.bodies log.now) index
        (λ body. Leaves body (system_of image.old) (system_of image.new))) }
    ensures refused { IfErr result (λ fault. OfBody (B.bodies log.now) index
        (λ body. IsRefused index body (system_of image.old) fault)) }
{
    let read = read_record(alloc, log.body(index));
    let done = replay_read(image, index, &read);
    drop(read);
    done
}

// Does what the records behind the rows say, one after the other.
fn restore_records<B: Bodies>(alloc: Global, log: &B, image: &mut Image) -> Result<(), RestoreFault>
    requires sound { IsConsistent (system_of image.old) }
    requires stands { Stands (take rows_count (B.bodies log.now)) (system_of image.old) }
    ensures stands { OnOk result (IsSiteFile (B.bodies log.now) (system_of image.new)) }
    ensures judged { IfErr result (Judges (B.bodies log.now)) }
{
    for index in ROWS..log.count() {
        restore_record(alloc, log, index, image)?;
    }
    Ok(())
}

// The image of a new site of these nodes.
fn new_image(alloc: Global, nodes: &[Node]) -> Result<Image, AllocError>
    requires { AreNodes nodes.now }
    ensures is { IfOk result (λ image. system_of image ≡ new_system nodes.now) }
    ensures sound { IfOk result (λ image. IsConsistent (system_of image)) }
{
    new_sites_are_consistent();
    let system = new_system(alloc, nodes)?;
    Image::from_rows(alloc, &system)
}

/// The image of the system for which the records stand: the rows of a new site, of one or more nodes that are up or down, and
/// then requests, each accepted behind those before it. Where they stand for none, the first record that can't stand there, and
/// what is wrong with it. The nodes of the system are called as the first row says; which of them are up the last records tell.
pub fn restore<B: Bodies>(alloc: Global, log: &B) -> Result<Image, RestoreFault>
    ensures stands { IfOk result (λ image. IsSiteFile (B.bodies log.now) (system_of image)) }
    ensures judged { IfErr result (Judges (B.bodies log.now)) }
{
    let nodes = read_rows(alloc, log)?;
    let mut image = new_image(alloc, &nodes)?;
    restore_records(alloc, log, &mut image)?;
    Ok(image)
}
