// What is asked is prepared.
ghost use Rattle.std.specs.Prelude.{◌≡◌, ◌<◌, ◌≤◌, ◌&&◌, IfOk, length};
ghost use Rattle.qm_model.specs.Common.{applied, are_numbers_spent, asks_for_numbers, IsConsistent, IsLawful, node_at};
ghost use Rattle.qm_image.specs.Deciding.{PreparesAt};
ghost use Rattle.qm_image.specs.Image.{system_of};
ghost use Rattle.qm_image.specs.Preparing.{IsPrepared};
ghost use Rattle.qm_image.specs.Refusing.{Refuses, KeepsRefused};
ghost use Rattle.qm_state.specs.Accepting.{IsAccepted};

use crate::room::reserve_starts;
use qm_image::{Change, Image, Prepared, Refused};
use qm_jobs::{
    prepare_abort, prepare_delete_entry, prepare_merge, prepare_report, prepare_set_entry,
    prepare_submit, prepare_tick,
};
use qm_kinds::{Moment, Name, RUNS_LIMIT, Refusal, Request};
use qm_making::{
    prepare_append, prepare_define_characteristic, prepare_define_form,
    prepare_delete_characteristic, prepare_delete_form, prepare_delete_queue, prepare_drop,
    prepare_fill, prepare_initialize, prepare_node_lost, prepare_node_up, prepare_set,
    prepare_start, prepare_stop, prepare_took,
};
use qm_rules::Reported;
use std::alloc::AllocError;

// Whether a request needs numbers of runs to be left: those that the queue manager makes for itself don't.
fn asks_for_numbers(request: &Request) -> bool
    ensures { result ≡ asks_for_numbers request.now }
{
    !matches!(request, Request::NodeLost { .. } | Request::Took { .. })
}

/// Decides on a request that a node serves at the acting moment, and takes the memory for its change and for the jobs that
/// start behind it. No row is changed. Where the request is refused, it is refused before memory is asked for, and the
/// image is as it was.
pub fn prepare<'a>(
    image: &mut Image,
    now: Moment,
    node: u8,
    request: &'a Request,
) -> Result<Prepared<'a>, Refused>
    requires sound { IsConsistent (system_of image.old) }
    requires later { (system_of image.old).last ≤ now }
    requires serves { node < length (system_of image.old).nodes }
    requires lawful { IsLawful (system_of image.old) node request.now }

    ensures rows { system_of image.new ≡ system_of image.old }
    ensures refused { Refuses result (applied (system_of image.old) now node request.now) }
    ensures untouched { KeepsRefused image.old image.new result }

    // What is prepared can be made, and is what the model accepts.
    ensures ready { IfOk result (IsPrepared image.new) }
    ensures accepted { IfOk result (IsAccepted (system_of image.old) now node request.now) }
{
    if are_numbers_spent(image, request) {
        return Err(Refused::By(Refusal::NumbersSpent));
    }
    let name = node_name(image, node);
    // (not by `?`, which moves the change from place to place: it is large)
    let change = match prepare_change(image, now, &name, request) {
        Ok(change) => change,
        Err(refused) => return Err(refused),
    };
    match reserve_starts(image, &change) {
        Ok(started) => Ok(Prepared {
            at: now,
            node: name,
            change,
            started,
        }),
        Err(AllocError) => Err(Refused::NoMemory),
    }
}

// Whether a request needs numbers of runs, and they are spent.
#[tactic(auto, unfolding(qm_image::specs::Image::system_of))]
fn are_numbers_spent(image: &Image, request: &Request) -> bool
    ensures { result ≡ (asks_for_numbers request.now && are_numbers_spent (system_of image.now)) }
{
    asks_for_numbers(request) && image.parts.next_run() >= RUNS_LIMIT
}

// The name of the node at a place.
#[tactic(auto, unfolding(qm_image::specs::Image::system_of))]
fn node_name(image: &Image, node: u8) -> Name
    requires { node < length (system_of image.now).nodes }
    ensures { result ≡ node_at node (system_of image.now).nodes }
{
    image.parts.nodes()[usize::from(node)].name
}

// Decides on a request that a node serves, and takes the memory for its change. What prepares one request isn't inlined
// here: a function clears all its locals when it is entered, and each request would pay for those of all. Nor is this inlined
// in `prepare`, for the same reason.
#[inline(never)]
fn prepare_change<'a>(
    image: &mut Image,
    now: Moment,
    node: &Name,
    request: &'a Request,
) -> Result<Change<'a>, Refused>
    ensures { PreparesAt now node.now request.now image.old image.new result }
{
    match request {
        Request::Append { file, bytes } => prepare_append(image, file, bytes.as_slice()),
        Request::Fill { file, lines } => prepare_fill(image, file, *lines),
        Request::Drop { file } => prepare_drop(image, file),
        Request::DefineForm(form) => prepare_define_form(image, form),
        Request::DeleteForm { name } => prepare_delete_form(image, name),
        Request::DefineCharacteristic(characteristic) => {
            prepare_define_characteristic(image, characteristic)
        }
        Request::DeleteCharacteristic { name } => prepare_delete_characteristic(image, name),
        Request::InitializeQueue(new) => prepare_initialize(image, node, new),
        Request::SetQueue { name, change } => prepare_set(image, name, change),
        Request::StartQueue { name, change } => prepare_start(image, name, change),
        Request::StopQueue { name, how } => prepare_stop(image, name, *how),
        Request::AbortJob {
            queue,
            entry,
            requeue,
        } => prepare_abort(image, queue, *entry, *requeue),
        Request::DeleteQueue { name } => prepare_delete_queue(image, name),
        Request::Merge { to, from } => prepare_merge(image, to, from),
        Request::Submit(job) => prepare_submit(image, now, job),
        Request::SetEntry { entry, change } => prepare_set_entry(image, now, *entry, change),
        Request::DeleteEntry { entry } => prepare_delete_entry(image, *entry),
        Request::Mark { run, value } => {
            prepare_report(image, node, *run, Reported::Mark(*value))
        }
        Request::Done { run, status } => {
            prepare_report(image, node, *run, Reported::End(*status))
        }
        Request::Tick => prepare_tick(image),
        Request::NodeUp => prepare_node_up(image),
        Request::NodeLost { nodes } => prepare_node_lost(image, nodes.as_slice()),
        Request::Took {
            epoch,
            gone,
            up,
            may,
        } => prepare_took(
            image,
            *epoch,
            gone.as_slice(),
            up.as_slice(),
            may.as_slice(),
        ),
    }
}
