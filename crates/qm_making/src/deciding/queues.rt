// Queues are made, set, started, stopped and deleted: what is decided.
ghost use Rattle.std.specs.Prelude.{◌≡◌, ℕ};
ghost use Rattle.qm_kinds.specs.declared.request.Request.TheVariants as request;
ghost use Rattle.qm_model.specs.Queues.{initialize_refusal, set_queue_refusal, delete_queue_refusal};
ghost use Rattle.qm_image.specs.Deciding.{Prepares, PreparesAt, TakesAt};
ghost use Rattle.qm_image.specs.Image.{system_of};

use qm_image::{Change, Image, Refused};
use qm_kinds::{Name, NewQueue, QueueChange, QueueState, Refusal, StopMode};
use qm_rules::{QueueNamed, new_queue, refused_by_queue, settings_of};
use std::alloc::AllocError;

// Why INITIALIZE/QUEUE is refused, if it is.
#[tactic(auto, unfolding(qm_image::specs::Image::system_of))]
fn initialize_refusal(image: &Image, new: &NewQueue) -> Option<Refusal>
    ensures { result ≡ initialize_refusal (system_of image.now) new.now }
{
    qm_rules::initialize_refusal(
        image.parts.nodes(),
        image.parts.form_table(),
        image.parts.queue_table(),
        new,
    )
}

// Takes the memory for a queue.
#[tactic(auto, unfolding(qm_image::specs::Image::system_of))]
fn take_queue<'a>(image: &mut Image, node: &Name, new: &NewQueue) -> Result<Change<'a>, AllocError>
    ensures { (at : ℕ) → TakesAt at node.now (request.InitializeQueue new.now) image.old image.new result }
{
    let queue = new_queue(image.alloc, image.parts.form_table(), node, new)?;
    image.parts.reserve_queue(&queue)?;
    Ok(Change::PutQueue { queue })
}

/// Decides on a queue that is made, and takes the memory for it.
#[inline(never)]
pub fn prepare_initialize<'a>(
    image: &mut Image,
    node: &Name,
    new: &NewQueue,
) -> Result<Change<'a>, Refused>
    ensures { (at : ℕ) → PreparesAt at node.now (request.InitializeQueue new.now) image.old image.new result }
{
    if let Some(refusal) = initialize_refusal(image, new) {
        return Err(Refused::By(refusal));
    }
    match take_queue(image, node, new) {
        Ok(change) => Ok(change),
        Err(AllocError) => Err(Refused::NoMemory),
    }
}

// Why SET QUEUE or START/QUEUE is refused, if it is.
#[tactic(auto, unfolding(qm_image::specs::Image::system_of))]
fn set_queue_refusal(image: &Image, name: &Name, change: &QueueChange) -> Option<Refusal>
    ensures { result ≡ set_queue_refusal (system_of image.now) name.now change.now }
{
    qm_rules::set_queue_refusal(
        image.parts.form_table(),
        image.parts.queue_table(),
        name,
        change,
    )
}

/// Decides on settings for a queue.
#[tactic(auto, unfolding(qm_image::specs::Image::system_of))]
#[inline(never)]
pub fn prepare_set<'a>(
    image: &Image,
    name: &Name,
    change: &QueueChange,
) -> Result<Change<'a>, Refused>
    ensures { Prepares (request.SetQueue name.now change.now) image.now image.now result }
{
    if let Some(refusal) = set_queue_refusal(image, name, change) {
        return Err(Refused::By(refusal));
    }
    Ok(Change::SetQueue {
        name: *name,
        settings: settings_of(image.parts.form_table(), change),
        state: None,
    })
}

/// Decides on settings for a queue that is started.
#[tactic(auto, unfolding(qm_image::specs::Image::system_of))]
#[inline(never)]
pub fn prepare_start<'a>(
    image: &Image,
    name: &Name,
    change: &QueueChange,
) -> Result<Change<'a>, Refused>
    ensures { Prepares (request.StartQueue name.now change.now) image.now image.now result }
{
    if let Some(refusal) = set_queue_refusal(image, name, change) {
        return Err(Refused::By(refusal));
    }
    Ok(Change::SetQueue {
        name: *name,
        settings: settings_of(image.parts.form_table(), change),
        state: Some(QueueState::Started),
    })
}

/// Decides on how a queue is stopped.
#[tactic(auto, unfolding(qm_image::specs::Image::system_of))]
#[inline(never)]
pub fn prepare_stop<'a>(image: &Image, name: &Name, how: StopMode) -> Result<Change<'a>, Refused>
    ensures { Prepares (request.StopQueue name.now how) image.now image.now result }
{
    if image.parts.queue(name).is_none() {
        return Err(Refused::By(Refusal::NoSuchQueue { name: *name }));
    }
    Ok(Change::StopQueue { name: *name, how })
}

// Why DELETE/QUEUE is refused, if it is.
#[tactic(auto, unfolding(qm_image::specs::Image::system_of))]
fn delete_queue_refusal(image: &Image, name: &Name) -> Option<Refusal>
    ensures { result ≡ delete_queue_refusal (system_of image.now) name.now }
{
    qm_rules::delete_queue_refusal(
        image.parts.queue_table(),
        name,
        refused_by_queue(image.parts.queues(), &QueueNamed::Target(name)),
        image.parts.first_run_for(name),
    )
}

/// Decides on a queue that is deleted.
#[tactic(auto, unfolding(qm_image::specs::Image::system_of))]
#[inline(never)]
pub fn prepare_delete_queue<'a>(image: &Image, name: &Name) -> Result<Change<'a>, Refused>
    ensures { Prepares (request.DeleteQueue name.now) image.now image.now result }
{
    if let Some(refusal) = delete_queue_refusal(image, name) {
        return Err(Refused::By(refusal));
    }
    Ok(Change::RemoveQueue { name: *name })
}
