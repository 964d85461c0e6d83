// Jobs are cut short and deleted, and runs are reported: what is decided.
ghost use Rattle.std.specs.Prelude.{◌≡◌, ◌<◌, ◌&&◌, not, ℕ, OnOk, if◌then◌else◌};
ghost use Rattle.qm_kinds.specs.declared.entry.Entry.{Entry as AnyEntry};
ghost use Rattle.qm_kinds.specs.declared.request.Request.TheVariants as request;
ghost use Rattle.qm_model.specs.Standing.{is_executing};
ghost use Rattle.qm_image.specs.Deciding.{Prepares, PreparesAt};
ghost use Rattle.qm_rules.specs.Ending.{asked_by};
ghost use Rattle.qm_image.specs.Image.{system_of};

use qm_image::{Change, Image, Refused};
use qm_kinds::{Entry, EntryState, Fate, Name, Refusal};
use qm_rules::{Reported, is_generic};
use std::alloc::AllocError;

// What becomes of a job that is cut short.
fn abort_fate(requeue: bool) -> Fate
    ensures { result ≡ (if requeue then Fate.Requeue else Fate.Finish) }
{
    if requeue { Fate::Requeue } else { Fate::Finish }
}

// Whether an entry in this state has a run, be it aborting or not.
fn is_executing(state: &EntryState) -> bool
    ensures { (e : AnyEntry) → e.state ≡ state.now → result ≡ is_executing e }
{
    matches!(
        state,
        EntryState::Running { .. } | EntryState::Aborting { .. }
    )
}

// Whether a job is to go back into its queue, and may not begin once more.
fn must_stay(requeue: bool, job: &Entry) -> bool
    ensures { result ≡ (requeue && not job.now.restart) }
{
    requeue && !job.restart
}

/// Decides on a job that is cut short: the one of the number, or the only one that runs in the queue.
#[tactic(auto, unfolding(qm_image::specs::Image::system_of))]
#[inline(never)]
pub fn prepare_abort<'a>(
    image: &Image,
    queue: &Name,
    entry: Option<u32>,
    requeue: bool,
) -> Result<Change<'a>, Refused>
    ensures { Prepares (request.AbortJob queue.now entry requeue) image.now image.now result }
{
    let Some(place) = image.parts.queue(queue) else {
        return Err(Refused::By(Refusal::NoSuchQueue { name: *queue }));
    };
    if is_generic(place.kind) {
        return Err(Refused::By(Refusal::WrongKind));
    }
    let Some(job) = image.parts.running_in(queue, entry) else {
        return Err(Refused::By(Refusal::NotRunning));
    };
    if must_stay(requeue, job) {
        return Err(Refused::By(Refusal::NotRestartable));
    }
    Ok(Change::CutShort {
        entry: job.number,
        fate: abort_fate(requeue),
    })
}

/// Decides on an entry that is deleted. One that has a run goes once the run has ended.
#[tactic(auto, unfolding(qm_image::specs::Image::system_of))]
#[inline(never)]
pub fn prepare_delete_entry<'a>(image: &Image, number: u32) -> Result<Change<'a>, Refused>
    ensures { Prepares (request.DeleteEntry number) image.now image.now result }
{
    let Some(entry) = image.parts.entry(number) else {
        return Err(Refused::By(Refusal::NoSuchEntry { number }));
    };
    if is_executing(&entry.state) {
        return Ok(Change::CutShort {
            entry: number,
            fate: Fate::Remove,
        });
    }
    Ok(Change::RemoveEntry { entry: number })
}

/// Makes room for one timer more.
#[tactic(auto, unfolding(qm_image::specs::Image::system_of))]
pub(crate) fn reserve_timer(image: &mut Image) -> Result<(), AllocError>
    ensures rows { system_of image.new ≡ system_of image.old }
    ensures tables { image.new.parts ≡ record image.old.parts { spare_timers = image.new.parts.spare_timers } }
    ensures room { OnOk result (0 < image.new.parts.spare_timers) }
{
    image.parts.reserve_timer()
}

/// Decides on what a node reports of a run, and takes the room for a timer: where the report ends the run, the job may be
/// kept until a moment.
#[tactic(auto, unfolding(qm_image::specs::Image::system_of))]
#[inline(never)]
pub fn prepare_report<'a>(
    image: &mut Image,
    node: &Name,
    run: u64,
    report: Reported,
) -> Result<Change<'a>, Refused>
    ensures { (at : ℕ) → PreparesAt at node.now (asked_by run report) image.old image.new result }
{
    if image.parts.entry_of_run(run, node).is_none() {
        return Err(Refused::By(Refusal::StaleRun {
            next: image.parts.next_run(),
        }));
    }
    match reserve_timer(image) {
        Ok(()) => Ok(Change::Report { run, report }),
        Err(AllocError) => Err(Refused::NoMemory),
    }
}
