// Room for the jobs that start behind a change.
ghost use Rattle.std.specs.Prelude.{◌≡◌, ◌≤◌, [], if◌then◌else◌, length, vec_capacity, IfOk};
ghost use Rattle.qm_model.specs.Common.{QUEUES_LIMIT, is_started, places};
ghost use Rattle.qm_sched.specs.Starts.{start_places};
ghost use Rattle.qm_image.specs.Image.{system_of};
ghost use Rattle.qm_image.specs.Preparing.{StartAtMost};

use qm_image::{Change, Image};
use qm_kinds::{Queue, QueueState, Start};
use qm_sched::{places, starts_are_few};
use std::alloc::AllocError;

// How many jobs a queue that is started can have at once; none can start in another one.
fn start_places_of(queue: &Queue) -> u32
    ensures value { result ≡ (if is_started queue.now.state then places queue.now else 0) }
    ensures few { result ≤ 255 }
{
    if queue.state != QueueState::Started {
        return 0;
    }
    u32::from(places(queue))
}

// The places of the queues that are started.
fn start_places(queues: &[Queue]) -> u32
    requires { length queues.now ≤ QUEUES_LIMIT }
    ensures { result ≡ start_places queues.now }
{
    let mut places = 0u32;
    for queue in queues {
        places += start_places_of(queue);
    }
    places
}

// At most so many jobs start behind a change. Where it leaves no queue more places than before, the places of those that
// are started bound them, and else the entries.
#[tactic(auto, unfolding(qm_image::specs::Image::system_of))]
fn most_starts(image: &Image, change: &Change) -> usize
    requires { length image.now.parts.queues ≤ QUEUES_LIMIT }
    ensures { StartAtMost result change.now (system_of image.now) }
{
    starts_are_few();
    match change {
        Change::PutQueue { .. } | Change::SetQueue { .. } => image.parts.entry_count(),
        _ => start_places(image.parts.queues()) as usize,
    }
}

/// Takes room for the jobs that start behind a change.
#[tactic(auto, unfolding(qm_image::specs::Image::system_of))]
pub(crate) fn reserve_starts(image: &mut Image, change: &Change) -> Result<Vec<Start>, AllocError>
    requires { length image.old.parts.queues ≤ QUEUES_LIMIT }
    ensures empty { IfOk result (λ started. started.items ≡ []) }
    ensures room { IfOk result (λ started. StartAtMost (vec_capacity started) change.now (system_of image.old)) }
    ensures runs { IfOk result (λ _. StartAtMost image.new.parts.spare_runs change.now (system_of image.old)) }
    ensures rest { image.new ≡ record image.old { parts = record image.old.parts { spare_runs = image.new.parts.spare_runs } } }
{
    let most = most_starts(image, change);
    image.parts.reserve_runs(most)?;
    Vec::with_capacity(image.alloc, most)
}
