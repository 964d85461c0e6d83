// What is replied to a request that changes a queue.
ghost use Rattle.std.specs.Prelude.{◌≡◌};
ghost use Rattle.std.specs.Option.{option_copied, option_map_or};
ghost use Rattle.qm_model.specs.Common.{Stopped, state_when_idle, stopped_when_idle};
ghost use Rattle.qm_model.specs.Replying.{state_of_queue};
ghost use Rattle.qm_image.specs.Image.{system_of};

use qm_image::Image;
use qm_kinds::{Act, Name, Queue, QueueState};
use qm_rules::state_when_idle;

// The state of a queue once a request is done, and stopped where there is none.
fn state_told(queue: Option<&Queue>, has_run: bool) -> QueueState
    ensures { result ≡ option_map_or (λ q. state_when_idle has_run q.state) (option_copied queue.entry) Stopped }
{
    match queue {
        None => QueueState::Stopped,
        Some(queue) => state_when_idle(has_run, queue.state),
    }
}

/// The state that the queue has once the whole request is done.
#[tactic(auto, unfolding(qm_image::specs::Image::system_of))]
pub(crate) fn queue_act(image: &Image, name: &Name) -> Act
    ensures { result ≡ Act.QueueIs name.now (state_of_queue name.now (stopped_when_idle (system_of image.now))) }
{
    let state = state_told(image.parts.queue(name), image.parts.is_occupied(name));
    Act::QueueIs {
        queue: *name,
        state,
    }
}
