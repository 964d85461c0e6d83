// Nodes come up and are lost, and a node becomes the queue manager. A change of this kind builds the rows of ready jobs anew, and
// looks at each run once for each job that is lost.
ghost use Rattle.std.specs.Prelude.{◌≡◌, ◌≤◌};
ghost use Rattle.qm_model.specs.Nodes.{node_up, nodes_lost, taken_over};
ghost use Rattle.qm_image.specs.Image.{system_of};
ghost use Rattle.qm_making.specs.Keeping.{KeepsOthers};
ghost use Rattle.qm_image.specs.Losing.{entries_left, HasTimersFor};
ghost use Rattle.qm_making.specs.Replying.{IsMade};

use crate::making::leave;
use qm_ending::after_loss;
use qm_image::Image;
use qm_kinds::{Act, Moment, Name, Seq};
use qm_parts::{NodeChange, see_entries};

// No job runs on these nodes any more: each that did becomes what the loss leaves of it, from the least number on.
#[tactic(auto, unfolding(qm_image::specs::Image::system_of))]
fn lose_runs(image: &mut Image, now: Moment, lost: &[Name])
    requires timers { HasTimersFor lost.now image.old.parts }
    ensures entries { image.new.parts.entries ≡ entries_left image.old.parts.queues now lost.now image.old.parts.entries }
    ensures rows { system_of image.new ≡ record (system_of image.old) { entries = image.new.parts.entries } }
    ensures others { KeepsOthers image.old image.new }
{
    while let Some(entry) = image.parts.first_run_on(lost) {
        let number = entry.number;
        let left = after_loss(image.parts.queue_table(), now, entry);
        see_entries(&image.parts);
        leave(image, number, left);
    }
}

/// The node that serves the request comes up.
#[tactic(auto, unfolding(qm_image::specs::Image::system_of))]
#[inline(never)]
pub fn start_node(image: &mut Image, node: &Name) -> Act
    ensures done { IsMade (node_up (system_of image.old) node.now) image.new result }
    ensures room { image.new.parts.spare_runs ≡ image.old.parts.spare_runs }
{
    image.parts.change_nodes(&NodeChange::Up(node));
    Act::NodeStarted { node: *node }
}

/// The nodes are down, and none of their jobs runs any more.
#[tactic(auto, unfolding(qm_image::specs::Image::system_of))]
#[inline(never)]
pub fn lose_nodes(image: &mut Image, now: Moment, node: &Name, lost: &[Name]) -> Act
    requires timers { HasTimersFor lost.now image.old.parts }
    ensures done { IsMade (nodes_lost (system_of image.old) now node.now lost.now) image.new result }
    ensures room { image.old.parts.spare_runs ≤ image.new.parts.spare_runs }
{
    image.parts.change_nodes(&NodeChange::Down(lost));
    lose_runs(image, now, lost);
    Act::NodeStopped { node: *node }
}

/// The node is the queue manager from here on: no job runs on nodes that are gone, just these nodes are up, and these may be
/// queue manager.
#[tactic(auto, unfolding(qm_image::specs::Image::system_of))]
#[inline(never)]
pub fn take_over(
    image: &mut Image,
    now: Moment,
    node: &Name,
    epoch: u64,
    gone: &[Name],
    up: &[Name],
    may: Seq<Name>,
) -> Act
    requires timers { HasTimersFor gone.now image.old.parts }
    ensures done { IsMade (taken_over (system_of image.old) now node.now epoch gone.now up.now may) image.new result }
    ensures room { image.old.parts.spare_runs ≤ image.new.parts.spare_runs }
{
    image.parts.change_nodes(&NodeChange::Exactly(up));
    lose_runs(image, now, gone);
    image.may = may;
    Act::Managing { node: *node, epoch }
}
