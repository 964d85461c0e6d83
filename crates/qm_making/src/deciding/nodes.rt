// Nodes come up and are lost, and a node becomes the queue manager: what is decided. Nothing refuses these requests.
ghost use Rattle.std.specs.Prelude.{◌≡◌, OnOk};
ghost use Rattle.qm_kinds.specs.declared.request.Request.TheVariants as request;
ghost use Rattle.qm_image.specs.Deciding.{Prepares, Takes};
ghost use Rattle.qm_image.specs.Image.{system_of};
ghost use Rattle.qm_image.specs.Losing.{HasTimersFor};

use qm_image::{Change, Image, Refused};
use qm_kinds::{Name, Seq};
use std::alloc::AllocError;

/// Decides on a node that comes up.
pub fn prepare_node_up<'a>(image: &Image) -> Result<Change<'a>, Refused>
    ensures { Prepares request.NodeUp image.now image.now result }
{
    Ok(Change::NodeUp)
}

// Makes room for a timer of each job that runs on one of these nodes.
#[tactic(auto, unfolding(qm_image::specs::Image::system_of))]
fn reserve_loss(image: &mut Image, lost: &[Name]) -> Result<(), AllocError>
    ensures rows { system_of image.new ≡ system_of image.old }
    ensures room { OnOk result (HasTimersFor lost.now image.new.parts) }
{
    let jobs = image.parts.count_runs_on(lost);
    image.parts.reserve_timers(jobs)
}

/// Decides on the loss of nodes, and takes room for a timer of each job that runs there: it may be kept until a moment.
#[inline(never)]
pub fn prepare_node_lost<'a>(image: &mut Image, nodes: &'a [Name]) -> Result<Change<'a>, Refused>
    ensures { Prepares (request.NodeLost nodes.now) image.old image.new result }
{
    match reserve_loss(image, nodes) {
        Ok(()) => Ok(Change::LoseNodes { nodes }),
        Err(AllocError) => Err(Refused::NoMemory),
    }
}

// Takes the memory for a takeover.
fn take_takeover<'a>(
    image: &mut Image,
    epoch: u64,
    gone: &'a [Name],
    up: &'a [Name],
    may: &[Name],
) -> Result<Change<'a>, AllocError>
    ensures { Takes (request.Took epoch gone.now up.now may.now) image.old image.new result }
{
    let may = Seq::of(Vec::from_slice(image.alloc, may)?);
    reserve_loss(image, gone)?;
    Ok(Change::TakeOver {
        epoch,
        gone,
        up,
        may,
    })
}

/// Decides on a takeover, and takes the memory for it: for the names of the nodes that may be queue manager, and for a timer
/// of each job that runs on a node that is gone.
#[inline(never)]
pub fn prepare_took<'a>(
    image: &mut Image,
    epoch: u64,
    gone: &'a [Name],
    up: &'a [Name],
    may: &[Name],
) -> Result<Change<'a>, Refused>
    ensures { Prepares (request.Took epoch gone.now up.now may.now) image.old image.new result }
{
    match take_takeover(image, epoch, gone, up, may) {
        Ok(change) => Ok(change),
        Err(AllocError) => Err(Refused::NoMemory),
    }
}
