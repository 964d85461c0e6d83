// The waiting jobs of one queue are moved to another: what is decided.
ghost use Rattle.std.specs.Prelude.{◌≡◌, count_by, OnOk};
ghost use Rattle.qm_kinds.specs.declared.request.Request.TheVariants as request;
ghost use Rattle.qm_model.specs.Merging.{merge_refusal};
ghost use Rattle.qm_parts.specs.Rooms.{HavePlacesFor, is_home};
ghost use Rattle.qm_image.specs.Deciding.{Prepares};
ghost use Rattle.qm_image.specs.Image.{system_of};

use qm_image::{Change, Image, Refused};
use qm_kinds::{Name, Refusal};
use std::alloc::AllocError;

// Why ASSIGN/MERGE is refused, if it is.
#[tactic(auto, unfolding(qm_image::specs::Image::system_of))]
fn merge_refusal(image: &Image, to: &Name, from: &Name) -> Option<Refusal>
    ensures { result ≡ merge_refusal (system_of image.now) to.now from.now }
{
    qm_rules::merge_refusal(image.parts.queue_table(), to, from)
}

// Makes room for the jobs of one queue in the rows of the queues that those of another may come to.
#[tactic(auto, unfolding(qm_image::specs::Image::system_of))]
fn reserve_merge(image: &mut Image, to: &Name, from: &Name) -> Result<(), AllocError>
    ensures rows { system_of image.new ≡ system_of image.old }
    ensures places { OnOk result (HavePlacesFor to.now (count_by (is_home from.now) image.new.parts.entries) image.new.parts) }
{
    let jobs = image.parts.count_at_home(from);
    image.parts.reserve_places(to, jobs)
}

/// Decides on jobs that are moved to another queue, and takes the room for them there.
#[tactic(auto, unfolding(qm_image::specs::Image::system_of))]
#[inline(never)]
pub fn prepare_merge<'a>(image: &mut Image, to: &Name, from: &Name) -> Result<Change<'a>, Refused>
    ensures { Prepares (request.Merge to.now from.now) image.old image.new result }
{
    if let Some(refusal) = merge_refusal(image, to, from) {
        return Err(Refused::By(refusal));
    }
    match reserve_merge(image, to, from) {
        Ok(()) => {
            Ok(Change::Merge {
                to: *to,
                from: *from,
            })
        }
        Err(AllocError) => Err(Refused::NoMemory),
    }
}
