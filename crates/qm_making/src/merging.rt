// The waiting jobs of one queue are moved to another.
ghost use Rattle.std.specs.Prelude.{◌≡◌, count_by};
ghost use Rattle.qm_model.specs.Consistent.{IsConsistent};
ghost use Rattle.qm_model.specs.Merging.{merged};
ghost use Rattle.qm_parts.specs.Rooms.{HavePlacesFor, is_home};
ghost use Rattle.qm_image.specs.Image.{system_of};
ghost use Rattle.qm_making.specs.Replying.{IsMade};

use qm_image::Image;
use qm_kinds::{Act, Name};

/// The jobs that wait in the one queue have the other as their home.
#[tactic(auto, unfolding(qm_image::specs::Image::system_of))]
#[inline(never)]
pub fn merge(image: &mut Image, to: &Name, from: &Name) -> Act
    requires sound { IsConsistent (system_of image.old) }
    requires places { HavePlacesFor to.now (count_by (is_home from.now) image.old.parts.entries) image.old.parts }
    ensures done { IsMade (merged (system_of image.old) to.now from.now) image.new result }
    ensures room { image.new.parts.spare_runs ≡ image.old.parts.spare_runs }
{
    let moved = image.parts.merge(to, from);
    Act::Moved {
        entries: moved as u32,
    }
}
