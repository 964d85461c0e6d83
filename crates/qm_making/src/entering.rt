// A job that was submitted comes.
ghost use Rattle.std.specs.Prelude.{◌≡◌};
ghost use Rattle.qm_model.specs.Consistent.{IsConsistent};
ghost use Rattle.qm_image.specs.Image.{system_of};
ghost use Rattle.qm_image.specs.Preparing.{entered, IsNewEntry};
ghost use Rattle.qm_making.specs.Replying.{IsMade};

use qm_image::{Image, moment_in};
use qm_kinds::{Act, Entry};

// What is replied of an entry that was submitted.
fn submitted(entry: &Entry) -> Act
    ensures { result ≡ Act.Submitted entry.now.name entry.now.home entry.now.number entry.now.state }
{
    Act::Submitted {
        name: entry.name,
        home: entry.home,
        entry: entry.number,
        state: entry.state,
    }
}

/// The entry stands behind the others, and names its file.
#[tactic(auto, unfolding(qm_image::specs::Image::system_of))]
#[inline(never)]
pub fn enter(image: &mut Image, entry: &Entry) -> Act
    requires sound { IsConsistent (system_of image.old) }
    requires new { IsNewEntry image.old entry.now }
    ensures done { IsMade (entered (system_of image.old) entry.now) image.new result }
    ensures room { image.new.parts.spare_runs ≡ image.old.parts.spare_runs }
{
    let act = submitted(entry);
    image.parts.set_timer(entry.number, moment_in(&entry.state));
    image.next_entry += 1;
    image.spool.enter(&entry.file);
    image.parts.insert_entry(*entry);
    act
}
