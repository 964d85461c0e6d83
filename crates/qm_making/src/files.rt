// Changes of files are made.
ghost use Rattle.std.specs.Prelude.{◌≡◌};
ghost use Rattle.qm_model.specs.Appending.{appended};
ghost use Rattle.qm_image.specs.Image.{system_of};
ghost use Rattle.qm_image.specs.Preparing.{CanInsert, CanAppend, CanDrop};
ghost use Rattle.qm_model.specs.Filing.{dropped};
ghost use Rattle.qm_making.specs.Replying.{IsMade};

use qm_image::Image;
use qm_kinds::{Act, FileName};

/// The new file stands where it belongs.
#[tactic(auto, unfolding(qm_image::specs::Image::system_of))]
#[inline(never)]
pub fn make_file(image: &mut Image, name: &FileName, bytes: Vec<u8>) -> Act
    requires { CanInsert image.old name.now bytes.items }
    ensures done { IsMade (appended (system_of image.old) name.now bytes.items) image.new result }
    ensures room { image.new.parts.spare_runs ≡ image.old.parts.spare_runs }
{
    let size = bytes.len() as u32;
    image.spool.insert_file(*name, bytes);
    Act::Filed {
        file: *name,
        bytes: size,
    }
}

/// The bytes stand behind those of the file.
#[tactic(auto, unfolding(qm_image::specs::Image::system_of))]
#[inline(never)]
pub fn extend_file(image: &mut Image, name: &FileName, bytes: &[u8]) -> Act
    requires { CanAppend image.old name.now bytes.now }
    ensures done { IsMade (appended (system_of image.old) name.now bytes.now) image.new result }
    ensures room { image.new.parts.spare_runs ≡ image.old.parts.spare_runs }
{
    let size = (image.file_size(name) + bytes.len()) as u32;
    image.spool.append(name, bytes);
    Act::Filed {
        file: *name,
        bytes: size,
    }
}

/// The file goes, which no entry names.
#[tactic(auto, unfolding(qm_image::specs::Image::system_of))]
#[inline(never)]
pub fn remove_file(image: &mut Image, name: &FileName) -> Act
    requires { CanDrop image.old name.now }
    ensures done { IsMade (dropped (system_of image.old) name.now) image.new result }
    ensures room { image.new.parts.spare_runs ≡ image.old.parts.spare_runs }
{
    image.spool.remove(name);
    Act::Dropped { file: *name }
}
