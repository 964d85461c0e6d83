// Forms and characteristics come and go.
ghost use Rattle.std.specs.Prelude.{◌≡◌};
ghost use Rattle.qm_model.specs.Forms.{form_defined, form_deleted};
ghost use Rattle.qm_image.specs.Image.{system_of};
ghost use Rattle.qm_image.specs.Preparing.{CanDefineForm, CanDefineCharacteristic};
ghost use Rattle.qm_model.specs.Characteristics.{characteristic_defined, characteristic_deleted};
ghost use Rattle.qm_making.specs.Replying.{IsMade};

use qm_image::Image;
use qm_kinds::{Act, Characteristic, Form, Name};

/// The form stands in its place by number, for which there is room.
#[tactic(auto, unfolding(qm_image::specs::Image::system_of))]
#[inline(never)]
pub fn define_form(image: &mut Image, form: Form) -> Act
    requires { CanDefineForm image.old form }
    ensures done { IsMade (form_defined (system_of image.old) form) image.new result }
    ensures room { image.new.parts.spare_runs ≡ image.old.parts.spare_runs }
{
    let name = form.name;
    image.parts.define_form(form);
    Act::FormDefined { form: name }
}

/// The form goes.
#[tactic(auto, unfolding(qm_image::specs::Image::system_of))]
#[inline(never)]
pub fn remove_form(image: &mut Image, name: &Name) -> Act
    ensures done { IsMade (form_deleted (system_of image.old) name.now) image.new result }
    ensures room { image.new.parts.spare_runs ≡ image.old.parts.spare_runs }
{
    image.parts.delete_form(name);
    Act::FormDeleted { form: *name }
}

/// The characteristic stands in its place by number, for which there is room.
#[tactic(auto, unfolding(qm_image::specs::Image::system_of))]
#[inline(never)]
pub fn define_characteristic(image: &mut Image, characteristic: Characteristic) -> Act
    requires { CanDefineCharacteristic image.old characteristic }
    ensures done { IsMade (characteristic_defined (system_of image.old) characteristic) image.new result }
    ensures room { image.new.parts.spare_runs ≡ image.old.parts.spare_runs }
{
    let name = characteristic.name;
    image.parts.define_characteristic(characteristic);
    Act::CharacteristicDefined { name }
}

/// The characteristic goes.
#[tactic(auto, unfolding(qm_image::specs::Image::system_of))]
#[inline(never)]
pub fn remove_characteristic(image: &mut Image, name: &Name) -> Act
    ensures done { IsMade (characteristic_deleted (system_of image.old) name.now) image.new result }
    ensures room { image.new.parts.spare_runs ≡ image.old.parts.spare_runs }
{
    image.parts.delete_characteristic(name);
    Act::CharacteristicDeleted { name: *name }
}
