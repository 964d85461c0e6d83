// Characteristics are defined and deleted: what is decided.
ghost use Rattle.std.specs.Prelude.{◌≡◌};
ghost use Rattle.qm_kinds.specs.declared.request.Request.TheVariants as request;
ghost use Rattle.qm_model.specs.Characteristics.{is_characteristic_taken, define_characteristic_refusal, delete_characteristic_refusal};
ghost use Rattle.qm_image.specs.Deciding.{Prepares};
ghost use Rattle.qm_image.specs.Image.{system_of};

use qm_image::{Change, Image, Refused};
use qm_kinds::{Characteristic, LAST_CHARACTERISTIC, Name, NameOrNumber, Refusal};
use qm_rules::{
    Named, QueueNamed, first_refusal, refused_by_entry, refused_by_queue, refused_where,
};
use qm_tables::FormTable;
use std::alloc::AllocError;

// Whether a characteristic has the name or the number.
fn is_characteristic_taken(forms: &FormTable, characteristic: &Characteristic) -> bool
    ensures { result ≡ is_characteristic_taken forms.now.characteristics characteristic.now }
{
    let number = NameOrNumber::Number(u16::from(characteristic.number));
    forms
        .characteristic(&NameOrNumber::Name(characteristic.name))
        .is_some()
        || forms.characteristic(&number).is_some()
}

// Why a characteristic can't be defined.
#[tactic(auto, unfolding(qm_image::specs::Image::system_of))]
fn define_characteristic_refusal(image: &Image, characteristic: &Characteristic) -> Option<Refusal>
    ensures { result ≡ define_characteristic_refusal (system_of image.now) characteristic.now }
{
    let refusals = [
        refused_where(
            characteristic.number > LAST_CHARACTERISTIC,
            Refusal::BadValue,
        ),
        refused_where(
            is_characteristic_taken(image.parts.form_table(), characteristic),
            Refusal::DuplicateCharacteristic,
        ),
    ];
    first_refusal(&refusals)
}

/// Decides on a characteristic that is defined, and takes the memory for it.
#[tactic(auto, unfolding(qm_image::specs::Image::system_of))]
#[inline(never)]
pub fn prepare_define_characteristic<'a>(
    image: &mut Image,
    characteristic: &Characteristic,
) -> Result<Change<'a>, Refused>
    ensures { Prepares (request.DefineCharacteristic characteristic.now) image.old image.new result }
{
    if let Some(refusal) = define_characteristic_refusal(image, characteristic) {
        return Err(Refused::By(refusal));
    }
    match image.parts.reserve_characteristic() {
        Ok(()) => Ok(Change::NewCharacteristic {
            characteristic: *characteristic,
        }),
        Err(AllocError) => Err(Refused::NoMemory),
    }
}

// Why a characteristic can't be deleted. The entries are looked at only where nothing else refuses it.
#[tactic(auto, unfolding(qm_image::specs::Image::system_of))]
fn delete_characteristic_refusal(image: &Image, name: &Name) -> Option<Refusal>
    ensures { result ≡ delete_characteristic_refusal (system_of image.now) name.now }
{
    let wanted = NameOrNumber::Name(*name);
    if image.parts.form_table().characteristic(&wanted).is_none() {
        return Some(Refusal::NoSuchCharacteristic { wanted });
    }
    let set = image.parts.form_table().set_of(&[wanted]);
    if let Some(refusal) = refused_by_queue(
        image.parts.queues(),
        &QueueNamed::Characteristics(set),
    ) {
        return Some(refusal);
    }
    refused_by_entry(image.parts.entries(), &Named::Characteristics(set))
}

/// Decides on a characteristic that is deleted.
#[tactic(auto, unfolding(qm_image::specs::Image::system_of))]
#[inline(never)]
pub fn prepare_delete_characteristic<'a>(image: &Image, name: &Name) -> Result<Change<'a>, Refused>
    ensures { Prepares (request.DeleteCharacteristic name.now) image.now image.now result }
{
    if let Some(refusal) = delete_characteristic_refusal(image, name) {
        return Err(Refused::By(refusal));
    }
    Ok(Change::RemoveCharacteristic { name: *name })
}
