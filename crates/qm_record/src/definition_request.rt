// The records of requests that define and delete forms and characteristics.
ghost use Rattle.std.specs.Prelude.{◌≡◌, ◌++◌, OnOk};
ghost use Rattle.qm_bytes.specs.Reading.{GivesKept};
ghost use Rattle.qm_record.specs.Spelling.{characteristic as characteristic_text, CharacteristicFits};
ghost use Rattle.qm_record.specs.Reading.{define_form_at, delete_form_at, define_characteristic_at, delete_characteristic_at};

use crate::field::put_byte;
use crate::row::read_form;
use qm_bytes::{BadField, put_name, read_byte, read_name};
use qm_kinds::{Body, Characteristic, Request};
use std::alloc::AllocError;

/// Reads the fields of a request to define a form: those of its row.
#[tactic(auto, unfolding(crate::specs::Reading::define_form_at))]
#[inline(never)]
pub(crate) fn read_define_form(bytes: &mut &[u8]) -> Result<Result<Body, AllocError>, BadField>
    ensures { GivesKept result bytes.new.now (define_form_at bytes.old.now) }
{
    let form = read_form(bytes)?;
    Ok(Ok(Body::Ask(Request::DefineForm(form))))
}

/// Reads the fields of a request to delete a form.
#[tactic(auto, unfolding(crate::specs::Reading::delete_form_at))]
#[inline(never)]
pub(crate) fn read_delete_form(bytes: &mut &[u8]) -> Result<Result<Body, AllocError>, BadField>
    ensures { GivesKept result bytes.new.now (delete_form_at bytes.old.now) }
{
    let name = read_name(bytes)?;
    Ok(Ok(Body::Ask(Request::DeleteForm { name })))
}

/// Appends a characteristic.
pub(crate) fn put_characteristic(
    out: &mut Vec<u8>,
    characteristic: &Characteristic,
) -> Result<(), AllocError>
    ensures ok { OnOk result (out.new.items
        ≡ out.old.items ++ characteristic_text characteristic.now) }
    ensures lawful { OnOk result (CharacteristicFits characteristic.now) }
{
    put_name(out, &characteristic.name)?;
    put_byte(out, characteristic.number)
}

/// Reads the fields of a request to define a characteristic.
#[tactic(auto, unfolding(crate::specs::Reading::define_characteristic_at, crate::specs::Reading::characteristic_at))]
#[inline(never)]
pub(crate) fn read_define_characteristic(
    bytes: &mut &[u8],
) -> Result<Result<Body, AllocError>, BadField>
    ensures { GivesKept result bytes.new.now (define_characteristic_at bytes.old.now) }
{
    let name = read_name(bytes)?;
    let number = read_byte(bytes, 0, 255)?;
    Ok(Ok(Body::Ask(Request::DefineCharacteristic(Characteristic { name, number }))))
}

/// Reads the fields of a request to delete a characteristic.
#[tactic(auto, unfolding(crate::specs::Reading::delete_characteristic_at))]
#[inline(never)]
pub(crate) fn read_delete_characteristic(
    bytes: &mut &[u8],
) -> Result<Result<Body, AllocError>, BadField>
    ensures { GivesKept result bytes.new.now (delete_characteristic_at bytes.old.now) }
{
    let name = read_name(bytes)?;
    Ok(Ok(Body::Ask(Request::DeleteCharacteristic { name })))
}
