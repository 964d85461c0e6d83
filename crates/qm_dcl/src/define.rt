// DEFINE/FORM and DEFINE/CHARACTERISTIC.
ghost use Rattle.std.specs.Prelude.{◌≡◌};
ghost use Rattle.qm_dcl.specs.Forms.{form_of, characteristic_of};

use crate::settings::Definition;
use qm_kinds::{Characteristic, Form};

/// The form that is defined, if its name and its number are given. Its stock has by default its name.
pub(crate) fn form_of(d: &Definition) -> Option<Form>
    ensures { result ≡ form_of d.now }
{
    let name = d.name?;
    let number = d.form_number?;
    Some(Form {
        name,
        number,
        stock: d.stock.unwrap_or(name),
        shape: d.shape,
    })
}

/// The characteristic that is defined, if its name and its number are given.
pub(crate) fn characteristic_of(d: &Definition) -> Option<Characteristic>
    ensures { result ≡ characteristic_of d.now }
{
    let name = d.name?;
    let number = d.characteristic_number?;
    Some(Characteristic { name, number })
}
