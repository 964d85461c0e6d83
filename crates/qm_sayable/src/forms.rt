// What of a form a command can say.
ghost use Rattle.std.specs.Prelude.{◌≡◌};
ghost use Rattle.qm_sayable.specs.Forms.{is_form};

use crate::values::{is_definable, is_short};
use qm_kinds::Form;

/// Whether a command can define this form.
pub(crate) fn is_form(form: &Form) -> bool
    ensures { result ≡ is_form form.now }
{
    is_definable(&form.name) && is_short(&form.stock)
}
