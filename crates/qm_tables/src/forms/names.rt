// The forms once more, by name.
ghost use Rattle.std.specs.Prelude.{◌≡◌, IfOk, vec_capacity};
ghost use Rattle.qm_tables.specs.Forms.{without_form};
ghost use Rattle.qm_tables.specs.FormsNamed.{AreByName};
ghost use Rattle.qm_tables.specs.FormsNumbered.{AreKeptForms};

use qm_kinds::{Form, Name};
use std::alloc::{AllocError, Global};

/// The forms in order of their names.
pub(crate) fn by_name(alloc: Global, forms: &[Form]) -> Result<Vec<Form>, AllocError>
    requires { AreKeptForms forms.now }
    ensures { IfOk result (λ by_name. AreByName forms.now by_name.items) }
{
    let mut by_name = Vec::from_slice(alloc, forms)?;
    by_name.sort_unstable_by_key(|form| form.name);
    Ok(by_name)
}

/// Takes out the form of a name. Where there is none, nothing changes. Its room stays.
pub(crate) fn take_out(forms: &mut Vec<Form>, name: &Name)
    ensures items { forms.new.items ≡ without_form name.now forms.old.items }
    ensures capacity { vec_capacity forms.new ≡ vec_capacity forms.old }
{
    forms.retain(|form| form.name != *name);
}
