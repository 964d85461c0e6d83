// Which values a command can say.
ghost use Rattle.std.specs.Prelude.{◌≡◌, true};
ghost use Rattle.std.specs.List.{list_all};
ghost use Rattle.std.specs.Char.{is_ascii_digit};
ghost use Rattle.std.specs.Option.{option_map_or};
ghost use Rattle.qm_model.specs.Built.{is_short, is_definable};
ghost use Rattle.qm_dcl.specs.Values.{is_node_name};
ghost use Rattle.qm_sayable.specs.Values.{fits_list, is_form_reference, is_reference, are_characteristics};

use qm_kinds::{NODE_NAME_BYTES, Name, NameOrNumber, SHORT_NAME_BYTES};

// The most values of a list.
const MOST_VALUES: usize = 65_535;

/// Whether a name is short enough for a queue, a form, a characteristic, a stock or a device.
pub(crate) fn is_short(name: &Name) -> bool
    ensures { result ≡ is_short name.now }
{
    name.as_bytes().len() <= SHORT_NAME_BYTES
}

/// Whether the text is of digits alone.
pub(crate) fn is_of_digits(text: &[u8]) -> bool
    ensures { result ≡ list_all is_ascii_digit text.now }
{
    text.iter().all(|byte| byte.is_ascii_digit())
}

/// Whether a form or a characteristic can have this name.
pub(crate) fn is_definable(name: &Name) -> bool
    ensures { result ≡ is_definable name.now }
{
    is_short(name) && !is_of_digits(name.as_bytes())
}

/// Whether a node can have this name.
pub(crate) fn is_node_name(name: &Name) -> bool
    ensures { result ≡ is_node_name name.now }
{
    name.as_bytes().len() <= NODE_NAME_BYTES
}

/// Whether a command can list so many values.
pub(crate) fn fits_list(values: usize) -> bool
    ensures { result ≡ fits_list values }
{
    values <= MOST_VALUES
}

// Whether a command can say a name or a number up to the most.
fn is_reference(most: u16, reference: &NameOrNumber) -> bool
    ensures { result ≡ is_reference most reference.now }
{
    match reference {
        NameOrNumber::Name(name) => is_definable(name),
        NameOrNumber::Number(number) => *number <= most,
    }
}

/// Whether a command can say this form.
pub(crate) fn is_form_reference(form: &NameOrNumber) -> bool
    ensures { result ≡ is_form_reference form.now }
{
    is_reference(65_535, form)
}

// Whether a command can say names, and numbers up to the most.
fn are_references(most: u16, references: &[NameOrNumber]) -> bool
    ensures { result ≡ list_all (is_reference most) references.now }
{
    references
        .iter()
        .all(|reference| is_reference(most, reference))
}

/// Whether a command can say these characteristics.
pub(crate) fn are_characteristics(characteristics: &[NameOrNumber]) -> bool
    ensures { result ≡ are_characteristics characteristics.now }
{
    fits_list(characteristics.len()) && are_references(255, characteristics)
}

/// Whether a command can say this form, where it is given.
pub(crate) fn is_form_given(form: &Option<NameOrNumber>) -> bool
    ensures { result ≡ option_map_or is_form_reference form.now true }
{
    match form {
        None => true,
        Some(form) => is_form_reference(form),
    }
}

/// Whether a name is short enough, where it is given.
pub(crate) fn is_short_given(name: &Option<Name>) -> bool
    ensures { result ≡ option_map_or is_short name.now true }
{
    match name {
        None => true,
        Some(name) => is_short(name),
    }
}
