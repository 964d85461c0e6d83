// The forms and characteristics that are asked for, by name or by number.
ghost use Rattle.std.specs.Prelude.{◌≡◌, ◌≤◌, All, option_copied};
ghost use Rattle.std.specs.Ordering.{nat_cmp};
ghost use Rattle.qm_kinds.specs.declared.request.NameOrNumber.TheVariants.{Name as Named, Number};
ghost use Rattle.qm_model.specs.Common.{LAST_CHARACTERISTIC, IsInOrder, name_cmp, form_wanted, characteristic_wanted, is_characteristic};
ghost use Rattle.qm_model.specs.Wanted.{refused_characteristics, set_of};
ghost use Rattle.qm_tables.specs.FormsNamed.{AreByName};

use qm_keyed::place_of;
use qm_kinds::{Characteristic, Form, Name, NameOrNumber, Refusal};

// The form of a name, from the forms in order of their names.
fn find_named<'a>(by_name: &'a [Form], name: &Name) -> Option<&'a Form>
    requires { IsInOrder name_cmp (λ f. f.name) by_name.now }
    ensures { option_copied result ≡ form_wanted (Named name.now) by_name.now }
{
    let Ok(place) = place_of(by_name, name) else {
        return None;
    };
    Some(&by_name[place])
}

// The form of a number, from the forms in order of their numbers.
fn find_numbered(forms: &[Form], number: u16) -> Option<&Form>
    requires { IsInOrder nat_cmp (λ f. f.number) forms.now }
    ensures { option_copied result ≡ form_wanted (Number number) forms.now }
{
    let Ok(place) = place_of(forms, &number) else {
        return None;
    };
    Some(&forms[place])
}

/// The form that is wanted, by name or by number. It asks a logarithm of the forms.
pub(crate) fn find_form<'a>(
    forms: &'a [Form],
    by_name: &'a [Form],
    wanted: &NameOrNumber,
) -> Option<&'a Form>
    requires numbers { IsInOrder nat_cmp (λ f. f.number) forms.now }
    requires names { AreByName forms.now by_name.now }
    ensures { option_copied result ≡ form_wanted wanted.now forms.now }
{
    match wanted {
        NameOrNumber::Name(name) => find_named(by_name, name),
        NameOrNumber::Number(number) => find_numbered(forms, *number),
    }
}

// Whether the characteristic is the one that is wanted.
fn is_characteristic(wanted: &NameOrNumber, characteristic: &Characteristic) -> bool
    ensures { result ≡ is_characteristic wanted.now characteristic.now }
{
    match wanted {
        NameOrNumber::Name(name) => characteristic.name == *name,
        NameOrNumber::Number(number) => u16::from(characteristic.number) == *number,
    }
}

/// The characteristic that is wanted.
pub(crate) fn find_characteristic<'a>(
    defined: &'a [Characteristic],
    wanted: &NameOrNumber,
) -> Option<&'a Characteristic>
    ensures { option_copied result ≡ characteristic_wanted wanted.now defined.now }
{
    defined
        .iter()
        .find(|characteristic| is_characteristic(wanted, characteristic))
}

/// The refusal of the first characteristic that isn't defined.
pub(crate) fn refused_characteristics(
    defined: &[Characteristic],
    wanted: &[NameOrNumber],
) -> Option<Refusal>
    ensures { result ≡ refused_characteristics defined.now wanted.now }
{
    for one in wanted {
        if find_characteristic(defined, one).is_none() {
            return Some(Refusal::NoSuchCharacteristic { wanted: *one });
        }
    }
    None
}

/// The set of these characteristics, as bits by number.
pub(crate) fn set_of(defined: &[Characteristic], wanted: &[NameOrNumber]) -> u128
    requires { All (λ c. c.number ≤ LAST_CHARACTERISTIC) defined.now }
    ensures { result ≡ set_of defined.now wanted.now }
{
    let mut set = 0u128;
    for one in wanted {
        if let Some(characteristic) = find_characteristic(defined, one) {
            set |= 1u128 << characteristic.number;
        }
    }
    set
}
