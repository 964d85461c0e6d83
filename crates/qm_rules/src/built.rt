// What can be asked so far.
ghost use Rattle.std.specs.Prelude.{◌≡◌, true};
ghost use Rattle.std.specs.Char.{is_ascii_digit};
ghost use Rattle.std.specs.List.{list_all};
ghost use Rattle.std.specs.Option.{option_map_or};
ghost use Rattle.qm_model.specs.Built.{is_short, is_definable, is_built};

use qm_kinds::{Form, Name, NewQueue, Request, SHORT_NAME_BYTES};

// Whether a queue and a device can have the name.
fn is_short(name: &Name) -> bool
    ensures { result ≡ is_short name.now }
{
    name.as_bytes().len() <= SHORT_NAME_BYTES
}

// Whether the text is of digits alone.
fn is_of_digits(text: &[u8]) -> bool
    ensures { result ≡ list_all is_ascii_digit text.now }
{
    text.iter().all(|byte| byte.is_ascii_digit())
}

/// Whether a form and a characteristic can have the name: it isn't of digits alone.
pub fn is_definable(name: &Name) -> bool
    ensures { result ≡ is_definable name.now }
{
    is_short(name) && !is_of_digits(name.as_bytes())
}

/// Whether a form can have its name and its stock.
pub fn has_form_names(form: &Form) -> bool
    ensures { result ≡ is_built (Request.DefineForm form.now) }
{
    is_definable(&form.name) && is_short(&form.stock)
}

// Whether a queue can have the device that is given, if one is.
fn has_short_device(device: Option<Name>) -> bool
    ensures { result ≡ option_map_or is_short device true }
{
    match device {
        None => true,
        Some(device) => is_short(&device),
    }
}

/// Whether a queue can be made under its name, and stand at its device.
pub fn has_short_names(new: &NewQueue) -> bool
    ensures { result ≡ is_built (Request.InitializeQueue new.now) }
{
    is_short(&new.name) && has_short_device(new.device)
}

/// Whether the request is one of those that can be asked so far.
pub fn is_built(request: &Request) -> bool
    ensures { result ≡ is_built request.now }
{
    match request {
        Request::InitializeQueue(new) => has_short_names(new),
        Request::DefineForm(form) => has_form_names(form),
        Request::DefineCharacteristic(characteristic) => is_definable(&characteristic.name),
        Request::Append { .. }
        | Request::Fill { .. }
        | Request::Drop { .. }
        | Request::DeleteForm { .. }
        | Request::DeleteCharacteristic { .. }
        | Request::SetQueue { .. }
        | Request::StartQueue { .. }
        | Request::StopQueue { .. }
        | Request::AbortJob { .. }
        | Request::DeleteQueue { .. }
        | Request::Merge { .. }
        | Request::Submit(_)
        | Request::SetEntry { .. }
        | Request::DeleteEntry { .. }
        | Request::Mark { .. }
        | Request::Done { .. }
        | Request::Tick => true,
        _ => false,
    }
}
