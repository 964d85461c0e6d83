// The functions that a program calls.
ghost use Rattle.std.specs.Prelude.{◌≡◌};
ghost use Rattle.qm_values.specs.Functions.{function_of, listing_of};

use qm_kinds::RequestKind;

/// What a program asks for.
#[derive(Clone, Copy)]
pub enum Function {
    /// A change.
    Request(RequestKind),
    /// The queues, one by one.
    DisplayQueue,
    /// The jobs of queues, one by one.
    DisplayJob,
    /// The entries, one by one.
    DisplayEntry,
    /// The forms, one by one.
    DisplayForm,
    /// The characteristics, one by one.
    DisplayCharacteristic,
    /// The queue manager.
    DisplayManager,
    /// What was asked for one by one is ended.
    CancelOperation,
}

// The function of a number, if it changes nothing.
fn listing_of(number: u16) -> Option<Function>
    ensures { result ≡ listing_of number }
{
    match number {
        41 => Some(Function::DisplayQueue),
        42 => Some(Function::DisplayJob),
        43 => Some(Function::DisplayEntry),
        44 => Some(Function::DisplayForm),
        45 => Some(Function::DisplayCharacteristic),
        46 => Some(Function::DisplayManager),
        47 => Some(Function::CancelOperation),
        _ => None,
    }
}

/// The function of a number.
pub fn function_of(number: u16) -> Option<Function>
    ensures { result ≡ function_of number }
{
    match RequestKind::of(number) {
        Some(kind) => Some(Function::Request(kind)),
        None => listing_of(number),
    }
}
