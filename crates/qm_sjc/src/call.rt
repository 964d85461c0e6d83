// Calls: what a function asks for with its items.
ghost use Rattle.std.specs.Prelude.{◌≡◌, ◌<◌, ◌^◌, Ok, IfOk, IfErr, length, option_map};
ghost use Rattle.qm_values.specs.ItemText.{text};
ghost use Rattle.qm_values.specs.Asked.{request_of, asked};
ghost use Rattle.qm_sjc.specs.Calls.{call_of, Explains};

use crate::fault::{CallFault, Fault};
use crate::jobs::submit_of;
use crate::judging::first_fault;
use qm_kinds::{Input, Listing, Name, ParseKind, Request, RequestKind};
use qm_values::{Function, Item, Lists, change_asked, function_of, lists_in, query_of};
use std::alloc::{AllocError, Global};

// What a function changes, where nothing that it needs is missing.
#[inline(never)]
fn request_of(
    alloc: Global,
    user: Name,
    function: Function,
    items: &[Item],
    lists: Lists,
) -> Option<Request>
    ensures { result ≡ request_of user function items.now lists }
{
    match function {
        Function::Request(RequestKind::Submit) => submit_of(alloc, user, items, lists),
        _ => change_asked(function, items, lists),
    }
}

// A request as what is asked for.
fn asking(alloc: Global, request: Option<Request>) -> Result<Option<Input>, AllocError>
    ensures { IfOk result (λ input. input ≡ option_map Input.Ask request) }
{
    match request {
        Some(request) => Ok(Some(Input::asking(alloc, request)?)),
        None => Ok(None),
    }
}

// What a function asks for, where nothing that it needs is missing.
fn asked(
    alloc: Global,
    user: Name,
    function: Function,
    items: &[Item],
    lists: Lists,
) -> Result<Option<Input>, AllocError>
    ensures { IfOk result (λ input. input ≡ asked user function items.now lists) }
{
    let listing = match function {
        Function::DisplayQueue => Listing::Queues,
        Function::DisplayJob => Listing::Jobs,
        Function::DisplayEntry => Listing::Entries,
        Function::DisplayForm => Listing::Forms,
        Function::DisplayCharacteristic => Listing::Characteristics,
        Function::DisplayManager => Listing::Manager,
        Function::CancelOperation => Listing::Cancel,
        _ => return asking(alloc, request_of(alloc, user, function, items, lists)),
    };
    Ok(Some(Input::Show(query_of(listing, items))))
}

/// What a user asks for who calls the function of this number with these items, which are of a list.
///
/// The functions, with the items that they take; those in brackets may lack:
/// - 1 FILE, BYTES; 2 FILE, LINES; 3 FILE;
/// - 4 NAME, NUMBER (STOCK, SHAPE); 5 NAME; 6 NAME, NUMBER; 7 NAME;
/// - 8 QUEUE, KIND (NODE, DEVICE, TARGET, START, and the settings of a queue: JOB_LIMIT, CHARACTERISTIC, FORM, BLOCK_LOWER,
///   BLOCK_UPPER, BY_SIZE, QUEUE_RETAIN); 9 QUEUE, and one setting at least; 10 QUEUE (settings); 11 QUEUE (HOW);
///   12 QUEUE (ENTRY, REQUEUE); 13 QUEUE; 14 TO_QUEUE, QUEUE;
/// - 15 KIND, FILE (QUEUE, JOB_NAME, PRIORITY, AFTER, HOLD, RETAIN, RESTART, CHARACTERISTIC, FORM, COPIES, FLAG); 16 ENTRY, and one
///   at least of RELEASE, HOLD, AFTER, PRIORITY, JOB_NAME, CHARACTERISTIC, FORM, QUEUE, RESTART, RETAIN; 17 ENTRY;
/// - 41 and 43 to 45 (SEARCH); 42, 46 and 47 none.
///
/// What isn't given has the default of the command that asks for the same. It takes time and memory in proportion to the bytes of
/// the list.
///
/// Errors: `At` with the fault of the least place, which is that of its item: `Code` for an item that the function doesn't take,
/// `Value` for a value that isn't one of its code, and for an empty CHARACTERISTIC beside another, `Repeated` for another item of a
/// code, or the 65,536th CHARACTERISTIC or TARGET; where no item is at fault `Missing` at 0 for one that lacks; and `Form` at 0 for a
/// number that is no function's. `NoMemory`, where memory for lists or for the request ran out.
pub fn read_call(
    alloc: Global,
    function: u16,
    items: &[Item],
    user: Name,
) -> Result<Input, CallFault>
    requires { length (text items.now) < 2 ^ 64 }
    ensures read { IfOk result (λ input. call_of user function items.now ≡ Ok input) }
    ensures fault { IfErr result (Explains (call_of user function items.now)) }
{
    let Some(function) = function_of(function) else {
        return Err(at_once(ParseKind::Form));
    };
    if let Some(fault) = first_fault(function, items) {
        return Err(told(fault));
    }
    let Ok(lists) = lists_in(alloc, items) else {
        return Err(CallFault::NoMemory);
    };
    match asked(alloc, user, function, items, lists) {
        Ok(Some(input)) => Ok(input),
        Ok(None) => Err(at_once(ParseKind::Missing)),
        Err(AllocError) => Err(CallFault::NoMemory),
    }
}

// A fault of the whole call.
fn at_once(kind: ParseKind) -> CallFault
    ensures { result ≡ CallFault.At 0 kind }
{
    CallFault::At { place: 0, kind }
}

// The fault of an item.
fn told(fault: Fault) -> CallFault
    ensures { result ≡ CallFault.At fault.place fault.kind }
{
    CallFault::At {
        place: fault.place,
        kind: fault.kind,
    }
}
