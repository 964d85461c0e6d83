// Commands: what a text asks for.
ghost use Rattle.std.specs.Prelude.{◌≡◌, Ok, Err, IfOk, IfErr, option_map};
ghost use Rattle.qm_grammar.specs.Parsed.{tokens_in, parts_in, command_in};
ghost use Rattle.qm_dcl.specs.Command.{request_of, asked, judged, meant, unnamed, command_of};
ghost use Rattle.qm_dcl.specs.Faults.{Explains};

use crate::define::{characteristic_of, form_of};
use crate::entry::entry_change_of;
use crate::fault::DclFault;
use crate::lists::{Lists, lists_of, nodes_of};
use crate::queue::queue_request;
use crate::settings::{Settings, settings_of};
use crate::show::{characteristics_query, entries_query, forms_query, manager_query, queues_query};
use crate::submit::job_of;
use qm_commands::{Command, Fault};
use qm_grammar::{Parsed, parse};
use qm_kinds::{Input, JobKind, Moment, Name, ParseKind, Request, Seq};
use std::alloc::{AllocError, Global};

const NOT_BUILT: Fault = Fault {
    place: 0,
    kind: ParseKind::NotBuilt,
};

// What a command changes, where this form of it is built.
#[inline(never)]
fn request_of(
    alloc: Global,
    user: Name,
    command: Command,
    s: &Settings,
    lists: Lists,
) -> Option<Request>
    ensures { result ≡ request_of user command s.now lists }
{
    let definition = &s.definition;
    let request = match command {
        Command::Submit => Request::Submit(job_of(alloc, user, JobKind::Batch, s.file?, s, lists)),
        Command::Print => Request::Submit(job_of(alloc, user, JobKind::Print, s.file?, s, lists)),
        Command::SetEntry => Request::SetEntry {
            entry: s.entry?,
            change: entry_change_of(&s.job, s.queue, lists.characteristics),
        },
        Command::DeleteEntry => {
            drop(lists);
            Request::DeleteEntry { entry: s.entry? }
        }
        Command::DefineForm => {
            drop(lists);
            Request::DefineForm(form_of(definition)?)
        }
        Command::DefineCharacteristic => {
            drop(lists);
            Request::DefineCharacteristic(characteristic_of(definition)?)
        }
        Command::DeleteForm => {
            drop(lists);
            Request::DeleteForm {
                name: definition.name?,
            }
        }
        Command::DeleteCharacteristic => {
            drop(lists);
            Request::DeleteCharacteristic {
                name: definition.name?,
            }
        }
        _ => queue_request(alloc, s.queue?, command, s, lists)?,
    };
    Some(request)
}

// A request as what is asked for.
fn asking(alloc: Global, request: Option<Request>) -> Result<Option<Input>, AllocError>
    ensures { IfOk result (λ input. input ≡ option_map Input.Ask request) }
{
    match request {
        Some(request) => Ok(Some(Input::asking(alloc, request)?)),
        None => Ok(None),
    }
}

// What a command asks for, where this form of it is built.
fn asked(
    alloc: Global,
    user: Name,
    command: Command,
    s: &Settings,
    lists: Lists,
    nodes: Option<Seq<Name>>,
) -> Result<Option<Input>, AllocError>
    ensures { IfOk result (λ input. input ≡ asked user command s.now lists nodes) }
{
    let input = match command {
        Command::ShowQueue => Input::Show(queues_query(user, &s.listing)),
        Command::ShowEntry => Input::Show(entries_query(user, s.listing.pattern, s.entry)),
        Command::ShowForms => Input::Show(forms_query(s.listing.pattern)),
        Command::ShowCharacteristics => Input::Show(characteristics_query(s.listing.pattern)),
        Command::ShowManagers => Input::Show(manager_query()),
        Command::StartManager => Input::TakeManager { on: nodes },
        _ => return asking(alloc, request_of(alloc, user, command, s, lists)),
    };
    Ok(Some(input))
}

// What is told of a value that can't be read: what the grammar finds wrong in front of it, or else the value.
fn first_fault(read: Result<Command, Fault>, value: Fault) -> Fault
    ensures { judged read (Err value) ≡ Err result }
{
    match read {
        Ok(_) => value,
        Err(fault) if value.place < fault.place => value,
        Err(fault) => fault,
    }
}

// The fault of a text.
fn told(fault: Fault) -> DclFault
    ensures { result ≡ DclFault.At fault.place fault.kind }
{
    DclFault::At {
        place: fault.place,
        kind: fault.kind,
    }
}

// What a text asks for that names a command.
fn meant(
    alloc: Global,
    text: &[u8],
    user: Name,
    now: Moment,
    command: Command,
    parsed: &Parsed,
) -> Result<Input, DclFault>
    requires parts { parsed.now.parts.items ≡ parts_in text.now }
    requires command { parsed.now.command ≡ command_in text.now }
    ensures read { IfOk result (λ input. meant user now text.now command ≡ Ok input) }
    ensures fault { IfErr result (Explains (meant user now text.now command)) }
{
    let given = settings_of(text, now, command, &parsed.parts);
    let s = match &given {
        Ok(s) => s,
        Err(value) => return Err(told(first_fault(parsed.command, *value))),
    };
    if let Err(fault) = parsed.command {
        return Err(told(fault));
    }
    let Ok(lists) = lists_of(alloc, text, &parsed.parts) else {
        return Err(DclFault::NoMemory);
    };
    let Ok(nodes) = nodes_of(alloc, text, &parsed.parts) else {
        return Err(DclFault::NoMemory);
    };
    match asked(alloc, user, command, s, lists, nodes) {
        Ok(Some(input)) => Ok(input),
        Ok(None) => Err(told(NOT_BUILT)),
        Err(AllocError) => Err(DclFault::NoMemory),
    }
}

// What is wrong with a text that names no command.
fn unnamed(read: Result<Command, Fault>) -> Fault
    ensures { unnamed read ≡ Err result }
{
    match read {
        Ok(_) => NOT_BUILT,
        Err(fault) => fault,
    }
}

/// What the command of a user asks for that is read at a moment, from which its relative times count.
///
/// Names are whole or cut short, as the grammar has them. Built are, with the options and qualifiers that are named here:
/// - `SUBMIT file` and `PRINT file` with `/QUEUE=name`, `/NAME=name`, `/PRIORITY=0..255`, `/AFTER=time`, `/HOLD`,
///   `/RETAIN=ALWAYS`, `ERROR`, `DEFAULT` or `UNTIL=time`, `/RESTART`, `/NORESTART` and `/CHARACTERISTICS=(name or 0..255, ..)`;
///   `PRINT` also with `/FORM=name or 0..65535`, `/COPIES=0..255`, `/FLAG` and `/NOFLAG`; both take without effect `/NOTIFY`,
///   `/NONOTIFY`, `/IDENTIFY`, `/NOIDENTIFY`, `/NOLOG_FILE`, `/NOPRINTER` and `/KEEP`;
/// - `SET ENTRY number` with `/RELEASE`, `/HOLD`, `/AFTER=time`, `/NOAFTER`, `/PRIORITY=0..255`, `/NAME=name`,
///   `/CHARACTERISTICS=(name or 0..255, ..)`, `/FORM=name or 0..65535`, `/REQUEUE=name`, which is a queue, `/RESTART`,
///   `/NORESTART` and `/RETAIN=` as a job;
/// - `DELETE/ENTRY=number`;
/// - `SHOW ENTRY`, which shows the entry of a number, or the user's whose names match a pattern, which is `*` where none is given;
/// - `SHOW QUEUE` with a pattern of names, `/ALL_JOBS`, and `/BATCH`, `/DEVICE` and `/GENERIC`, which add up; and
///   `SHOW QUEUE/FORM` and `SHOW QUEUE/CHARACTERISTICS` with a pattern;
/// - `INITIALIZE/QUEUE name` with `/BATCH`, `/GENERIC=(name, ..)`, `/ON=node::` or `/ON=node::device:`, `/START` and what can be
///   set for a queue: `/JOB_LIMIT=0..255`, `/CHARACTERISTICS=(name or 0..255, ..)`, `/NOCHARACTERISTICS`,
///   `/FORM_MOUNTED=name or 0..65535`, `/BLOCK_LIMIT=upper` or `(lower, upper)` of 0 to 2 ^ 32 - 1, `/NOBLOCK_LIMIT`,
///   `/SCHEDULE=SIZE` or `NOSIZE`, `/RETAIN=ALL` or `ERROR`, and `/NORETAIN`;
/// - `SET QUEUE name` and `START/QUEUE name` with what can be set for a queue;
/// - `STOP/QUEUE name` with `/NEXT`, `/RESET`, `/ABORT`, `/REQUEUE` and `/ENTRY=number`;
/// - `DELETE/QUEUE name`, and `ASSIGN/MERGE target source`;
/// - `DEFINE/FORM name 0..65535` with `/STOCK=name`, `/LENGTH=0..255`, `/WIDTH=0..255`, `/MARGIN=(TOP=0..255, ..)` of `TOP`,
///   `BOTTOM`, `LEFT` and `RIGHT`, `/WRAP` and `/TRUNCATE`, and `DELETE/FORM name`;
/// - `DEFINE/CHARACTERISTIC name 0..255`, and `DELETE/CHARACTERISTIC name`;
/// - `START/QUEUE/MANAGER` with `/ON=(node, ..)`, and `SHOW QUEUE/MANAGERS`.
///
/// The name of a queue, a form, a characteristic, a stock or a device has 1 to 31 bytes, that of a node 1 to 6, that of a job
/// 1 to 39; that of a form or a characteristic isn't digits alone, which stand for its number. A number is decimal digits, that
/// of an entry below 2 ^ 32; zeros may stand in front. A time is as `read_time` of `qm_time` takes it, in capital letters where
/// it is quoted, and one with a blank must be. A list has at most 65,535 values. What is asked for has `None`, or an
/// empty list, for what isn't given, but a form has all its settings, and a job too; what the rules refuse is read, as a limit
/// of 0.
///
/// Errors: `At` with the fault of the least place: `NotBuilt` at byte 0 where a form of a command isn't built; `Value` at the first byte of a name, a number, a pattern, a word, a time or a file that can't be read; and those of the
/// grammar.
/// `NoMemory`, where memory for the tokens, the parts, the lists and the request ran out.
pub fn read_command(alloc: Global, text: &[u8], user: Name, now: Moment) -> Result<Input, DclFault>
    ensures read { IfOk result (λ input. command_of user now text.now ≡ Ok input) }
    ensures fault { IfErr result (Explains (command_of user now text.now)) }
{
    let Ok(parsed) = parse(alloc, text) else {
        return Err(DclFault::NoMemory);
    };
    match parsed.named {
        Some(command) => meant(alloc, text, user, now, command, &parsed),
        None => Err(told(unnamed(parsed.command))),
    }
}
