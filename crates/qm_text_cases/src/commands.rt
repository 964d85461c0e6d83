// What users type, and the record of what it asks for, or what is wrong and where.
ghost use Rattle.std.specs.Prelude.{IsTrue};
ghost use Rattle.qm_record.specs.Spelling.{AreListsShort, IsShortChange, IsShortEntryChange};

use crate::lines::{push_pieces, tell_bytes, tell_moment, tell_number, tell_pieces};
use qm_dcl::{DclFault, read_command};
use qm_kinds::{
    EntryChange, Input, JobRetain, Moment, Name, Query, QueueChange, Request, Seq, system_user,
};
use qm_plans::{push_line, push_times};
use qm_record::write_request;
use std::alloc::{AllocError, Global};

// 1-JAN-2030 15:00, when the texts are read, in hundredths of a second from 17-NOV-1858.
const NOW: u64 = (62_502 * 24 + 15) * 360_000;

/// When the texts are read.
pub(crate) fn now() -> Moment {
    Moment::new(NOW).unwrap_or(Moment::BASE)
}

/// The user that types.
pub(crate) fn user() -> Name {
    Name::read(b"SMITH").unwrap_or(system_user())
}

// The most elements of a list in a record.
const LIST: usize = 65_535;

// The most bytes of a file's text there.
const TEXT: usize = 4_294_967_295;

// Whether the lists of a change of a queue are short enough for a record.
fn is_short_change(change: &QueueChange) -> bool
    ensures { IsTrue result → IsShortChange change.now }
{
    match &change.characteristics {
        Some(given) => given.len() <= LIST,
        None => true,
    }
}

// Whether those of a change of an entry are.
fn is_short_entry_change(change: &EntryChange) -> bool
    ensures { IsTrue result → IsShortEntryChange change.now }
{
    match &change.characteristics {
        Some(given) => given.len() <= LIST,
        None => true,
    }
}

// Whether those of a request are.
fn is_short(request: &Request) -> bool
    ensures { IsTrue result → AreListsShort request.now }
{
    match request {
        Request::NodeLost { .. } | Request::Took { .. } => false,
        Request::Append { bytes, .. } => bytes.len() <= TEXT,
        Request::InitializeQueue(queue) => {
            queue.targets.len() <= LIST && is_short_change(&queue.change)
        }
        Request::SetQueue { change, .. } | Request::StartQueue { change, .. } => {
            is_short_change(change)
        }
        Request::Submit(job) => job.characteristics.len() <= LIST,
        Request::SetEntry { change, .. } => is_short_entry_change(change),
        _ => true,
    }
}

/// Tells the record of a request, at the base of the system time, of the node with this number.
pub(crate) fn push_request(
    alloc: Global,
    told: &mut Vec<u8>,
    node: u8,
    request: &Request,
) -> Result<(), AllocError> {
    if !is_short(request) {
        return push_line(told, "no record");
    }
    tell_bytes(told, &write_request(alloc, Moment::BASE, node, request)?)
}

// A text, where what it names is listed.
fn where_listed(listed: bool, text: &str) -> &str {
    if listed { text } else { "" }
}

// Tells which rows of a listing are asked for: the listing, the pattern, the user, the kinds of queue, and whether it is one row.
fn tell_listing(alloc: Global, told: &mut Vec<u8>, query: &Query) -> Result<(), AllocError> {
    let listing = format!(in alloc; "{:?}", query.listing)?;
    let user = match &query.user {
        Some(user) => user.as_str(),
        None => "all users",
    };
    let kinds = query.kinds;
    let pieces = [
        listing.as_str(),
        " ",
        query.pattern.as_str(),
        " of ",
        user,
        where_listed(kinds.batch, ", batch"),
        where_listed(kinds.print, ", print"),
        where_listed(kinds.generic_batch, ", generic batch"),
        where_listed(kinds.generic_print, ", generic print"),
        where_listed(query.single, ", one row"),
    ];
    tell_pieces(told, &pieces)
}

// Tells which rows are asked for: one entry, or those of a listing.
fn tell_query(alloc: Global, told: &mut Vec<u8>, query: &Query) -> Result<(), AllocError> {
    match query.number {
        Some(number) => tell_number(alloc, told, "entry", u64::from(number)),
        None => tell_listing(alloc, told, query),
    }
}

// Tells the nodes on which the queue manager may run from now on; an empty list stands for all.
fn push_nodes(told: &mut Vec<u8>, nodes: &[Name]) -> Result<(), AllocError> {
    told.extend_from_slice(b" on")?;
    for node in nodes {
        told.extend_from_slice(b" ")?;
        told.extend_from_slice(node.as_bytes())?;
    }
    Ok(())
}

// Tells on which nodes the queue manager may run from now on, where the command says so.
fn tell_nodes(told: &mut Vec<u8>, on: &Option<Seq<Name>>) -> Result<(), AllocError> {
    told.extend_from_slice(b"manager")?;
    if let Some(nodes) = on {
        push_nodes(told, nodes.as_slice())?;
    }
    push_line(told, "")
}

/// Tells what is asked for: the record of a request, the rows that are to be shown, or the nodes of a queue manager.
pub(crate) fn tell_input(
    alloc: Global,
    told: &mut Vec<u8>,
    input: &Input,
) -> Result<(), AllocError> {
    match input {
        Input::Ask(request) => push_request(alloc, told, 0, request.get()),
        Input::Show(query) => tell_query(alloc, told, query),
        Input::TakeManager { on } => tell_nodes(told, on),
        _ => push_line(told, "another input"),
    }
}

// Tells what is wrong with a text.
fn tell_fault(alloc: Global, told: &mut Vec<u8>, fault: DclFault) -> Result<(), AllocError> {
    push_line(told, format!(in alloc; "{fault}")?.as_str())
}

/// Tells what a text asks for that is read at some moment, or what is wrong with it; and says whether it asks for something.
///
/// Here and elsewhere an input is lent, and let go by a call of `drop` as soon as it was told: where it goes with the end of its
/// scope, the proof follows each of its many variants at each end of the function.
pub(crate) fn tell_typed(
    alloc: Global,
    told: &mut Vec<u8>,
    text: &[u8],
    now: Moment,
) -> Result<bool, AllocError> {
    match read_command(alloc, text, user(), now) {
        Ok(input) => {
            let end = tell_input(alloc, told, &input);
            drop(input);
            end?;
            Ok(true)
        }
        Err(fault) => {
            tell_fault(alloc, told, fault)?;
            Ok(false)
        }
    }
}

/// Whether what is told of a text that is read at some moment is this.
pub(crate) fn is_told_of(
    alloc: Global,
    text: &[u8],
    now: Moment,
    answer: &[u8],
) -> Result<bool, AllocError> {
    let mut told = Vec::new(alloc);
    tell_typed(alloc, &mut told, text, now)?;
    Ok(told.as_slice() == answer)
}

// Whether this is told of a text behind many spaces too.
fn is_told_behind_spaces(alloc: Global, text: &[u8], answer: &[u8]) -> Result<bool, AllocError> {
    let mut long = Vec::new(alloc);
    push_times(&mut long, 10_000, b" ")?;
    long.extend_from_slice(text)?;
    is_told_of(alloc, &long, now(), answer)
}

/// Tells what a text asks for, or what is wrong with it. What asks for something does so behind many spaces too, since a long
/// command isn't want of memory.
pub(crate) fn tell_asked(alloc: Global, told: &mut Vec<u8>, text: &[u8]) -> Result<(), AllocError> {
    let asks = tell_typed(alloc, told, text, now())?;
    if asks && !is_told_behind_spaces(alloc, text, told.as_slice())? {
        push_line(told, "something else behind spaces")?;
    }
    Ok(())
}

// Where a time may stand: what is in front of it, and what is behind.
const TIMED: [(&str, &str); 6] = [
    ("SUBMIT/AFTER=", " J"),
    ("SUBMIT/RETAIN=UNTIL=", " J"),
    ("PRINT J/AFTER=(", ")"),
    ("PRINT J/RETAIN=UNTIL=(", ")"),
    ("SET ENTRY 5/AFTER=", ""),
    ("SET ENTRY 5/RETAIN=(UNTIL=", ")"),
];

// The moment before which a job of these settings doesn't start, or else until which it is kept.
fn moment_of(after: Option<Moment>, retain: JobRetain) -> Option<Moment> {
    match (after, retain) {
        (Some(moment), _) => Some(moment),
        (None, JobRetain::Until(moment)) => Some(moment),
        _ => None,
    }
}

// The one moment that a request names for a job.
fn moment_asked(request: &Request) -> Option<Moment> {
    match request {
        Request::Submit(job) => moment_of(job.after, job.retain),
        Request::SetEntry { change, .. } => moment_of(
            change.after.unwrap_or(None),
            change.retain.unwrap_or(JobRetain::Default),
        ),
        _ => None,
    }
}

// Tells the moment that an input names for a job.
fn tell_moment_asked(alloc: Global, told: &mut Vec<u8>, input: &Input) -> Result<(), AllocError> {
    let Input::Ask(request) = input else {
        return push_line(told, "another input");
    };
    match moment_asked(request.get()) {
        Some(moment) => tell_moment(alloc, told, moment),
        None => push_line(told, "no moment"),
    }
}

// A fault, as it is told from the byte at which the time stands.
fn behind(fault: DclFault, front: usize) -> DclFault {
    match fault {
        DclFault::At { place, kind } => DclFault::At {
            place: place.wrapping_sub(front),
            kind,
        },
        DclFault::NoMemory => DclFault::NoMemory,
    }
}

// Tells the moment that a text names for a job, in hundredths of a second, or what is wrong with it, told from the byte at which the
// time stands.
fn tell_time_in(
    alloc: Global,
    told: &mut Vec<u8>,
    text: &[u8],
    front: usize,
) -> Result<(), AllocError> {
    match read_command(alloc, text, user(), now()) {
        Ok(input) => {
            let end = tell_moment_asked(alloc, told, &input);
            drop(input);
            end
        }
        Err(fault) => tell_fault(alloc, told, behind(fault, front)),
    }
}

// Tells a line that is another than the one before it, whose place it takes.
fn tell_other(told: &mut Vec<u8>, before: &mut Vec<u8>, line: Vec<u8>) -> Result<(), AllocError> {
    if line.as_slice() != before.as_slice() {
        told.extend_from_slice(&line)?;
    }
    *before = line;
    Ok(())
}

// Tells the moment that a text names, where it is told otherwise than the one before.
fn tell_other_time(
    alloc: Global,
    told: &mut Vec<u8>,
    before: &mut Vec<u8>,
    text: &[u8],
    front: usize,
) -> Result<(), AllocError> {
    let mut line = Vec::new(alloc);
    tell_time_in(alloc, &mut line, text, front)?;
    tell_other(told, before, line)
}

// The same of a time between such texts and quotes.
fn tell_time_between(
    alloc: Global,
    told: &mut Vec<u8>,
    before: &mut Vec<u8>,
    (front, behind): (&str, &str),
    quote: &str,
    time: &str,
) -> Result<(), AllocError> {
    let mut text = Vec::new(alloc);
    push_pieces(&mut text, &[front, quote, time, quote, behind])?;
    tell_other_time(alloc, told, before, &text, front.len())
}

/// Tells which moment a time names wherever it may stand, bare or in quotes: once, where it is always the same.
pub(crate) fn tell_time_asked(
    alloc: Global,
    told: &mut Vec<u8>,
    time: &str,
) -> Result<(), AllocError> {
    let mut before = Vec::new(alloc);
    for texts in TIMED {
        tell_time_between(alloc, told, &mut before, texts, "", time)?;
        tell_time_between(alloc, told, &mut before, texts, "\"", time)?;
    }
    Ok(())
}
