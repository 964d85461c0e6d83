// Records are read.
ghost use Rattle.std.specs.Prelude.{◌≡◌, ◌-◌, ◌≤◌, ◌++◌, [], ℕ, List, length, IfOk, IsErrOf};
ghost use Rattle.qm_bytes.specs.Reading.{Gives, GivesKept};
ghost use Rattle.qm_bytes.specs.Laws.{Spells};
ghost use Rattle.qm_kinds.specs.declared.moment.TheConstants.{LAST_MOMENT};
ghost use Rattle.qm_kinds.specs.declared.record.Record.{Record as AnyRecord};
ghost use Rattle.qm_record.specs.Spelling.{record_text, HasSpelling};
ghost use Rattle.qm_record.specs.Reading.{record_kind_at, body_at, record_at, whole_at, GivesFront, left_by, completed, TellsWhole, last_moment, last_node};
ghost use Rattle.qm_record.specs.Faults.{IsRead, IsRecord, IsFirstFault};

use crate::fault::RecordFault;
use crate::kind::RecordKind;
use crate::node_request::{read_node_lost, read_took};
use crate::request::{read_done, read_request, read_run_mark};
use crate::row::{read_form_row, read_head, read_queue_row};
use qm_bytes::{BadField, Width, read_byte, read_number_up_to};
use qm_kinds::{Body, LAST_MOMENT, Moment, Record, Request};
use std::alloc::{AllocError, Global};

// Reads the kind of a record.
#[tactic(auto, unfolding(crate::specs::Reading::record_kind_at))]
fn read_kind(bytes: &mut &[u8]) -> Result<RecordKind, BadField>
    ensures { Gives result bytes.new.now (record_kind_at bytes.old.now) }
{
    let here = *bytes;
    match here {
        [] => Err(BadField { left: 0 }),
        [number, rest @ ..] => match RecordKind::of(*number) {
            Some(kind) => {
                *bytes = rest;
                Ok(kind)
            }
            None => Err(BadField { left: here.len() }),
        },
    }
}

// Reads the fields of a record. No reader is inlined here: a function clears all its locals when it is entered, and each
// record would pay for those of all readers.
#[tactic(auto, unfolding(crate::specs::Reading::body_at))]
fn read_body(
    alloc: Global,
    bytes: &mut &[u8],
    kind: RecordKind,
) -> Result<Result<Body, AllocError>, BadField>
    ensures { GivesKept result bytes.new.now (body_at kind bytes.old.now) }
{
    match kind {
        RecordKind::Request(kind) => read_request(alloc, bytes, kind),
        RecordKind::Mark => read_run_mark(bytes),
        RecordKind::Done => read_done(bytes),
        RecordKind::Tick => Ok(Ok(Body::Ask(Request::Tick))),
        RecordKind::NodeUp => Ok(Ok(Body::Ask(Request::NodeUp))),
        RecordKind::NodeLost => read_node_lost(alloc, bytes),
        RecordKind::Took => read_took(alloc, bytes),
        RecordKind::Head => read_head(alloc, bytes),
        RecordKind::Form => read_form_row(bytes),
        RecordKind::Queue => read_queue_row(alloc, bytes),
    }
}

// The last moment of a record of a kind: a row has the first one.
fn last_moment(kind: RecordKind) -> u64
    ensures value { result ≡ last_moment kind }
    ensures within { result ≤ LAST_MOMENT }
{
    if kind.is_row() { 0 } else { LAST_MOMENT }
}

// The last node of a record of a kind: a row has the first one.
fn last_node(kind: RecordKind) -> u8
    ensures { result ≡ last_node kind }
{
    if kind.is_row() { 0 } else { 255 }
}

// What stands before the fields of each record.
#[derive(Clone, Copy)]
struct Front {
    kind: RecordKind,
    moment: Moment,
    node: u8,
}

// Reads what stands before the fields of a record.
#[tactic(auto, unfolding(crate::specs::Reading::record_at))]
fn read_front(bytes: &mut &[u8]) -> Result<Front, BadField>
    ensures { GivesFront result bytes.new.now (record_at bytes.old.now) }
{
    read_byte(bytes, 1, 1)?;
    let kind = read_kind(bytes)?;
    let hundredths = read_number_up_to(bytes, Width::Eight, last_moment(kind))?;
    let Some(moment) = Moment::new(hundredths) else {
        unreachable!()
    };
    let node = read_byte(bytes, 0, last_node(kind))?;
    Ok(Front { kind, moment, node })
}

// The fault where so many bytes are left of these.
fn fault_at(bytes: &[u8], left: usize) -> RecordFault
    requires { left ≤ length bytes.now }
    ensures { result ≡ RecordFault.Bad (length bytes.now - left) }
{
    RecordFault::Bad {
        place: bytes.len() - left,
    }
}

// How many bytes are left where no record goes on, once a body was read.
fn left_by(read: &Result<Result<Body, AllocError>, BadField>, rest: &[u8]) -> Option<usize>
    ensures { result ≡ left_by read.now rest.now }
{
    match read {
        Ok(_) => {
            if rest.is_empty() {
                None
            } else {
                Some(rest.len())
            }
        }
        Err(fault) => Some(fault.left),
    }
}

// The record of a body behind which nothing stands.
#[inline]
fn completed(
    moment: Moment,
    node: u8,
    read: Result<Result<Body, AllocError>, BadField>,
) -> Result<Record, RecordFault>
    ensures { result ≡ completed moment node read }
{
    match read {
        Ok(Ok(body)) => Ok(Record { moment, node, body }),
        _ => Err(RecordFault::NoMemory),
    }
}

// Reads a record behind which nothing stands. A record is large, so it is made at its place, and its body is moved once. It isn't
// inlined: in a small function most of the clearing of locals goes, since the compiler sees that they are written.
#[inline(never)]
fn read_whole(alloc: Global, bytes: &[u8]) -> Result<Record, RecordFault>
    ensures { TellsWhole result bytes.now (whole_at bytes.now) }
{
    let mut rest = bytes;
    let Front { kind, moment, node } = match read_front(&mut rest) {
        Ok(front) => front,
        Err(fault) => return Err(fault_at(bytes, fault.left)),
    };
    let read = read_body(alloc, &mut rest, kind);
    if let Some(left) = left_by(&read, rest) {
        return Err(fault_at(bytes, left));
    }
    completed(moment, node, read)
}

/// The record that the bytes spell, all of the bytes.
pub fn read_record(alloc: Global, bytes: &[u8]) -> Result<Record, RecordFault>
    // What is read is spelled so.
    ensures found { IfOk result (λ r. Spells HasSpelling record_text r bytes.now) }
    // What is spelled so is read, unless memory runs out.
    ensures only { (r : AnyRecord) → HasSpelling r → bytes.now ≡ record_text r → IsRead r result }
    // A fault is the first one.
    ensures first { (place : ℕ) → IsErrOf result (RecordFault.Bad place)
        → IsFirstFault bytes.now place }
    // Memory runs out for a record alone, and in place of no fault.
    ensures no_memory { IsErrOf result RecordFault.NoMemory → IsRecord bytes.now }
{
    read_whole(alloc, bytes)
}

/// No record's spelling begins another's.
pub fn no_record_begins_another()
    ensures { (a b : AnyRecord) (rest : List ℕ) → HasSpelling a → HasSpelling b
        → record_text b ≡ record_text a ++ rest → (b ≡ a) × (rest ≡ []) }
{}
