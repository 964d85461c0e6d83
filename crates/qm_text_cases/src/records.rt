// Records, as they stand in a queue file.
//
// Records and requests are lent, and let go by a call of `drop` as soon as they were told: where one goes with the end of its scope,
// the proof follows each of its many variants at each end of the function.
use crate::commands::push_request;
use crate::lines::{tell_bytes, tell_number};
use qm_kinds::{Body, FileName, Form, Moment, Record, Request};
use qm_plans::push_line;
use qm_record::{RecordFault, read_record, write_record};
use std::alloc::{AllocError, Global};

// The number of a body that has a record.
fn number(body: &Body) -> u8 {
    match body {
        Body::Ask(Request::Append { .. }) => 1,
        Body::Ask(Request::Fill { .. }) => 2,
        Body::Ask(Request::Drop { .. }) => 3,
        Body::Ask(Request::DefineForm(_)) => 4,
        Body::Ask(Request::DeleteForm { .. }) => 5,
        Body::Ask(Request::DefineCharacteristic(_)) => 6,
        Body::Ask(Request::DeleteCharacteristic { .. }) => 7,
        Body::Ask(Request::InitializeQueue(_)) => 8,
        Body::Ask(Request::SetQueue { .. }) => 9,
        Body::Ask(Request::StartQueue { .. }) => 10,
        Body::Ask(Request::StopQueue { .. }) => 11,
        Body::Ask(Request::AbortJob { .. }) => 12,
        Body::Ask(Request::DeleteQueue { .. }) => 13,
        Body::Ask(Request::Merge { .. }) => 14,
        Body::Ask(Request::Submit(_)) => 15,
        Body::Ask(Request::SetEntry { .. }) => 16,
        Body::Ask(Request::DeleteEntry { .. }) => 17,
        Body::Ask(Request::Mark { .. }) => 18,
        Body::Ask(Request::Done { .. }) => 19,
        Body::Ask(Request::Tick) => 20,
        Body::Head { .. } => 33,
        Body::Form(_) => 34,
        Body::Queue(_) => 37,
        _ => 0,
    }
}

// The place of the fault in these bytes, where they are no record.
fn place_in(alloc: Global, bytes: &[u8]) -> Option<usize> {
    match read_record(alloc, bytes) {
        Ok(record) => {
            drop(record);
            None
        }
        Err(RecordFault::Bad { place }) => Some(place),
        Err(RecordFault::NoMemory) => None,
    }
}

// Tells the row of a form.
fn tell_row(alloc: Global, told: &mut Vec<u8>, form: &Form) -> Result<(), AllocError> {
    let row = Record {
        moment: Moment::BASE,
        node: 0,
        body: Body::Form(*form),
    };
    let written = write_record(alloc, &row);
    drop(row);
    tell_bytes(told, &written?)
}

// Tells a form by the record of its definition, and its row.
fn tell_form(alloc: Global, told: &mut Vec<u8>, form: &Form) -> Result<(), AllocError> {
    let request = Request::DefineForm(*form);
    let end = push_request(alloc, told, 0, &request);
    drop(request);
    end?;
    tell_row(alloc, told, form)
}

fn tell_file(alloc: Global, told: &mut Vec<u8>, file: &FileName) -> Result<(), AllocError> {
    push_line(told, format!(in alloc; "{file}")?.as_str())
}

// Tells the file of a job, or a file and the bytes that it gets.
fn tell_files(alloc: Global, told: &mut Vec<u8>, request: &Request) -> Result<(), AllocError> {
    match request {
        Request::Append { file, bytes } => {
            tell_file(alloc, told, file)?;
            tell_bytes(told, bytes.as_slice())
        }
        Request::Submit(job) => tell_file(alloc, told, &job.file),
        _ => Ok(()),
    }
}

// Tells a request that was read: the file of a job, or a file and the bytes that it gets; and the record that is written of it.
fn tell_request(
    alloc: Global,
    told: &mut Vec<u8>,
    node: u8,
    request: &Request,
) -> Result<(), AllocError> {
    tell_files(alloc, told, request)?;
    push_request(alloc, told, node, request)
}

// Tells the number of a record, its node, and what is read in it.
fn tell_read(alloc: Global, told: &mut Vec<u8>, record: &Record) -> Result<(), AllocError> {
    tell_number(alloc, told, "record", u64::from(number(&record.body)))?;
    tell_number(alloc, told, "of node", u64::from(record.node))?;
    match &record.body {
        Body::Ask(request) => tell_request(alloc, told, record.node, request),
        Body::Form(form) => tell_form(alloc, told, form),
        _ => Ok(()),
    }
}

// Tells where a record that was cut has its fault at another place than that of the cut.
fn tell_cuts(alloc: Global, told: &mut Vec<u8>, bytes: &[u8]) -> Result<(), AllocError> {
    for size in 0..bytes.len() {
        if place_in(alloc, &bytes[..size]) != Some(size) {
            tell_number(alloc, told, "another fault where it is cut at", size as u64)?;
        }
    }
    Ok(())
}

/// Tells what is read in a record, or the place of the fault in these bytes. A record that was cut is none, and the fault is where it
/// was cut.
pub(crate) fn tell_record(
    alloc: Global,
    told: &mut Vec<u8>,
    bytes: &[u8],
) -> Result<(), AllocError> {
    match read_record(alloc, bytes) {
        Ok(record) => {
            let end = tell_read(alloc, told, &record);
            drop(record);
            end?;
            tell_cuts(alloc, told, bytes)
        }
        Err(RecordFault::Bad { place }) => tell_number(alloc, told, "bad at", place as u64),
        Err(RecordFault::NoMemory) => Err(AllocError),
    }
}
