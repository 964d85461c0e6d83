// The records of requests: which kind each is, and what writes and reads its fields.
ghost use Rattle.std.specs.Prelude.{◌≡◌, ◌<◌, ◌^◌, ◌++◌, Some, length, OnOk};
ghost use Rattle.qm_bytes.specs.Spelling.{IsMoment, IsMark};
ghost use Rattle.qm_bytes.specs.Reading.{Gives, GivesKept};
ghost use Rattle.qm_record.specs.Spelling.{job_text, run_mark_text, done_text, front, fields_in, text_of, request_parts, JobFits, RequestFits, CanBeRecorded};
ghost use Rattle.qm_record.specs.Reading.{body_at, submit_at, run_mark_at, done_at};

use crate::definition_request::{
    put_characteristic, read_define_characteristic, read_define_form, read_delete_characteristic,
    read_delete_form,
};
use crate::element::{put_list, put_optional, read_list, read_optional};
use crate::entry_request::{put_set_entry, read_delete_entry, read_set_entry};
use crate::field::{job_kind_code, put_byte, put_job_retain, read_job_kind, read_job_retain};
use crate::file_request::{put_append, put_fill, read_append, read_drop, read_fill};
use crate::kind::RecordKind;
use crate::node_request::put_took;
use crate::queue_request::{
    put_abort, put_merge, put_new_queue, put_settings, put_stop, read_abort_job, read_delete_queue,
    read_initialize, read_merge, read_set_queue, read_start_queue, read_stop_queue,
};
use crate::row::put_form;
use qm_bytes::{
    BadField, Width, put_file_name, put_mark, put_moment, put_name, put_number,
    put_optional_moment, put_truth, read_byte, read_file_name, read_mark, read_name, read_number,
    read_optional_moment, read_truth,
};
use qm_kinds::{Body, Job, Mark, Moment, Request, RequestKind};
use std::alloc::{AllocError, Global};

/// Appends what stands before the fields of each record: the version, the number, the moment and the node.
pub(crate) fn put_front(
    out: &mut Vec<u8>,
    kind: RecordKind,
    moment: Moment,
    node: u8,
) -> Result<(), AllocError>
    ensures ok { OnOk result (out.new.items ≡ out.old.items ++ front kind moment node) }
    ensures lawful { OnOk result (IsMoment moment) }
{
    put_byte(out, 1)?;
    put_byte(out, kind.number())?;
    put_moment(out, moment)?;
    put_byte(out, node)
}

// The kind of a request.
fn kind_of(request: &Request) -> RecordKind
    ensures { request_parts request.now ≡ Some (result, fields_in (request_parts request.now)) }
{
    match request {
        Request::Append { .. } => RecordKind::Request(RequestKind::Append),
        Request::Fill { .. } => RecordKind::Request(RequestKind::Fill),
        Request::Drop { .. } => RecordKind::Request(RequestKind::Drop),
        Request::DefineForm(_) => RecordKind::Request(RequestKind::DefineForm),
        Request::DeleteForm { .. } => RecordKind::Request(RequestKind::DeleteForm),
        Request::DefineCharacteristic(_) => RecordKind::Request(RequestKind::DefineCharacteristic),
        Request::DeleteCharacteristic { .. } => RecordKind::Request(
            RequestKind::DeleteCharacteristic,
        ),
        Request::InitializeQueue(_) => RecordKind::Request(RequestKind::InitializeQueue),
        Request::SetQueue { .. } => RecordKind::Request(RequestKind::SetQueue),
        Request::StartQueue { .. } => RecordKind::Request(RequestKind::StartQueue),
        Request::StopQueue { .. } => RecordKind::Request(RequestKind::StopQueue),
        Request::AbortJob { .. } => RecordKind::Request(RequestKind::AbortJob),
        Request::DeleteQueue { .. } => RecordKind::Request(RequestKind::DeleteQueue),
        Request::Merge { .. } => RecordKind::Request(RequestKind::Merge),
        Request::Submit(_) => RecordKind::Request(RequestKind::Submit),
        Request::SetEntry { .. } => RecordKind::Request(RequestKind::SetEntry),
        Request::DeleteEntry { .. } => RecordKind::Request(RequestKind::DeleteEntry),
        Request::Mark { .. } => RecordKind::Mark,
        Request::Done { .. } => RecordKind::Done,
        Request::Tick => RecordKind::Tick,
        Request::NodeUp => RecordKind::NodeUp,
        Request::NodeLost { .. } => RecordKind::NodeLost,
        Request::Took { .. } => RecordKind::Took,
    }
}

/// Appends the record of a request.
pub(crate) fn put_request(
    out: &mut Vec<u8>,
    moment: Moment,
    node: u8,
    request: &Request,
) -> Result<(), AllocError>
    requires { CanBeRecorded request.now }
    ensures ok { OnOk result (out.new.items
        ≡ out.old.items ++ text_of moment node (request_parts request.now)) }
    ensures moment { OnOk result (IsMoment moment) }
    ensures lawful { OnOk result (RequestFits request.now) }
{
    put_front(out, kind_of(request), moment, node)?;
    put_fields(out, request)?;
    Ok(())
}

// Appends the fields of a request.
fn put_fields(out: &mut Vec<u8>, request: &Request) -> Result<(), AllocError>
    requires { CanBeRecorded request.now }
    ensures ok { OnOk result (out.new.items
        ≡ out.old.items ++ fields_in (request_parts request.now)) }
    ensures lawful { OnOk result (RequestFits request.now) }
{
    match request {
        Request::Append { file, bytes } => put_append(out, file, bytes.as_slice()),
        Request::Fill { file, lines } => put_fill(out, file, *lines),
        Request::Drop { file } => put_file_name(out, file),
        Request::DefineForm(form) => put_form(out, form),
        Request::DefineCharacteristic(characteristic) => put_characteristic(out, characteristic),
        Request::DeleteForm { name }
        | Request::DeleteCharacteristic { name }
        | Request::DeleteQueue { name } => put_name(out, name),
        Request::InitializeQueue(new) => put_new_queue(out, new),
        Request::SetQueue { name, change } | Request::StartQueue { name, change } => {
            put_settings(out, name, change)
        }
        Request::StopQueue { name, how } => put_stop(out, name, *how),
        Request::AbortJob {
            queue,
            entry,
            requeue,
        } => put_abort(out, queue, entry, *requeue),
        Request::Merge { to, from } => put_merge(out, to, from),
        Request::Submit(job) => put_submit(out, job),
        Request::SetEntry { entry, change } => put_set_entry(out, *entry, change),
        Request::DeleteEntry { entry } => put_number(out, Width::Four, u64::from(*entry)),
        Request::Mark { run, value } => put_run_mark(out, *run, value),
        Request::Done { run, status } => put_done(out, *run, *status),
        Request::NodeLost { nodes } => put_list(out, nodes),
        Request::Took {
            epoch,
            gone,
            up,
            may,
        } => put_took(out, *epoch, gone, up, may),
        Request::Tick | Request::NodeUp => Ok(()),
    }
}

/// Reads the fields of a request. No reader is inlined here either.
#[tactic(auto, unfolding(crate::specs::Reading::body_at))]
pub(crate) fn read_request(
    alloc: Global,
    bytes: &mut &[u8],
    kind: RequestKind,
) -> Result<Result<Body, AllocError>, BadField>
    ensures { GivesKept result bytes.new.now (body_at (RecordKind.Request kind) bytes.old.now) }
{
    match kind {
        RequestKind::Append => read_append(alloc, bytes),
        RequestKind::Fill => read_fill(bytes),
        RequestKind::Drop => read_drop(bytes),
        RequestKind::DefineForm => read_define_form(bytes),
        RequestKind::DeleteForm => read_delete_form(bytes),
        RequestKind::DefineCharacteristic => read_define_characteristic(bytes),
        RequestKind::DeleteCharacteristic => read_delete_characteristic(bytes),
        RequestKind::InitializeQueue => read_initialize(alloc, bytes),
        RequestKind::SetQueue => read_set_queue(alloc, bytes),
        RequestKind::StartQueue => read_start_queue(alloc, bytes),
        RequestKind::StopQueue => read_stop_queue(bytes),
        RequestKind::AbortJob => read_abort_job(bytes),
        RequestKind::DeleteQueue => read_delete_queue(bytes),
        RequestKind::Merge => read_merge(bytes),
        RequestKind::Submit => read_submit(alloc, bytes),
        RequestKind::SetEntry => read_set_entry(alloc, bytes),
        RequestKind::DeleteEntry => read_delete_entry(bytes),
    }
}

// Appends a run and its mark.
fn put_run_mark(out: &mut Vec<u8>, run: u64, value: &Mark) -> Result<(), AllocError>
    ensures ok { OnOk result (out.new.items ≡ out.old.items ++ run_mark_text run value.now) }
    ensures run { OnOk result (run < 2 ^ 64) }
    ensures value { OnOk result (IsMark value.now) }
{
    put_number(out, Width::Eight, run)?;
    put_mark(out, value)
}

// Appends a run and the status with which it ended.
fn put_done(out: &mut Vec<u8>, run: u64, status: u32) -> Result<(), AllocError>
    ensures ok { OnOk result (out.new.items ≡ out.old.items ++ done_text run status) }
    ensures run { OnOk result (run < 2 ^ 64) }
    ensures status { OnOk result (status < 2 ^ 32) }
{
    put_number(out, Width::Eight, run)?;
    put_number(out, Width::Four, u64::from(status))
}

// Appends the fields of a job.
fn put_submit(out: &mut Vec<u8>, job: &Job) -> Result<(), AllocError>
    requires { length job.now.characteristics < 2 ^ 16 }
    ensures ok { OnOk result (out.new.items ≡ out.old.items ++ job_text job.now) }
    ensures lawful { OnOk result (JobFits job.now) }
{
    put_name(out, &job.user)?;
    put_byte(out, job_kind_code(job.kind))?;
    put_name(out, &job.queue)?;
    put_file_name(out, &job.file)?;
    put_name(out, &job.name)?;
    put_byte(out, job.priority)?;
    put_optional_moment(out, job.after)?;
    put_truth(out, job.hold)?;
    put_job_retain(out, &job.retain)?;
    put_truth(out, job.restart)?;
    put_list(out, &job.characteristics)?;
    put_optional(out, &job.form)?;
    put_byte(out, job.copies)?;
    put_truth(out, job.flag)?;
    Ok(())
}

/// Reads the fields of a request to submit a job. The job is built at its place in the body: it is large.
#[tactic(auto, unfolding(crate::specs::Reading::submit_at, crate::specs::Reading::job_at))]
#[inline(never)]
pub(crate) fn read_submit(
    alloc: Global,
    bytes: &mut &[u8],
) -> Result<Result<Body, AllocError>, BadField>
    ensures { GivesKept result bytes.new.now (submit_at bytes.old.now) }
{
    let user = read_name(bytes)?;
    let kind = read_job_kind(bytes)?;
    let queue = read_name(bytes)?;
    let file = read_file_name(bytes)?;
    let name = read_name(bytes)?;
    let priority = read_byte(bytes, 0, 255)?;
    let after = read_optional_moment(bytes)?;
    let hold = read_truth(bytes)?;
    let retain = read_job_retain(bytes)?;
    let restart = read_truth(bytes)?;
    let characteristics = read_list(alloc, bytes)?;
    let form = read_optional(bytes)?;
    let copies = read_byte(bytes, 0, 255)?;
    let flag = read_truth(bytes)?;
    match characteristics {
        Ok(characteristics) => Ok(Ok(Body::Ask(Request::Submit(Job {
            user,
            kind,
            queue,
            file,
            name,
            priority,
            after,
            hold,
            retain,
            restart,
            characteristics,
            form,
            copies,
            flag,
        })))),
        Err(fault) => Ok(Err(fault)),
    }
}

/// Reads the fields of the report of a mark.
#[tactic(auto, unfolding(crate::specs::Reading::run_mark_at))]
#[inline(never)]
pub(crate) fn read_run_mark(bytes: &mut &[u8]) -> Result<Result<Body, AllocError>, BadField>
    ensures { GivesKept result bytes.new.now (run_mark_at bytes.old.now) }
{
    let run = read_number(bytes, Width::Eight)?;
    let value = read_mark(bytes)?;
    Ok(Ok(Body::Ask(Request::Mark { run, value })))
}

/// Reads the fields of the report that a run has ended.
#[tactic(auto, unfolding(crate::specs::Reading::done_at))]
#[inline(never)]
pub(crate) fn read_done(bytes: &mut &[u8]) -> Result<Result<Body, AllocError>, BadField>
    ensures { GivesKept result bytes.new.now (done_at bytes.old.now) }
{
    let run = read_number(bytes, Width::Eight)?;
    let status = read_number(bytes, Width::Four)?;
    Ok(Ok(Body::Ask(Request::Done {
        run,
        status: status as u32,
    })))
}
