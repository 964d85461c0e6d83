// The records of requests about queues and about the jobs that run in them.
ghost use Rattle.std.specs.Prelude.{◌≡◌, ◌++◌, OnOk};
ghost use Rattle.qm_bytes.specs.Spelling.{IsName, AllOf};
ghost use Rattle.qm_bytes.specs.Reading.{GivesKept};
ghost use Rattle.qm_record.specs.Spelling.{new_queue as new_queue_text, queue_change, settings_text, stop_text, moved_text, abort, NewQueueFits, ChangeFits, IsEntryNumber, IsShortQueue, IsShortChange};
ghost use Rattle.qm_record.specs.Reading.{change_at, initialize_at, set_queue_at, start_queue_at, stop_queue_at, abort_job_at, delete_queue_at, merge_at};

use crate::element::{
    both, put_list, put_optional, put_optional_list, read_list, read_optional, read_optional_list,
};
use crate::field::{put_byte, queue_kind_code, read_queue_kind, read_stop_mode, stop_mode_code};
use qm_bytes::{
    BadField, put_name, put_optional_name, put_truth, read_name, read_optional_name, read_truth,
};
use qm_kinds::{Body, Name, NewQueue, QueueChange, Request, StopMode};
use std::alloc::{AllocError, Global};

/// Appends the settings of a queue that are given.
pub(crate) fn put_change(out: &mut Vec<u8>, change: &QueueChange) -> Result<(), AllocError>
    requires { IsShortChange change.now }
    ensures ok { OnOk result (out.new.items ≡ out.old.items ++ queue_change change.now) }
    ensures lawful { OnOk result (ChangeFits change.now) }
{
    put_optional(out, &change.limit)?;
    put_optional_list(out, &change.characteristics)?;
    put_optional(out, &change.form)?;
    put_optional(out, &change.blocks)?;
    put_optional(out, &change.by_size)?;
    put_optional(out, &change.retain)?;
    Ok(())
}

/// Reads the settings of a queue that are given.
#[tactic(auto, unfolding(crate::specs::Reading::change_at))]
fn read_change(
    alloc: Global,
    bytes: &mut &[u8],
) -> Result<Result<QueueChange, AllocError>, BadField>
    ensures { GivesKept result bytes.new.now (change_at bytes.old.now) }
{
    let limit = read_optional(bytes)?;
    let characteristics = read_optional_list(alloc, bytes)?;
    let form = read_optional(bytes)?;
    let blocks = read_optional(bytes)?;
    let by_size = read_optional(bytes)?;
    let retain = read_optional(bytes)?;
    match characteristics {
        Ok(characteristics) => Ok(Ok(QueueChange {
            limit,
            characteristics,
            form,
            blocks,
            by_size,
            retain,
        })),
        Err(fault) => Ok(Err(fault)),
    }
}

/// Appends a queue that is made.
pub(crate) fn put_new_queue(out: &mut Vec<u8>, new: &NewQueue) -> Result<(), AllocError>
    requires { IsShortQueue new.now }
    ensures ok { OnOk result (out.new.items ≡ out.old.items ++ new_queue_text new.now) }
    ensures lawful { OnOk result (NewQueueFits new.now) }
{
    put_name(out, &new.name)?;
    put_byte(out, queue_kind_code(new.kind))?;
    put_optional_name(out, &new.node)?;
    put_optional_name(out, &new.device)?;
    put_list(out, &new.targets)?;
    put_change(out, &new.change)?;
    put_truth(out, new.start)?;
    Ok(())
}

/// Reads the fields of a request to make a queue.
#[tactic(auto, unfolding(crate::specs::Reading::initialize_at, crate::specs::Reading::new_queue_at))]
#[inline(never)]
pub(crate) fn read_initialize(
    alloc: Global,
    bytes: &mut &[u8],
) -> Result<Result<Body, AllocError>, BadField>
    ensures { GivesKept result bytes.new.now (initialize_at bytes.old.now) }
{
    let name = read_name(bytes)?;
    let kind = read_queue_kind(bytes)?;
    let node = read_optional_name(bytes)?;
    let device = read_optional_name(bytes)?;
    let targets = read_list(alloc, bytes)?;
    let change = read_change(alloc, bytes)?;
    let parts = both(targets, change);
    let start = read_truth(bytes)?;
    match parts {
        Ok((targets, change)) => Ok(Ok(Body::Ask(Request::InitializeQueue(NewQueue {
            name,
            kind,
            node,
            device,
            targets,
            change,
            start,
        })))),
        Err(fault) => Ok(Err(fault)),
    }
}

/// Appends a queue's name and the settings that are given.
pub(crate) fn put_settings(
    out: &mut Vec<u8>,
    name: &Name,
    change: &QueueChange,
) -> Result<(), AllocError>
    requires { IsShortChange change.now }
    ensures ok { OnOk result (out.new.items ≡ out.old.items ++ settings_text name.now change.now) }
    ensures name { OnOk result (IsName name.now) }
    ensures change { OnOk result (ChangeFits change.now) }
{
    put_name(out, name)?;
    put_change(out, change)
}

/// Reads the fields of a request to set a queue.
#[tactic(auto, unfolding(crate::specs::Reading::set_queue_at))]
#[inline(never)]
pub(crate) fn read_set_queue(
    alloc: Global,
    bytes: &mut &[u8],
) -> Result<Result<Body, AllocError>, BadField>
    ensures { GivesKept result bytes.new.now (set_queue_at bytes.old.now) }
{
    let name = read_name(bytes)?;
    match read_change(alloc, bytes)? {
        Ok(change) => Ok(Ok(Body::Ask(Request::SetQueue { name, change }))),
        Err(fault) => Ok(Err(fault)),
    }
}

/// Reads the fields of a request to start a queue.
#[tactic(auto, unfolding(crate::specs::Reading::start_queue_at))]
#[inline(never)]
pub(crate) fn read_start_queue(
    alloc: Global,
    bytes: &mut &[u8],
) -> Result<Result<Body, AllocError>, BadField>
    ensures { GivesKept result bytes.new.now (start_queue_at bytes.old.now) }
{
    let name = read_name(bytes)?;
    match read_change(alloc, bytes)? {
        Ok(change) => Ok(Ok(Body::Ask(Request::StartQueue { name, change }))),
        Err(fault) => Ok(Err(fault)),
    }
}

/// Appends a queue's name and how it is stopped.
pub(crate) fn put_stop(out: &mut Vec<u8>, name: &Name, how: StopMode) -> Result<(), AllocError>
    ensures ok { OnOk result (out.new.items ≡ out.old.items ++ stop_text name.now how) }
    ensures lawful { OnOk result (IsName name.now) }
{
    put_name(out, name)?;
    put_byte(out, stop_mode_code(how))
}

/// Reads the fields of a request to stop a queue.
#[tactic(auto, unfolding(crate::specs::Reading::stop_queue_at))]
#[inline(never)]
pub(crate) fn read_stop_queue(bytes: &mut &[u8]) -> Result<Result<Body, AllocError>, BadField>
    ensures { GivesKept result bytes.new.now (stop_queue_at bytes.old.now) }
{
    let name = read_name(bytes)?;
    let how = read_stop_mode(bytes)?;
    Ok(Ok(Body::Ask(Request::StopQueue { name, how })))
}

/// Appends the fields of a request to cut a job short.
pub(crate) fn put_abort(
    out: &mut Vec<u8>,
    queue: &Name,
    entry: &Option<u32>,
    requeue: bool,
) -> Result<(), AllocError>
    ensures ok { OnOk result (out.new.items ≡ out.old.items ++ abort queue.now entry.now requeue) }
    ensures queue { OnOk result (IsName queue.now) }
    ensures entry { OnOk result (AllOf IsEntryNumber entry.now) }
{
    put_name(out, queue)?;
    put_optional(out, entry)?;
    put_truth(out, requeue)?;
    Ok(())
}

/// Reads the fields of a request to cut a job short.
#[tactic(auto, unfolding(crate::specs::Reading::abort_job_at))]
#[inline(never)]
pub(crate) fn read_abort_job(bytes: &mut &[u8]) -> Result<Result<Body, AllocError>, BadField>
    ensures { GivesKept result bytes.new.now (abort_job_at bytes.old.now) }
{
    let queue = read_name(bytes)?;
    let entry = read_optional(bytes)?;
    let requeue = read_truth(bytes)?;
    Ok(Ok(Body::Ask(Request::AbortJob {
        queue,
        entry,
        requeue,
    })))
}

/// Reads the fields of a request to delete a queue.
#[tactic(auto, unfolding(crate::specs::Reading::delete_queue_at))]
#[inline(never)]
pub(crate) fn read_delete_queue(bytes: &mut &[u8]) -> Result<Result<Body, AllocError>, BadField>
    ensures { GivesKept result bytes.new.now (delete_queue_at bytes.old.now) }
{
    let name = read_name(bytes)?;
    Ok(Ok(Body::Ask(Request::DeleteQueue { name })))
}

/// Appends the queue to which jobs are moved, and the one from which they come.
pub(crate) fn put_merge(out: &mut Vec<u8>, to: &Name, from: &Name) -> Result<(), AllocError>
    ensures ok { OnOk result (out.new.items ≡ out.old.items ++ moved_text to.now from.now) }
    ensures to { OnOk result (IsName to.now) }
    ensures from { OnOk result (IsName from.now) }
{
    put_name(out, to)?;
    put_name(out, from)
}

/// Reads the fields of a request to move a queue's jobs to another.
#[tactic(auto, unfolding(crate::specs::Reading::merge_at))]
#[inline(never)]
pub(crate) fn read_merge(bytes: &mut &[u8]) -> Result<Result<Body, AllocError>, BadField>
    ensures { GivesKept result bytes.new.now (merge_at bytes.old.now) }
{
    let to = read_name(bytes)?;
    let from = read_name(bytes)?;
    Ok(Ok(Body::Ask(Request::Merge { to, from })))
}
