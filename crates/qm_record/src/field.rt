// The fields of which several records are made.
ghost use Rattle.std.specs.Prelude.{◌≡◌, ◌++◌, OnOk};
ghost use Rattle.qm_bytes.specs.Spelling.{byte};
ghost use Rattle.qm_bytes.specs.Reading.{Gives};
ghost use Rattle.qm_record.specs.Spelling.{job_kind_code, job_retain, name_or_number, node as node_text, shape as shape_text, queue_kind_code, queue_retain_code, stop_mode_code, limits as limits_text, RetainFits, NameOrNumberFits, NodeFits, ShapeFits, LimitsFit};
ghost use Rattle.qm_record.specs.Reading.{job_kind_at, job_retain_at, name_or_number_at, node_at, shape_at, queue_kind_at, queue_retain_at, stop_mode_at, limits_at};

use qm_bytes::{
    BadField, Width, put_moment, put_name, put_number, put_truth, read_byte, read_moment,
    read_name, read_number, read_truth,
};
use qm_kinds::{JobKind, JobRetain, NameOrNumber, Node, QueueKind, QueueRetain, Shape, StopMode};
use std::alloc::AllocError;

/// Appends a byte.
pub(crate) fn put_byte(out: &mut Vec<u8>, value: u8) -> Result<(), AllocError>
    ensures { OnOk result (out.new.items ≡ out.old.items ++ byte value) }
{
    out.push(value)?;
    Ok(())
}

/// The code of a kind of job.
pub(crate) fn job_kind_code(kind: JobKind) -> u8
    ensures { result ≡ job_kind_code kind }
{
    match kind {
        JobKind::Batch => 1,
        JobKind::Print => 2,
    }
}

/// Reads a kind of job.
#[tactic(auto, unfolding(crate::specs::Reading::job_kind_at))]
pub(crate) fn read_job_kind(bytes: &mut &[u8]) -> Result<JobKind, BadField>
    ensures { Gives result bytes.new.now (job_kind_at bytes.old.now) }
{
    match read_byte(bytes, 1, 2)? {
        1 => Ok(JobKind::Batch),
        _ => Ok(JobKind::Print),
    }
}

/// Appends how a job is kept.
pub(crate) fn put_job_retain(out: &mut Vec<u8>, retain: &JobRetain) -> Result<(), AllocError>
    ensures ok { OnOk result (out.new.items ≡ out.old.items ++ job_retain retain.now) }
    ensures lawful { OnOk result (RetainFits retain.now) }
{
    match retain {
        JobRetain::Default => put_byte(out, 0),
        JobRetain::Always => put_byte(out, 1),
        JobRetain::Failed => put_byte(out, 2),
        JobRetain::Until(moment) => {
            put_byte(out, 3)?;
            put_moment(out, *moment)
        }
    }
}

/// Reads how a job is kept.
#[tactic(auto, unfolding(crate::specs::Reading::job_retain_at))]
pub(crate) fn read_job_retain(bytes: &mut &[u8]) -> Result<JobRetain, BadField>
    ensures { Gives result bytes.new.now (job_retain_at bytes.old.now) }
{
    match read_byte(bytes, 0, 3)? {
        0 => Ok(JobRetain::Default),
        1 => Ok(JobRetain::Always),
        2 => Ok(JobRetain::Failed),
        _ => {
            let moment = read_moment(bytes)?;
            Ok(JobRetain::Until(moment))
        }
    }
}

/// Appends a name or a number.
pub(crate) fn put_name_or_number(out: &mut Vec<u8>, wanted: &NameOrNumber) -> Result<(), AllocError>
    ensures ok { OnOk result (out.new.items ≡ out.old.items ++ name_or_number wanted.now) }
    ensures lawful { OnOk result (NameOrNumberFits wanted.now) }
{
    match wanted {
        NameOrNumber::Name(name) => {
            put_byte(out, 0)?;
            put_name(out, name)
        }
        NameOrNumber::Number(number) => {
            put_byte(out, 1)?;
            put_number(out, Width::Two, u64::from(*number))
        }
    }
}

/// Reads a name or a number.
#[tactic(auto, unfolding(crate::specs::Reading::name_or_number_at))]
pub(crate) fn read_name_or_number(bytes: &mut &[u8]) -> Result<NameOrNumber, BadField>
    ensures { Gives result bytes.new.now (name_or_number_at bytes.old.now) }
{
    if read_byte(bytes, 0, 1)? == 0 {
        let name = read_name(bytes)?;
        return Ok(NameOrNumber::Name(name));
    }
    let number = read_number(bytes, Width::Two)?;
    Ok(NameOrNumber::Number(number as u16))
}

/// Appends a node.
pub(crate) fn put_node(out: &mut Vec<u8>, on: &Node) -> Result<(), AllocError>
    ensures ok { OnOk result (out.new.items ≡ out.old.items ++ node_text on.now) }
    ensures lawful { OnOk result (NodeFits on.now) }
{
    put_name(out, &on.name)?;
    put_truth(out, on.up)
}

/// Reads a node.
#[tactic(auto, unfolding(crate::specs::Reading::node_at))]
pub(crate) fn read_node(bytes: &mut &[u8]) -> Result<Node, BadField>
    ensures { Gives result bytes.new.now (node_at bytes.old.now) }
{
    let name = read_name(bytes)?;
    let up = read_truth(bytes)?;
    Ok(Node { name, up })
}

/// Appends a shape.
pub(crate) fn put_shape(out: &mut Vec<u8>, shape: &Shape) -> Result<(), AllocError>
    ensures ok { OnOk result (out.new.items ≡ out.old.items ++ shape_text shape.now) }
    ensures lawful { OnOk result (ShapeFits shape.now) }
{
    put_byte(out, shape.length)?;
    put_byte(out, shape.width)?;
    put_byte(out, shape.top)?;
    put_byte(out, shape.bottom)?;
    put_byte(out, shape.left)?;
    put_byte(out, shape.right)?;
    put_truth(out, shape.wrap)
}

/// Reads a shape.
#[tactic(auto, unfolding(crate::specs::Reading::shape_at))]
pub(crate) fn read_shape(bytes: &mut &[u8]) -> Result<Shape, BadField>
    ensures { Gives result bytes.new.now (shape_at bytes.old.now) }
{
    let length = read_byte(bytes, 0, 255)?;
    let width = read_byte(bytes, 0, 255)?;
    let top = read_byte(bytes, 0, 255)?;
    let bottom = read_byte(bytes, 0, 255)?;
    let left = read_byte(bytes, 0, 255)?;
    let right = read_byte(bytes, 0, 255)?;
    let wrap = read_truth(bytes)?;
    Ok(Shape {
        length,
        width,
        top,
        bottom,
        left,
        right,
        wrap,
    })
}

/// The code of a kind of queue.
pub(crate) fn queue_kind_code(kind: QueueKind) -> u8
    ensures { result ≡ queue_kind_code kind }
{
    match kind {
        QueueKind::Batch => 1,
        QueueKind::Print => 2,
        QueueKind::GenericBatch => 3,
        QueueKind::GenericPrint => 4,
    }
}

/// Reads a kind of queue.
#[tactic(auto, unfolding(crate::specs::Reading::queue_kind_at))]
pub(crate) fn read_queue_kind(bytes: &mut &[u8]) -> Result<QueueKind, BadField>
    ensures { Gives result bytes.new.now (queue_kind_at bytes.old.now) }
{
    match read_byte(bytes, 1, 4)? {
        1 => Ok(QueueKind::Batch),
        2 => Ok(QueueKind::Print),
        3 => Ok(QueueKind::GenericBatch),
        _ => Ok(QueueKind::GenericPrint),
    }
}

/// The code of what a queue retains.
pub(crate) fn queue_retain_code(retain: QueueRetain) -> u8
    ensures { result ≡ queue_retain_code retain }
{
    match retain {
        QueueRetain::Nothing => 0,
        QueueRetain::Failed => 1,
        QueueRetain::All => 2,
    }
}

/// Reads what a queue retains.
#[tactic(auto, unfolding(crate::specs::Reading::queue_retain_at))]
pub(crate) fn read_queue_retain(bytes: &mut &[u8]) -> Result<QueueRetain, BadField>
    ensures { Gives result bytes.new.now (queue_retain_at bytes.old.now) }
{
    match read_byte(bytes, 0, 2)? {
        0 => Ok(QueueRetain::Nothing),
        1 => Ok(QueueRetain::Failed),
        _ => Ok(QueueRetain::All),
    }
}

/// The code of how a queue is stopped.
pub(crate) fn stop_mode_code(how: StopMode) -> u8
    ensures { result ≡ stop_mode_code how }
{
    match how {
        StopMode::Pause => 1,
        StopMode::Next => 2,
        StopMode::Reset => 3,
    }
}

/// Reads how a queue is stopped.
#[tactic(auto, unfolding(crate::specs::Reading::stop_mode_at))]
pub(crate) fn read_stop_mode(bytes: &mut &[u8]) -> Result<StopMode, BadField>
    ensures { Gives result bytes.new.now (stop_mode_at bytes.old.now) }
{
    match read_byte(bytes, 1, 3)? {
        1 => Ok(StopMode::Pause),
        2 => Ok(StopMode::Next),
        _ => Ok(StopMode::Reset),
    }
}

/// Appends the least and the greatest size of a job.
pub(crate) fn put_limits(out: &mut Vec<u8>, lower: u32, upper: u32) -> Result<(), AllocError>
    ensures ok { OnOk result (out.new.items ≡ out.old.items ++ limits_text (lower, upper)) }
    ensures lawful { OnOk result (LimitsFit (lower, upper)) }
{
    put_number(out, Width::Four, u64::from(lower))?;
    put_number(out, Width::Four, u64::from(upper))
}

/// Reads the least and the greatest size of a job.
#[tactic(auto, unfolding(crate::specs::Reading::limits_at))]
pub(crate) fn read_limits(bytes: &mut &[u8]) -> Result<(u32, u32), BadField>
    ensures { Gives result bytes.new.now (limits_at bytes.old.now) }
{
    let lower = read_number(bytes, Width::Four)?;
    let upper = read_number(bytes, Width::Four)?;
    Ok((lower as u32, upper as u32))
}
