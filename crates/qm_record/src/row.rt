// The rows of an image.
ghost use Rattle.std.specs.Prelude.{◌≡◌, ◌<◌, ◌^◌, ◌++◌, ℕ, List, length, OnOk};
ghost use Rattle.qm_bytes.specs.Spelling.{fields, list, short_bytes, low_first, moment, IsList, IsName, IsMoment};
ghost use Rattle.qm_bytes.specs.Reading.{Gives, GivesKept};
ghost use Rattle.qm_record.specs.Spelling.{head as head_text, NodeFits, form as form_text, queue as queue_text, queue_state_code, FormFits, QueueFits};
ghost use Rattle.qm_record.specs.Reading.{form_at, form_row_at, queue_row_at, queue_state_at, head_at};

use crate::element::{both, put_list, read_list};
use crate::field::{
    put_byte, put_shape, queue_kind_code, queue_retain_code, read_queue_kind, read_queue_retain,
    read_shape,
};
use qm_bytes::{
    BadField, Width, put_moment, put_name, put_number, put_optional_name, put_set, put_truth,
    read_byte, read_moment, read_name, read_number, read_optional_name, read_set, read_truth,
};
use qm_kinds::{Body, Form, Moment, Name, Node, Queue, QueueState, Seq};
use std::alloc::{AllocError, Global};

/// Reads the first row of an image.
#[tactic(auto, unfolding(crate::specs::Reading::head_at))]
#[inline(never)]
pub(crate) fn read_head(
    alloc: Global,
    bytes: &mut &[u8],
) -> Result<Result<Body, AllocError>, BadField>
    ensures { GivesKept result bytes.new.now (head_at bytes.old.now) }
{
    let nodes = read_list(alloc, bytes)?;
    let may = read_list(alloc, bytes)?;
    let lists = both(nodes, may);
    let next_entry = read_number(bytes, Width::Four)?;
    let next_run = read_number(bytes, Width::Eight)?;
    let last = read_moment(bytes)?;
    match lists {
        Ok((nodes, may)) => Ok(Ok(Body::Head {
            nodes,
            may,
            next_entry: next_entry as u32,
            next_run,
            last,
        })),
        Err(fault) => Ok(Err(fault)),
    }
}

/// Appends the fields of the first row of an image.
pub(crate) fn put_head(
    out: &mut Vec<u8>,
    nodes: &Seq<Node>,
    may: &Seq<Name>,
    next_entry: u32,
    next_run: u64,
    last: Moment,
) -> Result<(), AllocError>
    requires nodes { length nodes.now < 2 ^ 16 }
    requires may { length may.now < 2 ^ 16 }
    ensures ok { OnOk result (out.new.items
        ≡ out.old.items ++ head_text nodes.now may.now next_entry next_run last) }
    ensures nodes { OnOk result (IsList NodeFits nodes.now) }
    ensures may { OnOk result (IsList IsName may.now) }
    ensures last { OnOk result (IsMoment last) }
{
    put_list(out, nodes)?;
    put_list(out, may)?;
    put_number(out, Width::Four, u64::from(next_entry))?;
    put_number(out, Width::Eight, next_run)?;
    put_moment(out, last)?;
    Ok(())
}

/// Appends a form.
pub(crate) fn put_form(out: &mut Vec<u8>, form: &Form) -> Result<(), AllocError>
    ensures ok { OnOk result (out.new.items ≡ out.old.items ++ form_text form.now) }
    ensures lawful { OnOk result (FormFits form.now) }
{
    put_name(out, &form.name)?;
    put_number(out, Width::Two, u64::from(form.number))?;
    put_name(out, &form.stock)?;
    put_shape(out, &form.shape)
}

/// Reads a form.
#[tactic(auto, unfolding(crate::specs::Reading::form_at))]
pub(crate) fn read_form(bytes: &mut &[u8]) -> Result<Form, BadField>
    ensures { Gives result bytes.new.now (form_at bytes.old.now) }
{
    let name = read_name(bytes)?;
    let number = read_number(bytes, Width::Two)?;
    let stock = read_name(bytes)?;
    let shape = read_shape(bytes)?;
    Ok(Form {
        name,
        number: number as u16,
        stock,
        shape,
    })
}

/// Reads the row of a form.
#[tactic(auto, unfolding(crate::specs::Reading::form_row_at))]
#[inline(never)]
pub(crate) fn read_form_row(bytes: &mut &[u8]) -> Result<Result<Body, AllocError>, BadField>
    ensures { GivesKept result bytes.new.now (form_row_at bytes.old.now) }
{
    let form = read_form(bytes)?;
    Ok(Ok(Body::Form(form)))
}

fn queue_state_code(state: QueueState) -> u8
    ensures { result ≡ queue_state_code state }
{
    match state {
        QueueState::Stopped => 1,
        QueueState::Started => 2,
        QueueState::Paused => 3,
        QueueState::Stopping => 4,
    }
}

#[tactic(auto, unfolding(crate::specs::Reading::queue_state_at))]
fn read_queue_state(bytes: &mut &[u8]) -> Result<QueueState, BadField>
    ensures { Gives result bytes.new.now (queue_state_at bytes.old.now) }
{
    match read_byte(bytes, 1, 4)? {
        1 => Ok(QueueState::Stopped),
        2 => Ok(QueueState::Started),
        3 => Ok(QueueState::Paused),
        _ => Ok(QueueState::Stopping),
    }
}

/// Appends a queue.
pub(crate) fn put_queue(out: &mut Vec<u8>, queue: &Queue) -> Result<(), AllocError>
    requires { length queue.now.targets < 2 ^ 16 }
    ensures ok { OnOk result (out.new.items ≡ out.old.items ++ queue_text queue.now) }
    ensures lawful { OnOk result (QueueFits queue.now) }
{
    put_name(out, &queue.name)?;
    put_byte(out, queue_kind_code(queue.kind))?;
    put_byte(out, queue_state_code(queue.state))?;
    put_optional_name(out, &queue.node)?;
    put_optional_name(out, &queue.device)?;
    put_byte(out, queue.limit)?;
    put_set(out, queue.characteristics)?;
    put_optional_name(out, &queue.mounted)?;
    put_number(out, Width::Four, u64::from(queue.lower))?;
    put_number(out, Width::Four, u64::from(queue.upper))?;
    put_truth(out, queue.by_size)?;
    put_byte(out, queue_retain_code(queue.retain))?;
    put_list(out, &queue.targets)?;
    Ok(())
}

/// Reads the row of a queue. The queue is built at its place in the body: it is large.
#[tactic(auto, unfolding(crate::specs::Reading::queue_row_at, crate::specs::Reading::queue_at))]
#[inline(never)]
pub(crate) fn read_queue_row(
    alloc: Global,
    bytes: &mut &[u8],
) -> Result<Result<Body, AllocError>, BadField>
    ensures { GivesKept result bytes.new.now (queue_row_at bytes.old.now) }
{
    let name = read_name(bytes)?;
    let kind = read_queue_kind(bytes)?;
    let state = read_queue_state(bytes)?;
    let node = read_optional_name(bytes)?;
    let device = read_optional_name(bytes)?;
    let limit = read_byte(bytes, 0, 255)?;
    let characteristics = read_set(bytes)?;
    let mounted = read_optional_name(bytes)?;
    let lower = read_number(bytes, Width::Four)?;
    let upper = read_number(bytes, Width::Four)?;
    let by_size = read_truth(bytes)?;
    let retain = read_queue_retain(bytes)?;
    match read_list(alloc, bytes)? {
        Ok(targets) => Ok(Ok(Body::Queue(Queue {
            name,
            kind,
            state,
            node,
            device,
            limit,
            characteristics,
            mounted,
            lower: lower as u32,
            upper: upper as u32,
            by_size,
            retain,
            targets,
        }))),
        Err(fault) => Ok(Err(fault)),
    }
}
