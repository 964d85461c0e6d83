// Requests for queues.
ghost use Rattle.std.specs.Prelude.{◌≡◌, option_map};
ghost use Rattle.qm_values.specs.Values.{short_name_said};
ghost use Rattle.qm_values.specs.Asked.{read_in, blocks_of, change_of, initialize_of, has_more, set_queue, start_queue, stop_queue, abort_job};

use crate::codes::*;
use crate::items::Item;
use crate::looking::{Lists, is_given};
use crate::reading::{
    byte_in, how_in, long_in, node_in, queue_kind_in, queue_retain_in, reference_in, short_name_in,
    truth_in,
};
use qm_kinds::{NameOrNumber, NewQueue, QueueChange, Request, Seq, StopMode};

// The limits of the sizes of jobs. The lower one is 1, and the upper one all that can be said, where only the other is given.
fn blocks_of(lower: Option<u32>, upper: Option<u32>) -> Option<(u32, u32)>
    ensures { result ≡ blocks_of lower upper }
{
    match (lower, upper) {
        (None, None) => None,
        (None, Some(upper)) => Some((1, upper)),
        (Some(lower), None) => Some((lower, u32::MAX)),
        (Some(lower), Some(upper)) => Some((lower, upper)),
    }
}

// What is changed of a queue.
fn change_of(items: &[Item], characteristics: Option<Seq<NameOrNumber>>) -> QueueChange
    ensures { result ≡ change_of items.now characteristics }
{
    QueueChange {
        limit: byte_in(items, JOB_LIMIT),
        characteristics,
        form: reference_in(items, FORM),
        blocks: blocks_of(long_in(items, BLOCK_LOWER), long_in(items, BLOCK_UPPER)),
        by_size: truth_in(items, BY_SIZE),
        retain: queue_retain_in(items, QUEUE_RETAIN),
    }
}

/// A new queue.
pub(crate) fn initialize_of(items: &[Item], lists: Lists) -> Option<Request>
    ensures { result ≡ initialize_of items.now lists }
{
    let name = short_name_in(items, QUEUE)?;
    let kind = queue_kind_in(items, KIND)?;
    let Lists {
        characteristics,
        targets,
        ..
    } = lists;
    Some(Request::InitializeQueue(NewQueue {
        name,
        kind,
        node: node_in(items, NODE),
        device: short_name_in(items, DEVICE),
        targets,
        change: change_of(items, characteristics),
        start: is_given(items, START),
    }))
}

/// Whether more is given than what is to be changed.
pub(crate) fn has_more(items: &[Item]) -> bool
    ensures { result ≡ has_more items.now }
{
    items.len() > 1
}

/// Other settings of a queue, one at least.
pub(crate) fn set_queue(items: &[Item], lists: Lists) -> Option<Request>
    ensures { result ≡ set_queue items.now lists }
{
    if !has_more(items) {
        return None;
    }
    let name = short_name_in(items, QUEUE)?;
    Some(Request::SetQueue {
        name,
        change: change_of(items, lists.characteristics),
    })
}

/// A queue is started, with other settings perhaps.
pub(crate) fn start_queue(items: &[Item], lists: Lists) -> Option<Request>
    ensures { result ≡ start_queue items.now lists }
{
    let name = short_name_in(items, QUEUE)?;
    Some(Request::StartQueue {
        name,
        change: change_of(items, lists.characteristics),
    })
}

/// A queue is stopped; it is paused where nothing else is said.
pub(crate) fn stop_queue(items: &[Item]) -> Option<Request>
    ensures { result ≡ stop_queue items.now }
{
    let name = short_name_in(items, QUEUE)?;
    Some(Request::StopQueue {
        name,
        how: how_in(items, HOW).unwrap_or(StopMode::Pause),
    })
}

/// A job of a queue is cut short.
pub(crate) fn abort_job(items: &[Item]) -> Option<Request>
    ensures { result ≡ abort_job items.now }
{
    let queue = short_name_in(items, QUEUE)?;
    Some(Request::AbortJob {
        queue,
        entry: long_in(items, ENTRY),
        requeue: is_given(items, REQUEUE),
    })
}

/// A queue is deleted.
pub(crate) fn delete_queue(items: &[Item]) -> Option<Request>
    ensures { result ≡ option_map Request.DeleteQueue (read_in short_name_said QUEUE items.now) }
{
    let name = short_name_in(items, QUEUE)?;
    Some(Request::DeleteQueue { name })
}
