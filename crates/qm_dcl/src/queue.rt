// Commands of queues.
ghost use Rattle.std.specs.Prelude.{◌≡◌};
ghost use Rattle.qm_dcl.specs.Queues.{change_of, kind_of, new_queue_of, stop_of, queue_request};

use crate::lists::Lists;
use crate::settings::{QueueSettings, Settings, Stop};
use qm_commands::Command;
use qm_kinds::{Name, NameOrNumber, NewQueue, QueueChange, QueueKind, Request, Seq, StopMode};
use std::alloc::Global;

// What is changed of a queue.
fn change_of(s: &QueueSettings, characteristics: Option<Seq<NameOrNumber>>) -> QueueChange
    ensures { result ≡ change_of s.now characteristics }
{
    QueueChange {
        limit: s.limit,
        characteristics,
        form: s.form,
        blocks: s.blocks,
        by_size: s.by_size,
        retain: s.retain,
    }
}

// What a queue is for: batch jobs or print jobs, and whether it passes them on.
fn kind_of(batch: bool, generic: bool) -> QueueKind
    ensures { result ≡ kind_of batch generic }
{
    match (batch, generic) {
        (true, false) => QueueKind::Batch,
        (false, false) => QueueKind::Print,
        (true, true) => QueueKind::GenericBatch,
        (false, true) => QueueKind::GenericPrint,
    }
}

// A new queue, which is generic where targets are given.
fn new_queue_of(alloc: Global, name: Name, s: &QueueSettings, lists: Lists) -> NewQueue
    ensures { result ≡ new_queue_of name s.now lists }
{
    let Lists {
        characteristics,
        targets,
    } = lists;
    let kind = kind_of(s.batch, targets.is_some());
    let targets = match targets {
        Some(list) => list,
        None => Seq::new(alloc),
    };
    NewQueue {
        name,
        kind,
        node: s.location.map(|location| location.node),
        device: s.location.and_then(|location| location.device),
        targets,
        change: change_of(s, characteristics),
        start: s.start,
    }
}

// The request that stops a queue, or a job of it. Where only an entry is given, that job is aborted.
fn stop_of(name: Name, how: Option<Stop>, entry: Option<u32>) -> Request
    ensures { result ≡ stop_of name how entry }
{
    match (how, entry) {
        (None, None) => stop(name, StopMode::Pause),
        (Some(Stop::Next), _) => stop(name, StopMode::Next),
        (Some(Stop::Reset), _) => stop(name, StopMode::Reset),
        (Some(Stop::Requeue), _) => abort(name, entry, true),
        (Some(Stop::Abort), _) | (None, Some(_)) => abort(name, entry, false),
    }
}

fn stop(name: Name, how: StopMode) -> Request
    ensures { result ≡ Request.StopQueue name how }
{
    Request::StopQueue { name, how }
}

fn abort(queue: Name, entry: Option<u32>, requeue: bool) -> Request
    ensures { result ≡ Request.AbortJob queue entry requeue }
{
    Request::AbortJob {
        queue,
        entry,
        requeue,
    }
}

/// What a command of the queue with this name changes.
#[inline(never)]
pub(crate) fn queue_request(
    alloc: Global,
    name: Name,
    command: Command,
    s: &Settings,
    lists: Lists,
) -> Option<Request>
    ensures { result ≡ queue_request name command s.now lists }
{
    match command {
        Command::InitializeQueue => Some(Request::InitializeQueue(new_queue_of(
            alloc,
            name,
            &s.queue_settings,
            lists,
        ))),
        Command::SetQueue => Some(Request::SetQueue {
            name,
            change: change_of(&s.queue_settings, lists.characteristics),
        }),
        Command::StartQueue => Some(Request::StartQueue {
            name,
            change: change_of(&s.queue_settings, lists.characteristics),
        }),
        Command::StopQueue => Some(stop_of(name, s.stop, s.entry)),
        Command::DeleteQueue => Some(Request::DeleteQueue { name }),
        Command::AssignMerge => Some(Request::Merge {
            to: name,
            from: s.source?,
        }),
        _ => None,
    }
}
