// INITIALIZE/QUEUE: why it is refused, and the queue that it makes.
ghost use Rattle.std.specs.Prelude.{◌≡◌, ◌&&◌, ◌||◌, if◌then◌else◌, nat_le, length, is_none, None, Some, IfOk, bytes_eq};
ghost use Rattle.std.specs.List.{list_any};
ghost use Rattle.std.specs.Option.{option_and_then, option_copied, option_or};
ghost use Rattle.qm_model.specs.Common.{default_form, QUEUES_LIMIT, System, is_generic, is_print_queue, refused_where, is_bad_change};
ghost use Rattle.qm_model.specs.Queues.{has_repeats, is_misplaced, refused_unless_stopped, refused_node, is_target, refused_targets, initialize_refusal, plain_queue};
ghost use Rattle.qm_rules.specs.Settings.{AgreesWith, HasQueues, IsMadeFrom};
ghost use Rattle.qm_rules.specs.Reasons.{is_of_other_kind};

use crate::kinds::{is_generic, is_print_queue, is_same_queue_kind, take_same_jobs};
use crate::refusals::{first_refusal, refused_where};
use crate::settings::{change_refusal, is_bad_change, settings_of};
use crate::stopping;
use qm_kinds::{
    CharacteristicSet, Name, NewQueue, Node, QUEUES_LIMIT, Queue, QueueKind, QueueRetain,
    QueueState, Refusal, Seq, TARGETS_LIMIT, default_form,
};
use qm_tables::{FormTable, QueueTable};
use std::alloc::{AllocError, Global};

// Whether the name is one of these.
fn is_one_of(name: &Name, names: &[Name]) -> bool
    ensures { result ≡ list_any (bytes_eq name.now) names.now }
{
    names.contains(name)
}

// Whether a name stands twice.
fn has_repeats(names: &[Name]) -> bool
    ensures { result ≡ has_repeats names.now }
{
    for (i, name) in names.iter().enumerate() {
        if is_one_of(name, &names[i + 1..]) {
            return true;
        }
    }
    false
}

// Whether a generic queue has a wrong number of targets, one of them twice, or a place of its own, or an execution queue
// has targets.
fn is_misplaced(new: &NewQueue) -> bool
    ensures { result ≡ is_misplaced new.now }
{
    let targets = new.targets.as_slice();
    if is_generic(new.kind) {
        targets.is_empty()
            || targets.len() > TARGETS_LIMIT
            || has_repeats(targets)
            || new.node.is_some()
            || new.device.is_some()
    } else {
        !targets.is_empty()
    }
}

// Whether a setting that is given can't be, or the queue can't have the place or the targets that are given.
fn has_bad_value(new: &NewQueue) -> bool
    ensures { result ≡ (is_bad_change new.now.change || is_misplaced new.now) }
{
    is_bad_change(&new.change) || is_misplaced(new)
}

// Whether the queue would be one too many.
fn is_full(queues: &QueueTable, old: Option<&Queue>) -> bool
    ensures { result ≡ (is_none (option_copied old.entry) && nat_le QUEUES_LIMIT (length queues.now.queues)) }
{
    old.is_none() && queues.as_slice().len() >= QUEUES_LIMIT
}

// The name is that of a queue of another kind.
fn refused_duplicate(queue: Option<&Queue>, kind: QueueKind) -> Option<Refusal>
    ensures { result ≡ refused_where (is_of_other_kind kind (option_copied queue.entry)) Refusal.DuplicateQueue }
{
    if is_same_queue_kind(queue?.kind, kind) {
        None
    } else {
        Some(Refusal::DuplicateQueue)
    }
}

// The queue isn't stopped.
fn refused_unless_stopped(queue: Option<&Queue>) -> Option<Refusal>
    ensures { result ≡ option_and_then refused_unless_stopped (option_copied queue.entry) }
{
    stopping::refused_unless_stopped(queue?)
}

// Whether the name is that of a node of the cluster.
fn is_node(nodes: &[Node], name: &Name) -> bool
    ensures { result ≡ list_any (λ n. bytes_eq n.name name.now) nodes.now }
{
    nodes.iter().any(|node| node.name == *name)
}

// The node that is given isn't one of the cluster.
fn refused_node(nodes: &[Node], name: Option<Name>) -> Option<Refusal>
    ensures { (s : System) → s.nodes ≡ nodes.now → result ≡ option_and_then (refused_node s) name }
{
    match name {
        None => None,
        Some(name) => refused_where(!is_node(nodes, &name), Refusal::NoSuchNode { name }),
    }
}

// Whether the name is that of an execution queue for this kind of job.
fn is_target(queues: &QueueTable, kind: QueueKind, name: &Name) -> bool
    ensures { (s : System) → HasQueues s queues.now → result ≡ is_target s kind name.now }
{
    match queues.get(name) {
        None => false,
        Some(queue) => !is_generic(queue.kind) && take_same_jobs(kind, queue.kind),
    }
}

// The first target that no such queue is.
fn refused_targets(queues: &QueueTable, new: &NewQueue) -> Option<Refusal>
    ensures { (s : System) → HasQueues s queues.now → result ≡ refused_targets s new.now }
{
    let targets = new.targets.as_slice();
    for name in targets {
        if !is_target(queues, new.kind, name) {
            return Some(Refusal::GenericTarget { name: *name });
        }
    }
    None
}

/// Why INITIALIZE/QUEUE is refused, if it is.
pub fn initialize_refusal(
    nodes: &[Node],
    forms: &FormTable,
    queues: &QueueTable,
    new: &NewQueue,
) -> Option<Refusal>
    ensures { (s : System) → AgreesWith s nodes.now forms.now queues.now → result ≡ initialize_refusal s new.now }
{
    let old = queues.get(&new.name);
    let refusals = [
        refused_where(has_bad_value(new), Refusal::BadValue),
        refused_duplicate(old, new.kind),
        refused_unless_stopped(old),
        refused_where(is_full(queues, old), Refusal::QueuesFull),
        refused_node(nodes, new.node),
        refused_targets(queues, new),
        change_refusal(forms, new.kind, &new.change),
    ];
    first_refusal(&refusals)
}

// What an execution queue has, which is given or has this default. A generic queue has none.
fn own(kind: QueueKind, given: Option<Name>, default: Name) -> Option<Name>
    ensures { result ≡ (if is_generic kind then None else option_or given (Some default)) }
{
    if is_generic(kind) {
        None
    } else {
        Some(given.unwrap_or(default))
    }
}

// The state that the queue has first.
fn first_state(new: &NewQueue) -> QueueState
    ensures { result ≡ (if new.now.start then QueueState.Started else QueueState.Stopped) }
{
    if new.start {
        QueueState::Started
    } else {
        QueueState::Stopped
    }
}

// The form that a print queue has mounted first. No other queue has one.
fn first_form(kind: QueueKind) -> Option<Name>
    ensures { result ≡ (if is_print_queue kind then Some default_form else None) }
{
    if is_print_queue(kind) {
        Some(default_form())
    } else {
        None
    }
}

// The queue before any setting is given. It takes memory for the targets.
fn plain_queue(alloc: Global, node: &Name, new: &NewQueue) -> Result<Queue, AllocError>
    ensures { IfOk result (λ q. q ≡ plain_queue node.now new.now) }
{
    let targets = Seq::of(Vec::from_slice(alloc, new.targets.as_slice())?);
    Ok(Queue {
        name: new.name,
        kind: new.kind,
        state: first_state(new),
        node: own(new.kind, new.node, *node),
        device: own(new.kind, new.device, new.name),
        limit: 1,
        characteristics: CharacteristicSet::new(),
        mounted: first_form(new.kind),
        lower: 1,
        upper: u32::MAX,
        by_size: true,
        retain: QueueRetain::Nothing,
        targets,
    })
}

/// The queue that INITIALIZE/QUEUE from this node makes. It takes memory for the targets, and fails where there is none.
pub fn new_queue(
    alloc: Global,
    forms: &FormTable,
    node: &Name,
    new: &NewQueue,
) -> Result<Queue, AllocError>
    ensures { IfOk result (IsMadeFrom forms.now node.now new.now) }
{
    let mut queue = plain_queue(alloc, node, new)?;
    settings_of(forms, &new.change).apply(&mut queue);
    Ok(queue)
}
