// What of a queue a command can say.
ghost use Rattle.std.specs.Prelude.{◌≡◌, true};
ghost use Rattle.std.specs.List.{list_all};
ghost use Rattle.std.specs.Option.{option_map_or};
ghost use Rattle.qm_model.specs.Built.{is_short};
ghost use Rattle.qm_dcl.specs.Values.{is_node_name};
ghost use Rattle.qm_sayable.specs.Values.{are_characteristics};
ghost use Rattle.qm_sayable.specs.Queues.{are_queue_settings, sets_queue, is_placed, is_passing_on, is_generic, is_new_queue};

use crate::values::{
    are_characteristics, fits_list, is_form_given, is_node_name, is_short, is_short_given,
};
use qm_kinds::{Name, NameOrNumber, NewQueue, QueueChange, QueueKind, Seq};

// Whether a queue of this kind passes its jobs on.
fn is_generic(kind: QueueKind) -> bool
    ensures { result ≡ is_generic kind }
{
    match kind {
        QueueKind::GenericBatch | QueueKind::GenericPrint => true,
        QueueKind::Batch | QueueKind::Print => false,
    }
}

// Whether a command can say these characteristics, where they are given.
fn are_characteristics_given(characteristics: &Option<Seq<NameOrNumber>>) -> bool
    ensures { result ≡ option_map_or are_characteristics characteristics.now true }
{
    match characteristics {
        None => true,
        Some(characteristics) => are_characteristics(characteristics.as_slice()),
    }
}

// Whether a node can have this name, where it is given.
fn is_node_given(name: &Option<Name>) -> bool
    ensures { result ≡ option_map_or is_node_name name.now true }
{
    match name {
        None => true,
        Some(name) => is_node_name(name),
    }
}

fn are_short(names: &[Name]) -> bool
    ensures { result ≡ list_all is_short names.now }
{
    names.iter().all(|name| is_short(name))
}

/// Whether a command can say what is set.
pub(crate) fn are_queue_settings(change: &QueueChange) -> bool
    ensures { result ≡ are_queue_settings change.now }
{
    are_characteristics_given(&change.characteristics) && is_form_given(&change.form)
}

/// Whether something is set.
pub(crate) fn sets_queue(change: &QueueChange) -> bool
    ensures { result ≡ sets_queue change.now }
{
    change.limit.is_some()
        || change.characteristics.is_some()
        || change.form.is_some()
        || change.blocks.is_some()
        || change.by_size.is_some()
        || change.retain.is_some()
}

// Whether an execution queue stands where a command can say.
fn is_placed(new: &NewQueue) -> bool
    ensures { result ≡ is_placed new.now }
{
    new.targets.len() == 0
        && is_node_given(&new.node)
        && is_short_given(&new.device)
        && (new.node.is_some() || !new.device.is_some())
}

// Whether a generic queue passes its jobs on as a command can say.
fn is_passing_on(new: &NewQueue) -> bool
    ensures { result ≡ is_passing_on new.now }
{
    0 < new.targets.len()
        && fits_list(new.targets.len())
        && are_short(new.targets.as_slice())
        && !new.node.is_some()
        && !new.device.is_some()
}

/// Whether a command can make this queue.
pub(crate) fn is_new_queue(new: &NewQueue) -> bool
    ensures { result ≡ is_new_queue new.now }
{
    let stands = if is_generic(new.kind) {
        is_passing_on(new)
    } else {
        is_placed(new)
    };
    is_short(&new.name) && stands && are_queue_settings(&new.change)
}
