// The settings that SET QUEUE, START/QUEUE and INITIALIZE/QUEUE give: why they are refused, and what they are.
ghost use Rattle.std.specs.Prelude.{◌≡◌, is_none, option_and_then, option_copied, option_map};
ghost use Rattle.qm_model.specs.Common.{System, refused_where, refused_form, form_named, characteristics_of};
ghost use Rattle.qm_model.specs.Queues.{set_queue_refusal};
ghost use Rattle.qm_model.specs.Settings.{are_bad_sizes, is_bad_change, is_change_of_other_kind, change_refusal};
ghost use Rattle.qm_rules.specs.Settings.{HasForms, HasQueues, AreSettingsOf};
ghost use Rattle.qm_rules.specs.Reasons.{refused_among, refused_change_of};

use crate::kinds::{is_batch_queue, is_generic, is_print_queue};
use crate::refusals::{first_refusal, refused_where};
use qm_kinds::{
    CharacteristicSet, Name, NameOrNumber, Queue, QueueChange, QueueKind, Refusal, Seq,
};
use qm_tables::{FormTable, QueueTable, Settings};

// Whether the least size is 0 or above the greatest.
fn are_bad_sizes(least: u32, greatest: u32) -> bool
    ensures { result ≡ are_bad_sizes (least, greatest) }
{
    least == 0 || greatest < least
}

/// Whether no job may run, or the sizes are bad.
pub(crate) fn is_bad_change(change: &QueueChange) -> bool
    ensures { result ≡ is_bad_change change.now }
{
    change.limit.is_some_and(|limit| limit == 0)
        || change
            .blocks
            .is_some_and(|(least, greatest)| are_bad_sizes(least, greatest))
}

// Whether a queue of this kind can't have a setting that is given.
fn is_change_of_other_kind(kind: QueueKind, change: &QueueChange) -> bool
    ensures { result ≡ is_change_of_other_kind kind change.now }
{
    change.limit.is_some() && !is_batch_queue(kind)
        || (change.form.is_some() || change.blocks.is_some() || change.by_size.is_some())
            && !is_print_queue(kind)
        || change.characteristics.is_some() && is_generic(kind)
}

/// The form that is asked for isn't there.
pub fn refused_form(forms: &FormTable, form: Option<NameOrNumber>) -> Option<Refusal>
    ensures { (s : System) → HasForms s forms.now → result ≡ option_and_then (refused_form s) form }
{
    let wanted = form?;
    match forms.form(&wanted) {
        None => Some(Refusal::NoSuchForm { wanted }),
        Some(_) => None,
    }
}

/// The first characteristic that is asked for and isn't there.
pub(crate) fn refused_characteristics(
    forms: &FormTable,
    characteristics: &Option<Seq<NameOrNumber>>,
) -> Option<Refusal>
    ensures { (s : System) → HasForms s forms.now → result ≡ refused_among characteristics.now s }
{
    match characteristics {
        None => None,
        Some(wanted) => forms.refused_characteristics(wanted.as_slice()),
    }
}

/// Why a queue of this kind can't be given these settings, but for bad values.
pub(crate) fn change_refusal(
    forms: &FormTable,
    kind: QueueKind,
    change: &QueueChange,
) -> Option<Refusal>
    ensures { (s : System) → HasForms s forms.now → result ≡ change_refusal s kind change.now }
{
    let refusals = [
        refused_where(is_change_of_other_kind(kind, change), Refusal::WrongKind),
        refused_form(forms, change.form),
        refused_characteristics(forms, &change.characteristics),
    ];
    first_refusal(&refusals)
}

// Why this queue can't be given these settings, but for bad values.
fn refused_change_of(
    forms: &FormTable,
    queue: Option<&Queue>,
    change: &QueueChange,
) -> Option<Refusal>
    ensures { (s : System) → HasForms s forms.now → result ≡ refused_change_of change.now (option_copied queue.entry) s }
{
    change_refusal(forms, queue?.kind, change)
}

/// There is no queue of the name.
pub fn refused_absent(queue: Option<&Queue>, name: &Name) -> Option<Refusal>
    ensures { result ≡ refused_where (is_none (option_copied queue.entry)) (Refusal.NoSuchQueue name.now) }
{
    refused_where(queue.is_none(), Refusal::NoSuchQueue { name: *name })
}

/// Why SET QUEUE or START/QUEUE is refused, if it is.
pub fn set_queue_refusal(
    forms: &FormTable,
    queues: &QueueTable,
    name: &Name,
    change: &QueueChange,
) -> Option<Refusal>
    ensures { (s : System) → HasForms s forms.now → HasQueues s queues.now → result ≡ set_queue_refusal s name.now change.now }
{
    let queue = queues.get(name);
    let refusals = [
        refused_absent(queue, name),
        refused_where(is_bad_change(change), Refusal::BadValue),
        refused_change_of(forms, queue, change),
    ];
    first_refusal(&refusals)
}

/// The set of the characteristics that are asked for.
pub(crate) fn characteristics_of(
    forms: &FormTable,
    characteristics: &Option<Seq<NameOrNumber>>,
) -> Option<CharacteristicSet>
    ensures { (s : System) → HasForms s forms.now → result ≡ option_map (characteristics_of s) characteristics.now }
{
    match characteristics {
        None => None,
        Some(wanted) => Some(forms.set_of(wanted.as_slice())),
    }
}

/// The name of the form that is asked for, where it is defined.
pub(crate) fn form_named(forms: &FormTable, form: Option<NameOrNumber>) -> Option<Name>
    ensures { (s : System) → HasForms s forms.now → result ≡ option_and_then (form_named s.forms) form }
{
    let form = forms.form(&form?)?;
    Some(form.name)
}

/// The settings that are given, with their form and characteristics looked up.
pub fn settings_of(forms: &FormTable, change: &QueueChange) -> Settings
    ensures { (s : System) → HasForms s forms.now → AreSettingsOf s change.now result }
{
    Settings {
        limit: change.limit,
        characteristics: characteristics_of(forms, &change.characteristics),
        mounted: form_named(forms, change.form),
        sizes: change.blocks,
        by_size: change.by_size,
        retain: change.retain,
    }
}
