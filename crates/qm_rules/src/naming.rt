// What names a file, a form, a characteristic or a queue.
ghost use Rattle.std.specs.Prelude.{◌≡◌, find, option_copied};
ghost use Rattle.qm_tables.specs.Boxed.{contents};
ghost use Rattle.qm_model.specs.Common.{is_named, refused_by_entry, refused_by_queue};
ghost use Rattle.qm_rules.specs.Naming.{has_one_of, names, queue_names};

use qm_kinds::{CharacteristicSet, Entry, FileName, Holder, Name, Queue, Refusal};

/// What an entry may name.
#[derive(Clone, Copy)]
pub enum Named<'a> {
    /// This file.
    File(&'a FileName),
    /// This form.
    Form(&'a Name),
    /// One of these characteristics.
    Characteristics(CharacteristicSet),
}

/// What a queue may name.
#[derive(Clone, Copy)]
pub enum QueueNamed<'a> {
    /// This form, which is mounted.
    Form(&'a Name),
    /// One of these characteristics.
    Characteristics(CharacteristicSet),
    /// This queue, to which it passes jobs on.
    Target(&'a Name),
}

// Whether the form is the one of the name.
fn is_named(name: &Name, form: Option<Name>) -> bool
    ensures { result ≡ is_named name.now form }
{
    match form {
        None => false,
        Some(form) => *name == form,
    }
}

// Whether one of the characteristics is in the set.
fn has_one_of(wanted: CharacteristicSet, set: CharacteristicSet) -> bool
    ensures { result ≡ has_one_of wanted.0 set.0 }
{
    set.0 & wanted.0 != 0
}

// Whether an entry names it.
fn names(named: &Named<'_>, entry: &Entry) -> bool
    ensures { result ≡ names named.now entry.now }
{
    match named {
        Named::File(name) => entry.file == **name,
        Named::Form(name) => is_named(name, entry.form),
        Named::Characteristics(wanted) => has_one_of(*wanted, entry.characteristics),
    }
}

// The entry of the least number that names it.
fn first_naming<'a>(entries: &'a [Box<Entry>], named: &Named<'_>) -> Option<&'a Entry>
    ensures { option_copied result ≡ find (names named.now) (contents entries.now) }
{
    for boxed in entries {
        let entry = boxed.as_ref();
        if names(named, entry) {
            return Some(entry);
        }
    }
    None
}

/// The refusal that names the least entry of those that name it.
pub fn refused_by_entry(entries: &[Box<Entry>], named: &Named<'_>) -> Option<Refusal>
    ensures { result ≡ refused_by_entry (names named.now) (contents entries.now) }
{
    let entry = first_naming(entries, named)?;
    Some(Refusal::Referenced {
        by: Holder::Entry(entry.number),
    })
}

// Whether a queue names it.
fn queue_names(named: &QueueNamed<'_>, queue: &Queue) -> bool
    ensures { result ≡ queue_names named.now queue.now }
{
    match named {
        QueueNamed::Form(name) => is_named(name, queue.mounted),
        QueueNamed::Characteristics(wanted) => has_one_of(*wanted, queue.characteristics),
        QueueNamed::Target(name) => queue.targets.as_slice().contains(*name),
    }
}

/// The refusal that names the first queue of those that name it, by their names.
pub fn refused_by_queue(queues: &[Queue], named: &QueueNamed<'_>) -> Option<Refusal>
    ensures { result ≡ refused_by_queue (queue_names named.now) queues.now }
{
    for queue in queues {
        if queue_names(named, queue) {
            let by = Holder::Queue(queue.name);
            return Some(Refusal::Referenced { by });
        }
    }
    None
}
