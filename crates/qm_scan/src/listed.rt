// Which queues and entries are listed.
ghost use Rattle.std.specs.Prelude.{◌≡◌, true};
ghost use Rattle.std.specs.Option.{option_map_or};
ghost use Rattle.qm_model.specs.Common.{matches, stands_in};
ghost use Rattle.qm_model.specs.Rows.{is_kind_listed, is_of_user, stands_there};
ghost use Rattle.qm_scan.specs.Listed.{is_entry_listed, is_listed_at_home, is_queue_listed};

use qm_kinds::{Entry, EntryState, Kinds, Name, Pattern, Query, Queue, QueueKind};

/// Whether a pattern matches a name. Where none was typed it is `*`, which matches each name: then the name isn't looked at.
pub(crate) fn is_named(pattern: &Pattern, name: &Name) -> bool
    ensures { result ≡ matches pattern.now name.now }
{
    pattern.as_bytes() == b"*".as_slice() || pattern.matches(name)
}

// Whether queues of a kind are listed.
fn is_kind_listed(kinds: &Kinds, kind: QueueKind) -> bool
    ensures { result ≡ is_kind_listed kinds.now kind }
{
    match kind {
        QueueKind::Batch => kinds.batch,
        QueueKind::Print => kinds.print,
        QueueKind::GenericBatch => kinds.generic_batch,
        QueueKind::GenericPrint => kinds.generic_print,
    }
}

/// Whether a queue is listed.
pub(crate) fn is_queue_listed(query: &Query, queue: &Queue) -> bool
    ensures { result ≡ is_queue_listed query.now queue.now }
{
    is_named(&query.pattern, &queue.name) && is_kind_listed(&query.kinds, queue.kind)
}

/// The queue in which an entry stands: the one where it runs, while its run lasts, or else its home.
pub(crate) fn stands_in(entry: &Entry) -> &Name
    ensures { result.now ≡ stands_in entry.now }
{
    match &entry.state {
        EntryState::Running { queue, .. } | EntryState::Aborting { queue, .. } => queue,
        _ => &entry.home,
    }
}

/// Whether an entry is one of the user whose entries are listed, if they are those of one user.
pub(crate) fn is_of_user(query: &Query, entry: &Entry) -> bool
    ensures { result ≡ is_of_user query.now.user entry.now }
{
    match query.user {
        None => true,
        Some(user) => entry.user == user,
    }
}

// Whether an entry is among those of all queues, or of one.
fn stands_there(queue: &Option<Name>, entry: &Entry) -> bool
    ensures { result ≡ option_map_or (λ name. stands_there name entry.now) queue.now true }
{
    match queue {
        None => true,
        Some(queue) => *stands_in(entry) == *queue,
    }
}

/// Whether an entry is listed, among those of all queues or of one. Where it stands is asked first: a walk to the next entry of a queue
/// passes by those of all others.
pub(crate) fn is_entry_listed(query: &Query, queue: &Option<Name>, entry: &Entry) -> bool
    ensures { result ≡ is_entry_listed query.now queue.now entry.now }
{
    stands_there(queue, entry) && is_of_user(query, entry) && is_named(&query.pattern, &entry.name)
}

/// Whether an entry is listed among those of a queue, and has it as its home. That is asked first, and of most entries nothing else: a
/// walk to the next entry of a queue passes by those of all others.
pub(crate) fn is_listed_at_home(query: &Query, queue: &Name, entry: &Entry) -> bool
    ensures { result ≡ is_listed_at_home query.now queue.now entry.now }
{
    entry.home == *queue && is_entry_listed(query, &Some(*queue), entry)
}
