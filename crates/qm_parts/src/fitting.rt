// Whether a queue can start a job, by what the tables hold.
ghost use Rattle.std.specs.Prelude.{◌≡◌, ◌&&◌, true, Some, option_copied, bytes_eq};
ghost use Rattle.qm_model.specs.Common.{System, queue_named, is_open, is_up, is_reached, has_stock, fits, stock_of};
ghost use Rattle.qm_parts.specs.Reaching.{KnowsWay, is_way};
ghost use Rattle.qm_parts.specs.Tables.{with_tables};

use crate::names::is_same;
use crate::tables::TableSet;
use qm_kinds::{Entry, JobKind, Name, Node, Queue, QueueState};
use qm_match::{is_same_stock, passes_on_to, suits};

// Whether a node has this name, and is up.
fn is_up_as(node: &Node, name: &Name) -> bool
    ensures { result ≡ (bytes_eq node.now.name name.now && node.now.up) }
{
    node.name == *name && node.up
}

// Whether the node of a name is there and up.
fn some_up(nodes: &[Node], name: &Name) -> bool
    ensures { result ≡ is_up nodes.now (Some name.now) }
{
    for node in nodes {
        if is_up_as(node, name) {
            return true;
        }
    }
    false
}

// Whether a node is there and up.
fn is_up(nodes: &[Node], name: &Option<Name>) -> bool
    ensures { result ≡ is_up nodes.now name.now }
{
    match name {
        None => false,
        Some(name) => some_up(nodes, name),
    }
}

/// Whether a queue is started, and its node is up.
pub(crate) fn is_open(parts: &TableSet, queue: &Queue) -> bool
    ensures { (s : System) → result ≡ is_open (with_tables s parts.now) queue.now }
{
    queue.state == QueueState::Started && is_up(parts.nodes(), &queue.node)
}

/// The stock of a form, where there is such a form. It asks a logarithm of the forms.
pub(crate) fn stock_of(parts: &TableSet, form: &Option<Name>) -> Option<Name>
    ensures { result ≡ stock_of parts.now.forms form.now }
{
    match form {
        None => None,
        Some(name) => parts.form_table().stock_of(name),
    }
}

// The stock of a job's form, where there is such a form. `mounted` is that of the form that is mounted at the queue, which
// most often is the job's: then no form is looked for.
fn stock_wanted(
    parts: &TableSet,
    entry: &Entry,
    queue: &Queue,
    mounted: &Option<Name>,
) -> Option<Name>
    requires { mounted.now ≡ stock_of parts.now.forms queue.now.mounted }
    ensures { result ≡ stock_of parts.now.forms entry.now.form }
{
    if entry.form == queue.mounted {
        return *mounted;
    }
    stock_of(parts, &entry.form)
}

// Whether a print job's form is of the stock of the form that is mounted at the queue, which is `mounted`.
fn has_stock(parts: &TableSet, entry: &Entry, queue: &Queue, mounted: &Option<Name>) -> bool
    requires { mounted.now ≡ stock_of parts.now.forms queue.now.mounted }
    ensures { (s : System) → result ≡ has_stock (with_tables s parts.now) entry.now queue.now }
{
    match entry.kind {
        JobKind::Batch => true,
        JobKind::Print => is_same_stock(&stock_wanted(parts, entry, queue, mounted), mounted),
    }
}

// Whether a home is the queue, or a generic queue that passes jobs on to it. `row` is that of the home. Most often it is the queue
// itself: then no targets are looked at.
fn reaches(home: &Name, row: Option<&Queue>, queue: &Queue) -> bool
    ensures { result ≡ is_way home.now (option_copied row.entry) queue.now }
{
    if is_same(home, &queue.name) {
        return true;
    }
    match row {
        None => false,
        Some(row) => passes_on_to(row, &queue.name),
    }
}

/// The home that was asked for last, and whether its jobs reach the queue. Entries of one home mostly stand together.
#[derive(Drop)]
pub(crate) struct Asked {
    home: Name,
    reaches: bool,
}

impl Asked {
    /// What is known at first: a queue's own jobs reach it.
    pub(crate) fn first(parts: &TableSet, queue: &Queue) -> Asked
        ensures { KnowsWay parts.now.queues queue.now result }
    {
        Asked {
            home: queue.name,
            reaches: reaches(&queue.name, parts.queue(&queue.name), queue),
        }
    }
}

// Whether a job's home is the queue, or a generic queue that passes it on. It asks a logarithm of the queues where the home is another
// one than that of the job before.
fn is_reached(parts: &TableSet, entry: &Entry, queue: &Queue, last: &mut Asked) -> bool
    requires { KnowsWay parts.now.queues queue.now last.old }
    ensures answer { (s : System)
        → result ≡ is_reached (with_tables s parts.now) entry.now queue.now }
    ensures last { KnowsWay parts.now.queues queue.now last.new }
{
    if !is_same(&entry.home, &last.home) {
        last.home = entry.home;
        last.reaches = reaches(&entry.home, parts.queue(&entry.home), queue);
    }
    last.reaches
}

/// Whether a queue, which is open, can start a job as soon as it has a place: OpenVMS System Manager's Manual, Setting Up and
/// Maintaining Queues, on generic queues, characteristics, forms and their stock, and job sizes. `mounted` is the stock of
/// the form that is mounted there. What the two hold alone is asked first. It asks a logarithm of the queues where the job's
/// home is another one than that of the job before, and one of the forms where its form is another one, and takes no memory.
pub(crate) fn can_run(
    parts: &TableSet,
    entry: &Entry,
    queue: &Queue,
    mounted: &Option<Name>,
    last: &mut Asked,
) -> bool
    requires open { (s : System) → is_open (with_tables s parts.now) queue.now ≡ true }
    requires mounted { mounted.now ≡ stock_of parts.now.forms queue.now.mounted }
    requires last { KnowsWay parts.now.queues queue.now last.old }
    ensures answer { (s : System) → result ≡ fits (with_tables s parts.now) entry.now queue.now }
    ensures last { KnowsWay parts.now.queues queue.now last.new }
{
    if !suits(entry, queue) {
        return false;
    }
    if !is_reached(parts, entry, queue, last) {
        return false;
    }
    has_stock(parts, entry, queue, mounted)
}

/// The same of a queue that needn't be open. `home` is the queue that is the job's home, if there is one.
pub(crate) fn fits(parts: &TableSet, entry: &Entry, home: Option<&Queue>, queue: &Queue) -> bool
    requires { option_copied home ≡ queue_named entry.now.home parts.now.queues }
    ensures { (s : System) → result ≡ fits (with_tables s parts.now) entry.now queue.now }
{
    if !is_open(parts, queue) {
        return false;
    }
    if !suits(entry, queue) {
        return false;
    }
    if !reaches(&entry.home, home, queue) {
        return false;
    }
    let mounted = stock_of(parts, &queue.mounted);
    has_stock(parts, entry, queue, &mounted)
}
