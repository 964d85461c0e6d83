// A new site, and the records with which its queue file begins.
ghost use Rattle.std.specs.Prelude.{◌≡◌, ◌<◌, ◌^◌, length, All, IfOk};
ghost use Rattle.qm_history.specs.Common.{first_name, Head, first_form, first_queue, row, CanBeWritten};
ghost use Rattle.qm_restore.specs.Site.{names_of, new_rows, new_system};

use qm_kinds::{
    Body, CharacteristicSet, Form, Moment, Name, Node, Queue, QueueKind, QueueRetain, QueueState,
    Record, Seq, Shape, System, batch_queue, default_form,
};
use std::alloc::{AllocError, Global};

// The form that is always there.
fn first_form() -> Form
    ensures { result ≡ first_form }
{
    let name = default_form();
    Form {
        name,
        number: 0,
        stock: name,
        shape: Shape {
            length: 66,
            width: 132,
            top: 0,
            bottom: 6,
            left: 0,
            right: 0,
            wrap: false,
        },
    }
}

// The batch queue that is there from the start, stopped, on a node.
fn first_queue(alloc: Global, node: Name) -> Queue
    ensures { result ≡ first_queue node }
{
    let name = batch_queue();
    Queue {
        name,
        kind: QueueKind::Batch,
        state: QueueState::Stopped,
        node: Some(node),
        device: Some(name),
        limit: 1,
        characteristics: CharacteristicSet(0),
        mounted: None,
        lower: 1,
        upper: u32::MAX,
        by_size: true,
        retain: QueueRetain::Nothing,
        targets: Seq::new(alloc),
    }
}

// The names of nodes.
fn names_of(alloc: Global, nodes: &[Node]) -> Result<Vec<Name>, AllocError>
    ensures { IfOk result (λ names. names.items ≡ names_of nodes.now) }
{
    nodes.iter().map(|node| node.name).collect(alloc)
}

// The name of the first node.
fn first_name(nodes: &[Node]) -> Name
    requires { 0 < length nodes.now }
    ensures { result ≡ first_name (names_of nodes.now) }
{
    nodes[0].name
}

/// The system of a new site of these nodes, which are up or down.
pub(crate) fn new_system(alloc: Global, nodes: &[Node]) -> Result<System, AllocError>
    requires { 0 < length nodes.now }
    ensures { IfOk result (λ system. system ≡ new_system nodes.now) }
{
    Ok(System {
        nodes: Seq::of(Vec::from_slice(alloc, nodes)?),
        may: Seq::of(names_of(alloc, nodes)?),
        forms: Seq::of(vec![in alloc; first_form()]?),
        characteristics: Seq::new(alloc),
        files: Seq::new(alloc),
        queues: Seq::of(vec![in alloc; first_queue(alloc, first_name(nodes))]?),
        entries: Seq::new(alloc),
        next_entry: 1,
        next_run: 1,
        last: Moment::BASE,
    })
}

// A row.
fn row(body: Body) -> Record
    ensures { result ≡ row body }
{
    Record {
        moment: Moment::BASE,
        node: 0,
        body,
    }
}

// The first row of a new site, with what of its system stands in no other row.
fn new_head(alloc: Global, nodes: &[Node]) -> Result<Record, AllocError>
    ensures { IfOk result (λ head. head ≡ row (Head nodes.now (names_of nodes.now) 1 1 0)) }
{
    let may = Seq::of(names_of(alloc, nodes)?);
    Ok(row(Body::Head {
        nodes: Seq::of(Vec::from_slice(alloc, nodes)?),
        may,
        next_entry: 1,
        next_run: 1,
        last: Moment::BASE,
    }))
}

/// The rows with which the queue file of a new site of these nodes begins: its head, the form and the queue that are always
/// there. They can be written.
pub fn new_rows(alloc: Global, nodes: &[Node]) -> Result<Vec<Record>, AllocError>
    requires some { 0 < length nodes.now }
    requires few { length nodes.now < 2 ^ 16 }
    ensures rows { IfOk result (λ rows. rows.items ≡ new_rows nodes.now) }
    ensures can_be_written { IfOk result (λ rows. All CanBeWritten rows.items) }
{
    let head = new_head(alloc, nodes)?;
    let form = row(Body::Form(first_form()));
    let queue = row(Body::Queue(first_queue(alloc, first_name(nodes))));
    Ok(vec![in alloc; head, form, queue]?)
}
