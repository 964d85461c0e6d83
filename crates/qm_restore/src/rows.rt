// The rows with which a queue file begins.
ghost use Rattle.std.specs.Prelude.{◌≡◌, ◌↔◌, ◌<◌, length, slice_get, Some, IfOk, IfErr, IsErrOf, true};
ghost use Rattle.qm_history.specs.Common.{Spells, AreNodes, IsRecord, record_text, CanBeWritten, HasSpelling};
ghost use Rattle.qm_kinds.specs.declared.record.Record.{Record as AnyRecord};
ghost use Rattle.qm_restore.specs.Restoring.{named_by, Names, NamesNone, OfBody, IsOf, BeginsWithRows, Judges, IsRead, IsUnreadableAt, IsFirst};

use crate::bodies::Bodies;
use crate::fault::{Flaw, RestoreFault};
use crate::nodes::are_nodes;
use crate::site::new_rows;
use qm_kinds::{Body, Node, Record};
use qm_record::{RecordFault, read_record, write_record};
use std::alloc::{AllocError, Global};

// The nodes that the first row names.
fn named_by(body: &Body) -> &[Node]
    ensures { result.now ≡ named_by body.now }
{
    match body {
        Body::Head { nodes, .. } => nodes.as_slice(),
        _ => &[],
    }
}

// The record of this index, if its body spells one.
fn read_at<B: Bodies>(alloc: Global, log: &B, index: usize) -> Result<Record, RestoreFault>
    requires { index < length (B.bodies log.now) }
    ensures found { OfBody (B.bodies log.now) index
        (λ body. IfOk result (λ r. Spells HasSpelling record_text r body)) }
    ensures only { OfBody (B.bodies log.now) index
        (λ body. (r : AnyRecord) → HasSpelling r → body ≡ record_text r → IsRead r result) }
    ensures place { IfErr result (IsUnreadableAt index) }
    ensures no_memory { OfBody (B.bodies log.now) index
        (λ body. IsErrOf result RestoreFault.NoMemory → IsRecord body) }
{
    match read_record(alloc, log.body(index)) {
        Ok(record) => Ok(record),
        Err(RecordFault::Bad { .. }) => Err(RestoreFault::Unlawful {
            index,
            flaw: Flaw::Unreadable,
        }),
        Err(RecordFault::NoMemory) => Err(RestoreFault::NoMemory),
    }
}

// The nodes that the first row of a site names.
fn nodes_in(alloc: Global, body: &Body) -> Result<Vec<Node>, RestoreFault>
    ensures nodes { IfOk result (λ nodes. Names body.now nodes.items) }
    ensures none { IfErr result (NamesNone body.now) }
{
    let nodes = named_by(body);
    if !are_nodes(nodes) {
        return Err(RestoreFault::Unlawful {
            index: 0,
            flaw: Flaw::NoRow,
        });
    }
    let nodes = Vec::from_slice(alloc, nodes)?;
    Ok(nodes)
}

/// The nodes of the site whose queue file these records begin, up or down as its first row says. The other records aren't
/// looked at: where more is wrong with them, `restore` tells.
pub fn read_nodes<B: Bodies>(alloc: Global, log: &B) -> Result<Vec<Node>, RestoreFault>
    ensures nodes { IfOk result (λ nodes. IsOf (B.bodies log.now) nodes.items) }
    ensures judged { IfErr result (Judges (B.bodies log.now)) }
    ensures first { IfErr result IsFirst }
{
    if log.count() == 0 {
        return Err(RestoreFault::Unlawful {
            index: 0,
            flaw: Flaw::NoRow,
        });
    }
    // (not by `?`, which moves the record from place to place: it is large)
    let record = match read_at(alloc, log, 0) {
        Ok(record) => record,
        Err(fault) => return Err(fault),
    };
    let nodes = nodes_in(alloc, &record.body);
    drop(record);
    nodes
}

// Whether the record of this index is this one.
fn is_row<B: Bodies>(alloc: Global, log: &B, index: usize, row: &Record) -> Result<bool, AllocError>
    requires { CanBeWritten row.now }
    ensures { IfOk result (λ is. is ≡ true
        ↔ (slice_get (B.bodies log.now) index ≡ Some (record_text row.now))) }
{
    let text = write_record(alloc, row)?;
    Ok(index < log.count() && log.body(index) == text.as_slice())
}

/// The nodes of the site, whose rows are the first records.
pub(crate) fn read_rows<B: Bodies>(alloc: Global, log: &B) -> Result<Vec<Node>, RestoreFault>
    ensures rows { IfOk result (λ nodes. BeginsWithRows (B.bodies log.now) nodes.items) }
    ensures judged { IfErr result (Judges (B.bodies log.now)) }
{
    let nodes = read_nodes(alloc, log)?;
    let rows = new_rows(alloc, &nodes)?;
    for index in 0..rows.len() {
        if !is_row(alloc, log, index, &rows[index])? {
            return Err(RestoreFault::Unlawful {
                index,
                flaw: Flaw::NoRow,
            });
        }
    }
    Ok(nodes)
}
