// How serving ended, by how the turns of each node did.
ghost use Rattle.std.specs.Prelude.{◌≡◌};
ghost use Rattle.qm_cluster.specs.Driving.{node_end};
ghost use Rattle.qm_history.specs.Ends.{end_of_node, worse};
ghost use Rattle.qm_cluster.specs.Ends.{serving_end};
ghost use Rattle.qm_cluster.specs.ClusterEnding.{TellsTexts, lacks_text, worst_of};
ghost use Rattle.qm_cluster.specs.Gathered.{all_left};

use crate::ends::{ServeEnd, end_of_turns};
use crate::join::LeftText;
use crate::print::print_all;
use qm_disk::{Failed, Sink};
use qm_history::Turn;
use qm_kinds::Name;
use qm_node::TurnEnd;

// What the end of a node's turns makes of the end of all. Its text is kept in memory, and ends short for want of it alone.
fn end_of_node(end: &Result<(), TurnEnd>) -> ServeEnd
    ensures { serving_end result ≡ end_of_node (node_end end.now) }
{
    match end {
        Ok(()) => ServeEnd::Served,
        Err(TurnEnd::HistoryFull) => ServeEnd::HistoryFull,
        Err(TurnEnd::Damaged { file, place }) => ServeEnd::Damaged {
            file: *file,
            place: *place,
        },
        Err(TurnEnd::Write | TurnEnd::NoMemory) => ServeEnd::NoMemory,
    }
}

// Which of two ends counts: want of memory first, then a damaged file, the sink, a full history, and failed disks.
fn worse(one: ServeEnd, other: ServeEnd) -> ServeEnd
    ensures { serving_end result ≡ worse (serving_end one) (serving_end other) }
{
    match (one, other) {
        (ServeEnd::NoMemory, _) | (_, ServeEnd::NoMemory) => ServeEnd::NoMemory,
        (ServeEnd::Damaged { .. }, _) => one,
        (_, ServeEnd::Damaged { .. }) => other,
        (ServeEnd::SinkFailed, _) | (_, ServeEnd::SinkFailed) => ServeEnd::SinkFailed,
        (ServeEnd::HistoryFull, _) | (_, ServeEnd::HistoryFull) => ServeEnd::HistoryFull,
        (ServeEnd::DiskFailed, _) | (_, ServeEnd::DiskFailed) => ServeEnd::DiskFailed,
        (ServeEnd::Served, ServeEnd::Served) => ServeEnd::Served,
    }
}

// The end that counts of those of the nodes' turns.
fn worst_end(texts: &[LeftText]) -> ServeEnd
    ensures { serving_end result ≡ worst_of (all_left texts.now) }
{
    match texts {
        [] => ServeEnd::Served,
        [first, others @ ..] => worse(end_of_node(&first.end), worst_end(others)),
    }
}

// Whether some node's text may not be whole, where this is the end that counts.
fn lacks_text(end: &ServeEnd) -> bool
    ensures { result ≡ lacks_text (serving_end end.now) }
{
    match end {
        ServeEnd::Served | ServeEnd::DiskFailed | ServeEnd::SinkFailed | ServeEnd::HistoryFull =>
            false,
        ServeEnd::Damaged { .. } | ServeEnd::NoMemory => true,
    }
}

/// Prints what the nodes left, unless some node's text may not be whole, and tells how serving ended.
pub fn print_texts<O: Sink>(
    sink: &mut O,
    names: &[Name],
    texts: &[LeftText],
    turns: &[Turn],
) -> ServeEnd
    ensures { TellsTexts names.now (all_left texts.now) turns.now (O.taken sink.old) (O.taken sink.new)
        (O.faults sink.old) (O.faults sink.new) (serving_end result) }
{
    let worst = worst_end(texts);
    if lacks_text(&worst) {
        return worst;
    }
    match print_all(sink, names, texts, turns) {
        Ok(()) => worse(worst, end_of_turns(turns)),
        Err(Failed) => ServeEnd::SinkFailed,
    }
}
