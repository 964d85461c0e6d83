// One turn of a node.
ghost use Rattle.std.specs.Prelude.{◌≡◌, ◌⊎◌, ◌<◌, ◌^◌, None, Some, IfErr, OnOk};
ghost use Rattle.std.specs.Io.KnownBytes.{Appends};
ghost use Rattle.qm_node.specs.Answered.{EndsIn, Makes, printed_by, stop_of};
ghost use Rattle.qm_node.specs.Ends.{TakesFront, TellsWrite};
ghost use Rattle.qm_node.specs.Node.{CanBeMade, IsTurn};
ghost use Rattle.qm_node.specs.Outside.{outside_at};
ghost use Rattle.qm_node.specs.Seats.{next_turn};

use crate::ask::Ask;
use crate::asking::{CallKind, kind_of_call};
use crate::course::{Asked, Next};
use crate::gate::{Gate, Point};
use crate::seat::{Seat, Station};
use qm_disk::{Clock, Sink, write_whole};
use qm_history::Answer;
use qm_kinds::Name;
use qm_scans::is_single;
use qm_show::show_answer;
use qm_symb::Symbiont;
use std::alloc::{AllocError, Global};

/// Why serving stopped within a turn.
#[derive(Clone, Copy, Debug, PartialEq, Eq)]
pub enum TurnEnd {
    /// The sink failed.
    Write,
    /// As many turns are kept as can be.
    HistoryFull,
    /// A file isn't sound at this byte.
    Damaged { file: u8, place: u64 },
    NoMemory,
}

// The end behind an answer, where none can come.
fn stop_of(answer: &Answer) -> Option<TurnEnd>
    ensures { result ≡ stop_of answer.now }
{
    match answer {
        Answer::HistoryFull => Some(TurnEnd::HistoryFull),
        Answer::Damaged { file, place } => Some(TurnEnd::Damaged {
            file: *file,
            place: *place,
        }),
        Answer::NoMemory { .. } => Some(TurnEnd::NoMemory),
        _ => None,
    }
}

// Prints the answer of a turn.
fn print_answer<O: Sink>(
    alloc: Global,
    sink: &mut O,
    name: &Name,
    kind: &CallKind,
    answer: &Answer,
) -> Result<(), TurnEnd>
    ensures all { OnOk result (Appends (O.taken sink.old) (O.taken sink.new)
        (printed_by name.now kind.now answer.now)) }
    ensures front { IfErr result (λ end. TakesFront (O.taken sink.old) (O.taken sink.new)
        (printed_by name.now kind.now answer.now)) }
    ensures ends { IfErr result (λ end. (end ≡ TurnEnd.Write) ⊎ (end ≡ TurnEnd.NoMemory)) }
    ensures sink { TellsWrite (O.faults sink.old) (O.faults sink.new) result }
{
    let Ok(text) = show_answer(alloc, name, kind.why, is_single(&kind.step), answer) else {
        return Err(TurnEnd::NoMemory);
    };
    match write_whole(sink, &text) {
        Ok(()) => Ok(()),
        Err(_) => Err(TurnEnd::Write),
    }
}

/// Makes the turn that comes next in a node: the call of it is made, as far as that is built, with one reading of the clock and for
/// a run with a step of its symbiont; it is asked; its answer is printed; and the node takes the answer in. The node comes by its
/// gate before a step, and just before and just behind it asks.
///
/// OpenVMS System Manager's Manual, Setting Up and Maintaining Queues, on symbionts.
pub fn make_turn<'a, A: Ask, O: Sink, C: Clock, Y: Symbiont, G: Gate>(
    alloc: Global,
    asker: &mut A,
    node: u8,
    seat: &mut Seat<'a, Y>,
    next: &Next<'a>,
    station: &mut Station<C, Y>,
    gate: &mut G,
    sink: &mut O,
) -> Result<(), TurnEnd>
    requires asks { A.can_ask asker.old node }
    requires next { IsTurn (next_turn seat.old) (Some next.now) }
    requires can { CanBeMade seat.old.node.state next.now }
    requires told { seat.old.node.made ≡ None }
    requires few { seat.old.count < 2 ^ 32 }
    ensures made { OnOk result (Makes A.asks Y.meaning node next.now seat.old seat.new
        (outside_at C.told asker.old (O.taken sink.old) station.old)
        (outside_at C.told asker.new (O.taken sink.new) station.new)) }
    ensures ends { IfErr result (EndsIn A.asks Y.meaning node next.now seat.old
        (outside_at C.told asker.old (O.taken sink.old) station.old)
        (outside_at C.told asker.new (O.taken sink.new) station.new)) }
    ensures sink { TellsWrite (O.faults sink.old) (O.faults sink.new) result }
{
    if let Next::Step(_) = next {
        gate.at(Point::InStep);
    }
    let Ok(asked) = seat.call(next, station) else {
        return Err(TurnEnd::NoMemory);
    };
    let Asked { moment, call } = asked;
    let name = seat.name();
    let kind = kind_of_call(&call);
    gate.at(Point::BeforeTurn);
    let answer = asker.ask(node, moment, call);
    gate.at(Point::AfterTurn);
    // An answer that isn't taken in is let go by a call of `drop`: it is large.
    if let Some(end) = stop_of(&answer) {
        drop(answer);
        return Err(end);
    }
    match print_answer(alloc, sink, &name, &kind, &answer) {
        Ok(()) => {}
        Err(end) => {
            drop(answer);
            return Err(end);
        }
    }
    match seat.take_in(next, &kind, answer, &station.symbiont) {
        Ok(()) => Ok(()),
        Err(AllocError) => Err(TurnEnd::NoMemory),
    }
}
