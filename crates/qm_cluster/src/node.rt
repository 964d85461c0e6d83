// The turns of one node, one behind another, where one thread serves all.
ghost use Rattle.std.specs.Prelude.{[], Some, IfErr, OnOk, IsTrue};
ghost use Rattle.qm_node.specs.Ends.{IsUndamaged, TellsWrite};
ghost use Rattle.qm_node.specs.Node.{CanBeMade, IsTurn};
ghost use Rattle.qm_node.specs.Outside.{outside_at};
ghost use Rattle.qm_node.specs.Seats.{next_turn};
ghost use Rattle.qm_cluster.specs.Nodes.{CanGoOn};
ghost use Rattle.qm_cluster.specs.Parts.{CanFollow, RunsOut, ServesPart, StopsPart, StopsWorking};
ghost use Rattle.qm_cluster.specs.Runs.{IsReading};

use crate::directly::Directly;
use crate::part::Part;
use qm_disk::{Clock, Sink};
use qm_history::Serve;
use qm_node::{Next, OpenGate, Seat, Station, TurnEnd, make_turn};
use qm_symb::Symbiont;
use std::alloc::Global;

/// Makes the turn that comes next in a node, and those of a part that come next behind it, until none does: behind that of a line
/// the steps, and where no line is left all that the node makes of itself.
pub(crate) fn serve_part<'a, S: Serve, O: Sink, C: Clock, Y: Symbiont>(
    alloc: Global,
    manager: &mut Directly<S>,
    node: u8,
    part: Part,
    first: &Next<'a>,
    seat: &mut Seat<'a, Y>,
    station: &mut Station<C, Y>,
    sink: &mut O,
) -> Result<(), TurnEnd>
    requires can { CanGoOn S.meaning node manager.old seat.old }
    requires next { IsTurn (next_turn seat.old) (Some first.now) }
    requires made { CanBeMade seat.old.node.state first.now }
    requires follows { CanFollow part seat.old }
    ensures serves { OnOk result (ServesPart S.meaning Y.meaning node part first.now seat.old seat.new
        (outside_at C.told manager.old (O.taken sink.old) station.old)
        (outside_at C.told manager.new (O.taken sink.new) station.new)) }
    ensures stops { IfErr result (StopsPart S.meaning Y.meaning node part first.now seat.old
        (outside_at C.told manager.old (O.taken sink.old) station.old)
        (outside_at C.told manager.new (O.taken sink.new) station.new)) }
    ensures sink { TellsWrite (O.faults sink.old) (O.faults sink.new) result }
    ensures undamaged { IsTrue S.meaning.tells → IfErr result IsUndamaged }
{
    match make_turn(
        alloc,
        manager,
        node,
        seat,
        first,
        station,
        &mut OpenGate,
        sink,
    ) {
        Ok(()) => {}
        Err(end) => return Err(end),
    }
    'turns: while let Some(next) = part.next(seat) {
        match make_turn(
            alloc,
            manager,
            node,
            seat,
            &next,
            station,
            &mut OpenGate,
            sink,
        ) {
            Ok(()) => {}
            Err(end) => return Err(end),
        }
    }
    Ok(())
}

/// Lets a node work on for itself that has no line left and no step behind its last one: it fetches its runs, carries them out,
/// and leaves. A node that isn't live does nothing.
pub(crate) fn work_on<S: Serve, O: Sink, C: Clock, Y: Symbiont>(
    alloc: Global,
    manager: &mut Directly<S>,
    node: u8,
    seat: &mut Seat<'_, Y>,
    station: &mut Station<C, Y>,
    sink: &mut O,
) -> Result<(), TurnEnd>
    requires can { CanGoOn S.meaning node manager.old seat.old }
    requires reading { IsReading [] seat.old }
    ensures runs { OnOk result (RunsOut S.meaning Y.meaning node seat.old seat.new
        (outside_at C.told manager.old (O.taken sink.old) station.old)
        (outside_at C.told manager.new (O.taken sink.new) station.new)) }
    ensures stops { IfErr result (StopsWorking S.meaning Y.meaning node seat.old
        (outside_at C.told manager.old (O.taken sink.old) station.old)
        (outside_at C.told manager.new (O.taken sink.new) station.new)) }
    ensures sink { TellsWrite (O.faults sink.old) (O.faults sink.new) result }
    ensures undamaged { IsTrue S.meaning.tells → IfErr result IsUndamaged }
{
    match seat.next() {
        Some(next) => serve_part(alloc, manager, node, Part::Own, &next, seat, station, sink),
        None => Ok(()),
    }
}
