// A node's whole course, by its own thread.
ghost use Rattle.std.specs.Prelude.{◌≡◌, ◌≤◌, [], IfErr, IsTrue};
ghost use Rattle.qm_history.specs.declared.world.World.{World};
ghost use Rattle.qm_history.specs.Chest.{turns_kept};
ghost use Rattle.qm_node.specs.Ends.{IsUndamaged};
ghost use Rattle.qm_script.specs.ClusterLines.{user_lines_view};
ghost use Rattle.qm_cluster.specs.Driving.{HasDriven, IsDriven, node_end};
ghost use Rattle.qm_cluster.specs.Passes.{AreOwn, turns_in};
ghost use Rattle.qm_cluster.specs.Sharing.{IsThere, MayBegin, NodeBeginsLive};

use crate::begins::Begins;
use crate::shared::Shared;
use crate::waiting::Waiting;
use qm_disk::{Clock, MemorySink};
use qm_history::{Serve, worlds_stay_sound};
use qm_kinds::Name;
use qm_node::{Gate, Seat, Station, TurnEnd, make_turn};
use qm_script::UserLine;
use qm_symb::Symbiont;
use qm_turn::{PassOf, Turnstile};
use std::alloc::Global;
use std::sync::Wait;

// The most calls of a node: each but the last leaves a turn that is kept, and at most 1,000,000 turns are.
const MOST_CALLS: u32 = 1_000_001;

/// Makes the turns of a node, each when the turnstile comes to it: its lines in their order, the steps of its runs behind a STEP
/// line, then fetches and steps of its own, and at last its leave. The text of its answers is appended, to a sink that fails for want
/// of memory alone. The node comes by its gate just before and just behind each turn, and just before each step.
///
/// It ends with the node's course, or before that where an answer tells that no more turns can be kept, that a file is damaged
/// or that memory is short, or where memory is short for what the node keeps or prints. Whether the turns of other nodes that its
/// pass has seen are made by their own passes alone is known once all passes are joined; only then is it known that this is the
/// node's course, in each world in which the manager may have begun.
///
/// OpenVMS System Manager's Manual, Setting Up and Maintaining Queues, on symbionts.
pub fn drive<'a, S: Serve, J: Begins<S>, R: Wait, C: Clock, Y: Symbiont, G: Gate>(
    rt: &R,
    alloc: Global,
    turnstile: &Turnstile<Shared<S, J>>,
    pass: &mut PassOf<Shared<S, J>>,
    node: u8,
    name: &Name,
    lines: &'a [UserLine<'a>],
    station: &mut Station<C, Y>,
    gate: &mut G,
    text: &mut MemorySink,
) -> Result<(), TurnEnd>
    requires here { pass.old.place ≡ turnstile.now.place }
    requires number { pass.old.number ≡ node }
    requires new { (pass.old.seen ≡ []) × (pass.old.mine ≡ []) }
    requires there { IsThere S.meaning J.began node }
    requires sound { NodeBeginsLive S.meaning J.began node }

    ensures knows { HasDriven turns_kept node (node_end result) pass.old pass.new
        (C.told station.old.clock) (C.told station.new.clock) }
    ensures drives { IsTrue S.meaning.tells → (w : World) → MayBegin S.meaning J.began w
        → AreOwn node pass.new.seen
        → IsDriven Y.meaning w node name.now (user_lines_view lines.now) (node_end result)
        (turns_in pass.new.seen) station.old.symbiont station.new.symbiont text.old.taken text.new.taken }
    ensures undamaged { IsTrue S.meaning.tells → IfErr result IsUndamaged }
{
    worlds_stay_sound();
    let mut seat = Seat::new(alloc, *name, lines);
    let mut waiting = Waiting {
        rt,
        turnstile,
        pass,
    };
    for _call in 0..MOST_CALLS {
        let Some(next) = seat.next() else {
            return Ok(());
        };
        let made = make_turn(
            alloc,
            &mut waiting,
            node,
            &mut seat,
            &next,
            station,
            gate,
            text,
        );
        match made {
            Ok(()) => {}
            Err(end) => return Err(end),
        }
    }
    unreachable!()
}
