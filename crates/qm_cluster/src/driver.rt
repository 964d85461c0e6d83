// The nodes at their turns, each by a thread of its own.
ghost use Rattle.std.specs.Prelude.{◌≡◌, ◌<◌, ◌≤◌, ℕ, length};
ghost use Rattle.qm_kinds.specs.declared.limits.TheConstants.{NODES_LIMIT};
ghost use Rattle.qm_cluster.specs.Fresh.{own_view};
ghost use Rattle.qm_node.specs.Sides.{sides_of};
ghost use Rattle.qm_cluster.specs.Sharing.{IsThere, NodesBeginLive};
ghost use Rattle.qm_cluster.specs.Through.{AllHaveDriven, AreNew, all_at};

use crate::begins::Begins;
use crate::node_course::drive;
use crate::place::TurnstileSeat;
use crate::shared::Shared;
use qm_disk::Clock;
use qm_history::Serve;
use qm_kinds::Name;
use qm_node::{OpenGate, Station};
use qm_script::UserLine;
use qm_symb::Symbiont;
use qm_turn::{Turnstile, Work, work_on_each};
use std::alloc::Global;
use std::marker::{Send, Sync};
use std::sync::Wait;
use std::thread::Threads;

/// What the nodes share: the turnstile, their names, and the lines of each.
#[derive(Drop)]
struct Driver<'a, R, S: Serve, J: Begins<S>> {
    rt: &'a R,
    alloc: Global,
    turnstile: &'a Turnstile<Shared<S, J>>,
    names: &'a [Name],
    lines: &'a [Vec<UserLine<'a>>],
}

impl<
    'a,
    R: Wait + Sync,
    S: Serve + Send,
    J: Begins<S> + Send + Sync,
    C: Clock + Send,
    Y: Symbiont + Send,
> Work<TurnstileSeat<S, J>, Station<C, Y>> for Driver<'a, R, S, J>
where
    Y::Cursor: Send,
{
    ghost use Rattle.std.specs.Prelude.{◌≡◌, [], length, ℕ, List, slice_get, Some};
    ghost use Rattle.qm_history.specs.Chest.{turns_kept};
    ghost use Rattle.qm_history.specs.Script.{UserLine as AnyLine};
    ghost use Rattle.qm_cluster.specs.Fresh.{own_view};
    ghost use Rattle.qm_node.specs.Sides.{side_of};
    ghost use Rattle.qm_cluster.specs.Sharing.{MayBegin};
    ghost use Rattle.qm_turn.specs.Turns.{fresh};
    ghost use Rattle.qm_cluster.specs.Through.{CanBeDriven, IsThrough, is_at};

    ghost can_work = { λ driver node seat station.
        CanBeDriven S.meaning J.began (length driver.names.now) (length driver.lines.now) node
        × (seat.pass ≡ fresh driver.turnstile.now.place node) × (seat.text.taken ≡ []) };

    ghost works = { λ driver node seat station seat' station'.
        (name : List ℕ) (own : List AnyLine) → slice_get driver.names.now node ≡ Some name → slice_get (own_view driver.lines.now) node ≡ Some own
        → IsThrough Y.meaning S.meaning.tells (MayBegin S.meaning J.began) turns_kept node name own (is_at seat) (is_at seat') (side_of C.told station) (side_of C.told station') };

    fn work(&self, node: usize, seat: &mut TurnstileSeat<S, J>, station: &mut Station<C, Y>) {
        seat.end = drive(
            self.rt,
            self.alloc,
            self.turnstile,
            &mut seat.pass,
            node as u8,
            &self.names[node],
            &self.lines[node],
            station,
            &mut OpenGate,
            &mut seat.text,
        );
    }
}

/// Lets each node make its turns, by a thread of its own where one can be made. The node of each place has the lines, the seat and
/// the station of that place.
pub(crate) fn drive_all<
    'a,
    R: Threads + Wait + Sync,
    S: Serve + Send,
    J: Begins<S> + Send + Sync,
    C: Clock + Send,
    Y: Symbiont + Send,
>(
    rt: &'a R,
    alloc: Global,
    turnstile: &'a Turnstile<Shared<S, J>>,
    names: &'a [Name],
    lines: &'a [Vec<UserLine<'a>>],
    seats: &mut [TurnstileSeat<S, J>],
    stations: &mut [Station<C, Y>],
)
where
    Y::Cursor: Send,
    requires few { length names.now ≤ NODES_LIMIT }
    requires lines { length lines.now ≡ length names.now }
    requires seats { length seats.old ≡ length names.now }
    requires stations { length stations.old ≡ length names.now }
    requires new { AreNew turnstile.now.place seats.old }
    requires there { (node : ℕ) → node < length names.now → IsThere S.meaning J.began node }
    requires sound { NodesBeginLive S.meaning J.began (length names.now) }
    ensures { AllHaveDriven Y.meaning S.meaning J.began turnstile.now.place names.now (own_view lines.now)
        (all_at seats.new) (sides_of C.told stations.old) (sides_of C.told stations.new) }
{
    let driver = Driver {
        rt,
        alloc,
        turnstile,
        names,
        lines,
    };
    work_on_each(rt, &driver, 0, seats, stations);
}
