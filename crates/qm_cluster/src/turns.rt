// The turns of all nodes, from a queue manager that has served none to what is left.
ghost use Rattle.std.specs.Prelude.{◌≡◌, ◌∷◌, ◌<◌, ◌≤◌, [], ℕ, length, map, IfErr, IfOk, vec_capacity};
ghost use Rattle.qm_cluster.specs.Fresh.{own_view};
ghost use Rattle.qm_node.specs.Sides.{sides_of};
ghost use Rattle.qm_cluster.specs.Sharing.{IsThere, NodesBeginLive};
ghost use Rattle.qm_cluster.specs.Gathered.{all_left};
ghost use Rattle.qm_cluster.specs.AllTurns.{HaveTurned};
ghost use Rattle.qm_cluster.specs.Through.{AreFew, all_at, first_at};
ghost use Rattle.qm_turn.specs.Turns.{all_fresh};

use crate::begins::Begins;
use crate::driver::drive_all;
use crate::join::{LeftText, join_all};
use crate::place::{TurnstileSeat, seats_of};
use crate::shared::Shared;
use qm_disk::Clock;
use qm_history::Serve;
use qm_kinds::Name;
use qm_node::Station;
use qm_script::UserLine;
use qm_symb::Symbiont;
use qm_turn::Turnstile;
use std::alloc::Global;
use std::marker::{PhantomData, Send, Sync};
use std::sync::Wait;
use std::thread::Threads;

/// What the turns of all nodes left: the queue manager, and how each node's turns ended and what it printed, in their order.
#[derive(Drop)]
pub struct MadeTurns<S> {
    pub manager: S,
    pub texts: Vec<LeftText>,
}

/// Lets the nodes of a cluster make their turns, each by a thread of its own where one can be made, and else one behind another. The
/// node of each place has the name, the lines and the station of that place.
///
/// All memory of its own is taken first: where there is none, the queue manager comes back as it was. A node's own want of memory ends
/// that node's turns alone.
pub fn make_turns<
    'a,
    R: Threads + Wait + Sync,
    S: Serve + Drop + Send,
    J: Begins<S> + Send + Sync,
    C: Clock + Send,
    Y: Symbiont + Send,
>(
    rt: &'a R,
    alloc: Global,
    manager: S,
    names: &'a [Name],
    lines: &'a [Vec<UserLine<'a>>],
    stations: &mut [Station<C, Y>],
) -> Result<MadeTurns<S>, S>
where
    Y::Cursor: Send,
    requires few { AreFew (length names.now) }
    requires lines { length lines.now ≡ length names.now }
    requires stations { length stations.old ≡ length names.now }
    requires began { J.began ≡ manager ∷ [] }
    requires serves { S.meaning.serves manager }
    requires new { S.meaning.turns manager ≡ [] }
    requires nodes { length names.now ≡ length (S.meaning.nodes manager) }
    requires sound { NodesBeginLive S.meaning J.began (length names.now) }
    ensures made { IfOk result (λ made.
        HaveTurned Y.meaning S.meaning J.began names.now (own_view lines.now) made.manager
        (all_left made.texts.items) (sides_of C.told stations.old) (sides_of C.told stations.new)) }
    ensures none { IfErr result (λ back. (back ≡ manager) × (stations.new ≡ stations.old)) }
{
    let Ok(seats) = Vec::with_capacity(alloc, names.len()) else {
        return Err(manager);
    };
    let Ok(texts) = Vec::with_capacity(alloc, names.len()) else {
        return Err(manager);
    };
    let shared: Shared<S, J> = Shared {
        manager,
        began: PhantomData,
    };
    match Turnstile::open(alloc, shared, names.len() as u32) {
        Ok((turnstile, passes)) => {
            let seats = seats_of(alloc, passes, seats);
            Ok(end_turns(rt, alloc, turnstile, seats, texts, names, lines, stations))
        }
        Err(shared) => Err(shared.manager),
    }
}

// Lets the nodes that sit at a turnstile make their turns, and closes it. There is room for their texts.
fn end_turns<
    'a,
    R: Threads + Wait + Sync,
    S: Serve + Drop + Send,
    J: Begins<S> + Send + Sync,
    C: Clock + Send,
    Y: Symbiont + Send,
>(
    rt: &'a R,
    alloc: Global,
    turnstile: Turnstile<Shared<S, J>>,
    mut seats: Vec<TurnstileSeat<S, J>>,
    texts: Vec<LeftText>,
    names: &'a [Name],
    lines: &'a [Vec<UserLine<'a>>],
    stations: &mut [Station<C, Y>],
) -> MadeTurns<S>
where
    Y::Cursor: Send,
    requires few { AreFew (length names.now) }
    requires lines { length lines.now ≡ length names.now }
    requires stations { length stations.old ≡ length names.now }
    requires passes { turnstile.passes ≡ length names.now }
    requires seats { all_at seats.items ≡ map first_at (all_fresh turnstile.place (length names.now)) }
    requires none { texts.items ≡ [] }
    requires room { length names.now ≤ vec_capacity texts }
    requires there { (node : ℕ) → node < length names.now → IsThere S.meaning J.began node }
    requires sound { NodesBeginLive S.meaning J.began (length names.now) }
    ensures { HaveTurned Y.meaning S.meaning J.began names.now (own_view lines.now) result.manager
        (all_left result.texts.items) (sides_of C.told stations.old) (sides_of C.told stations.new) }
{
    drive_all(rt, alloc, &turnstile, names, lines, &mut seats, stations);
    let (shared, texts) = join_all(turnstile, seats, texts);
    MadeTurns {
        manager: shared.manager,
        texts,
    }
}
