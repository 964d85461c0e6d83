// The cases.
ghost use Rattle.std.specs.Prelude.{◌≡◌, ◌<◌, ◌∷◌, [], length, IfOk, IfSome};
ghost use Rattle.std.specs.List.{AllByRecursion};
ghost use Rattle.qm_turn.specs.Turns.{fresh};

use crate::expected::{lines_of, names_of};
use crate::nodes::{Doors, Driven, Meeting, drive_node};
use crate::recorder::Recorder;
use qm_cluster::{Begins, Shared};
use qm_history::{Answer, Call, Serve, Turn, Why};
use qm_kinds::Moment;
use qm_node::{OpenGate, TurnEnd};
use qm_script::UserLine;
use qm_turn::{PassOf, Task, Turnstile};
use std::alloc::{AllocError, Global};
use std::marker::{Brand, Model, PhantomData, Send, Sync};
use std::sync::Wait;
use std::sync::atomic::AtomicUsize;
use std::test::Fail;
use std::thread::{Threads, join};

// A new recorder, for so many nodes.
fn recorder_for(alloc: Global, nodes: usize, jobs: bool) -> Option<Recorder>
    ensures asked { IfSome result (λ recorder. recorder.asked.items ≡ []) }
    ensures names { IfSome result (λ recorder. length recorder.names.items ≡ nodes) }
{
    let names = names_of(alloc, nodes)?;
    if names.len() != nodes {
        return None;
    }
    Some(Recorder::new(alloc, names, jobs))
}

// Whether a node fetched its job, told of a step of it, fetched again, and left, in this order.
fn did_its_job(asked: &[Turn], node: u8) -> bool {
    let order = [Why::Fetch, Why::Report, Why::Fetch, Why::Leave];
    let mut at = 0;
    for turn in asked {
        if turn.node == node {
            if at == 4 || turn.why != order[at] {
                return false;
            }
            at += 1;
        }
    }
    at == 4
}

// What two nodes left: whether they met, whether both did their jobs, and how many calls there were.
fn what_is_left<J: Begins<Recorder>>(
    turnstile: Turnstile<Shared<Recorder, J>>,
    first: Result<Driven<J, Meeting<'_>>, AllocError>,
    second: Result<Driven<J, Meeting<'_>>, AllocError>,
) -> Option<(bool, bool, u32)>
    requires passes { turnstile.passes ≡ 2 }
    requires first { IfOk first (λ d. (d.pass.place ≡ turnstile.place) × (d.pass.number ≡ 0) × (d.pass.took ≡ [])) }
    requires second { IfOk second (λ d. (d.pass.place ≡ turnstile.place) × (d.pass.number ≡ 1) × (d.pass.took ≡ [])) }
{
    let Ok(
        Driven {
            mut pass,
            gate,
            end,
        },
    ) = first
    else {
        return None;
    };
    let Ok(other) = second else {
        return None;
    };
    let met = gate.met && other.gate.met && end == Ok(()) && other.end == Ok(());
    turnstile.join(&mut pass, other.pass);
    let recorder = turnstile.close(pass).manager;
    let done = did_its_job(&recorder.asked, 0) && did_its_job(&recorder.asked, 1);
    Some((met, done, recorder.calls))
}

// Lets two nodes make their turns, each by a thread of its own, which wait for each other within a step.
fn drive_both<'a, J: Begins<Recorder> + Send + Sync, R: Threads + Wait + Sync>(
    rt: &R,
    alloc: Global,
    turnstile: &Turnstile<Shared<Recorder, J>>,
    first: PassOf<Shared<Recorder, J>>,
    second: PassOf<Shared<Recorder, J>>,
    doors: &'a Doors,
) -> (
    Result<Driven<J, Meeting<'a>>, AllocError>,
    Result<Driven<J, Meeting<'a>>, AllocError>,
)
    requires first { first ≡ fresh turnstile.now.place 0 }
    requires second { second ≡ fresh turnstile.now.place 1 }
    requires first_there { AllByRecursion (λ recorder. 0 < length recorder.names.items) J.began }
    requires second_there { AllByRecursion (λ recorder. 1 < length recorder.names.items) J.began }
    ensures first { IfOk result.0 (λ d. (d.pass.place ≡ turnstile.now.place) × (d.pass.number ≡ 0) × (d.pass.took ≡ [])) }
    ensures second { IfOk result.1 (λ d. (d.pass.place ≡ turnstile.now.place) × (d.pass.number ≡ 1) × (d.pass.took ≡ [])) }
{
    join(
        rt,
        move || -> Result<Driven<J, Meeting<'_>>, AllocError>
            requires new { first ≡ fresh turnstile.now.place 0 }
            requires there { AllByRecursion (λ recorder. 0 < length recorder.names.items) J.began }
            ensures { IfOk result (λ d. (d.pass.place ≡ turnstile.entry.now.place) × (d.pass.number ≡ 0) × (d.pass.took ≡ [])) }
        {
            drive_node(
                rt,
                alloc,
                turnstile,
                first,
                0,
                &[],
                Meeting::new(doors, true),
            )
        },
        move || -> Result<Driven<J, Meeting<'_>>, AllocError>
            requires new { second ≡ fresh turnstile.now.place 1 }
            requires there { AllByRecursion (λ recorder. 1 < length recorder.names.items) J.began }
            ensures { IfOk result (λ d. (d.pass.place ≡ turnstile.entry.now.place) × (d.pass.number ≡ 1) × (d.pass.took ≡ [])) }
        {
            drive_node(
                rt,
                alloc,
                turnstile,
                second,
                1,
                &[],
                Meeting::new(doors, false),
            )
        },
    )
}

// Lets the two nodes of a new recorder meet.
fn meet<J: Begins<Recorder> + Send + Sync, R: Threads + Wait + Sync>(
    rt: &R,
    alloc: Global,
    recorder: Recorder,
) -> Option<(bool, bool, u32)>
    requires began { J.began ≡ recorder ∷ [] }
    requires none { recorder.asked.items ≡ [] }
    requires names { length recorder.names.items ≡ 2 }
{
    let shared: Shared<Recorder, J> = Shared {
        manager: recorder,
        began: PhantomData,
    };
    let Ok((turnstile, mut list)) = Turnstile::open(alloc, shared, 2) else {
        return None;
    };
    let second = list.pop()?;
    let first = list.pop()?;
    let doors = Doors {
        first: AtomicUsize::new(0),
        second: AtomicUsize::new(0),
    };
    let (first, second) = drive_both(rt, alloc, &turnstile, first, second, &doors);
    what_is_left(turnstile, first, second)
}

// Two nodes with a job each, which wait for each other within a step.
fn two_nodes<R: Threads + Wait + Sync>(rt: &R, alloc: Global) -> Option<(bool, bool, u32)> {
    let recorder = recorder_for(alloc, 2, true)?;
    meet::<Brand, R>(rt, alloc, recorder)
}

// A turn of the second node, which only leaves: no line is read, and nothing printed.
#[derive(Drop)]
struct Leaving<J: Begins<Recorder>> {
    began: PhantomData<J>,
}

impl<J: Begins<Recorder>> Model for Leaving<J> {
    ghost use Rattle.std.specs.Prelude.{◌<◌, length};
    ghost use Rattle.std.specs.List.{AllByRecursion};

    ghost Value = { Unit {0} };

    ghost view = { λ leaving. tt };

    ghost invariant = { λ leaving. AllByRecursion (λ recorder. 1 < length recorder.names.items) J.began };
}

impl<J: Begins<Recorder>> Task<Shared<Recorder, J>> for Leaving<J> {
    ghost use Rattle.qm_history.specs.declared.call.Call.TheVariants as call;
    ghost use Rattle.qm_cluster.specs.Sharing.{note_of};

    type Answer = Answer;

    ghost note = { λ task before after answer. note_of call.Leave before.manager.asked.items after.manager.asked.items answer };

    ghost does = { λ task before after answer. Unit {0} };

    fn work(self, shared: &mut Shared<Recorder, J>) -> Answer {
        let Leaving { began: _ } = self;
        shared.manager.serve(1, Moment::BASE, Call::Leave)
    }
}

// Makes so many turns of the second node.
fn leave_often<J: Begins<Recorder>, R: Wait>(
    rt: &R,
    turnstile: &Turnstile<Shared<Recorder, J>>,
    mut pass: PassOf<Shared<Recorder, J>>,
    turns: u32,
) -> PassOf<Shared<Recorder, J>>
    requires here { pass.place ≡ turnstile.now.place }
    requires there { AllByRecursion (λ recorder. 1 < length recorder.names.items) J.began }
    ensures { (result.place ≡ pass.place) × (result.number ≡ pass.number) }
{
    for _turn in 0..turns {
        let leaving: Leaving<J> = Leaving { began: PhantomData };
        let _told = turnstile.turn(rt, &mut pass, leaving);
    }
    pass
}

// Lets the first node of a new recorder make its turns for these lines, behind so many turns of the second one.
fn drive_behind<'a, J: Begins<Recorder>, R: Wait>(
    rt: &R,
    alloc: Global,
    recorder: Recorder,
    turns: u32,
    lines: &'a [UserLine<'a>],
) -> Option<(Result<(), TurnEnd>, u32, usize)>
    requires began { J.began ≡ recorder ∷ [] }
    requires none { recorder.asked.items ≡ [] }
    requires names { length recorder.names.items ≡ 2 }
{
    let shared: Shared<Recorder, J> = Shared {
        manager: recorder,
        began: PhantomData,
    };
    let Ok((turnstile, mut list)) = Turnstile::open(alloc, shared, 2) else {
        return None;
    };
    let second = list.pop()?;
    let first = list.pop()?;
    let second = leave_often(rt, &turnstile, second, turns);
    let Driven {
        mut pass,
        end,
        gate: _,
    } = drive_node(rt, alloc, &turnstile, first, 0, lines, OpenGate).ok()?;
    turnstile.join(&mut pass, second);
    let recorder = turnstile.close(pass).manager;
    Some((end, recorder.calls, recorder.asked.len()))
}

// A node with these lines, behind so many turns of another: how its turns ended, how many calls there were, and how many turns.
fn one_node<'a, R: Wait>(
    rt: &R,
    alloc: Global,
    turns: u32,
    lines: &'a [UserLine<'a>],
) -> Option<(Result<(), TurnEnd>, u32, usize)> {
    let recorder = recorder_for(alloc, 2, false)?;
    drive_behind::<Brand, R>(rt, alloc, recorder, turns, lines)
}

#[test]
fn nodes_make_their_steps_at_once(rt: HostRuntime) -> Result<(), Fail> {
    assert_eq!(rt; two_nodes(&rt, rt.alloc()), Some((true, true, 8)));
    Ok(())
}

// A node with 60 lines, where 49 turns more are kept.
fn long_node<R: Wait>(rt: &R, alloc: Global) -> Option<(Result<(), TurnEnd>, u32, usize)> {
    let text = b"TICK".to_vec(alloc).ok()?;
    let lines = lines_of(alloc, &text, 60).ok()?;
    one_node(rt, alloc, 999_951, &lines)
}

#[test]
fn a_history_is_full_at_the_first_call_too_many(rt: HostRuntime) -> Result<(), Fail> {
    let left = long_node(&rt, rt.alloc());
    assert_eq!(rt;
        left,
        Some((Err(TurnEnd::HistoryFull), 1_000_001, 1_000_000))
    );
    Ok(())
}

#[test]
fn a_node_without_lines_fetches_and_leaves(rt: HostRuntime) -> Result<(), Fail> {
    assert_eq!(rt; one_node(&rt, rt.alloc(), 0, &[]), Some((Ok(()), 2, 2)));
    Ok(())
}
