// The nodes of a cluster at once.
ghost use Rattle.std.specs.Prelude.{◌≡◌, ◌≤◌, ◌∷◌, [], length};
ghost use Rattle.qm_kinds.specs.declared.limits.TheConstants.{NODES_LIMIT};

use crate::expected::{lines_of_all, names_of, push_leave, push_lines, push_turns, whys, whys_of};
use crate::nodes::{Doors, Meeting, MeetingDevice};
use crate::recorder::Recorder;
use qm_cluster::{Begins, LeftText, MadeTurns, make_turns, print_all};
use qm_disk::{Clock, MemorySink};
use qm_history::{Turn, Why};
use qm_kinds::{Moment, NODES_LIMIT, Name, Seq};
use qm_node::Station;
use qm_script::UserLine;
use qm_symb::{Device, MemoryDevice, Standard};
use std::alloc::Global;
use std::marker::{Brand, Send, Sync};
use std::sync::Wait;
use std::sync::atomic::AtomicUsize;
use std::test::Fail;
use std::thread::Threads;

// A clock that stands at the base of the system time. What it told isn't kept, not even for proofs, so that it may go to a thread.
#[derive(Drop)]
struct StillClock;

impl Clock for StillClock {
    ghost use Rattle.std.specs.Prelude.{None};

    ghost told = { λ clock. None };

    fn tell(&mut self) -> Moment {
        Moment::BASE
    }
}

// What a node has of its own, over this device.
fn station_of<D: Device>(alloc: Global, device: D) -> Station<StillClock, Standard<D>> {
    Station {
        clock: StillClock,
        symbiont: Standard::new(alloc, device),
    }
}

// What the turns of all nodes left: what was asked for, how each node's turns ended, and all that is printed.
#[derive(Drop)]
struct Left {
    recorder: Recorder,
    texts: Vec<LeftText>,
    printed: Vec<u8>,
}

// Lets the nodes of a new recorder make their turns for these lines.
fn make_from<'a, J: Begins<Recorder> + Send + Sync, R: Threads + Wait + Sync, D: Device + Send>(
    rt: &R,
    alloc: Global,
    recorder: Recorder,
    names: &[Name],
    lines: &'a [Vec<UserLine<'a>>],
    stations: &mut [Station<StillClock, Standard<D>>],
) -> Option<Left>
    requires began { J.began ≡ recorder ∷ [] }
    requires none { recorder.asked.items ≡ [] }
    requires names { names.now ≡ recorder.names.items }
    requires some { 1 ≤ length names.now }
    requires few { length names.now ≤ NODES_LIMIT }
    requires lines { length lines.now ≡ length names.now }
    requires stations { length stations.old ≡ length names.now }
{
    let made = make_turns::<R, Recorder, J, StillClock, Standard<D>>(
        rt, alloc, recorder, names, lines, stations,
    );
    let Ok(MadeTurns { manager, texts }) = made else {
        return None;
    };
    let mut sink = MemorySink::new(alloc, Vec::new(alloc));
    print_all(&mut sink, names, &texts, &manager.asked).ok()?;
    let printed = sink.held().to_vec(alloc).ok()?;
    Some(Left {
        recorder: manager,
        texts,
        printed,
    })
}

// Lets nodes of these names make their turns for these lines.
fn make_all<'a, R: Threads + Wait + Sync, D: Device + Send>(
    rt: &R,
    alloc: Global,
    jobs: bool,
    names: Vec<Name>,
    lines: Vec<Vec<UserLine<'a>>>,
    stations: &mut [Station<StillClock, Standard<D>>],
) -> Option<Left> {
    let count = names.len();
    if count == 0 || count > NODES_LIMIT || lines.len() != count || stations.len() != count {
        return None;
    }
    let recorder = Recorder::new(alloc, names.to_vec(alloc).ok()?, jobs);
    make_from::<Brand, R, D>(rt, alloc, recorder, &names, &lines, stations)
}

// What nodes left of which each has so many lines, and no jobs.
fn make_lines<R: Threads + Wait + Sync>(rt: &R, alloc: Global, counts: &[u32]) -> Option<Left> {
    let names = names_of(alloc, counts.len())?;
    let text = b"TICK".to_vec(alloc).ok()?;
    let lines = lines_of_all(alloc, &text, counts)?;
    let mut stations = Vec::new(alloc);
    for _ in counts {
        let station = station_of(alloc, MemoryDevice::new(alloc, Vec::new(alloc)));
        stations.push(station).ok()?;
    }
    make_all(rt, alloc, false, names, lines, &mut stations)
}

// Whether each of the nodes makes the turns of its lines in their order, then fetches and leaves, and all is printed of that.
fn all_are_served<R: Threads + Wait + Sync>(rt: &R, alloc: Global, counts: &[u32]) -> Option<bool> {
    let names = names_of(alloc, counts.len())?;
    let left = make_lines(rt, alloc, counts)?;
    let mut wanted = Vec::new(alloc);
    let mut holds = left.texts.len() == counts.len();
    for (node, count) in counts.iter().enumerate() {
        let own = whys(alloc, *count, &[Why::Fetch, Why::Leave]).ok()?;
        holds = holds && whys_of(alloc, &left.recorder.asked, node).ok()? == own;
        holds = holds && left.texts.get(node)?.end == Ok(());
        let name = names.get(node)?;
        push_lines(&mut wanted, name, *count)?;
        push_leave(&mut wanted, name)?;
    }
    push_turns(&mut wanted, &names, &left.recorder.asked)?;
    Some(holds && left.printed == wanted)
}

// Whether two nodes with a job each met within a step of it, and whether both did their jobs.
fn meeting_nodes<R: Threads + Wait + Sync>(rt: &R, alloc: Global) -> Option<(bool, bool)> {
    let doors = Doors {
        first: AtomicUsize::new(0),
        second: AtomicUsize::new(0),
    };
    let doors = &doors;
    let names = names_of(alloc, 2)?;
    let lines = lines_of_all(alloc, b"", &[0, 0])?;
    let mut stations = Vec::new(alloc);
    for is_first in [true, false] {
        let meeting = Meeting::new(doors, is_first);
        let station = station_of(alloc, MeetingDevice { meeting });
        stations.push(station).ok()?;
    }
    let left = make_all(rt, alloc, true, names, lines, &mut stations)?;
    let mut met = true;
    let mut done = true;
    for (node, station) in stations.iter().enumerate() {
        let order = whys(alloc, 0, &[Why::Fetch, Why::Report, Why::Fetch, Why::Leave]).ok()?;
        met = met && station.symbiont.device().meeting.met;
        done = done && whys_of(alloc, &left.recorder.asked, node).ok()? == order;
    }
    Some((met, done))
}

// Turns of two nodes, the one and the other.
fn turns_of(alloc: Global, count: u32) -> Option<Vec<Turn>> {
    let mut turns = Vec::new(alloc);
    for number in 0..count {
        let turn = Turn {
            node: (number % 2) as u8,
            why: Why::Line(number),
            moment: Moment::BASE,
            events: Seq::new(alloc),
        };
        turns.push(turn).ok()?;
    }
    Some(turns)
}

// Whether so many turns are told by fewer calls than a sink bears that fails at this one.
fn are_told_before(alloc: Global, turns: u32, call: u64) -> Option<bool> {
    let names = names_of(alloc, 2)?;
    let turns = turns_of(alloc, turns)?;
    let mut wanted = Vec::new(alloc);
    push_turns(&mut wanted, &names, &turns)?;
    let mut sink = MemorySink::new(alloc, vec![in alloc; call].ok()?);
    print_all(&mut sink, &names, &[], &turns).ok()?;
    Some(sink.held() == wanted.as_slice())
}

#[test]
fn nodes_serve_their_lines_in_order_whatever_the_others_do(rt: HostRuntime) -> Result<(), Fail> {
    for counts in [&[3u32][..], &[0, 4], &[2, 0, 3], &[0, 0, 0, 0, 0, 9, 0, 0]] {
        assert_eq!(rt;
            all_are_served(&rt, rt.alloc(), counts),
            Some(true),
            "of {counts:?}"
        );
    }
    Ok(())
}

#[test]
fn nodes_of_a_cluster_make_their_steps_at_once(rt: HostRuntime) -> Result<(), Fail> {
    assert_eq!(rt; meeting_nodes(&rt, rt.alloc()), Some((true, true)));
    Ok(())
}

#[test]
fn many_turns_are_told_by_one_write(rt: HostRuntime) -> Result<(), Fail> {
    assert_eq!(rt; are_told_before(rt.alloc(), 1000, 13), Some(true));
    Ok(())
}
