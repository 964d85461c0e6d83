// The way along events, one behind the other.
ghost use Rattle.std.specs.Prelude.{IfErr, IfOk, OnOk};
ghost use Rattle.qm_history.specs.World.{IsSound};
ghost use Rattle.qm_world.specs.Walking.{IsAt, IsEndOf, LeadTo, StepsOrStops};

use crate::end::{Stop, WalkEnd};
use crate::walker::Walker;
use qm_history::{Event, World, worlds_stay_sound};
use std::alloc::{AllocError, Global};

// Goes along one event.
fn step(walker: &mut Walker, event: &Event) -> Result<(), Stop>
    requires { IsAt walker.old }
    ensures { StepsOrStops walker.old event.now walker.new result }
{
    match event {
        Event::Done {
            node,
            moment,
            request,
            reply,
        } => walker.done(*node, *moment, request.get(), reply),
        Event::Doubt {
            node,
            moment,
            request,
        } => walker.doubted(*node, *moment, request.get()),
        Event::Took {
            node,
            moment,
            epoch,
            gone,
            up,
            may,
            kept,
        } => walker.took(*node, *moment, *epoch, gone, up, may, *kept),
        Event::TakeDoubt { node, tried, kept } => walker.take_doubted(*node, *tried, *kept),
        Event::Fenced {
            node,
            held,
            current,
        } => walker.fenced(*node, *held, *current),
        Event::Stopped { node } => walker.stopped(*node),
        Event::Left { node } => walker.left(*node),
        Event::Started { node } => walker.started(*node),
        Event::Compacted { node, epoch, file } => walker.compacted(*node, *epoch, *file),
        Event::CompactDoubt { node } => walker.compact_doubted(*node),
        Event::Refused { .. }
        | Event::Shown { .. }
        | Event::Full { .. }
        | Event::NoManager { .. } => Ok(()),
    }
}

// Goes along events, one behind the other.
fn go_along(walker: &mut Walker, steps: &[Event]) -> Result<(), WalkEnd>
    requires { IsAt walker.old }
    ensures at { OnOk result (IsAt walker.new) }
    ensures led { OnOk result (LeadTo walker.old.world steps.now walker.new.world) }
    ensures end { IfErr result (IsEndOf walker.old.world steps.now) }
{
    worlds_stay_sound();
    for (index, event) in steps.iter().enumerate() {
        match step(walker, event) {
            Ok(()) => {}
            Err(Stop::Illegal) => return Err(WalkEnd::Illegal { index }),
            Err(Stop::NoMemory) => return Err(WalkEnd::NoMemory),
        }
    }
    Ok(())
}

/// The world behind events, from a sound one on: or the first of them that can't come where it stands. What the log holds, in
/// front of the first request an image of any system, is taken over; each request is made anew by an image of the system. So it
/// takes memory for the log, for that system and for each record that comes; that may run out at any event.
pub fn walk(alloc: Global, start: &World, steps: &[Event]) -> Result<World, WalkEnd>
    requires { IsSound start.now }
    ensures world { IfOk result (LeadTo start.now steps.now) }
    ensures sound { IfOk result IsSound }
    ensures end { IfErr result (IsEndOf start.now steps.now) }
{
    let mut walker = match Walker::new(alloc, start) {
        Ok(walker) => walker,
        Err(AllocError) => return Err(WalkEnd::NoMemory),
    };
    let went = go_along(&mut walker, steps);
    let Walker { image, world, .. } = walker;
    drop(image);
    match went {
        Ok(()) => Ok(world),
        Err(end) => {
            drop(world);
            Err(end)
        }
    }
}
