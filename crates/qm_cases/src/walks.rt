// Walks along the turns of runs.
ghost use Rattle.qm_store.specs.Database.{loaded_record};
ghost use Rattle.qm_history.specs.World.{IsSound};

use crate::files::Files;
use qm_disk::MemoryDisk;
use qm_history::{Event, Turn, World};
use qm_image::Image;
use qm_kinds::Name;
use qm_restore::{Bodies, restore};
use qm_store::{Closed, Loaded};
use qm_world::{WalkEnd, first_world, texts_of, walk};
use std::alloc::{AllocError, Global};

// The live queue file, as it was read.
#[derive(Drop)]
struct LiveFile {
    loaded: Loaded<MemoryDisk>,
}

impl Bodies for LiveFile {
    ghost bodies = { λ file. (loaded_record file.loaded).bodies };

    fn count(&self) -> usize {
        self.loaded.count()
    }

    fn body(&self, index: usize) -> &[u8] {
        self.loaded.body(index)
    }
}

// The live queue file, or none where the files can't be read.
fn live_file(alloc: Global, files: &Files) -> Result<Option<LiveFile>, AllocError> {
    match Closed::of(alloc, files.disk(alloc, &[])?).load() {
        Ok(loaded) => Ok(Some(LiveFile { loaded })),
        Err(_) => Ok(None),
    }
}

// The events of a turn.
fn events_in(turn: Turn) -> Vec<Event> {
    let Turn { events, .. } = turn;
    events.into_vec()
}

// The events of turns, one behind another.
fn events_of(alloc: Global, turns: Vec<Turn>) -> Result<Vec<Event>, AllocError> {
    let mut events = Vec::new(alloc);
    for turn in turns {
        for event in events_in(turn) {
            events.push(event)?;
        }
    }
    Ok(events)
}

// Whether a file holds the first of these texts, and no others: so many of them at least.
fn holds(file: &LiveFile, texts: &[Vec<u8>], least: usize) -> bool {
    let count = file.count();
    for (index, text) in texts.iter().enumerate() {
        if index < count && file.body(index) != text.as_slice() {
            return false;
        }
    }
    least <= count && count <= texts.len()
}

// Whether a file holds the log of a world, and perhaps the record in doubt behind it.
fn holds_log(alloc: Global, file: &LiveFile, world: &World) -> Result<bool, AllocError>
    requires { IsSound world.now }
{
    let texts = texts_of(alloc, world)?;
    Ok(holds(file, &texts, world.log.as_slice().len()))
}

// Whether files hold the log of a world, and perhaps the record in doubt behind it.
fn hold_log(alloc: Global, files: &Files, world: &World) -> Result<bool, AllocError>
    requires { IsSound world.now }
{
    let Some(file) = live_file(alloc, files)? else {
        return Ok(false);
    };
    let held = holds_log(alloc, &file, world);
    drop(file);
    held
}

// Whether all of these files hold it.
fn all_hold_log(alloc: Global, all: &[Files], world: &World) -> Result<bool, AllocError>
    requires { IsSound world.now }
{
    for files in all {
        if !hold_log(alloc, files, world)? {
            return Ok(false);
        }
    }
    Ok(true)
}

// Adds the names of the nodes of an image.
fn push_names(names: &mut Vec<Name>, image: &Image) -> Result<(), AllocError> {
    for node in image.nodes() {
        names.push(node.name)?;
    }
    Ok(())
}

// Adds the names of the nodes of a file, if it is a site's.
fn push_names_in(alloc: Global, names: &mut Vec<Name>, file: &LiveFile) -> Result<(), AllocError> {
    let Ok(image) = restore(alloc, file) else {
        return Ok(());
    };
    let pushed = push_names(names, &image);
    drop(image);
    pushed
}

/// The names of the site's nodes in the cluster's order; none where the files are no site's.
pub(crate) fn names_of(alloc: Global, files: &Files) -> Result<Vec<Name>, AllocError> {
    let mut names = Vec::new(alloc);
    let Some(file) = live_file(alloc, files)? else {
        return Ok(names);
    };
    let pushed = push_names_in(alloc, &mut names, &file);
    drop(file);
    pushed?;
    Ok(names)
}

// Whether events lead from a world to one whose log is what each of these files hold.
fn lead_behind(
    alloc: Global,
    start: &World,
    events: &[Event],
    behind: &[Files],
) -> Result<bool, AllocError>
    requires { IsSound start.now }
{
    match walk(alloc, start, events) {
        Ok(world) => {
            let hold = all_hold_log(alloc, behind, &world);
            drop(world);
            hold
        }
        Err(WalkEnd::Illegal { .. }) => Ok(false),
        Err(WalkEnd::NoMemory) => Err(AllocError),
    }
}

// Whether events lead there from the world with which a program begins on a file, if it is a site's.
fn lead_from(
    alloc: Global,
    file: &LiveFile,
    events: &[Event],
    behind: &[Files],
) -> Result<bool, AllocError> {
    let Ok(start) = first_world(alloc, file, file.loaded.epoch()) else {
        return Ok(events.is_empty());
    };
    let lead = lead_behind(alloc, &start, events, behind);
    drop(start);
    lead
}

/// Whether turns lead from the world with which a program begins on the files to one whose log is what each of these files hold that
/// may be there behind them. Where no program can begin there, there is no turn.
pub(crate) fn lead_on(
    alloc: Global,
    before: &Files,
    turns: Vec<Turn>,
    behind: &[Files],
) -> Result<bool, AllocError> {
    let events = events_of(alloc, turns)?;
    let Some(file) = live_file(alloc, before)? else {
        return Ok(events.is_empty());
    };
    let lead = lead_from(alloc, &file, &events, behind);
    drop(file);
    lead
}
