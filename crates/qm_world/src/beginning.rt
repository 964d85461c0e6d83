// The image of the system for which a log stands.
ghost use Rattle.std.specs.Prelude.{◌≡◌, ◌++◌, ◌∷◌, [], ℕ, take, true, IfOk, OnOk};
ghost use Rattle.std.specs.List.{All, prefix_len};
ghost use Rattle.qm_history.specs.Common.{IsConsistent, is_row, IsAccepted};
ghost use Rattle.qm_model.specs.Folding.{after_body, no_system, system_of as system_of_log};
ghost use Rattle.qm_image.specs.Image.{system_of};

use crate::copying::put;
use crate::following::replay;
use qm_image::Image;
use qm_kinds::{Body, Entry, File, Moment, Name, Node, Record, Seq, System};
use qm_model::requests_keep_consistent;
use std::alloc::{AllocError, Global};
use std::{mem, slice};

// Whether a record is a row of an image.
fn is_row(what: &Record) -> bool
    ensures { result ≡ is_row what.now.body }
{
    match what.body {
        Body::Ask(_) => false,
        _ => true,
    }
}

// How many rows a log begins with.
fn count_rows(log: &[Record]) -> usize
    ensures { result ≡ prefix_len (λ r. is_row r.body) log.now }
{
    for (place, what) in log.iter().enumerate() {
        if !is_row(what) {
            return place;
        }
    }
    log.len()
}

// What stands before the first row.
fn no_system(alloc: Global) -> System
    ensures { result ≡ no_system }
{
    System {
        nodes: Seq::new(alloc),
        may: Seq::new(alloc),
        forms: Seq::new(alloc),
        characteristics: Seq::new(alloc),
        files: Seq::new(alloc),
        queues: Seq::new(alloc),
        entries: Seq::new(alloc),
        next_entry: 0,
        next_run: 0,
        last: Moment::BASE,
    }
}

// The system that a head begins.
fn begin(
    alloc: Global,
    nodes: &[Node],
    may: &[Name],
    next_entry: u32,
    next_run: u64,
    last: Moment,
) -> Result<System, AllocError>
    ensures { IfOk result (λ system. system ≡ record no_system {
      nodes = nodes.now;
      may = may.now;
      next_entry = next_entry;
      next_run = next_run;
      last = last;
    }) }
{
    let nodes = Seq::of(Vec::from_slice(alloc, nodes)?);
    let may = Seq::of(Vec::from_slice(alloc, may)?);
    Ok(System {
        nodes,
        may,
        forms: Seq::new(alloc),
        characteristics: Seq::new(alloc),
        files: Seq::new(alloc),
        queues: Seq::new(alloc),
        entries: Seq::new(alloc),
        next_entry,
        next_run,
        last,
    })
}

fn copy_file(alloc: Global, file: &File) -> Result<File, AllocError>
    ensures { IfOk result (λ copy. copy ≡ file.now) }
{
    Ok(File {
        name: file.name,
        bytes: Seq::of(Vec::from_slice(alloc, file.bytes.as_slice())?),
    })
}

// Adds an entry to a system.
fn add_entry(alloc: Global, system: &mut System, entry: &Entry) -> Result<(), AllocError>
    ensures { OnOk result (system.new
        ≡ record system.old { entries = system.old.entries ++ entry.now ∷ [] }) }
{
    let mut entries = mem::replace(&mut system.entries, Seq::new(alloc)).into_vec();
    entries.extend_from_slice(slice::from_ref(entry))?;
    system.entries = Seq::of(entries);
    Ok(())
}

// Adds what a row says to a system.
fn add_row(alloc: Global, system: &mut System, row: &Body) -> Result<(), AllocError>
    requires { is_row row.now ≡ true }
    ensures { OnOk result ((moment node : ℕ)
        → system.new ≡ after_body system.old moment node row.now) }
{
    match row {
        Body::Head {
            nodes,
            may,
            next_entry,
            next_run,
            last,
        } => {
            let begun = begin(
                alloc,
                nodes.as_slice(),
                may.as_slice(),
                *next_entry,
                *next_run,
                *last,
            )?;
            drop(mem::replace(system, begun));
            Ok(())
        }
        Body::Form(form) => put(alloc, &mut system.forms, *form),
        Body::Characteristic(characteristic) => {
            put(alloc, &mut system.characteristics, *characteristic)
        }
        Body::File(file) => put(alloc, &mut system.files, copy_file(alloc, file)?),
        Body::Queue(queue) => put(alloc, &mut system.queues, queue.copy(alloc)?),
        Body::Entry(entry) => add_entry(alloc, system, entry),
        Body::Ask(_) => unreachable!(),
    }
}

// The system for which rows stand.
fn system_of_rows(alloc: Global, rows: &[Record]) -> Result<System, AllocError>
    requires { All (λ r. is_row r.body ≡ true) rows.now }
    ensures { IfOk result (λ system. system ≡ system_of_log rows.now) }
{
    let mut system = no_system(alloc);
    for row in rows {
        add_row(alloc, &mut system, &row.body)?;
    }
    Ok(system)
}

// The image of the system for which rows stand, whatever that is.
fn image_of_rows(alloc: Global, rows: &[Record]) -> Result<Image, AllocError>
    requires rows { All (λ r. is_row r.body ≡ true) rows.now }
    requires consistent { IsConsistent (system_of_log rows.now) }
    ensures { IfOk result (λ image. system_of image ≡ system_of_log rows.now) }
{
    let system = system_of_rows(alloc, rows)?;
    let image = Image::from_rows(alloc, &system);
    drop(system);
    Ok(image?)
}

// Makes the changes of all requests that stand behind the rows of an accepted log.
fn replay_from(image: &mut Image, log: &[Record], rows: usize) -> Result<(), AllocError>
    requires accepted { IsAccepted log.now }
    requires rows { rows ≡ prefix_len (λ r. is_row r.body) log.now }
    requires begun { system_of image.old ≡ system_of_log (take rows log.now) }
    ensures { OnOk result (system_of image.new ≡ system_of_log log.now) }
{
    requests_keep_consistent();
    for what in &log[rows..] {
        replay(image, what)?;
    }
    Ok(())
}

/// The image of the system for which an accepted log stands: its rows make a system, whatever that is, and each request behind
/// them changes it.
///
/// An image is let go by a call of `drop`: where a function ends it would be let go field by field, at each of its ends.
pub(crate) fn image_of_log(alloc: Global, log: &[Record]) -> Result<Image, AllocError>
    requires { IsAccepted log.now }
    ensures { IfOk result (λ image. system_of image ≡ system_of_log log.now) }
{
    let rows = count_rows(log);
    let mut image = image_of_rows(alloc, &log[..rows])?;
    match replay_from(&mut image, log, rows) {
        Ok(()) => Ok(image),
        Err(AllocError) => {
            drop(image);
            Err(AllocError)
        }
    }
}
