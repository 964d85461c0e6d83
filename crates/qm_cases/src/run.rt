// Runs of the program over an outside in memory.
use qm_disk::{Clock, Disk, MemoryDisk, MemorySink, MemorySource};
use qm_history::Turn;
use qm_kinds::{Moment, NODES_LIMIT};
use qm_node::Station;
use qm_program::{End, Outcome, qman};
use qm_symb::{MemoryDevice, Standard};
use std::alloc::{AllocError, Global};
use std::marker::{Send, Sync};
use std::sync::Wait;
use std::thread::Threads;

/// A clock that tells these moments, and then the last of them for ever. What it told isn't kept, not even for proofs, so that it may go
/// to a thread.
#[derive(Drop)]
pub(crate) struct DeskClock {
    moments: Vec<Moment>,
    told: usize,
    last: Moment,
}

impl Clock for DeskClock {
    ghost use Rattle.std.specs.Prelude.{None};

    ghost told = { λ clock. None };

    fn tell(&mut self) -> Moment {
        if let Some(moment) = self.moments.get(self.told) {
            self.last = *moment;
            self.told += 1;
        }
        self.last
    }
}

/// What a node has of its own: its clock, and what carries out its runs.
pub(crate) type MemoryStation = Station<DeskClock, Standard<MemoryDevice>>;

/// The disk of a site, and what each node has of its own, as many as a site can have.
#[derive(Drop)]
pub(crate) struct Site<D: Disk + Drop> {
    pub(crate) disk: D,
    pub(crate) stations: Vec<MemoryStation>,
}

/// What a run reads and prints on, and the moments that the clock of each node tells it.
#[derive(Drop)]
pub(crate) struct Outside {
    pub(crate) source: MemorySource,
    pub(crate) sink: MemorySink,
    pub(crate) moments: Vec<Moment>,
}

/// How the program ended, what it printed, its turns, and the site that it left.
#[derive(Drop)]
pub(crate) struct Ran<D: Disk + Drop> {
    pub(crate) end: End,
    pub(crate) printed: Vec<u8>,
    pub(crate) turns: Vec<Turn>,
    pub(crate) site: Site<D>,
}

// Begins the clocks of a site anew.
fn set_clocks(
    alloc: Global,
    stations: &mut [MemoryStation],
    moments: &[Moment],
) -> Result<(), AllocError> {
    for station in stations {
        station.clock = clock_of(alloc, moments)?;
    }
    Ok(())
}

/// The program with these words. The clocks begin anew.
pub(crate) fn run<R: Threads + Wait + Sync, D: Disk + Drop + Send>(
    threads: &R,
    alloc: Global,
    words: &[String],
    mut outside: Outside,
    site: Site<D>,
) -> Result<Ran<D>, AllocError> {
    let Site { disk, mut stations } = site;
    let set = set_clocks(alloc, &mut stations, &outside.moments);
    if set.is_err() || stations.len() < NODES_LIMIT {
        drop(disk);
        drop(stations);
        drop(outside);
        return Err(AllocError);
    }
    let Outcome {
        end,
        disk,
        turns,
        ..
    } = qman(
        threads,
        alloc,
        words,
        &mut outside.source,
        &mut outside.sink,
        disk,
        &mut stations,
    );
    let printed = outside.sink.held().to_vec(alloc);
    drop(outside);
    let site = Site { disk, stations };
    match printed {
        Ok(printed) => Ok(Ran {
            end,
            printed,
            turns,
            site,
        }),
        Err(error) => {
            drop(turns);
            drop(site);
            Err(error)
        }
    }
}

/// A text to be read, and clocks that tell these moments; the base of the system time where there is none. Nothing fails.
pub(crate) fn outside_of(alloc: Global, text: Vec<u8>, moments: Vec<Moment>) -> Outside {
    Outside {
        source: MemorySource::new(text, Vec::new(alloc)),
        sink: MemorySink::new(alloc, Vec::new(alloc)),
        moments,
    }
}

// A clock that tells these moments; the base of the system time where there is none.
fn clock_of(alloc: Global, moments: &[Moment]) -> Result<DeskClock, AllocError> {
    Ok(DeskClock {
        moments: moments.to_vec(alloc)?,
        told: 0,
        last: Moment::BASE,
    })
}

/// What the nodes of a site have of their own: devices that took nothing, of which each node's fail at the calls of these numbers.
pub(crate) fn new_stations(
    alloc: Global,
    failing: &[u64],
) -> Result<Vec<MemoryStation>, AllocError> {
    let mut stations = Vec::new(alloc);
    for _ in 0..NODES_LIMIT {
        let device = MemoryDevice::new(alloc, failing.to_vec(alloc)?);
        stations.push(Station {
            clock: clock_of(alloc, &[])?,
            symbiont: Standard::new(alloc, device),
        })?;
    }
    Ok(stations)
}

/// A disk without a byte, and devices that took nothing.
pub(crate) fn empty_site(alloc: Global) -> Result<Site<MemoryDisk>, AllocError> {
    Ok(Site {
        disk: empty_disk(alloc),
        stations: new_stations(alloc, &[])?,
    })
}

/// A disk without a byte.
pub(crate) fn empty_disk(alloc: Global) -> MemoryDisk {
    MemoryDisk::new(
        alloc,
        Vec::new(alloc),
        Vec::new(alloc),
        Vec::new(alloc),
        Vec::new(alloc),
    )
}

/// The words of a text that stand between quotes.
pub(crate) fn words_of(alloc: Global, text: &str) -> Result<Vec<String>, AllocError> {
    let mut words = Vec::new(alloc);
    for (place, piece) in text.split("\"").enumerate() {
        if place % 2 == 1 {
            words.push(String::from_str(alloc, piece)?)?;
        }
    }
    Ok(words)
}
