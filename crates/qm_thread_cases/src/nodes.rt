// Nodes on threads of their own.
ghost use Rattle.std.specs.Prelude.{◌≡◌, ◌<◌, [], length, IfOk};
ghost use Rattle.std.specs.List.{AllByRecursion};

use crate::recorder::Recorder;
use qm_cluster::{Begins, Noted, Shared, drive};
use qm_disk::{MemoryClock, MemorySink};
use qm_kinds::{Moment, Name, system_user};
use qm_node::{Gate, Point, Station, TurnEnd};
use qm_script::UserLine;
use qm_symb::{Device, DeviceFault, MemoryDevice, Standard};
use qm_turn::{Pass, PassOf, Turnstile};
use std::alloc::{AllocError, Global};
use std::sync::Wait;
use std::sync::atomic::AtomicUsize;
use std::sync::atomic::Ordering::SeqCst;
use std::thread;

// How often a node looks for the other.
const LOOKS: u32 = 1_000_000;

/// Where two nodes tell that they came.
#[derive(Drop)]
pub(crate) struct Doors {
    pub(crate) first: AtomicUsize,
    pub(crate) second: AtomicUsize,
}

/// Holds a node until the other has come as far.
#[derive(Drop)]
pub(crate) struct Meeting<'a> {
    doors: &'a Doors,
    is_first: bool,
    /// Whether the other node came.
    pub(crate) met: bool,
}

impl<'a> Meeting<'a> {
    /// The first node, or the second.
    pub(crate) fn new(doors: &'a Doors, is_first: bool) -> Meeting<'a> {
        Meeting {
            doors,
            is_first,
            met: false,
        }
    }

    // Tells that this node came.
    fn come(&self) {
        if self.is_first {
            self.doors.first.store(1, SeqCst);
        } else {
            self.doors.second.store(1, SeqCst);
        }
    }

    // Whether the other one came.
    fn has_other(&self) -> bool {
        if self.is_first {
            self.doors.second.load(SeqCst) == 1
        } else {
            self.doors.first.load(SeqCst) == 1
        }
    }

    // Waits for the other one, for so many looks.
    fn meet(&mut self) {
        self.come();
        for _ in 0..LOOKS {
            if self.has_other() {
                self.met = true;
                return;
            }
            thread::yield_now();
        }
    }
}

impl<'a> Gate for Meeting<'a> {
    fn at(&mut self, point: Point) {
        if point == Point::InStep {
            self.meet();
        }
    }
}

/// A device that takes a block once the other node's has come to one. It tells nothing of the blocks.
#[derive(Drop)]
pub(crate) struct MeetingDevice<'a> {
    pub(crate) meeting: Meeting<'a>,
}

impl<'a> Device for MeetingDevice<'a> {
    ghost use Rattle.std.specs.Prelude.{[], false};

    ghost meaning = { record {
      tells = false;
      taken = λ device. [];
      faults = λ device. 0;
    } };

    fn hand(&mut self, _run: u64, _device: &Name, _block: &[u8]) -> Result<(), DeviceFault> {
        self.meeting.meet();
        Ok(())
    }
}

/// A node that has made its turns.
#[derive(Drop)]
pub(crate) struct Driven<J, G> {
    pub(crate) pass: Pass<Shared<Recorder, J>, Noted>,
    pub(crate) end: Result<(), TurnEnd>,
    pub(crate) gate: G,
}

// What a node has of its own, over this device.
fn station_of<D: Device + Drop>(
    alloc: Global,
    device: D,
) -> Result<Station<MemoryClock, Standard<D>>, AllocError> {
    let mut moments = Vec::with_capacity(alloc, 1)?;
    moments.push(Moment::BASE)?;
    Ok(Station {
        clock: MemoryClock::new(moments),
        symbiont: Standard::new(alloc, device),
    })
}

/// Lets a node make its turns.
pub(crate) fn drive_node<'a, J: Begins<Recorder>, R: Wait, G: Gate + Drop>(
    rt: &R,
    alloc: Global,
    turnstile: &Turnstile<Shared<Recorder, J>>,
    mut pass: PassOf<Shared<Recorder, J>>,
    node: u8,
    lines: &'a [UserLine<'a>],
    mut gate: G,
) -> Result<Driven<J, G>, AllocError>
    requires here { pass.place ≡ turnstile.now.place }
    requires number { pass.number ≡ node }
    requires new { (pass.seen ≡ []) × (pass.mine ≡ []) × (pass.took ≡ []) }
    requires there { AllByRecursion (λ recorder. node < length recorder.names.items) J.began }
    ensures { IfOk result (λ d. (d.pass.place ≡ turnstile.now.place) × (d.pass.number ≡ node) × (d.pass.took ≡ [])) }
{
    let mut station = station_of(alloc, MemoryDevice::new(alloc, Vec::new(alloc)))?;
    let mut text = MemorySink::new(alloc, Vec::new(alloc));
    let end = drive(
        rt,
        alloc,
        turnstile,
        &mut pass,
        node,
        &system_user(),
        lines,
        &mut station,
        &mut gate,
        &mut text,
    );
    Ok(Driven { pass, end, gate })
}
