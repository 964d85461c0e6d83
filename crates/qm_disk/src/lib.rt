//! The outside as traits. `Disk` is what the journal stands on: one device with three files, what they read, and what a crash at
//! any moment may leave of them. `Source` and `Sink` are bytes in and out, and `Clock` tells the moment. Each has a form in
//! memory, and all but the disk one over std. A call that fails is counted by the object that was handed in, and no other is.
//!
//! That a real disk behaves so is a premise.
//! An adapter counts each call that fails by exactly one, unless the count stands at its end. What files, terminals and clocks
//! really give and take isn't said.
#![tactic(auto)]

mod calls;
mod disk;
mod faults;
mod io;
mod memory;

pub use disk::{Disk, DiskFault};
pub use faults::{Calls, Faults};
pub use io::{
    Clock, Failed, InputSource, MemoryClock, MemorySink, MemorySource, OutputSink, ReadEnd, Sink,
    Source, SystemClock, read_whole, write_whole,
};
pub use memory::MemoryDisk;
