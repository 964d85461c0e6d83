// Bytes in and out of the program, and the moment, as traits: each has a form in memory and one over std's. Two calls move whole
// texts.
mod adapters;
mod clock;
mod failed;
mod memory;
mod told;
mod traits;
mod whole;

pub use adapters::{InputSource, OutputSink};
pub use clock::{Clock, MemoryClock, SystemClock};
pub use failed::Failed;
pub use memory::{MemorySink, MemorySource};
pub use traits::{Sink, Source};
pub use whole::{ReadEnd, read_whole, write_whole};
