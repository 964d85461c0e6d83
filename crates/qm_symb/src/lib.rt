//! What runs hand their blocks to, and what carries runs out: the traits `Device` and `Symbiont`. `MemoryDevice` keeps what it
//! takes; `FileDevice` appends it to files, and tells nothing of them. `Standard` carries out jobs of both kinds on a device, by
//! the steps of `print` and `batch`.
//!
//! Into which file a block went isn't said.
#![tactic(auto)]

pub mod batch;
mod device;
mod files;
mod handed;
mod laws;
mod memory;
pub mod print;
mod standard;
mod symbiont;
#[cfg(test)]
mod tests;
mod text;

pub use device::{Device, DeviceFault};
pub use files::FileDevice;
pub use handed::HandOver;
pub use laws::runs_have_limits;
pub use memory::MemoryDevice;
pub use standard::{Standard, StandardCursor};
pub use symbiont::{Beginning, DEVICE_FAULT_STATUS, Symbiont};
