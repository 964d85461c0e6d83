// What a run hands to a device.
use qm_kinds::{Name, Seq};

/// A block that a run handed to a device.
#[derive(Drop)]
pub struct HandOver {
    pub run: u64,
    pub device: Name,
    pub block: Seq<u8>,
}
