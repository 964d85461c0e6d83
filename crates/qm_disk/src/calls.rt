// The record that a disk in memory keeps of its calls.

/// What a call did to its file, and whether it held.
#[derive(Drop)]
pub enum Change {
    /// It read, or asked for the size.
    Look,
    Write { at: u64, bytes: Vec<u8>, held: bool },
    Truncate { size: u64, held: bool },
    Sync { held: bool },
}

/// One call.
#[derive(Drop)]
pub struct Call {
    pub file: u8,
    pub change: Change,
}
