// The limits of a site.
/// The most nodes of a site.
pub const NODES_LIMIT: usize = 8;

/// The most queues of a site.
pub const QUEUES_LIMIT: usize = 256;

/// The most queues that a generic queue may pass its jobs on to.
pub const TARGETS_LIMIT: usize = 32;

/// The greatest number of a form.
pub const LAST_FORM: u16 = 999;

/// The greatest number of a characteristic.
pub const LAST_CHARACTERISTIC: u8 = 127;

/// The most entries of a site.
pub const ENTRIES_LIMIT: usize = 65_536;

/// The most files of a site.
pub const FILES_LIMIT: usize = 4096;

/// The most bytes of a file.
pub const FILE_LIMIT: usize = 1_048_576;

/// The most bytes of all files of a site together.
pub const SPOOL_LIMIT: usize = 67_108_864;

/// The least cap of a queue file, in bytes.
pub const LEAST_CAP: u64 = 4096;

/// The greatest cap of a queue file, and of any log, in bytes.
pub const GREATEST_CAP: u64 = 268_435_456;

/// The most bytes of a text that is read through as a whole: of a script, and of what a run carries out.
pub const TEXT_LIMIT: usize = 16_777_216;

/// From this number of the next run on, 2^62, requests are refused since the numbers of runs are spent.
pub const RUNS_LIMIT: u64 = 4_611_686_018_427_387_904;

/// No run begins under this number, 2^63, or a greater one.
pub const END_OF_RUNS: u64 = 9_223_372_036_854_775_808;
