// The codes of items.

/// A queue; of ASSIGN/MERGE the source.
pub const QUEUE: u16 = 1;
/// A file.
pub const FILE: u16 = 2;
/// The name of a job.
pub const JOB_NAME: u16 = 3;
/// The priority of a job.
pub const PRIORITY: u16 = 4;
/// The moment before which a job isn't started.
pub const AFTER: u16 = 5;
/// A job is held.
pub const HOLD: u16 = 6;
/// Whether a job is kept when it has ended.
pub const RETAIN: u16 = 7;
/// Whether a job may start again.
pub const RESTART: u16 = 8;
/// A characteristic; it may come again.
pub const CHARACTERISTIC: u16 = 9;
/// A form; of a queue the one that is mounted.
pub const FORM: u16 = 10;
/// How many copies are printed.
pub const COPIES: u16 = 11;
/// A page that names the job is printed in front.
pub const FLAG: u16 = 12;
/// The kind of a queue or a job.
pub const KIND: u16 = 13;
/// The node of a queue.
pub const NODE: u16 = 14;
/// The device of a queue.
pub const DEVICE: u16 = 15;
/// A queue to which a generic queue passes its jobs on; it may come again.
pub const TARGET: u16 = 16;
/// How many jobs of a queue run at once.
pub const JOB_LIMIT: u16 = 17;
/// The least blocks of a job that a queue starts.
pub const BLOCK_LOWER: u16 = 18;
/// The most blocks of a job that a queue starts.
pub const BLOCK_UPPER: u16 = 19;
/// Whether a queue starts smaller jobs first.
pub const BY_SIZE: u16 = 20;
/// Which jobs a queue keeps.
pub const QUEUE_RETAIN: u16 = 21;
/// A new queue is started at once.
pub const START: u16 = 22;
/// The number of an entry.
pub const ENTRY: u16 = 23;
/// How a queue is stopped.
pub const HOW: u16 = 24;
/// A job that is cut short waits again.
pub const REQUEUE: u16 = 25;
/// The target of ASSIGN/MERGE.
pub const TO_QUEUE: u16 = 26;
/// The name of a form or a characteristic.
pub const NAME: u16 = 27;
/// The number of a form or a characteristic.
pub const NUMBER: u16 = 28;
/// The stock of a form.
pub const STOCK: u16 = 29;
/// The shape of a form's pages.
pub const SHAPE: u16 = 30;
/// Bytes that are added to a file.
pub const BYTES: u16 = 31;
/// How many lines are added to a file.
pub const LINES: u16 = 32;
/// The pattern of names that are listed.
pub const SEARCH: u16 = 33;
/// A job that is held may start.
pub const RELEASE: u16 = 34;
/// The state of a queue or an entry, which answers alone have.
pub const STATE: u16 = 35;
/// The epoch of the queue manager, which answers alone have.
pub const EPOCH: u16 = 36;
