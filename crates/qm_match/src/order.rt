// The order in which a queue takes the jobs that it can start.
ghost use Rattle.std.specs.Prelude.{◌≡◌};
ghost use Rattle.qm_model.specs.Kinds.{is_print_queue};
ghost use Rattle.qm_match.specs.Keys.{comes_before, key_of, schedule_of};

use qm_kinds::{Entry, Queue, QueueKind};

/// How a queue chooses among jobs of one priority: DCL Dictionary, INITIALIZE/QUEUE, /SCHEDULE.
#[derive(Clone, Copy)]
pub enum Schedule {
    /// The smaller job comes first, and of two of one size the one with the smaller number.
    BySize,
    /// The job with the smaller number comes first.
    ByNumber,
}

/// What counts of a job where a queue chooses: its priority, its size in blocks and its number.
#[derive(Clone, Copy)]
pub struct Key {
    pub priority: u8,
    pub size: u32,
    pub number: u32,
}

impl Schedule {
    /// How this queue chooses. Only a print queue goes by size.
    pub fn of(queue: &Queue) -> Schedule
        ensures { result ≡ schedule_of queue.now }
    {
        if queue.by_size && is_print_queue(queue.kind) {
            Schedule::BySize
        } else {
            Schedule::ByNumber
        }
    }
}

impl Key {
    /// The key of a job.
    pub fn of(entry: &Entry) -> Key
        ensures { result ≡ key_of entry.now }
    {
        Key {
            priority: entry.priority,
            size: entry.size,
            number: entry.number,
        }
    }
}

fn is_print_queue(kind: QueueKind) -> bool
    ensures { result ≡ is_print_queue kind }
{
    matches!(kind, QueueKind::Print)
}

/// Whether a queue with this schedule takes the job of one key before that of the other: OpenVMS System Manager's Manual,
/// Setting Up and Maintaining Queues, on job scheduling. The greater priority comes first, whatever the sizes. It takes no
/// memory.
pub fn before(schedule: Schedule, a: &Key, b: &Key) -> bool
    ensures { result ≡ comes_before schedule a.now b.now }
{
    if a.priority != b.priority {
        return a.priority > b.priority;
    }
    match schedule {
        Schedule::BySize if a.size != b.size => a.size < b.size,
        _ => a.number < b.number,
    }
}
