// How the serving of a script ends, and what it leaves.
ghost use Rattle.std.specs.Prelude.{◌≡◌};
ghost use Rattle.qm_history.specs.Faults.{is_disk_fault, tells_disk_fault};
ghost use Rattle.qm_cluster.specs.Ends.{end_of_stop, end_of_turns, serving_end, some_disk_failed};

use qm_history::{Event, Turn};
use qm_node::TurnEnd;

/// How the serving of a script ended.
#[derive(Clone, Copy)]
pub enum ServeEnd {
    /// Every line was answered, and each run that could step was carried out.
    Served,
    /// The same, and in some turn a disk failed, which its call was told.
    DiskFailed,
    /// The sink failed. It took the transcript up to a turn, and a front of what that one was answered.
    SinkFailed,
    /// As many turns are kept as can be. The sink took the transcript up to the last one.
    HistoryFull,
    /// A file isn't sound at this byte.
    Damaged { file: u8, place: u64 },
    /// There was no memory. The sink took the transcript up to a turn, or nothing.
    NoMemory,
}

impl From<TurnEnd> for ServeEnd {
    ghost from_gives = { λ stopped end. serving_end end ≡ end_of_stop stopped };

    fn from(stopped: TurnEnd) -> ServeEnd {
        match stopped {
            TurnEnd::Write => ServeEnd::SinkFailed,
            TurnEnd::HistoryFull => ServeEnd::HistoryFull,
            TurnEnd::Damaged { file, place } => ServeEnd::Damaged { file, place },
            TurnEnd::NoMemory => ServeEnd::NoMemory,
        }
    }
}

// Whether a record, a takeover or a compaction was cut short by a disk.
fn is_disk_fault(event: &Event) -> bool
    ensures { result ≡ is_disk_fault event.now }
{
    matches!(
        event,
        Event::Doubt { .. } | Event::TakeDoubt { .. } | Event::CompactDoubt { .. }
    )
}

// Whether a disk failed in a turn of these events.
fn tells_disk_fault(events: &[Event]) -> bool
    ensures { result ≡ tells_disk_fault events.now }
{
    match events {
        [] => false,
        [.., last] => is_disk_fault(last),
    }
}

// Whether a disk failed in some turn.
fn some_disk_failed(turns: &[Turn]) -> bool
    ensures { result ≡ some_disk_failed turns.now }
{
    'turns: for turn in turns {
        if tells_disk_fault(turn.events.as_slice()) {
            return true;
        }
    }
    false
}

/// The end where nothing stopped the nodes, by their turns.
pub fn end_of_turns(turns: &[Turn]) -> ServeEnd
    ensures { serving_end result ≡ end_of_turns turns.now }
{
    if some_disk_failed(turns) {
        ServeEnd::DiskFailed
    } else {
        ServeEnd::Served
    }
}
