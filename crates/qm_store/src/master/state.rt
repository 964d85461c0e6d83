// What a master says, record by record.
ghost use Rattle.std.specs.Prelude.{◌↔◌, ◌<◌, ◌^◌, IsTrue};
ghost use Rattle.qm_history.specs.Master.{IsQueueFile};
ghost use Rattle.qm_store.specs.MasterRecords.{record_of, state_of, SaysFirst, SaysNext, SaysBehind, IsBegun};

use crate::master::record::{MasterRecord, read_master};
use qm_kinds::{GREATEST_CAP, LEAST_CAP};

// Each epoch is below this one.
const EPOCH_END: u64 = 1 << 62;

/// What the records of a master say together.
#[derive(Clone, Copy, Debug, PartialEq, Eq)]
pub struct MasterState {
    /// The greatest size of a queue file, in bytes.
    pub cap: u64,
    /// The live queue file, 1 or 2.
    pub live: u8,
    /// The greatest epoch, or 0 before the first.
    pub epoch: u64,
}

fn is_queue_file(file: u8) -> bool
    ensures { IsTrue result ↔ IsQueueFile file }
{
    file == 1 || file == 2
}

// What a record says as the first one of a master, where it can be that.
fn first_state(said: MasterRecord) -> Option<MasterState>
    ensures { IsBegun (record_of said) result }
{
    match said {
        MasterRecord::Found { cap, file } => {
            if LEAST_CAP <= cap && cap <= GREATEST_CAP && is_queue_file(file) {
                Some(MasterState {
                    cap,
                    live: file,
                    epoch: 0,
                })
            } else {
                None
            }
        }
        MasterRecord::Epoch { .. } | MasterRecord::Live { .. } => None,
    }
}

// What a master says with one record more, where that can stand behind those before it.
fn next_state(says: MasterState, said: MasterRecord) -> Option<MasterState>
    ensures { SaysNext (state_of says) (record_of said) result }
{
    match said {
        MasterRecord::Found { .. } => None,
        MasterRecord::Epoch { epoch, .. } => {
            if says.epoch < epoch && epoch < EPOCH_END {
                Some(MasterState { epoch, ..says })
            } else {
                None
            }
        }
        MasterRecord::Live { file, epoch } => {
            if is_queue_file(file) && epoch == says.epoch && 0 < epoch {
                Some(MasterState { live: file, ..says })
            } else {
                None
            }
        }
    }
}

// What the first body of a master says, where it can be that.
pub(crate) fn read_first(body: &[u8]) -> Option<MasterState>
    ensures { SaysFirst body.now result }
{
    match read_master(body) {
        Some(said) => first_state(said),
        None => None,
    }
}

// What a master says with one body more, where that can stand behind those before it.
pub(crate) fn read_next(says: MasterState, body: &[u8]) -> Option<MasterState>
    requires { says.epoch < 2 ^ 62 }
    ensures { SaysBehind (state_of says) body.now result }
{
    match read_master(body) {
        Some(said) => next_state(says, said),
        None => None,
    }
}
