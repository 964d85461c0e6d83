// The records of the master file, which say how large a queue file may grow, which of the two is live and which epochs there
// were: their bytes, both ways, and what the records of a log say together. What they mean is `Master.antt` of `qm_history`.
mod judging;
mod record;
mod state;

pub use judging::judge_master;
pub use record::{MASTER_RECORD_BYTES, MasterRecord, read_master, write_master};
pub use state::MasterState;
