//! The queue database: the master file and the two queue files of a device, of which the master says which is live. Callers speak
//! of records, places and epochs, and never of gates or torn writes: what the files hold is `Holds` and `IsAtRest` of
//! `specs/Recorded.antt`. A closed database is loaded, which only looks, and opened under a new epoch; an append under another
//! epoch changes nothing.
//! What `init` leaves where memory runs out or a crash comes before its end isn't said, but of the second queue file.
#![tactic(auto)]

mod closed;
mod fault;
mod files;
mod laws;
mod loaded;
mod making;
mod master;
mod opened;
mod reading;

pub use closed::Closed;
pub use fault::{AppendFault, WriteFault};
pub use files::{FIRST_QUEUE_FILE, MASTER_CAP, MASTER_FILE};
pub use laws::{at_rest_is_held, held_by_records, held_files_load, one_content};
pub use loaded::Loaded;
pub use making::init;
pub use master::{
    MASTER_RECORD_BYTES, MasterRecord, MasterState, judge_master, read_master, write_master,
};
pub use opened::Open;
pub use qm_glog::OpenFault as LoadFault;
