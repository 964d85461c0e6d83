// What the records of a log say as a master.
ghost use Rattle.std.specs.Prelude.{◌<◌, length, IfOk};
ghost use Rattle.qm_glog.specs.Log.{bodies_of};
ghost use Rattle.qm_store.specs.MasterJudging.{IsJudged, IsLawful};
ghost use Rattle.qm_store.specs.MasterRecords.{state_of};

use crate::master::state::{MasterState, read_first, read_next};
use qm_glog::Log;

/// What the records of a log say as those of a master, or the index of the first that can't stand there.
pub fn judge_master(log: &Log) -> Result<MasterState, usize>
    requires { 0 < length (bodies_of log.now) }
    ensures judged { IsJudged (bodies_of log.now) result }
    ensures lawful { IfOk result (λ says. IsLawful (state_of says)) }
{
    let Some(mut says) = read_first(log.record(0)) else {
        return Err(0);
    };
    for index in 1..log.count() {
        match read_next(says, log.record(index)) {
            Some(next) => says = next,
            None => return Err(index),
        }
    }
    Ok(says)
}
