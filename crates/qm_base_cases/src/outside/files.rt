// Files that are logs, and files that are none.
ghost use Rattle.std.specs.Prelude.{◌≤◌};
ghost use Rattle.qm_kinds.specs.declared.limits.TheConstants.{GREATEST_CAP};

use crate::outside::crashes::disk_of;
use crate::outside::told::{Cases, assert_told, bytes};
use qm_disk::MemoryDisk;
use qm_glog::{OpenFault, open};
use qm_kinds::GREATEST_CAP;
use std::alloc::{AllocError, Global};

/// How many records a log in file 1 has, or why it can't be opened.
pub(crate) fn opened(alloc: Global, disk: &mut MemoryDisk, cap: u64) -> Result<usize, OpenFault>
    requires { cap ≤ GREATEST_CAP }
{
    match open(alloc, disk, 1, cap) {
        Ok(log) => Ok(log.count()),
        Err(fault) => Err(fault),
    }
}

// The bytes of files, and what is told of them as logs.
#[derive(Clone, Copy)]
struct Files;

impl Cases for Files {
    fn told_of(&mut self, alloc: Global, text: &str) -> Result<String, AllocError> {
        let bytes = bytes(alloc, text)?;
        let mut disk = disk_of(alloc, &bytes, &[])?;
        format!(in alloc; "{:?}", opened(alloc, &mut disk, GREATEST_CAP))
    }
}

const FILES: &str = "|Err(Unformatted { byte: 0 })
0|Ok(0)
7 1 2 3|Ok(0)
1|Err(Damaged { file: 1, place: 0 })
1 2 0 0 0 9|Err(Damaged { file: 1, place: 0 })
1 1 0 0 0 9|Err(Damaged { file: 1, place: 6 })
1 1 0 0 0 9 255|Ok(1)";

#[test]
fn files_are_judged_at_their_gates(rt: HostRuntime) -> Result<(), AllocError> {
    assert_told(&rt, rt.alloc(), &mut Files, FILES)
}
