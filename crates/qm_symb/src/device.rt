// What blocks are handed to.
ghost use Rattle.std.specs.Prelude.{[], ◌∷◌, IsErr, OnErr, OnOk};
ghost use Rattle.qm_symb.specs.Device.{Meaning, Takes, TellsFaults};

use qm_kinds::Name;
use thiserror::Error;

/// The device failed at a call. Its count of faults has risen.
#[derive(Clone, Copy, Debug, PartialEq, Eq, Error)]
#[error("the device failed")]
pub struct DeviceFault;

/// Devices of a node, by name, to which runs hand blocks of bytes: the pages of a print job, or the lines that a
/// batch job writes.
pub trait Device {
    /// What the calls speak of: the blocks that were handed over, where that is told, and how many calls failed.
    ghost meaning: { Meaning Self };

    /// Hands a block of a run to the device of this name. It is taken whole, or the call fails and it doesn't count
    /// as taken.
    fn hand(&mut self, run: u64, device: &Name, block: &[u8]) -> Result<(), DeviceFault>
        ensures handed { OnOk result
            (Takes meaning run device.now (block.now ∷ []) self.old self.new) }
        ensures refused { OnErr result (Takes meaning run device.now [] self.old self.new) }
        ensures faults { TellsFaults meaning self.old self.new (IsErr result) };
}
