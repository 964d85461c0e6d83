// Devices in memory, which fail at the calls that a list names.
ghost use Rattle.std.specs.Prelude.{◌≡◌, [], ◌∷◌, ◌++◌, Contains, IsErr, OnErr, OnOk};
ghost use Rattle.qm_symb.specs.Device.{Takes, TellsFaults, handed_by};
ghost use Rattle.qm_disk.specs.Faults.{counted};
ghost use Rattle.qm_symb.specs.Held.{in_memory};

use crate::{Device, DeviceFault, HandOver};
use qm_disk::Calls;
use qm_kinds::{Name, Seq};
use std::alloc::{AllocError, Global};
use std::marker::Model;

/// The devices of a node, in memory. Contracts see a `HeldDevice`: the blocks that they took, and the calls.
#[derive(Drop)]
pub struct MemoryDevice {
    alloc: Global,
    taken: Vec<HandOver>,
    calls: Calls,
}

impl Model for MemoryDevice {
    ghost use Rattle.qm_symb.specs.Held.{HeldDevice};

    ghost Value = { HeldDevice };

    ghost view = { λ d. record {
      taken = d.taken.items;
      fail = d.calls.fail;
      calls = d.calls.made;
      faults = d.calls.faults;
    } };
}

impl MemoryDevice {
    /// Devices that have taken nothing. They fail at each call whose number, counted from 1, is listed in `fail`, and
    /// at another only for want of memory.
    pub fn new(alloc: Global, fail: Vec<u64>) -> MemoryDevice
        ensures { result ≡ record { taken = []; fail = fail.items; calls = 0; faults = 0 } }
    {
        MemoryDevice {
            alloc,
            taken: Vec::new(alloc),
            calls: Calls::new(fail),
        }
    }

    /// The blocks that they took, each with its run and its device.
    pub fn held(&self) -> &[HandOver]
        ensures { result.now ≡ self.now.taken }
    {
        &self.taken
    }
}

// Keeps a block, or leaves what is kept.
fn keep(
    alloc: Global,
    taken: &mut Vec<HandOver>,
    run: u64,
    device: &Name,
    block: &[u8],
) -> Result<(), AllocError>
    ensures ok { OnOk result (taken.new.items
        ≡ taken.old.items ++ handed_by run device.now (block.now ∷ [])) }
    ensures err { OnErr result (taken.new.items ≡ taken.old.items) }
{
    let block = Seq::of(block.to_vec(alloc)?);
    taken.push(HandOver {
        run,
        device: *device,
        block,
    })?;
    Ok(())
}

impl Device for MemoryDevice {
    ghost meaning = { in_memory };

    /// Keeps the block.
    fn hand(&mut self, run: u64, device: &Name, block: &[u8]) -> Result<(), DeviceFault>
        ensures unlisted { OnOk result (¬ Contains self.old.fail (counted self.old.calls)) }
        ensures ok { OnOk result (self.new ≡ record self.old {
          taken = self.old.taken ++ handed_by run device.now (block.now ∷ []);
          calls = counted self.old.calls;
        }) }
        ensures err { OnErr result (self.new ≡ record self.old {
          calls = counted self.old.calls;
          faults = counted self.old.faults;
        }) }

        ensures handed { OnOk result
            (Takes in_memory run device.now (block.now ∷ []) self.old self.new) }
        ensures refused { OnErr result (Takes in_memory run device.now [] self.old self.new) }
        ensures faults { TellsFaults in_memory self.old self.new (IsErr result) }
    {
        if !self.calls.begin() {
            return Err(DeviceFault);
        }
        if keep(self.alloc, &mut self.taken, run, device, block).is_err() {
            self.calls.count_fault();
            return Err(DeviceFault);
        }
        Ok(())
    }
}
