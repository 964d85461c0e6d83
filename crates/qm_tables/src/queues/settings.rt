// Settings that a queue is given.
ghost use Rattle.std.specs.Prelude.{◌≡◌};
ghost use Rattle.qm_tables.specs.Settings.{with_settings};

use qm_kinds::{CharacteristicSet, Name, Queue, QueueRetain};

/// Settings of a queue that are given, where the form and the characteristics are known. What is none stays as it is.
#[derive(Clone, Copy)]
pub struct Settings {
    /// How many jobs may run at once, 1 to 255.
    pub limit: Option<u8>,
    pub characteristics: Option<CharacteristicSet>,
    /// The form that is mounted.
    pub mounted: Option<Name>,
    /// The least and the greatest size of a job, in blocks.
    pub sizes: Option<(u32, u32)>,
    /// Whether, of two jobs of one priority, the smaller comes first.
    pub by_size: Option<bool>,
    pub retain: Option<QueueRetain>,
}

impl Settings {
    /// Sets what is given. It takes no memory.
    pub fn apply(&self, queue: &mut Queue)
        ensures { queue.new ≡ with_settings self.now queue.old }
    {
        queue.limit = self.limit.unwrap_or(queue.limit);
        queue.characteristics = self.characteristics.unwrap_or(queue.characteristics);
        queue.mounted = self.mounted.or(queue.mounted);
        queue.lower = self.sizes.map_or(queue.lower, |sizes| sizes.0);
        queue.upper = self.sizes.map_or(queue.upper, |sizes| sizes.1);
        queue.by_size = self.by_size.unwrap_or(queue.by_size);
        queue.retain = self.retain.unwrap_or(queue.retain);
    }
}
