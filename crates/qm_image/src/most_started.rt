// How many jobs a prepared change starts at most.
ghost use Rattle.qm_image.specs.Preparing.{AreStartsAtMost};

use crate::prepared::Prepared;

impl Prepared<'_> {
    /// At most so many jobs are started when the change is made.
    pub fn most_started(&self) -> usize
        ensures { AreStartsAtMost result self.now }
    {
        self.started.capacity()
    }
}
