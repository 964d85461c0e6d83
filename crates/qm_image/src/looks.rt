// What an image shows.
ghost use Rattle.std.specs.Prelude.{◌≡◌, IfSome, is_some, option_copied};
ghost use Rattle.qm_match.specs.Keys.{schedule_of};
ghost use Rattle.qm_model.specs.Common.{are_numbers_spent, queue_named};
ghost use Rattle.qm_ready.specs.Jobs.{IsRowOf, fitting};
ghost use Rattle.qm_parts.specs.Tables.{with_tables};
ghost use Rattle.qm_image.specs.Image.{system_of};
ghost use Rattle.qm_image.specs.Timers.{AreTimersOf};

use crate::image::Image;
use qm_kinds::{Moment, Name, Node, RUNS_LIMIT};
use qm_parts::Parts;
use qm_ready::ReadyRow;

impl Image {
    /// The nodes of the cluster.
    #[tactic(auto, unfolding(crate::specs::Image::system_of))]
    pub fn nodes(&self) -> &[Node]
        ensures { result.now ≡ (system_of self.now).nodes }
    {
        self.parts.nodes()
    }

    /// The names of the nodes that may be queue manager.
    #[tactic(auto, unfolding(crate::specs::Image::system_of))]
    pub fn may(&self) -> &[Name]
        ensures { result.now ≡ (system_of self.now).may }
    {
        self.may.as_slice()
    }

    /// Whether the numbers of runs are spent.
    #[tactic(auto, unfolding(crate::specs::Image::system_of))]
    pub fn are_run_numbers_spent(&self) -> bool
        ensures { result ≡ are_numbers_spent (system_of self.now) }
    {
        self.parts.next_run() >= RUNS_LIMIT
    }

    /// The moment of the last change.
    #[tactic(auto, unfolding(crate::specs::Image::system_of))]
    pub fn last(&self) -> Moment
        ensures { result ≡ (system_of self.now).last }
    {
        self.last
    }

    /// The row of the queue of a name, if there is such a queue: it has the keys of just the jobs that the queue can start as
    /// soon as it has a place, in the order in which it takes them. It asks a logarithm of the queues.
    #[tactic(auto, unfolding(crate::specs::Image::system_of))]
    pub fn ready(&self, name: &Name) -> Option<&ReadyRow>
        ensures found { is_some result ≡ is_some (queue_named name.now (system_of self.now).queues) }
        ensures jobs { IfSome (option_copied result) (λ row. IfSome (queue_named name.now (system_of self.now).queues)
            (λ q. IsRowOf (schedule_of q) (fitting (system_of self.now) q) row.keys)) }
    {
        self.parts.ready(name)
    }

    /// The tables, whose lists are those of the system. They show for each queue the row of the jobs that it can start, as
    /// `ready` does, and for each entry the moment that it waits for, or until which it is kept.
    #[tactic(auto, unfolding(crate::specs::Image::system_of))]
    pub fn parts(&self) -> &Parts
        ensures tables { with_tables (system_of self.now) result.now ≡ system_of self.now }
        ensures timers { AreTimersOf (system_of self.now).entries result.now.timers }
    {
        &self.parts
    }
}
