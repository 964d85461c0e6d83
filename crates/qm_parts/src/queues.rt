// What becomes of queues.
ghost use Rattle.std.specs.Prelude.{◌≡◌, ◌<◌, length, map};
ghost use Rattle.qm_model.specs.Common.{without_queue, with_queue, when_idle};
ghost use Rattle.qm_tables.specs.Queues.{with_queue_put};
ghost use Rattle.qm_tables.specs.Settings.{with_settings_and_state, with_state};
ghost use Rattle.qm_parts.specs.Mirror.{stopped_unless_used};
ghost use Rattle.qm_parts.specs.Spare.{room_with, room_without};
ghost use Rattle.qm_parts.specs.Stopping.{StopsAt};

use crate::tables::TableSet;
use qm_kinds::{Name, Queue, QueueState};
use qm_tables::{QueueTable, Runs, Settings};

impl TableSet {
    /// Sets the state of the queue of a name. Where there is none, nothing changes. It asks a logarithm of the queues.
    pub fn set_queue_state(&mut self, name: &Name, state: QueueState)
        ensures { self.new ≡ record self.old {
          queues = with_queue name.now (with_state state) self.old.queues;
        } }
    {
        self.queues.set_state(name, state);
    }

    /// Sets settings of the queue of a name, and its state where one is given. Where there is none, nothing changes.
    pub fn set_queue(&mut self, name: &Name, settings: &Settings, state: Option<QueueState>)
        ensures { self.new ≡ record self.old {
          queues = with_queue name.now (with_settings_and_state settings.now state) self.old.queues;
        } }
    {
        self.queues.set(name, settings, state);
    }

    /// Puts a queue in its place by name, for which there is room. It takes the place of any other of its name. It moves
    /// the queues that stand behind.
    pub fn put_queue(&mut self, queue: Queue)
        requires { 0 < self.old.spare_queues }
        ensures { self.new ≡ record self.old {
          queues = with_queue_put queue self.old.queues;
          spare_queues = room_with queue.name self.old.queues self.old.spare_queues;
        } }
    {
        let _ = self.queues.put(queue);
    }

    /// Takes out the queue of a name. Where there is none, nothing changes. It moves the queues that stand behind.
    pub fn remove_queue(&mut self, name: &Name)
        ensures { self.new ≡ record self.old {
          queues = without_queue name.now self.old.queues;
          spare_queues = room_without name.now self.old.queues self.old.spare_queues;
        } }
    {
        let _ = self.queues.remove(name);
    }

    /// Stops each queue that is stopping and has no run. For each one that is stopping it asks a logarithm of the queues that
    /// have runs.
    pub fn stop_idle(&mut self)
        ensures { self.new ≡ record self.old {
          queues = map (when_idle self.old.entries) self.old.queues;
        } }
    {
        stop_unused(&mut self.queues, &self.runs);
    }
}

// Stops each queue that is stopping and has none of the runs.
fn stop_unused(queues: &mut QueueTable, runs: &Runs)
    ensures { queues.new ≡ record queues.old {
      queues = map (stopped_unless_used runs.now.runs) queues.old.queues;
    } }
{
    for place in 0..queues.as_slice().len() {
        stop_if_unused(queues, runs, place);
    }
}

// Stops the queue at a place, if it is stopping and has none of the runs.
fn stop_if_unused(queues: &mut QueueTable, runs: &Runs, place: usize)
    requires { place < length queues.old.queues }
    ensures { StopsAt place runs.now.runs queues.old queues.new }
{
    let queue = &queues.as_slice()[place];
    if queue.state != QueueState::Stopping || runs.in_use(&queue.name) > 0 {
        return;
    }
    let name = queue.name;
    queues.set_state(&name, QueueState::Stopped);
}
