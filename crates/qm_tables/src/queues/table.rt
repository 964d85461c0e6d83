// The queues in order of their names.
ghost use Rattle.std.specs.Prelude.{◌≡◌, ◌+◌, ◌-◌, ◌<◌, ◌≤◌, [], if◌then◌else◌, is_some, OnErr, OnOk, option_copied};
ghost use Rattle.qm_model.specs.Common.{IsInOrder, name_cmp, queue_named, without_queue, with_queue};
ghost use Rattle.qm_tables.specs.Queues.{with_queue_put, queue_after};
ghost use Rattle.qm_tables.specs.Settings.{with_settings_and_state, with_state};

use crate::queues::settings::Settings;
use qm_keyed::Table;
use qm_kinds::{Name, Queue, QueueState};
use std::alloc::{AllocError, Global};
use std::marker::Model;

/// Queues, each under its name. Contracts see a `Kept`: the queues in order of their names, and how many more have room.
///
/// Only `reserve` takes memory. Each other call asks a logarithm of the queues. A new queue and a removal also move the
/// queues that stand behind.
#[derive(Drop)]
pub struct QueueTable {
    queues: Table<Name, Queue>,
}

impl Model for QueueTable {
    ghost use Rattle.qm_tables.specs.Queues.{Kept};

    ghost Value = { Kept };

    ghost view = { λ t. record { queues = t.queues.rows; spare = t.queues.spare } };
}

impl QueueTable {
    /// No queue, and room for none. It takes no memory.
    pub fn new(alloc: Global) -> QueueTable
        ensures { result ≡ record { queues = []; spare = 0 } }
    {
        QueueTable {
            queues: Table::new(alloc),
        }
    }

    /// These queues, in order of their names. It takes no memory.
    pub fn of(queues: Vec<Queue>) -> QueueTable
        requires { IsInOrder name_cmp (λ q. q.name) queues.items }
        ensures { result.queues ≡ queues.items }
    {
        QueueTable {
            queues: Table::of(queues),
        }
    }

    /// Makes room for one queue more. Where there is room it takes no memory, and succeeds.
    pub fn reserve(&mut self) -> Result<(), AllocError>
        ensures ok { OnOk result (0 < self.new.spare) }
        ensures err { OnErr result (self.old.spare ≡ 0) }
        ensures no_less { self.old.spare ≤ self.new.spare }
        ensures queues { self.new.queues ≡ self.old.queues }
    {
        self.queues.reserve(1)
    }

    /// Puts a queue in its place, for which there is room, and gives the queue of its name that it replaces.
    pub fn put(&mut self, queue: Queue) -> Option<Queue>
        requires room { 0 < self.old.spare }
        ensures replaced { result ≡ queue_named queue.name self.old.queues }
        ensures queues { self.new ≡ record {
          queues = with_queue_put queue self.old.queues;
          spare = if is_some result then self.old.spare else self.old.spare - 1;
        } }
    {
        self.queues.put(queue)
    }

    /// The queue of a name.
    pub fn get(&self, name: &Name) -> Option<&Queue>
        ensures found { option_copied result ≡ queue_named name.now self.now.queues }
        ensures in_order { IsInOrder name_cmp (λ q. q.name) self.now.queues }
    {
        self.queues.get(name)
    }

    /// The queues, in order of their names.
    pub fn as_slice(&self) -> &[Queue]
        ensures queues { result.now ≡ self.now.queues }
        ensures in_order { IsInOrder name_cmp (λ q. q.name) self.now.queues }
    {
        self.queues.as_slice()
    }

    /// Sets the state of the queue of a name, and says whether there is one. Where there is none, nothing changes.
    pub fn set_state(&mut self, name: &Name, state: QueueState) -> bool
        ensures found { result ≡ is_some (queue_named name.now self.old.queues) }
        ensures queues { self.new ≡ record self.old {
          queues = with_queue name.now (with_state state) self.old.queues;
        } }
    {
        self.queues.change(name, |queue| queue.state = state)
    }

    /// Sets what is given of the queue of a name, and its state where one is given, and says whether there is such a queue.
    /// Where there is none, nothing changes.
    pub fn set(&mut self, name: &Name, settings: &Settings, state: Option<QueueState>) -> bool
        ensures found { result ≡ is_some (queue_named name.now self.old.queues) }
        ensures queues { self.new ≡ record self.old {
          queues = with_queue name.now (with_settings_and_state settings.now state) self.old.queues;
        } }
    {
        self.queues.change(name, |queue| {
            settings.apply(queue);
            queue.state = state.unwrap_or(queue.state);
        })
    }

    /// Takes out the queue of a name, and gives it. Where there is none, nothing changes.
    pub fn remove(&mut self, name: &Name) -> Option<Queue>
        ensures removed { result ≡ queue_named name.now self.old.queues }
        ensures queues { self.new ≡ record {
          queues = without_queue name.now self.old.queues;
          spare = if is_some result then self.old.spare + 1 else self.old.spare;
        } }
    {
        self.queues.remove(name)
    }

    /// The queue of the least name that is greater than this one, or of the least name where none is given.
    pub fn after(&self, name: Option<&Name>) -> Option<&Queue>
        ensures next { option_copied result
            ≡ queue_after (option_copied name.entry) self.now.queues }
        ensures in_order { IsInOrder name_cmp (λ q. q.name) self.now.queues }
    {
        match name {
            None => self.queues.as_slice().first(),
            Some(name) => self.queues.after(name),
        }
    }
}
