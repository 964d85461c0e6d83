// The tables that belong together.
ghost use Rattle.std.specs.Prelude.{◌≡◌, ◌≤◌, ◌<◌, length, OnErr, OnOk, [], option_copied};
ghost use Rattle.std.specs.Ordering.{nat_cmp};
ghost use Rattle.qm_model.specs.Common.{IsInOrder, name_cmp, queue_named, entry_numbered};
ghost use Rattle.qm_tables.specs.Boxed.{contents};
ghost use Rattle.qm_tables.specs.Tags.{tags_of};

use crate::names::place_of;
use qm_kinds::{Characteristic, Entry, Form, Name, Node, Queue, Seq};
use qm_tables::{EntryTable, FormTable, QueueTable, Runs, Timers};
use std::alloc::{AllocError, Global};
use std::marker::Model;

/// Nodes, forms, characteristics, queues, entries, runs and timers, without the rows of ready jobs: what is opened, and what
/// `Parts` stands on. Contracts see `Tables`: each of the lists but that of the runs, which are just those of the entries that
/// run or are aborting, the number of the next run, and how many more forms, characteristics, queues, entries, runs and timers
/// have room.
///
/// Only the calls named `reserve_..` take memory.
#[derive(Drop)]
pub struct TableSet {
    pub(crate) nodes: Vec<Node>,
    pub(crate) forms: FormTable,
    pub(crate) queues: QueueTable,
    pub(crate) entries: EntryTable,
    pub(crate) runs: Runs,
    /// The moments that entries wait for, and those until which they are kept, each under the entry's number.
    pub(crate) timers: Timers,
}

impl Model for TableSet {
    ghost use Rattle.std.specs.Prelude.{[]};
    ghost use Rattle.qm_parts.specs.Tables.{Tables};
    ghost use Rattle.qm_parts.specs.Mirror.{Mirrors};

    ghost Value = { Tables };

    ghost view = { λ p. record {
      nodes = p.nodes.items;
      forms = p.forms.forms;
      characteristics = p.forms.characteristics;
      queues = p.queues.queues;
      entries = p.entries.entries;
      next_run = p.runs.next;
      timers = p.timers.timers;
      spare_forms = p.forms.spare_forms;
      spare_characteristics = p.forms.spare_characteristics;
      spare_queues = p.queues.spare;
      spare_entries = p.entries.spare;
      spare_runs = p.runs.spare;
      spare_timers = p.timers.spare;
      rooms = [];
    } };

    ghost invariant = { λ p. Mirrors p.runs.runs p.entries.entries };
}

impl TableSet {
    /// These nodes, forms, characteristics and queues, no entry and no timer, and room for none. It takes no memory.
    pub fn new(
        alloc: Global,
        nodes: Seq<Node>,
        forms: FormTable,
        queues: QueueTable,
        next_run: u64,
    ) -> TableSet
        ensures { result ≡ record {
          nodes = nodes;
          forms = forms.forms;
          characteristics = forms.characteristics;
          queues = queues.queues;
          entries = [];
          next_run = next_run;
          timers = [];
          spare_forms = forms.spare_forms;
          spare_characteristics = forms.spare_characteristics;
          spare_queues = queues.spare;
          spare_entries = 0;
          spare_runs = 0;
          spare_timers = 0;
          rooms = [];
        } }
    {
        TableSet {
            nodes: nodes.into_vec(),
            forms,
            queues,
            entries: EntryTable::new(alloc),
            runs: Runs::new(alloc, next_run),
            timers: Timers::new(alloc),
        }
    }

    /// The nodes of the cluster.
    pub fn nodes(&self) -> &[Node]
        ensures { result.now ≡ self.now.nodes }
    {
        self.nodes.as_slice()
    }

    /// The forms, by number.
    pub fn forms(&self) -> &[Form]
        ensures { result.now ≡ self.now.forms }
    {
        self.forms.forms()
    }

    /// The characteristics, by number.
    pub fn characteristics(&self) -> &[Characteristic]
        ensures { result.now ≡ self.now.characteristics }
    {
        self.forms.characteristics()
    }

    /// The table of the forms and characteristics.
    pub fn form_table(&self) -> &FormTable
        ensures forms { result.now.forms ≡ self.now.forms }
        ensures characteristics { result.now.characteristics ≡ self.now.characteristics }
    {
        &self.forms
    }

    /// The table of the queues.
    pub fn queue_table(&self) -> &QueueTable
        ensures { result.now.queues ≡ self.now.queues }
    {
        &self.queues
    }

    /// The queues, by name.
    pub fn queues(&self) -> &[Queue]
        ensures queues { result.now ≡ self.now.queues }
        ensures in_order { IsInOrder name_cmp (λ q. q.name) self.now.queues }
    {
        self.queues.as_slice()
    }

    /// The queue of a name. It asks a logarithm of the queues.
    pub fn queue(&self, name: &Name) -> Option<&Queue>
        ensures found { option_copied result ≡ queue_named name.now self.now.queues }
        ensures in_order { IsInOrder name_cmp (λ q. q.name) self.now.queues }
    {
        let queues = self.queues.as_slice();
        match place_of(queues, name) {
            Ok(place) => Some(&queues[place]),
            Err(_) => None,
        }
    }

    /// The entries, in order of their numbers.
    pub fn entries(&self) -> &[Box<Entry>]
        ensures { contents result.now ≡ self.now.entries }
    {
        self.entries.as_slice()
    }

    /// The tags of the entries, in the same order: what `home_tag` gives of the home of each.
    pub fn tags(&self) -> &[u16]
        ensures { result.now ≡ tags_of self.now.entries }
    {
        self.entries.tags()
    }

    /// How many entries there are.
    pub fn entry_count(&self) -> usize
        ensures { result ≡ length self.now.entries }
    {
        self.entries.len()
    }

    /// The entry of a number. It asks a logarithm of the entries.
    pub fn entry(&self, number: u32) -> Option<&Entry>
        ensures found { option_copied result ≡ entry_numbered number self.now.entries }
        ensures in_order { IsInOrder nat_cmp (λ e. e.number) self.now.entries }
    {
        self.entries.get(number)
    }

    /// The number of the next run.
    pub fn next_run(&self) -> u64
        ensures { result ≡ self.now.next_run }
    {
        self.runs.next()
    }

    /// Makes room for one entry more. Where there is room it takes no memory, and succeeds.
    pub fn reserve_entry(&mut self) -> Result<(), AllocError>
        ensures ok { OnOk result (0 < self.new.spare_entries) }
        ensures err { OnErr result (self.old.spare_entries ≡ 0) }
        ensures no_less { self.old.spare_entries ≤ self.new.spare_entries }
        ensures tables { self.new ≡ record self.old { spare_entries = self.new.spare_entries } }
    {
        self.entries.reserve()
    }

    /// Makes room for one queue more. Where there is room it takes no memory, and succeeds.
    pub fn reserve_queue(&mut self) -> Result<(), AllocError>
        ensures ok { OnOk result (0 < self.new.spare_queues) }
        ensures err { OnErr result (self.old.spare_queues ≡ 0) }
        ensures no_less { self.old.spare_queues ≤ self.new.spare_queues }
        ensures tables { self.new ≡ record self.old { spare_queues = self.new.spare_queues } }
    {
        self.queues.reserve()
    }

    /// Makes room for so many runs more. Where there is room it takes no memory, and succeeds.
    pub fn reserve_runs(&mut self, count: usize) -> Result<(), AllocError>
        ensures ok { OnOk result (count ≤ self.new.spare_runs) }
        ensures err { OnErr result (self.old.spare_runs < count) }
        ensures no_less { self.old.spare_runs ≤ self.new.spare_runs }
        ensures tables { self.new ≡ record self.old { spare_runs = self.new.spare_runs } }
    {
        self.runs.reserve_for(count)
    }
}
