// What becomes of the tables, with the rows of ready jobs.
ghost use Rattle.std.specs.Prelude.{◌≡◌, ◌≤◌, ◌<◌, ◌+◌, ◌-◌, ◌^◌, ◌++◌, ◌∷◌, [], All, None, Some, false, length, map, find, count_by};
ghost use Rattle.std.specs.Ordering.{nat_cmp};
ghost use Rattle.qm_model.specs.Common.{Pending, END_OF_RUNS, LAST_CHARACTERISTIC, is_characteristic_taken, IsInOrder, entry_at, entry_numbered, is_form_taken, with_form, with_characteristic_defined, run_of, without_queue, runs_for, with_entry, with_queue, when_idle, with_fate, reset_in};
ghost use Rattle.qm_model.specs.Merging.{moved_to, waits_in};
ghost use Rattle.qm_tables.specs.Forms.{without_form, without_characteristic};
ghost use Rattle.qm_tables.specs.Queues.{with_queue_put};
ghost use Rattle.qm_tables.specs.Settings.{with_settings_and_state, with_state};
ghost use Rattle.qm_tables.specs.Changes.{with_changed};
ghost use Rattle.qm_tables.specs.Entries.{without_entry, without_home, without_over};
ghost use Rattle.qm_parts.specs.Runs.{KeepsRun, state_numbered, with_running};
ghost use Rattle.qm_parts.specs.Spare.{KeepsCharacteristicRoom, KeepsFormRoom, room_with, room_without};
ghost use Rattle.qm_parts.specs.Rooms.{AreBounds, CanPut, HavePlacesFor, is_home, HasPlacesIfMoved};

use crate::parts::Parts;
use crate::renewing::{key_before, renew_number};
use crate::rooms::{forget_each, raise_each};
use crate::rows::{close_up, forget_number, make_way, refill_all, refill_for};
use crate::tables::TableSet;
use qm_kinds::{Characteristic, Entry, Fate, Form, Moment, Name, Queue, QueueState};
use qm_tables::Settings;

// For how many more queues there is room once one of this name was put in: it takes the place of any other of its name.
fn room_with(tables: &TableSet, name: &Name, room: usize) -> usize
    requires { 0 < room }
    ensures { result ≡ room_with name.now tables.now.queues room }
{
    match tables.queue(name) {
        Some(_) => room,
        None => room - 1,
    }
}

// For how many more queues there is room once the one of this name went, if there is one.
fn room_without(tables: &TableSet, name: &Name, room: usize) -> usize
    requires { room + 1 < 2 ^ 64 }
    ensures { result ≡ room_without name.now tables.now.queues room }
{
    match tables.queue(name) {
        Some(_) => room + 1,
        None => room,
    }
}

// The bounds once an entry stands in the place of the one of its number: where it has another home, one job more may come to the
// queues that this leads to.
fn raise_moved(tables: &TableSet, bounds: &mut Vec<Option<usize>>, entry: &Entry)
    requires enough { length tables.now.queues ≤ length bounds.old.items }
    requires bounds { AreBounds tables.now.queues tables.now.entries bounds.old.items }
    ensures bounds { AreBounds tables.now.queues
        (with_entry entry.now.number (λ e. Some entry.now) tables.now.entries) bounds.new.items }
    ensures count { length bounds.new.items ≡ length bounds.old.items }
    ensures in_order { IsInOrder nat_cmp (λ e. e.number) tables.now.entries }
{
    let Some(old) = tables.entry(entry.number) else {
        return;
    };
    if old.home != entry.home {
        raise_each(tables, bounds, &entry.home);
    }
}

// One entry comes, goes or changes: its key goes from the rows where it stood, and comes into those where it fits. Where it stays
// it goes to its new place at once.
impl Parts {
    /// Puts in an entry that has no run, and for which there is room, in the rows too. Its number is greater than all others. It moves no
    /// entry.
    pub fn insert_entry(&mut self, entry: Entry)
        requires room { 0 < self.old.spare_entries }
        requires last { All (λ e. e.number < entry.number) self.old.entries }
        requires no_run { run_of entry.state ≡ None }
        requires places { HavePlacesFor entry.home 1 self.old }
        ensures { self.new ≡ record self.old {
          entries = self.old.entries ++ entry ∷ [];
          spare_entries = self.old.spare_entries - 1;
        } }
    {
        let number = entry.number;
        raise_each(&self.tables, &mut self.bounds, &entry.home);
        self.tables.insert_entry(entry);
        renew_number(&self.tables, &mut self.rows, &None, number);
    }

    /// Takes out the entry of a number and the run that it may have, and gives the entry. Where there is none, nothing
    /// changes. It asks logarithms of the entries and the runs, and moves the places that stand behind.
    pub fn remove_entry(&mut self, number: u32) -> Option<Entry>
        ensures removed { result ≡ entry_numbered number self.old.entries }
        ensures room { self.old.spare_runs ≤ self.new.spare_runs }
        ensures tables { self.new ≡ record self.old {
          entries = without_entry number self.old.entries;
          spare_runs = self.new.spare_runs;
        } }
    {
        forget_number(&self.tables, &mut self.rows, number);
        self.tables.remove_entry(number)
    }

    /// Puts an entry in the place of the one of its number, whose run it keeps or has no more. Where there is none, nothing
    /// changes. Where it has another home there is room for it in the rows. It asks logarithms of the entries and the runs, and
    /// moves the runs that stand behind.
    pub fn replace_entry(&mut self, entry: Entry)
        requires places { HasPlacesIfMoved entry self.old }
        requires run { KeepsRun entry self.old.entries }
        ensures room { self.old.spare_runs ≤ self.new.spare_runs }
        ensures tables { self.new ≡ record self.old {
          entries = with_entry entry.number (λ e. Some entry) self.old.entries;
          spare_runs = self.new.spare_runs;
        } }
    {
        let number = entry.number;
        raise_moved(&self.tables, &mut self.bounds, &entry);
        let old = key_before(&self.tables, number);
        self.tables.replace_entry(entry);
        renew_number(&self.tables, &mut self.rows, &old, number);
    }

    /// Makes a pending job run, in a queue and on a node, under the next run number, which it gives. There is room for one
    /// run more. It asks a logarithm of the entries, and one of each queue's ready jobs. The numbers of runs end at 2^63.
    pub fn start(&mut self, number: u32, queue: Name, node: Name) -> u64
        requires room { 0 < self.old.spare_runs }
        requires numbers { self.old.next_run < END_OF_RUNS }
        requires pending { state_numbered number self.old.entries ≡ Some Pending }
        ensures run { result ≡ self.old.next_run }
        ensures tables { self.new ≡ record self.old {
          entries = with_running number queue node self.old.next_run self.old.entries;
          next_run = self.old.next_run + 1;
          spare_runs = self.old.spare_runs - 1;
        } }
    {
        forget_number(&self.tables, &mut self.rows, number);
        self.tables.start(number, queue, node)
    }
}

// What leaves each row as it is: jobs with a run wait for no start, a queue that is stopping starts none, and a job's
// characteristics are kept without their definitions.
impl Parts {
    /// The run of the entry of a number, if it has one, is to be cut short, with this fate. It asks a logarithm of the
    /// entries.
    pub fn set_fate(&mut self, number: u32, fate: Fate)
        ensures { self.new ≡ record self.old {
          entries = with_changed number (with_fate fate) self.old.entries;
        } }
    {
        self.tables.set_fate(number, fate);
    }

    /// The jobs that run in a queue are to be cut short. Those that may restart go back into their queue, and others end. It
    /// looks at each run, and asks a logarithm of the entries for each one of the queue.
    pub fn reset_queue(&mut self, queue: &Name)
        ensures { self.new ≡ record self.old {
          entries = map (reset_in queue.now) self.old.entries;
        } }
    {
        self.tables.reset_queue(queue);
    }

    /// Stops each queue that is stopping and has no run. For each one that is stopping it asks a logarithm of the queues that
    /// have runs.
    pub fn stop_idle(&mut self)
        ensures { self.new ≡ record self.old {
          queues = map (when_idle self.old.entries) self.old.queues;
        } }
    {
        self.tables.stop_idle();
    }

    /// Puts a characteristic in its place by number, which is at most 127. There is room for it, and no characteristic has
    /// its name or its number.
    pub fn define_characteristic(&mut self, characteristic: Characteristic)
        requires room { 0 < self.old.spare_characteristics }
        requires small { characteristic.number ≤ LAST_CHARACTERISTIC }
        requires free { is_characteristic_taken self.old.characteristics characteristic ≡ false }
        ensures { self.new ≡ record self.old {
          characteristics = with_characteristic_defined characteristic self.old.characteristics;
          spare_characteristics = self.old.spare_characteristics - 1;
        } }
    {
        self.tables.define_characteristic(characteristic);
    }

    /// Takes out the characteristic of a name. Where there is none, nothing changes. Its room stays.
    pub fn delete_characteristic(&mut self, name: &Name)
        ensures characteristics { self.new ≡ record self.old {
          characteristics = without_characteristic name.now self.old.characteristics;
          spare_characteristics = self.new.spare_characteristics;
        } }
        ensures room { KeepsCharacteristicRoom self.old self.new }
    {
        self.tables.delete_characteristic(name);
    }
}

// What changes whole rows: they are built anew, by one walk over the entries for each queue that is open. Walks over the entries that a
// call is said to take come in front of these.
impl Parts {
    /// Puts a form in its place by number. There is room for it, and no form has its name or its number.
    pub fn define_form(&mut self, form: Form)
        requires room { 0 < self.old.spare_forms }
        requires free { is_form_taken self.old.forms form ≡ false }
        ensures { self.new ≡ record self.old {
          forms = with_form form self.old.forms;
          spare_forms = self.old.spare_forms - 1;
        } }
    {
        self.tables.define_form(form);
        refill_all(self.alloc, &self.tables, &mut self.rows);
    }

    /// Takes out the form of a name. Where there is none, nothing changes. Its room stays.
    pub fn delete_form(&mut self, name: &Name)
        ensures forms { self.new ≡ record self.old {
          forms = without_form name.now self.old.forms;
          spare_forms = self.new.spare_forms;
        } }
        ensures room { KeepsFormRoom self.old self.new }
    {
        self.tables.delete_form(name);
        refill_all(self.alloc, &self.tables, &mut self.rows);
    }

    /// Sets the state of the queue of a name. Where there is none, nothing changes. It asks a logarithm of the queues.
    pub fn set_queue_state(&mut self, name: &Name, state: QueueState)
        ensures { self.new ≡ record self.old {
          queues = with_queue name.now (with_state state) self.old.queues;
        } }
    {
        self.tables.set_queue_state(name, state);
        refill_for(self.alloc, &self.tables, &mut self.rows, name);
    }

    /// Sets settings of the queue of a name, and its state where one is given. Where there is none, nothing changes.
    pub fn set_queue(&mut self, name: &Name, settings: &Settings, state: Option<QueueState>)
        ensures { self.new ≡ record self.old {
          queues = with_queue name.now (with_settings_and_state settings.now state) self.old.queues;
        } }
    {
        self.tables.set_queue(name, settings, state);
        refill_for(self.alloc, &self.tables, &mut self.rows, name);
    }

    /// Puts a queue in its place by name, for which there is room, with its row. It takes the place of any other of its name. It moves
    /// the queues that stand behind.
    pub fn put_queue(&mut self, queue: Queue)
        requires { CanPut queue self.old }
        ensures { self.new ≡ record self.old {
          queues = with_queue_put queue self.old.queues;
          spare_queues = room_with queue.name self.old.queues self.old.spare_queues;
          rooms = self.new.rooms;
        } }
    {
        self.queue_room = room_with(&self.tables, &queue.name, self.queue_room);
        make_way(self.tables.queues(), &mut self.rows, &queue.name);
        forget_each(&mut self.bounds);
        self.tables.put_queue(queue);
        refill_all(self.alloc, &self.tables, &mut self.rows);
    }

    /// Takes out the queue of a name. Where there is none, nothing changes. It moves the queues that stand behind.
    pub fn remove_queue(&mut self, name: &Name)
        ensures { self.new ≡ record self.old {
          queues = without_queue name.now self.old.queues;
          spare_queues = room_without name.now self.old.queues self.old.spare_queues;
          rooms = self.new.rooms;
        } }
    {
        self.queue_room = room_without(&self.tables, name, self.queue_room);
        close_up(self.tables.queues(), &mut self.rows, name);
        forget_each(&mut self.bounds);
        self.tables.remove_queue(name);
        refill_all(self.alloc, &self.tables, &mut self.rows);
    }

    /// Takes out the entries that are retained until a moment that has come. It looks at each entry once, and writes the tags of
    /// those that stay anew in a second walk.
    pub fn remove_over(&mut self, now: Moment)
        ensures { self.new ≡ record self.old { entries = without_over now self.old.entries } }
    {
        self.tables.remove_over(now);
        refill_all(self.alloc, &self.tables, &mut self.rows);
    }

    /// Makes each entry what the moment finds: a job that waited until then becomes pending. It looks at each entry once.
    pub fn wake(&mut self, now: Moment)
        ensures { self.new ≡ record self.old { entries = map (entry_at now) self.old.entries } }
    {
        self.tables.wake(now);
        refill_all(self.alloc, &self.tables, &mut self.rows);
    }

    /// Gives each job that waits in the queue `from` the home `to`, and tells how many there were. In the rows there is
    /// room for all jobs of that home. It looks at each entry once, and writes the tags of all anew in a second walk.
    pub fn merge(&mut self, to: &Name, from: &Name) -> usize
        requires { HavePlacesFor to.now (count_by (is_home from.now) self.old.entries) self.old }
        ensures entries { self.new ≡ record self.old {
          entries = map (moved_to to.now from.now) self.old.entries;
        } }
        ensures moved { result ≡ count_by (waits_in from.now) self.old.entries }
    {
        let moved = self.tables.merge(to, from);
        forget_each(&mut self.bounds);
        refill_all(self.alloc, &self.tables, &mut self.rows);
        moved
    }

    /// Takes out the entries that have this queue as their home, none of which has a run. It looks at each entry once, and
    /// writes the tags of those that stay anew in a second walk.
    pub fn remove_of_home(&mut self, home: &Name)
        requires { find (runs_for home.now) self.old.entries ≡ None }
        ensures { self.new ≡ record self.old { entries = without_home home.now self.old.entries } }
    {
        self.tables.remove_of_home(home);
        refill_all(self.alloc, &self.tables, &mut self.rows);
    }
}
