// The tables with the rows of ready jobs, and what is asked of them.
ghost use Rattle.std.specs.Prelude.{◌≡◌, ◌≤◌, ◌<◌, ℕ, [], length, count_by, slice_index_or, vec_len, vec_capacity, None, find, is_some, IfOk, IfSome, OnErr, OnOk, option_copied, option_map};
ghost use Rattle.std.specs.List.{list_any};
ghost use Rattle.std.specs.Ordering.{nat_cmp};
ghost use Rattle.qm_model.specs.Common.{IsInOrder, name_cmp, queue_named, entry_numbered, places_taken, runs_for, occupies, has_run, System};
ghost use Rattle.qm_model.specs.Stopping.{job_meant};
ghost use Rattle.qm_tables.specs.Boxed.{contents};
ghost use Rattle.qm_tables.specs.Tags.{tags_of};
ghost use Rattle.qm_parts.specs.ByRun.{AreByRun};
ghost use Rattle.qm_parts.specs.Runs.{running_in, running_on};
ghost use Rattle.qm_kinds.specs.declared.queue.Queue.{Queue as AnyQueue};
ghost use Rattle.qm_match.specs.Keys.{schedule_of};
ghost use Rattle.qm_ready.specs.Jobs.{IsRowOf as HasJobs, fitting};
ghost use Rattle.qm_parts.specs.Ready.{AreKept, HasReady};
ghost use Rattle.qm_parts.specs.Rooms.{CanPut, HavePlaces, HavePlacesFor, HaveRoom, is_home, rooms_of, HasComingRoom, KeepsRooms};
ghost use Rattle.qm_parts.specs.Tables.{with_tables};
ghost use Rattle.qm_renewal.specs.Renewing.{room_of};

use crate::looks::see_entries;
use crate::names::place_of;
use crate::rooms::{count_at_home, reach, widen, widen_each, widen_home};
use crate::rows::refill_all;
use crate::tables::TableSet;
use qm_kinds::{Characteristic, Entry, Form, Name, Node, Queue, Run};
use qm_match::Schedule;
use qm_ready::ReadyRow;
use qm_tables::{FormTable, QueueTable};
use std::alloc::{AllocError, Global};
use std::marker::Model;

/// Nodes, forms, characteristics, queues, entries, runs and timers, and for each queue a row of the jobs that it can start as
/// soon as it has a place, in the order in which it takes them. Contracts see `Tables`: each of the lists but that of the runs,
/// which are just those of the entries that run or are aborting, the number of the next run, how many more forms,
/// characteristics, queues, entries, runs and timers have room, and for how many jobs each row has. An invariant keeps the rows
/// to the entries.
///
/// Each row has room for the jobs that may come to its queue: those whose home is the queue, or a generic queue that names it,
/// whatever the states of both. Only the calls named `reserve_..` take memory.
#[derive(Drop)]
pub struct Parts {
    pub(crate) alloc: Global,
    pub(crate) tables: TableSet,
    // One for each queue, in order of name, and more for queues that come.
    pub(crate) rows: Vec<ReadyRow>,
    // How many jobs may come to each queue at most, where that is known: then a row that has room for them isn't counted out.
    pub(crate) bounds: Vec<Option<usize>>,
    // For so many more queues there is room in the tables, and a row.
    pub(crate) queue_room: usize,
}

impl Model for Parts {
    ghost use Rattle.qm_parts.specs.Tables.{Tables};
    ghost use Rattle.qm_parts.specs.Ready.{AreKept};
    ghost use Rattle.qm_parts.specs.Rooms.{rooms_of};

    ghost Value = { Tables };

    ghost view = { λ p. record p.tables { spare_queues = p.queue_room; rooms = rooms_of p.rows.items } };

    ghost invariant = { λ p. AreKept p.tables p.rows.items p.bounds.items p.queue_room };
}

// A row with no key, and room for so many.
fn new_row(alloc: Global, most: usize) -> Result<ReadyRow, AllocError>
    ensures { IfOk result (λ row. most ≤ room_of row) }
{
    let mut row = ReadyRow::new(alloc, Schedule::ByNumber);
    row.reserve(most)?;
    Ok(row)
}

// Puts a row for each queue where there are none, each with room for the jobs that may come there. It looks at each entry once for
// each queue.
fn add_rows(alloc: Global, tables: &TableSet, rows: &mut Vec<ReadyRow>) -> Result<(), AllocError>
    requires { rows.old.items ≡ [] }
    ensures count { OnOk result (length rows.new.items ≡ length tables.now.queues) }
    ensures room { OnOk result
        (HaveRoom tables.now.queues tables.now.entries (rooms_of rows.new.items)) }
{
    for queue in tables.queues() {
        let row = new_row(alloc, reach(tables, queue))?;
        rows.push(row)?;
    }
    Ok(())
}

// Says so many times, where nothing is said yet, that nothing is known of how many jobs may come to a queue.
fn add_unknown(bounds: &mut Vec<Option<usize>>, count: usize) -> Result<(), AllocError>
    requires { bounds.old.items ≡ [] }
    ensures count { OnOk result (length bounds.new.items ≡ count) }
    ensures unknown { OnOk result
        ((place : ℕ) → slice_index_or bounds.new.items place None ≡ None) }
{
    for _ in 0..count {
        bounds.push(None)?;
    }
    Ok(())
}

// Puts a row for each queue, with the jobs that are ready, where there are none, and says as often that nothing is known of how many
// jobs may come to it.
fn fill(
    alloc: Global,
    tables: &TableSet,
    rows: &mut Vec<ReadyRow>,
    bounds: &mut Vec<Option<usize>>,
) -> Result<(), AllocError>
    requires rows { rows.old.items ≡ [] }
    requires bounds { bounds.old.items ≡ [] }
    ensures { OnOk result (AreKept tables.now rows.new.items bounds.new.items 0) }
{
    add_rows(alloc, tables, rows)?;
    add_unknown(bounds, rows.len())?;
    refill_all(alloc, tables, rows);
    Ok(())
}

// A row for each queue, with the jobs that are ready, and what is known of how many jobs may come to it.
fn filled_rows(
    alloc: Global,
    tables: &TableSet,
) -> Result<(Vec<ReadyRow>, Vec<Option<usize>>), AllocError>
    ensures { IfOk result (λ made. AreKept tables.now made.0.items made.1.items 0) }
{
    let mut rows = Vec::new(alloc);
    let mut bounds = Vec::new(alloc);
    fill(alloc, tables, &mut rows, &mut bounds)?;
    Ok((rows, bounds))
}

// The tables with their rows, and with what is known of how many jobs may come to each queue.
fn with_rows(alloc: Global, tables: TableSet, filled: (Vec<ReadyRow>, Vec<Option<usize>>)) -> Parts
    requires { AreKept tables filled.0.items filled.1.items 0 }
    ensures { result ≡ record tables { spare_queues = 0; rooms = result.rooms } }
{
    let (rows, bounds) = filled;
    Parts {
        alloc,
        tables,
        rows,
        bounds,
        queue_room: 0,
    }
}

// Makes room for one queue more: in the tables, for its row and for its bound.
fn reserve_one(
    tables: &mut TableSet,
    rows: &mut Vec<ReadyRow>,
    bounds: &mut Vec<Option<usize>>,
) -> Result<(), AllocError>
    ensures ok { OnOk result (0 < tables.new.spare_queues) }
    ensures no_less { tables.old.spare_queues ≤ tables.new.spare_queues }
    ensures tables { tables.new ≡ record tables.old { spare_queues = tables.new.spare_queues } }
    ensures row_place { OnOk result (vec_len rows.new < vec_capacity rows.new) }
    ensures bound_place { OnOk result (vec_len bounds.new < vec_capacity bounds.new) }
    ensures rows { rows.new.items ≡ rows.old.items }
    ensures bounds { bounds.new.items ≡ bounds.old.items }
{
    tables.reserve_queue()?;
    rows.reserve(1)?;
    bounds.reserve(1)
}

impl Parts {
    /// These tables, with the rows of the jobs that are ready. There is room for no further queue. It walks over the entries twice
    /// for each queue that is open, and once for each other one.
    pub fn of(alloc: Global, tables: TableSet) -> Result<Parts, AllocError>
        ensures { IfOk result (λ parts. parts ≡ record tables {
          spare_queues = 0;
          rooms = parts.rooms;
        }) }
    {
        match filled_rows(alloc, &tables) {
            Err(AllocError) => Err(AllocError),
            Ok(filled) => Ok(with_rows(alloc, tables, filled)),
        }
    }

    /// The nodes of the cluster.
    pub fn nodes(&self) -> &[Node]
        ensures { result.now ≡ self.now.nodes }
    {
        self.tables.nodes()
    }

    /// The forms, by number.
    pub fn forms(&self) -> &[Form]
        ensures { result.now ≡ self.now.forms }
    {
        self.tables.forms()
    }

    /// The characteristics, by number.
    pub fn characteristics(&self) -> &[Characteristic]
        ensures { result.now ≡ self.now.characteristics }
    {
        self.tables.characteristics()
    }

    /// The table of the forms and characteristics.
    pub fn form_table(&self) -> &FormTable
        ensures forms { result.now.forms ≡ self.now.forms }
        ensures characteristics { result.now.characteristics ≡ self.now.characteristics }
    {
        self.tables.form_table()
    }

    /// The table of the queues.
    pub fn queue_table(&self) -> &QueueTable
        ensures { result.now.queues ≡ self.now.queues }
    {
        self.tables.queue_table()
    }

    /// The queues, by name.
    pub fn queues(&self) -> &[Queue]
        ensures queues { result.now ≡ self.now.queues }
        ensures in_order { IsInOrder name_cmp (λ q. q.name) self.now.queues }
    {
        self.tables.queues()
    }

    /// The queue of a name. It asks a logarithm of the queues.
    pub fn queue(&self, name: &Name) -> Option<&Queue>
        ensures found { option_copied result ≡ queue_named name.now self.now.queues }
        ensures in_order { IsInOrder name_cmp (λ q. q.name) self.now.queues }
    {
        self.tables.queue(name)
    }

    /// The row of the queue of a name, if there is such a queue: it has the keys of just the jobs that fit the queue, in the
    /// order in which it takes them. That of a generic queue is empty. It asks a logarithm of the queues.
    pub fn ready(&self, name: &Name) -> Option<&ReadyRow>
        ensures found { is_some result ≡ is_some (queue_named name.now self.now.queues) }
        ensures jobs { (s : System) → IfSome (option_copied result)
            (λ row. IfSome (queue_named name.now self.now.queues)
            (λ q. HasJobs (schedule_of q) (fitting (with_tables s self.now) q) row.keys)) }
    {
        see_entries(self);
        match self.row_named(name) {
            None => None,
            Some(row) => {
                let _ = row.len();
                Some(row)
            }
        }
    }

    // The row of the queue of a name, if there is such a queue.
    fn row_named(&self, name: &Name) -> Option<&ReadyRow>
        ensures found { is_some result ≡ is_some (queue_named name.now self.now.queues) }
        ensures jobs { IfSome (option_copied result)
            (λ row. IfSome (queue_named name.now self.now.queues) (λ q. HasReady self.now q row)) }
    {
        match place_of(self.tables.queues(), name) {
            Ok(place) => Some(&self.rows[place]),
            Err(_) => None,
        }
    }

    /// The row of the queue at a place: it has the keys of just the jobs that fit the queue. That of a generic queue is empty.
    pub fn row_at(&self, place: usize) -> &ReadyRow
        requires { place < length self.now.queues }
        ensures { (q : AnyQueue)
            → HasReady self.now (slice_index_or self.now.queues place q) result.now }
    {
        &self.rows[place]
    }

    /// The entries, in order of their numbers.
    pub fn entries(&self) -> &[Box<Entry>]
        ensures { contents result.now ≡ self.now.entries }
    {
        self.tables.entries()
    }

    /// The tags of the entries, in the same order: what `home_tag` gives of the home of each.
    pub fn tags(&self) -> &[u16]
        ensures { result.now ≡ tags_of self.now.entries }
    {
        self.tables.tags()
    }

    /// How many entries there are.
    pub fn entry_count(&self) -> usize
        ensures { result ≡ length self.now.entries }
    {
        self.tables.entry_count()
    }

    /// The entry of a number. It asks a logarithm of the entries.
    pub fn entry(&self, number: u32) -> Option<&Entry>
        ensures found { option_copied result ≡ entry_numbered number self.now.entries }
        ensures in_order { IsInOrder nat_cmp (λ e. e.number) self.now.entries }
    {
        self.tables.entry(number)
    }

    /// The number of the next run.
    pub fn next_run(&self) -> u64
        ensures { result ≡ self.now.next_run }
    {
        self.tables.next_run()
    }

    /// How many places of a queue are taken by runs, aborting or not. It asks a logarithm of the queues that have runs.
    pub fn places_taken(&self, queue: &Name) -> u32
        ensures { result ≡ places_taken self.now.entries queue.now }
    {
        self.tables.places_taken(queue)
    }

    /// Whether a queue has a run, aborting or not. It asks a logarithm of the queues that have runs.
    pub fn is_occupied(&self, queue: &Name) -> bool
        ensures { result ≡ list_any (occupies queue.now) self.now.entries }
    {
        self.tables.is_occupied(queue)
    }

    /// Whether an entry has the run of a number. It asks a logarithm of the runs.
    pub fn has_run(&self, run: u64) -> bool
        ensures { result ≡ list_any (has_run run) self.now.entries }
    {
        self.tables.has_run(run)
    }

    /// The entry that has the run of a number, where it runs on the node. It asks a logarithm of the runs, and one of the
    /// entries.
    pub fn entry_of_run(&self, run: u64, node: &Name) -> Option<&Entry>
        ensures { option_copied result ≡ running_on run node.now self.now.entries }
    {
        self.tables.entry_of_run(run, node)
    }

    /// The runs, in order of their numbers. Those of a node are those of the entries that run or are aborting there.
    pub fn runs(&self) -> &[Run]
        ensures { AreByRun self.now.entries result.now }
    {
        self.tables.runs()
    }

    /// The job that runs in the queue and isn't aborting: the one of the number, or the only one. It looks at each run, and
    /// asks a logarithm of the entries for each one of the queue.
    pub fn running_in(&self, queue: &Name, number: Option<u32>) -> Option<&Entry>
        ensures { option_copied result ≡ job_meant number (running_in queue.now self.now.entries) }
    {
        self.tables.running_in(queue, number)
    }

    /// The least number of an entry that has a run, and has the queue as its home or runs there. It asks a logarithm of the
    /// entries for each run.
    pub fn first_run_for(&self, queue: &Name) -> Option<u32>
        ensures { result ≡ option_map (λ e. e.number) (find (runs_for queue.now) self.now.entries) }
    {
        self.tables.first_run_for(queue)
    }

    /// How many entries have the queue of this name as their home. It looks at each entry once.
    pub fn count_at_home(&self, home: &Name) -> usize
        ensures { result ≡ count_by (is_home home.now) self.now.entries }
    {
        count_at_home(&self.tables, home)
    }

    /// Makes room for so many jobs more in the rows of the queues that jobs of this home may come to. It looks at the entries
    /// only where what it knows of their number doesn't say that there is room.
    pub fn reserve_places(&mut self, home: &Name, more: usize) -> Result<(), AllocError>
        ensures places { OnOk result (HavePlacesFor home.now more self.new) }
        ensures tables { self.new ≡ record self.old { rooms = self.new.rooms } }
    {
        widen_home(&self.tables, &mut self.rows, &mut self.bounds, home, more)
    }

    /// Makes room for one entry more of this home, in the rows too.
    pub fn reserve_entry(&mut self, home: &Name) -> Result<(), AllocError>
        ensures room { OnOk result (0 < self.new.spare_entries) }
        ensures places { OnOk result (HavePlacesFor home.now 1 self.new) }
        ensures tables { self.new ≡ record self.old {
          spare_entries = self.new.spare_entries;
          rooms = self.new.rooms;
        } }
    {
        self.reserve_places(home, 1)?;
        self.tables.reserve_entry()
    }

    // Makes a row for a queue that comes, where there is none.
    fn reserve_row(&mut self) -> Result<(), AllocError>
        ensures ok { OnOk result (0 < self.new.spare_queues) }
        ensures no_less { self.old.spare_queues ≤ self.new.spare_queues }
        ensures tables { self.new ≡ record self.old {
          spare_queues = self.new.spare_queues;
          rooms = self.new.rooms;
        } }
    {
        if self.queue_room > 0 {
            return Ok(());
        }
        reserve_one(&mut self.tables, &mut self.rows, &mut self.bounds)?;
        self.rows
            .push_reserved(ReadyRow::new(self.alloc, Schedule::ByNumber));
        self.bounds.push_reserved(None);
        self.queue_room = 1;
        Ok(())
    }

    // Makes room for so many jobs more in the rows of the queues that a queue names, and in its own, if it is there.
    fn widen_targets(&mut self, queue: &Queue, more: usize) -> Result<(), AllocError>
        ensures places { OnOk result (HavePlaces queue.now.name queue.now.targets more self.new) }
        ensures tables { self.new ≡ record self.old { rooms = self.new.rooms } }
    {
        widen_each(
            &self.tables,
            &mut self.rows,
            &mut self.bounds,
            &queue.name,
            queue.targets.as_slice(),
            more,
        )
    }

    // Makes room in the row for a queue that comes, for the jobs that may come there and for so many more.
    fn widen_coming(&mut self, queue: &Queue, more: usize) -> Result<(), AllocError>
        requires { 0 < self.old.spare_queues }
        ensures room { OnOk result (HasComingRoom queue.now more self.new) }
        ensures others { KeepsRooms self.old self.new }
        ensures tables { self.new ≡ record self.old { rooms = self.new.rooms } }
    {
        let place = self.tables.queues().len();
        let mut bound = None;
        widen(&self.tables, queue, &mut self.rows[place], &mut bound, more)
    }

    /// Makes room for a queue, with a row, and in the rows of the queues that it names for the jobs that have it as their home
    /// already.
    pub fn reserve_queue(&mut self, queue: &Queue) -> Result<(), AllocError>
        ensures ok { OnOk result (CanPut queue.now self.new) }
        ensures tables { self.new ≡ record self.old {
          spare_queues = self.new.spare_queues;
          rooms = self.new.rooms;
        } }
    {
        self.reserve_row()?;
        let jobs = self.count_at_home(&queue.name);
        self.widen_targets(queue, jobs)?;
        self.widen_coming(queue, jobs)?;
        Ok(())
    }

    /// Makes room for so many runs more. Where there is room it takes no memory, and succeeds.
    pub fn reserve_runs(&mut self, count: usize) -> Result<(), AllocError>
        ensures ok { OnOk result (count ≤ self.new.spare_runs) }
        ensures err { OnErr result (self.old.spare_runs < count) }
        ensures no_less { self.old.spare_runs ≤ self.new.spare_runs }
        ensures tables { self.new ≡ record self.old { spare_runs = self.new.spare_runs } }
    {
        self.tables.reserve_runs(count)
    }

    /// Makes room for one form more. Where there is room it takes no memory, and succeeds.
    pub fn reserve_form(&mut self) -> Result<(), AllocError>
        ensures ok { OnOk result (0 < self.new.spare_forms) }
        ensures err { OnErr result (self.old.spare_forms ≡ 0) }
        ensures no_less { self.old.spare_forms ≤ self.new.spare_forms }
        ensures tables { self.new ≡ record self.old { spare_forms = self.new.spare_forms } }
    {
        self.tables.reserve_form()
    }

    /// Makes room for one characteristic more. Where there is room it takes no memory, and succeeds.
    pub fn reserve_characteristic(&mut self) -> Result<(), AllocError>
        ensures ok { OnOk result (0 < self.new.spare_characteristics) }
        ensures err { OnErr result (self.old.spare_characteristics ≡ 0) }
        ensures no_less { self.old.spare_characteristics ≤ self.new.spare_characteristics }
        ensures tables { self.new ≡ record self.old {
          spare_characteristics = self.new.spare_characteristics;
        } }
    {
        self.tables.reserve_characteristic()
    }
}
