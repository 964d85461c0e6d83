// How many runs each queue has, so that they aren't counted anew at each look.
ghost use Rattle.std.specs.Prelude.{◌≡◌, ◌<◌, ◌≤◌, [], length, vec_len, vec_capacity, slice_index_or, OnErr, OnOk};
ghost use Rattle.qm_model.specs.Common.{IsInOrder, name_cmp};
ghost use Rattle.qm_keyed.specs.Places.{IsPlace};
ghost use Rattle.qm_keyed.specs.Rows.{ChangesAt};
ghost use Rattle.qm_tables.specs.declared.runs.counts.RunCount.{RunCount as AnyCount};
ghost use Rattle.qm_tables.specs.declared.runs.limits.TheConstants.{MOST_RUNS};
ghost use Rattle.qm_tables.specs.RunsCounted.{counted, counted_for, one_more, one_less, IsOneMore};

use qm_keyed::put;
use qm_kinds::Name;
use std::alloc::{AllocError, Global};
use std::marker::Model;

/// How many runs a queue has: at least one.
#[derive(Clone, Copy)]
pub(crate) struct RunCount {
    pub(crate) queue: Name,
    pub(crate) runs: u32,
}

/// How many runs each queue has that has any. Contracts see `Counts`: the queues in order of their names, and for how many
/// there is room.
///
/// Only `reserve` takes memory. Each other call asks a logarithm of the queues, and the first run of a queue and its last
/// one move those that stand behind.
#[derive(Drop)]
pub(crate) struct RunCounts {
    counts: Vec<RunCount>,
}

impl Model for RunCounts {
    ghost use Rattle.std.specs.Prelude.{vec_capacity};
    ghost use Rattle.qm_tables.specs.RunsCounted.{Counts, AreByQueue};

    ghost Value = { Counts };

    ghost view = { λ c. record { counts = c.counts.items; room = vec_capacity c.counts } };

    ghost invariant = { λ c. AreByQueue c.counts.items };
}

impl RunCounts {
    /// No run of any queue, and room for none. It takes no memory.
    pub(crate) fn new(alloc: Global) -> RunCounts
        ensures { result ≡ record { counts = []; room = 0 } }
    {
        RunCounts {
            counts: Vec::new(alloc),
        }
    }

    /// Makes room for so many queues in all. Where there is room it takes no memory, and succeeds.
    pub(crate) fn reserve(&mut self, queues: usize) -> Result<(), AllocError>
        ensures ok { OnOk result (queues ≤ self.new.room) }
        ensures err { OnErr result (self.old.room < queues) }
        ensures no_less { self.old.room ≤ self.new.room }
        ensures counts { self.new.counts ≡ self.old.counts }
    {
        if queues <= self.counts.len() {
            return Ok(());
        }
        self.counts.reserve(queues - self.counts.len())
    }

    /// How many runs a queue has.
    pub(crate) fn of_queue(&self, queue: &Name) -> u32
        ensures { result ≡ counted_for queue.now self.now.counts }
    {
        match place_of(&self.counts, queue) {
            Ok(place) => self.counts[place].runs,
            Err(_) => 0,
        }
    }

    /// Counts one run more of a queue. There is room for one queue more, so it takes no memory.
    pub(crate) fn add(&mut self, queue: &Name)
        requires room { length self.old.counts < self.old.room }
        requires few { counted self.old.counts < MOST_RUNS }
        ensures more { IsOneMore queue.now self.old.counts self.new.counts }
        ensures few { length self.new.counts ≤ counted self.new.counts }
        ensures room { self.new.room ≡ self.old.room }
    {
        match place_of(&self.counts, queue) {
            Ok(place) => add_at(&mut self.counts, place),
            Err(place) => put(
                &mut self.counts,
                place,
                RunCount {
                    queue: *queue,
                    runs: 1,
                },
            ),
        }
    }

    /// Counts one run less of a queue, which has one.
    pub(crate) fn take(&mut self, queue: &Name)
        requires some { 0 < counted_for queue.now self.old.counts }
        ensures less { IsOneMore queue.now self.new.counts self.old.counts }
        ensures few { length self.new.counts ≤ counted self.new.counts }
        ensures room { self.new.room ≡ self.old.room }
    {
        let Ok(place) = place_of(&self.counts, queue) else {
            unreachable!()
        };
        if self.counts[place].runs == 1 {
            let _ = self.counts.remove(place);
        } else {
            take_at(&mut self.counts, place);
        }
    }
}

// Where the count of a queue stands, or where one would belong. It asks a logarithm of the queues.
fn place_of(counts: &[RunCount], queue: &Name) -> Result<usize, usize>
    requires { IsInOrder name_cmp (λ c. c.queue) counts.now }
    ensures { IsPlace name_cmp (λ c. c.queue) queue.now counts.now result }
{
    counts.binary_search_by(|count| count.queue.cmp(queue))
}

// Counts one run more at a place.
fn add_at(counts: &mut Vec<RunCount>, place: usize)
    requires within { place < vec_len counts.old }
    requires few { (d : AnyCount) → (slice_index_or counts.old.items place d).runs < MOST_RUNS }
    ensures items { ChangesAt one_more counts.old.items counts.new.items place }
    ensures capacity { vec_capacity counts.new ≡ vec_capacity counts.old }
{
    let count = &mut counts[place];
    count.runs += 1;
}

// Counts one run less at a place, where there are more.
fn take_at(counts: &mut Vec<RunCount>, place: usize)
    requires within { place < vec_len counts.old }
    requires some { (d : AnyCount) → 0 < (slice_index_or counts.old.items place d).runs }
    ensures items { ChangesAt one_less counts.old.items counts.new.items place }
    ensures capacity { vec_capacity counts.new ≡ vec_capacity counts.old }
{
    let count = &mut counts[place];
    count.runs -= 1;
}
