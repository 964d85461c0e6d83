// The runs that have begun and haven't ended.
ghost use Rattle.std.specs.Prelude.{◌≡◌, ◌+◌, ◌-◌, ◌<◌, ◌≤◌, ◌++◌, ◌∷◌, [], if◌then◌else◌, is_some, None, OnErr, OnOk, option_copied, option_map};
ghost use Rattle.std.specs.Ordering.{nat_cmp};
ghost use Rattle.qm_model.specs.Common.{END_OF_RUNS, IsInOrder};
ghost use Rattle.qm_tables.specs.Runs.{run_numbered, with_run, without_run, new_run, places_in_use};

use crate::runs::counts::RunCounts;
use crate::runs::limits::MOST_RUNS;
use qm_keyed::{place_of, put};
use qm_kinds::{Name, Run};
use std::alloc::{AllocError, Global};
use std::marker::Model;

/// The runs that have begun and haven't ended, and the number of the next one. Contracts see a `Begun`: the runs in
/// order of their numbers, that number, and how many more have room.
///
/// Only `reserve` and `reserve_for` take memory. `find`, `put` and `end` ask a logarithm of the runs, and the latter two also move those
/// that stand behind. A start puts its run behind the others. `in_use` asks a logarithm of the queues that have runs, and
/// each change of the runs does too.
#[derive(Drop)]
pub struct Runs {
    runs: Vec<Run>,
    // How many of them each queue has.
    counts: RunCounts,
    next: u64,
}

impl Model for Runs {
    ghost use Rattle.std.specs.Prelude.{◌-◌, min, vec_len, vec_capacity};
    ghost use Rattle.qm_tables.specs.declared.runs.limits.TheConstants.{MOST_RUNS};
    ghost use Rattle.qm_tables.specs.Runs.{Begun};
    ghost use Rattle.qm_tables.specs.RunsNumbered.{AreNumbered};
    ghost use Rattle.qm_tables.specs.RunsCounted.{AreCounted};

    ghost Value = { Begun };

    ghost view = { λ r. record {
      runs = r.runs.items;
      next = r.next;
      spare = min (min (vec_capacity r.runs) r.counts.room) MOST_RUNS - vec_len r.runs;
    } };

    ghost invariant = { λ r. AreNumbered r.runs.items r.next × AreCounted r.runs.items r.counts };
}

impl Runs {
    /// No run, and room for none. The first one that starts has the number `next`. It takes no memory.
    pub fn new(alloc: Global, next: u64) -> Runs
        ensures { result ≡ record { runs = []; next = next; spare = 0 } }
    {
        Runs {
            runs: Vec::new(alloc),
            counts: RunCounts::new(alloc),
            next,
        }
    }

    /// Makes room for one run more. Where there is room it takes no memory, and succeeds. It fails for want of memory, and
    /// where there are 4,294,967,295 runs.
    pub fn reserve(&mut self) -> Result<(), AllocError>
        ensures ok { OnOk result (0 < self.new.spare) }
        ensures err { OnErr result (self.old.spare ≡ 0) }
        ensures no_less { self.old.spare ≤ self.new.spare }
        ensures runs { self.new ≡ record self.old { spare = self.new.spare } }
    {
        self.reserve_for(1)
    }

    /// Makes room for so many runs more. Where there is room it takes no memory, and succeeds. It fails for want of memory,
    /// and where there would be more than 4,294,967,295 runs.
    pub fn reserve_for(&mut self, count: usize) -> Result<(), AllocError>
        ensures ok { OnOk result (count ≤ self.new.spare) }
        ensures err { OnErr result (self.old.spare < count) }
        ensures no_less { self.old.spare ≤ self.new.spare }
        ensures runs { self.new ≡ record self.old { spare = self.new.spare } }
    {
        if MOST_RUNS < self.runs.len() || MOST_RUNS - self.runs.len() < count {
            return Err(AllocError);
        }
        self.counts.reserve(self.runs.len() + count)?;
        self.runs.reserve(count)
    }

    /// Puts in a run that has begun, for which there is room. Its number is below the next one, and no run has it.
    pub fn put(&mut self, run: Run)
        requires room { 0 < self.old.spare }
        requires below { run.run < self.old.next }
        requires absent { run_numbered run.run self.old.runs ≡ None }
        ensures { self.new ≡ record self.old {
          runs = with_run run self.old.runs;
          spare = self.old.spare - 1;
        } }
    {
        let Err(place) = place_of(&self.runs, &run.run) else {
            unreachable!()
        };
        self.counts.add(&run.queue);
        put(&mut self.runs, place, run);
    }

    /// Begins a run, for which there is room, under the next number, which it gives. The numbers of runs end at 2^63.
    pub fn start(&mut self, entry: u32, queue: Name, node: Name) -> u64
        requires room { 0 < self.old.spare }
        requires numbers { self.old.next < END_OF_RUNS }
        ensures number { result ≡ self.old.next }
        ensures runs { self.new ≡ record {
          runs = self.old.runs ++ new_run self.old.next entry queue node ∷ [];
          next = self.old.next + 1;
          spare = self.old.spare - 1;
        } }
    {
        let run = self.next;
        self.counts.add(&queue);
        self.runs.push_reserved(Run {
            run,
            entry,
            queue,
            node,
        });
        self.next += 1;
        run
    }

    /// Takes out the run of a number, and gives its entry. Where no run has the number it gives none, and nothing changes.
    pub fn end(&mut self, run: u64) -> Option<u32>
        ensures entry { result ≡ option_map (λ r. r.entry) (run_numbered run self.old.runs) }
        ensures runs { self.new ≡ record self.old {
          runs = without_run run self.old.runs;
          spare = if is_some result then self.old.spare + 1 else self.old.spare;
        } }
    {
        let Ok(place) = place_of(&self.runs, &run) else {
            return None;
        };
        let ended = self.runs.remove(place);
        self.counts.take(&ended.queue);
        Some(ended.entry)
    }

    /// How many runs the queue has.
    pub fn in_use(&self, queue: &Name) -> u32
        ensures { result ≡ places_in_use queue.now self.now.runs }
    {
        self.counts.of_queue(queue)
    }

    /// The run of a number.
    pub fn find(&self, run: u64) -> Option<&Run>
        ensures found { option_copied result ≡ run_numbered run self.now.runs }
        ensures in_order { IsInOrder nat_cmp (λ r. r.run) self.now.runs }
    {
        let Ok(place) = place_of(&self.runs, &run) else {
            return None;
        };
        Some(&self.runs[place])
    }

    /// The runs, in order of their numbers.
    pub fn as_slice(&self) -> &[Run]
        ensures runs { result.now ≡ self.now.runs }
        ensures in_order { IsInOrder nat_cmp (λ r. r.run) self.now.runs }
    {
        self.runs.as_slice()
    }

    /// The number of the next run.
    pub fn next(&self) -> u64
        ensures { result ≡ self.now.next }
    {
        self.next
    }
}
