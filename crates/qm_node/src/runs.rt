// The runs that a node keeps between two turns.
ghost use Rattle.std.specs.Prelude.{◌≡◌, ◌==◌, ◌≤◌, ◌<◌, ◌-◌, ◌+◌, ◌++◌, [], ℕ, Bool, List, Option, IfOk, IfSome, None, Some, OnErr, OnOk, false, true, filter, find, length, map, not, slice_get, vec_len, vec_capacity, IsSome, option_map};
ghost use Rattle.std.specs.List.{All, cons_option};
ghost use Rattle.std.specs.Ordering.{nat_cmp};
ghost use Rattle.qm_history.specs.Common.{Report, IsInOrder};
ghost use Rattle.qm_kinds.specs.declared.work.Report.TheVariants.{Done, Mark};
ghost use Rattle.qm_model.specs.Kept.{behind_next, kept_after, kept_of, known, next_kept, no_runs, round_of, run_kept, without_steps};
ghost use Rattle.qm_symb.specs.Symbiont.{IsWithinLimits};
ghost use Rattle.qm_node.specs.Duties.{AreLearnable};
ghost use Rattle.qm_node.specs.Held.{HeldRuns, with_learned};
ghost use Rattle.qm_node.specs.Rows.{AreAtPlaces, AreHeld, AreKept, HasNext, IsSound, NextStandsAt, all_bare, bare, seen};
ghost use Rattle.qm_node.specs.Steps.{NextSteps};

use crate::row::{Row, make_step};
use qm_keyed::place_of;
use qm_kinds::{Duty, Place, Report};
use qm_symb::Symbiont;
use std::alloc::{AllocError, Global};
use std::marker::Model;
use std::mem;

/// The runs that a node keeps: what each needs, its place, and the cursor of its symbiont; which of them may step, the next one
/// first; and how many steps are left to a STEP line. Contracts see `HeldRuns`.
///
/// Memory is taken by `known`, `learn` and, where the symbiont takes some, by `step`. What is kept takes the bytes of the runs'
/// texts and less than 2 KiB a run, until the run is forgotten.
///
/// OpenVMS System Manager's Manual, Setting Up and Maintaining Queues, on symbionts.
#[derive(Drop)]
pub struct NodeRuns<Y: Symbiont> {
    alloc: Global,
    // By number.
    rows: Vec<Row<Y::Cursor>>,
    // The numbers of those that may step, the next one first.
    round: Vec<u64>,
    steps: u32,
    // The report of the step that the next run made, until it is told.
    made: Option<Report>,
}

impl<Y: Symbiont> Model for NodeRuns<Y> {
    ghost use Rattle.qm_node.specs.Held.{HeldRuns};
    ghost use Rattle.qm_node.specs.Rows.{AreHeld, seen};

    ghost Value = { HeldRuns };

    ghost view = { λ n. record {
      kept = seen n.rows.items n.round.items n.steps;
      made = n.made;
    } };

    ghost invariant = { λ n. AreHeld Y.stands n.rows.items n.round.items n.made };
}

impl<Y: Symbiont> NodeRuns<Y> {
    /// No run. It takes no memory.
    pub fn new(alloc: Global) -> NodeRuns<Y>
        ensures { result ≡ record { kept = no_runs; made = None } }
    {
        NodeRuns {
            alloc,
            rows: Vec::new(alloc),
            round: Vec::new(alloc),
            steps: 0,
            made: None,
        }
    }

    /// The numbers of the runs, rising.
    pub fn known(&self) -> Result<Vec<u64>, AllocError>
        ensures runs { IfOk result (λ runs. runs.items ≡ known self.now.kept) }
        ensures rising { IfOk result (λ runs. IsInOrder nat_cmp (λ run. run) runs.items) }
    {
        numbers_of(self.alloc, &self.rows)
    }

    /// Learns what a fetch showed, behind which so many steps may follow. Exactly the runs of the duties are kept: one with a
    /// work begins, and any other goes on where it was. At want of memory nothing changes.
    pub fn learn(&mut self, symbiont: &Y, steps: u32, duties: Vec<Duty>) -> Result<(), AllocError>
        requires told { self.old.made ≡ None }
        requires duties { AreLearnable duties.items }
        ensures ok { OnOk result (self.new ≡ with_learned 0 steps duties.items self.old) }
        ensures err { OnErr result (self.new ≡ self.old) }
    {
        self.learn_by(symbiont, 0, steps, duties)
    }

    /// Learns what the fetch of this number showed, as `learn` does. Each run that begins is told by that number from here on.
    pub fn learn_by(
        &mut self,
        symbiont: &Y,
        fetch: u64,
        steps: u32,
        duties: Vec<Duty>,
    ) -> Result<(), AllocError>
        requires told { self.old.made ≡ None }
        requires duties { AreLearnable duties.items }
        ensures ok { OnOk result (self.new ≡ with_learned fetch steps duties.items self.old) }
        ensures err { OnErr result (self.new ≡ self.old) }
    {
        let mut rows = Vec::with_capacity(self.alloc, duties.len())?;
        let mut round = Vec::with_capacity(self.alloc, duties.len())?;
        let old = mem::replace(&mut self.rows, Vec::new(self.alloc));
        move_shown(symbiont, old, fetch, duties, &mut rows);
        fill_round(&rows, &mut round);
        self.rows = rows;
        self.round = round;
        self.steps = steps;
        Ok(())
    }

    /// The number of the run that steps next, if one may step: the one behind the last that stepped, by number, and behind the
    /// greatest the least again.
    pub fn next(&self) -> Option<u64>
        ensures next { result ≡ slice_get self.now.kept.round 0 }
        ensures kept { IsSome result → IsSome (next_kept self.now.kept) }
    {
        self.round.first().copied()
    }

    /// How many steps are left to a STEP line.
    pub fn steps_left(&self) -> u32
        ensures { result ≡ self.now.kept.steps }
    {
        self.steps
    }

    /// Leaves no step, since the node reads on.
    pub fn read_on(&mut self)
        ensures { self.new ≡ record self.old { kept = without_steps self.old.kept } }
    {
        self.steps = 0;
    }

    /// Makes a step of the next run, and gives its report: that of its symbiont, which hands over the blocks before it; or its
    /// end with status 44 where it is to be cut short, for which its symbiont does nothing. The run's place stays until the
    /// report is told.
    ///
    /// At want of memory nothing was handed over: the step can be made again.
    pub fn step(&mut self, symbiont: &mut Y) -> Result<Report, AllocError>
        requires told { self.old.made ≡ None }
        requires next { IsSome (next_kept self.old.kept) }
        ensures made { IfOk result (λ told. self.new ≡ record self.old { made = Some told }) }
        ensures step { IfOk result (λ told.
            NextSteps Y.meaning self.old.kept told symbiont.old symbiont.new) }
        ensures no_memory { OnErr result (self.new ≡ self.old) }
        ensures nothing_handed { OnErr result (symbiont.new ≡ symbiont.old) }
    {
        let report = step_first(symbiont, &mut self.rows, &self.round)?;
        self.made = Some(copy_of(&report));
        Ok(report)
    }

    /// Takes note of how the report of the step was answered. Where that was a checkpoint and the run goes on, it is at the place
    /// behind it, and steps again behind the others; else it is forgotten. It takes no memory.
    pub fn told(&mut self, goes_on: bool)
        requires { IsSome self.old.made }
        ensures { IfSome self.old.made (λ told.
            self.new ≡ record { kept = behind_next self.old.kept told goes_on; made = None }) }
    {
        let Some(made) = self.made.take() else {
            unreachable!()
        };
        settle::<Y>(&mut self.rows, &mut self.round, &made, goes_on);
        self.steps = self.steps.saturating_sub(1);
    }
}

fn numbers_of<C>(alloc: Global, rows: &[Row<C>]) -> Result<Vec<u64>, AllocError>
    ensures { IfOk result (λ runs. runs.items ≡ map (λ row. row.run) rows.now) }
{
    rows.iter().map(|row| row.run).collect(alloc)
}

fn copy_of(report: &Report) -> Report
    ensures { result ≡ report.now }
{
    *report
}

// Where the run stands that steps next.
fn place_of_next<C>(rows: &[Row<C>], round: &[u64]) -> usize
    requires order { IsInOrder nat_cmp (λ row. row.run) rows.now }
    requires next { HasNext rows.now round.now }
    requires some { IsSome (slice_get round.now 0) }
    ensures { NextStandsAt rows.now round.now result }
{
    let Ok(place) = place_of(rows, &round[0]) else {
        unreachable!()
    };
    place
}

// Makes a step of the run that steps next. Its place stays.
fn step_first<Y: Symbiont>(
    symbiont: &mut Y,
    rows: &mut Vec<Row<Y::Cursor>>,
    round: &[u64],
) -> Result<Report, AllocError>
    requires order { IsInOrder nat_cmp (λ row. row.run) rows.old.items }
    requires each { AreAtPlaces Y.stands rows.old.items }
    requires next { HasNext rows.old.items round.now }
    requires some { IsSome (slice_get round.now 0) }
    ensures same { all_bare rows.new.items ≡ all_bare rows.old.items }
    ensures order { IsInOrder nat_cmp (λ row. row.run) rows.new.items }
    ensures sound { IfOk result (λ told.
        All (IsSound Y.stands (Some told) round.now) rows.new.items) }
    ensures step { IfOk result (λ told. (steps : ℕ) →
        NextSteps Y.meaning (seen rows.old.items round.now steps) told symbiont.old symbiont.new) }
    ensures at_places { OnErr result (AreAtPlaces Y.stands rows.new.items) }
    ensures nothing_handed { OnErr result (symbiont.new ≡ symbiont.old) }
{
    let place = place_of_next(rows, round);
    make_step(symbiont, &mut rows[place])
}

// What becomes of the run that made a step, behind its report.
fn settle<Y: Symbiont>(
    rows: &mut Vec<Row<Y::Cursor>>,
    round: &mut Vec<u64>,
    made: &Report,
    goes_on: bool,
)
    requires { AreHeld Y.stands rows.old.items round.old.items (Some made.now) }
    ensures held { AreHeld Y.stands rows.new.items round.new.items None }
    ensures settled { (steps : ℕ) →
        seen rows.new.items round.new.items (steps - 1)
        ≡ behind_next (seen rows.old.items round.old.items steps) made.now goes_on }
{
    match made {
        Report::Mark { next, .. } => {
            if goes_on {
                go_on::<Y>(rows, round, *next)
            } else {
                forget::<Y>(rows, round)
            }
        }
        Report::Done { .. } => forget::<Y>(rows, round),
    }
}

// The run that made a step goes on from a place, behind the others of the round.
fn go_on<Y: Symbiont>(rows: &mut Vec<Row<Y::Cursor>>, round: &mut Vec<u64>, next: Place)
    requires held { (value : List ℕ) ×
        AreHeld Y.stands rows.old.items round.old.items (Some (Mark value next)) }
    ensures held { AreHeld Y.stands rows.new.items round.new.items None }
    ensures settled { (steps : ℕ) (value : List ℕ) →
        seen rows.new.items round.new.items (steps - 1)
        ≡ behind_next (seen rows.old.items round.old.items steps) (Mark value next) true }
{
    let place = place_of_next(rows, round);
    rows[place].place = next;
    round.rotate_left(1);
}

// The run that made a step is known no more.
fn forget<Y: Symbiont>(rows: &mut Vec<Row<Y::Cursor>>, round: &mut Vec<u64>)
    requires held { (made : Option Report) × AreHeld Y.stands rows.old.items round.old.items made }
    requires some { IsSome (slice_get round.old.items 0) }
    ensures held { AreHeld Y.stands rows.new.items round.new.items None }
    ensures settled { (steps status : ℕ) (goes_on : Bool) →
        seen rows.new.items round.new.items (steps - 1)
        ≡ behind_next (seen rows.old.items round.old.items steps) (Done status) goes_on }
{
    let place = place_of_next(rows, round);
    rows.remove(place);
    round.remove(0);
}

// The run as a duty shows it: it begins, or it is taken out of those that were kept, if it is there.
fn take_shown<Y: Symbiont>(
    symbiont: &Y,
    old: &mut Vec<Row<Y::Cursor>>,
    fetch: u64,
    duty: Duty,
) -> Option<Row<Y::Cursor>>
    requires order { IsInOrder nat_cmp (λ row. row.run) old.old.items }
    requires each { AreAtPlaces Y.stands old.old.items }
    requires limits { IfSome duty.work IsWithinLimits }
    ensures shown { option_map bare result ≡ kept_of fetch (all_bare old.old.items) duty duty.work }
    ensures sound { IfSome result (IsSound Y.stands None []) }
    ensures others { (run : ℕ) → (run == duty.run) ≡ false →
        run_kept run (all_bare old.new.items) ≡ run_kept run (all_bare old.old.items) }
    ensures order { IsInOrder nat_cmp (λ row. row.run) old.new.items }
    ensures each { AreAtPlaces Y.stands old.new.items }
{
    let Duty {
        run,
        aborting,
        paused,
        work,
    } = duty;
    match work {
        Some(work) => {
            let begun = symbiont.begin(&work);
            Some(Row {
                run,
                aborting,
                paused,
                work,
                place: begun.at,
                cursor: begun.cursor,
                fetched: fetch,
            })
        }
        None => {
            let Some(mut row) = take_row(old, run) else {
                return None;
            };
            row.aborting = aborting;
            row.paused = paused;
            Some(row)
        }
    }
}

// Takes the row of a number out, if it is there.
fn take_row<C>(rows: &mut Vec<Row<C>>, run: u64) -> Option<Row<C>>
    requires order { IsInOrder nat_cmp (λ row. row.run) rows.old.items }
    ensures taken { result ≡ find (λ row. row.run == run) rows.old.items }
    ensures left { rows.new.items ≡ filter (λ row. not (row.run == run)) rows.old.items }
    ensures order { IsInOrder nat_cmp (λ row. row.run) rows.new.items }
{
    let Ok(place) = place_of(rows, &run) else {
        return None;
    };
    Some(rows.remove(place))
}

// Puts the run that a duty shows behind others, for which there is room.
fn move_one<Y: Symbiont>(
    symbiont: &Y,
    old: &mut Vec<Row<Y::Cursor>>,
    fetch: u64,
    duty: Duty,
    rows: &mut Vec<Row<Y::Cursor>>,
)
    requires order { IsInOrder nat_cmp (λ row. row.run) old.old.items }
    requires each { AreAtPlaces Y.stands old.old.items }
    requires moved { AreAtPlaces Y.stands rows.old.items }
    requires limits { IfSome duty.work IsWithinLimits }
    requires room { vec_len rows.old < vec_capacity rows.old }
    ensures shown { all_bare rows.new.items
        ≡ all_bare rows.old.items
        ++ cons_option (kept_of fetch (all_bare old.old.items) duty duty.work) [] }
    ensures others { (run : ℕ) → (run == duty.run) ≡ false →
        run_kept run (all_bare old.new.items) ≡ run_kept run (all_bare old.old.items) }
    ensures kept { AreKept Y.stands old.new.items }
    ensures moved { AreAtPlaces Y.stands rows.new.items }
    ensures room { (vec_len rows.new ≤ vec_len rows.old + 1)
        × (vec_capacity rows.new ≡ vec_capacity rows.old) }
{
    if let Some(row) = take_shown(symbiont, old, fetch, duty) {
        rows.push_reserved(row);
    }
}

// Fills a list, for which there is room, with the runs that the duties show. It goes from the last duty to the first, so that a
// run which is taken out of those that were kept leaves few behind it to be moved.
fn move_shown<Y: Symbiont>(
    symbiont: &Y,
    mut old: Vec<Row<Y::Cursor>>,
    fetch: u64,
    mut duties: Vec<Duty>,
    rows: &mut Vec<Row<Y::Cursor>>,
)
    requires order { IsInOrder nat_cmp (λ row. row.run) old.items }
    requires each { AreAtPlaces Y.stands old.items }
    requires duties { AreLearnable duties.items }
    requires empty { vec_len rows.old ≡ 0 }
    requires room { vec_len duties ≤ vec_capacity rows.old }
    ensures shown { all_bare rows.new.items ≡ kept_after fetch (all_bare old.items) duties.items }
    ensures order { IsInOrder nat_cmp (λ row. row.run) rows.new.items }
    ensures each { AreAtPlaces Y.stands rows.new.items }
    ensures few { vec_len rows.new ≤ vec_len duties }
{
    while let Some(duty) = duties.pop() {
        move_one(symbiont, &mut old, fetch, duty, rows);
    }
    rows.reverse();
}

// Fills a list, for which there is room, with the numbers of those that may step.
fn fill_round<C>(rows: &[Row<C>], round: &mut Vec<u64>)
    requires empty { vec_len round.old ≡ 0 }
    requires room { length rows.now ≤ vec_capacity round.old }
    ensures { round.new.items ≡ round_of (all_bare rows.now) }
{
    for row in rows {
        if row.may_step() {
            round.push_reserved(row.run);
        }
    }
}
