// Where a node is in its course, and how it goes on.
ghost use Rattle.std.specs.Prelude.{◌≡◌, ℕ, [], None, IfOk, IfSome, IsSome, OnErr, OnOk, drop, option_map};
ghost use Rattle.qm_history.specs.Course.{at_first, behind_fetch, behind_line, goes_on, is_marked, next_at, own_stage, stage_behind, stage_for};
ghost use Rattle.qm_history.specs.Common.{steps_asked, known, next_kept};
ghost use Rattle.qm_history.specs.Scans.{Scans as Begun};
ghost use Rattle.qm_script.specs.ClusterLines.{user_line_view, user_lines_view};
ghost use Rattle.qm_node.specs.Node.{CanBeHeard, CanBeMade, ComesNext, Hears, HearsReport, IsCallOf, IsMadeFor, IsTurn, TellsOne, duties_in, ends_recording, is_spent, kept_fetched, kept_heard, node_behind_fetch, node_behind_line, stage_fetched, stage_view};
ghost use Rattle.qm_line.specs.Asked.{line_with};

use crate::course::{Asked, Next, Stage, next_reading, next_working};
use crate::runs::NodeRuns;
use qm_disk::Clock;
use qm_history::{Answer, Call};
use qm_kinds::{Act, Duty, Moment, Refusal, Seq};
use qm_line::read_line;
use qm_scans::Scans;
use qm_script::{LineSort, UserLine, steps_of};
use qm_symb::Symbiont;
use std::alloc::{AllocError, Global};
use std::marker::Model;

/// Where a node is in its course: what it is about, its lines that are left, and the runs that it keeps. Contracts see a
/// `HeldNode`. It makes no turn itself: `next` tells what comes next, `call` makes the call of that, and `hear` takes its answer
/// in.
///
/// OpenVMS System Manager's Manual, Setting Up and Maintaining Queues, on symbionts.
#[derive(Drop)]
pub struct NodeState<'a, Y: Symbiont> {
    alloc: Global,
    stage: Stage,
    lines: &'a [UserLine<'a>],
    runs: NodeRuns<Y>,
}

impl<'a, Y: Symbiont> Model for NodeState<'a, Y> {
    ghost use Rattle.qm_script.specs.ClusterLines.{user_lines_view};
    ghost use Rattle.qm_node.specs.Node.{HeldNode, stage_view};

    ghost Value = { HeldNode };

    ghost view = { λ n. record {
      state = record { stage = stage_view n.stage; lines = user_lines_view n.lines.now; kept = n.runs.kept };
      made = n.runs.made;
    } };
}

// The duties that an answer shows, if it shows some.
fn duties_in(answer: Answer) -> Option<Vec<Duty>>
    ensures { option_map (λ duties. duties.items) result ≡ duties_in answer }
{
    match answer {
        Answer::Duties { duties, .. } => Some(duties.into_vec()),
        other => {
            drop(other);
            None
        }
    }
}

// Whether a checkpoint was recorded.
fn is_marked(act: &Act) -> bool
    ensures { result ≡ is_marked act.now }
{
    match act {
        Act::Marked { .. } => true,
        _ => false,
    }
}

// Whether the run goes on that reported a checkpoint.
fn goes_on(answer: &Answer) -> bool
    ensures { result ≡ goes_on answer.now }
{
    match answer {
        Answer::Done { reply, .. } => is_marked(&reply.act),
        _ => false,
    }
}

fn is_spent(refusal: &Refusal) -> bool
    ensures { result ≡ is_spent refusal.now }
{
    match refusal {
        Refusal::NumbersSpent => true,
        _ => false,
    }
}

// Whether nothing more can be recorded.
fn ends_recording(answer: &Answer) -> bool
    ensures { result ≡ ends_recording answer.now }
{
    match answer {
        Answer::Full { .. } => true,
        Answer::Refused { refusal, .. } => is_spent(refusal),
        _ => false,
    }
}

// What a node is about behind an answer: in its own turns the answer that nothing more can be recorded ends them.
fn stage_behind(stage: Stage, answer: &Answer) -> Stage
    ensures { stage_view result ≡ stage_behind (stage_view stage) answer.now }
{
    match stage {
        Stage::Working => {
            if ends_recording(answer) {
                Stage::Leaving
            } else {
                Stage::Working
            }
        }
        other => other,
    }
}

// The lines behind the first one.
fn behind_first<'a>(lines: &'a [UserLine<'a>]) -> &'a [UserLine<'a>]
    ensures { user_lines_view result.now ≡ drop 1 (user_lines_view lines.now) }
{
    match lines {
        [] => lines,
        [_, rest @ ..] => rest,
    }
}

// What a node keeps of its runs behind the answer of a line, where so many steps may follow if it is a STEP line.
fn hear_steps<Y: Symbiont>(
    runs: &mut NodeRuns<Y>,
    symbiont: &Y,
    turns: u64,
    steps: Option<u32>,
    answer: Answer,
) -> Result<(), AllocError>
    requires told { runs.old.made ≡ None }
    requires duties { CanBeHeard answer }
    ensures heard { OnOk result (runs.new
        ≡ record runs.old { kept = kept_heard turns runs.old.kept steps answer }) }
    ensures no_memory { OnErr result (runs.new ≡ runs.old) }
{
    let Some(steps) = steps else {
        drop(answer);
        runs.read_on();
        return Ok(());
    };
    match duties_in(answer) {
        Some(duties) => runs.learn_by(symbiont, turns, steps, duties),
        None => {
            runs.read_on();
            Ok(())
        }
    }
}

// What a node is about where these runs may step.
fn stage_for<Y: Symbiont>(runs: &NodeRuns<Y>) -> Stage
    ensures { stage_view result ≡ stage_for runs.now.kept.round }
{
    match runs.next() {
        Some(_) => Stage::Working,
        None => Stage::Leaving,
    }
}

// What a node keeps of its runs behind the answer of a fetch of its own, and what it is about then.
fn hear_duties<Y: Symbiont>(
    runs: &mut NodeRuns<Y>,
    symbiont: &Y,
    turns: u64,
    answer: Answer,
) -> Result<Stage, AllocError>
    requires told { runs.old.made ≡ None }
    requires duties { CanBeHeard answer }
    ensures heard { OnOk result (runs.new
        ≡ record runs.old { kept = kept_fetched turns runs.old.kept answer }) }
    ensures stage { IfOk result (λ stage.
        stage_view stage ≡ stage_fetched turns runs.old.kept answer) }
    ensures no_memory { OnErr result (runs.new ≡ runs.old) }
{
    match duties_in(answer) {
        Some(duties) => {
            runs.learn_by(symbiont, turns, 0, duties)?;
            Ok(stage_for(runs))
        }
        None => Ok(Stage::Leaving),
    }
}

impl<'a, Y: Symbiont> NodeState<'a, Y> {
    /// A node at the beginning of its lines, with no run.
    pub fn new(alloc: Global, lines: &'a [UserLine<'a>]) -> NodeState<'a, Y>
        ensures { result ≡ record { state = at_first (user_lines_view lines.now); made = None } }
    {
        NodeState {
            alloc,
            stage: Stage::Reading,
            lines,
            runs: NodeRuns::new(alloc),
        }
    }

    /// What comes next, if something does, in a node that is live or not.
    pub fn next(&self, live: bool) -> Option<Next<'a>>
        ensures next { IsTurn (next_at live self.now.state self.now.state.stage) result }
        ensures can { IfSome result (CanBeMade self.now.state) }
    {
        match self.stage {
            Stage::Reading => {
                next_reading(live, self.runs.steps_left(), self.runs.next(), self.lines)
            }
            Stage::Fetching => Some(Next::Fetch),
            Stage::Working => next_working(self.runs.next()),
            Stage::Leaving => Some(Next::Leave),
            Stage::Over => None,
        }
    }

    // The runs of which the reader of a line is told: an act alone may ask for them.
    fn known_for(&self, line: &UserLine<'_>) -> Result<Vec<u64>, AllocError>
        ensures { (now : ℕ) (begun : Begun) → IfOk result (λ runs.
            line_with (user_line_view line.now) now begun runs.items
            ≡ line_with (user_line_view line.now) now begun (known self.now.state.kept)) }
    {
        match line.sort {
            LineSort::Act => self.runs.known(),
            LineSort::Command | LineSort::Items => Ok(Vec::new(self.alloc)),
        }
    }

    // The call of a line, which is read at a moment, where the node has begun these listings.
    fn call_of_line(
        &self,
        line: &UserLine<'_>,
        now: Moment,
        begun: &Scans,
    ) -> Result<Call, AllocError>
        ensures { IfOk result (λ call. call ≡ Call.Line line.now.number
            (line_with (user_line_view line.now) now begun.now (known self.now.state.kept))) }
    {
        let known = self.known_for(line)?;
        // A `?` would move what was read once more.
        match read_line(self.alloc, line, now, begun, &known) {
            Ok(input) => Ok(Call::Line {
                line: line.number,
                input,
            }),
            Err(error) => Err(error),
        }
    }

    // The call of a fetch.
    fn call_of_fetch(&self) -> Result<Call, AllocError>
        ensures { IfOk result (λ call. call ≡ Call.Fetch (known self.now.state.kept)) }
    {
        Ok(Call::Fetch {
            known: Seq::of(self.runs.known()?),
        })
    }

    /// Makes the call of what comes next, with one reading of the clock: before a line is read, and behind the step of a run,
    /// which its symbiont makes. A line by an item list goes on with the listings that the node has begun. At want of memory
    /// nothing else changed: no block was handed over.
    pub fn call<C: Clock>(
        &mut self,
        next: &Next<'a>,
        begun: &Scans,
        clock: &mut C,
        symbiont: &mut Y,
    ) -> Result<Asked, AllocError>
        requires told { self.old.made ≡ None }
        requires next { ComesNext self.old.state next.now }
        requires can { CanBeMade self.old.state next.now }
        ensures call { IfOk result (λ asked.
            IsCallOf Y.meaning begun.now next.now self.old.state asked self.new symbiont.old symbiont.new) }
        ensures clock { TellsOne (C.told clock.old) (C.told clock.new) result }
        ensures no_memory { OnErr result (self.new ≡ self.old) }
        ensures nothing_handed { OnErr result (symbiont.new ≡ symbiont.old) }
    {
        match next {
            Next::Line(line) => {
                let moment = clock.tell();
                match self.call_of_line(line, moment, begun) {
                    Ok(call) => Ok(Asked { moment, call }),
                    Err(error) => Err(error),
                }
            }
            Next::Step(run) => {
                let stepped = self.runs.step(symbiont);
                let moment = clock.tell();
                let call = Call::Report {
                    run: *run,
                    report: stepped?,
                };
                Ok(Asked { moment, call })
            }
            Next::Fetch => {
                let moment = clock.tell();
                let call = self.call_of_fetch()?;
                Ok(Asked { moment, call })
            }
            Next::Leave => Ok(Asked {
                moment: clock.tell(),
                call: Call::Leave,
            }),
        }
    }

    // Takes the answer of a line in.
    fn hear_line(
        &mut self,
        line: &UserLine<'_>,
        turns: u64,
        answer: Answer,
        symbiont: &Y,
    ) -> Result<(), AllocError>
        requires told { self.old.made ≡ None }
        requires duties { CanBeHeard answer }
        ensures heard { OnOk result (self.new
            ≡ node_behind_line turns self.old.state (user_line_view line.now) answer) }
        ensures no_memory { OnErr result (self.new ≡ self.old) }
    {
        hear_steps(&mut self.runs, symbiont, turns, steps_of(line), answer)?;
        self.lines = behind_first(self.lines);
        Ok(())
    }

    // Takes the answer of a report in.
    fn hear_report(&mut self, answer: &Answer)
        requires made { IsSome self.old.made }
        requires kept { IsSome (next_kept self.old.state.kept) }
        ensures { HearsReport self.old answer.now self.new }
    {
        self.runs.told(goes_on(answer));
        self.stage = stage_behind(self.stage, answer);
    }

    // Takes the answer of a fetch of the node's own in.
    fn hear_fetch(&mut self, turns: u64, answer: Answer, symbiont: &Y) -> Result<(), AllocError>
        requires told { self.old.made ≡ None }
        requires duties { CanBeHeard answer }
        ensures heard { OnOk result (self.new ≡ node_behind_fetch turns self.old.state answer) }
        ensures no_memory { OnErr result (self.new ≡ self.old) }
    {
        self.stage = hear_duties(&mut self.runs, symbiont, turns, answer)?;
        Ok(())
    }

    /// Takes the answer in that the call of what came next got, where so many turns of the node's own were before that. At want
    /// of memory nothing changes.
    pub fn hear(
        &mut self,
        next: &Next<'a>,
        turns: u64,
        answer: Answer,
        symbiont: &Y,
    ) -> Result<(), AllocError>
        requires next { ComesNext self.old.state next.now }
        requires can { CanBeMade self.old.state next.now }
        requires made { IsMadeFor next.now self.old.made }
        requires duties { CanBeHeard answer }
        ensures heard { OnOk result (Hears turns next.now self.old answer self.new) }
        ensures no_memory { OnErr result (self.new ≡ self.old) }
    {
        match next {
            Next::Line(line) => self.hear_line(line, turns, answer, symbiont),
            Next::Step(_) => {
                self.hear_report(&answer);
                drop(answer);
                Ok(())
            }
            Next::Fetch => self.hear_fetch(turns, answer, symbiont),
            Next::Leave => {
                drop(answer);
                self.stage = Stage::Over;
                Ok(())
            }
        }
    }
}
