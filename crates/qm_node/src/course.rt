// What a node does next.
ghost use Rattle.qm_history.specs.Course.{next_line, next_reading, next_working};
ghost use Rattle.qm_script.specs.ClusterLines.{user_lines_view};
ghost use Rattle.qm_node.specs.Node.{IsTurn, IsTurnBy};

use qm_history::Call;
use qm_kinds::Moment;
use qm_script::UserLine;

/// What a node is about.
#[derive(Clone, Copy, Debug, PartialEq, Eq)]
pub enum Stage {
    /// It reads its lines.
    Reading,
    /// Behind the last one it asks for its runs.
    Fetching,
    /// It carries out its runs, and asks for them again.
    Working,
    /// Nothing but its leave is left.
    Leaving,
    /// Nothing is left.
    Over,
}

/// What a node does next.
#[derive(Clone, Copy)]
pub enum Next<'a> {
    /// It serves this line.
    Line(&'a UserLine<'a>),
    /// It makes a step of the run of this number, and tells its report.
    Step(u64),
    /// It asks for its runs.
    Fetch,
    /// It leaves.
    Leave,
}

/// A call of a node, and what its clock told for it.
#[derive(Drop)]
pub struct Asked {
    pub moment: Moment,
    pub call: Call,
}

// The next line, and behind the last one a fetch of a node that is live.
fn next_line<'a>(live: bool, lines: &'a [UserLine<'a>]) -> Option<Next<'a>>
    ensures { IsTurn (next_line live (user_lines_view lines.now)) result }
{
    match lines.first() {
        Some(line) => Some(Next::Line(line)),
        None => { if live { Some(Next::Fetch) } else { None } }
    }
}

/// What comes next while a node reads: steps come before the next line, as many as a STEP line allows, where a run may step.
pub(crate) fn next_reading<'a>(
    live: bool,
    steps: u32,
    first: Option<u64>,
    lines: &'a [UserLine<'a>],
) -> Option<Next<'a>>
    ensures { IsTurnBy first (λ round. next_reading live steps round (user_lines_view lines.now)) result }
{
    if steps == 0 {
        return next_line(live, lines);
    }
    match first {
        Some(run) => Some(Next::Step(run)),
        None => next_line(live, lines),
    }
}

/// What comes next while a node works: a step, or the next fetch.
pub(crate) fn next_working<'a>(first: Option<u64>) -> Option<Next<'a>>
    ensures { IsTurnBy first next_working result }
{
    match first {
        Some(run) => Some(Next::Step(run)),
        None => Some(Next::Fetch),
    }
}
