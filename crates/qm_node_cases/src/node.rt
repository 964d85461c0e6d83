// What a node keeps of its runs between two turns, over devices in memory.
ghost use Rattle.std.specs.Prelude.{◌≡◌, ◌<◌, IfSome, None};
ghost use Rattle.qm_symb.specs.Symbiont.{IsWithinLimits};

use crate::job::{Job, is_within_limits};
use qm_kinds::{Duty, JobKind, Report, Work};
use qm_node::NodeRuns;
use qm_plans::push_line;
use qm_symb::{MemoryDevice, Standard, Symbiont};
use std::alloc::{AllocError, Global};

/// The work of a run of a job of this kind and text.
pub(crate) fn work_of(
    alloc: Global,
    run: u64,
    kind: JobKind,
    text: &[u8],
) -> Result<Work, AllocError> {
    let mut job = Job::new(alloc);
    job.kind = kind;
    let mut work = job.work(text.to_vec(alloc)?);
    work.run = run;
    Ok(work)
}

// Learns two runs, the second one of the greater number.
fn learn_two<Y: Symbiont>(
    alloc: Global,
    runs: &mut NodeRuns<Y>,
    symbiont: &Y,
    first: Duty,
    second: Duty,
) -> Result<(), AllocError>
    requires told { runs.old.made ≡ None }
    requires rising { first.run < second.run }
    requires first_limits { IfSome first.work IsWithinLimits }
    requires second_limits { IfSome second.work IsWithinLimits }
    ensures told { runs.new.made ≡ None }
{
    let mut duties = Vec::with_capacity(alloc, 2)?;
    duties.push(first)?;
    duties.push(second)?;
    runs.learn(symbiont, 10, duties)
}

// Tells which run made a step, and its status if it has ended.
fn tell_made(
    alloc: Global,
    told: &mut Vec<u8>,
    run: u64,
    status: Option<u32>,
) -> Result<(), AllocError> {
    let line = match status {
        Some(status) => format!(in alloc; "run {run}: status {status}")?,
        None => format!(in alloc; "run {run}: mark")?,
    };
    push_line(told, line.as_str())
}

// Makes the next step, whose report is answered as done, and tells its run, and its status if it has ended; or that no run may
// step.
fn tell_step<Y: Symbiont>(
    alloc: Global,
    runs: &mut NodeRuns<Y>,
    symbiont: &mut Y,
    told: &mut Vec<u8>,
) -> Result<(), AllocError>
    requires { runs.old.made ≡ None }
    ensures { runs.new.made ≡ None }
{
    let Some(run) = runs.next() else {
        return push_line(told, "none");
    };
    let status = match runs.step(symbiont)? {
        Report::Mark { .. } => None,
        Report::Done { status } => Some(status),
    };
    runs.told(status.is_none());
    tell_made(alloc, told, run, status)
}

// Learns a print job of two pages as run 1, which may be cut short, and a batch job that ends with status 2 as run 2; both are paused
// where the first is cut short.
fn learn_both<Y: Symbiont>(
    alloc: Global,
    told: &mut Vec<u8>,
    runs: &mut NodeRuns<Y>,
    symbiont: &Y,
    cut_short: bool,
) -> Result<(), AllocError>
    requires { runs.old.made ≡ None }
    ensures { runs.new.made ≡ None }
{
    let pages = work_of(alloc, 1, JobKind::Print, b"ab")?;
    let lines = work_of(alloc, 2, JobKind::Batch, b"$ EXIT 2")?;
    if !is_within_limits(&pages) || !is_within_limits(&lines) {
        return push_line(told, "beyond the limits");
    }
    let first = Duty {
        run: 1,
        aborting: cut_short,
        paused: cut_short,
        work: Some(pages),
    };
    let second = Duty {
        run: 2,
        aborting: false,
        paused: cut_short,
        work: Some(lines),
    };
    learn_two(alloc, runs, symbiont, first, second)
}

// Tells the runs that are known.
fn tell_known<Y: Symbiont>(
    alloc: Global,
    told: &mut Vec<u8>,
    runs: &NodeRuns<Y>,
) -> Result<(), AllocError> {
    let known = runs.known()?;
    push_line(told, format!(in alloc; "known {known:?}")?.as_str())
}

// Tells the runs that are known, the steps that are left, and how many blocks were handed over.
fn tell_left<Y: Symbiont>(
    alloc: Global,
    told: &mut Vec<u8>,
    runs: &NodeRuns<Y>,
    handed: usize,
) -> Result<(), AllocError> {
    let known = runs.known()?;
    let left = runs.steps_left();
    let line = format!(in alloc; "known {known:?}, {left} steps left, {handed} blocks")?;
    push_line(told, line.as_str())
}

// Tells four steps, and the runs that are known before them.
fn tell_steps<Y: Symbiont>(
    alloc: Global,
    told: &mut Vec<u8>,
    runs: &mut NodeRuns<Y>,
    symbiont: &mut Y,
) -> Result<(), AllocError>
    requires { runs.old.made ≡ None }
{
    tell_known(alloc, told, runs)?;
    for _ in 0..4 {
        tell_step(alloc, runs, symbiont, told)?;
    }
    Ok(())
}

/// Tells the steps of two runs, a print job of two pages and a batch job that ends with status 2, the runs that are known before
/// and behind them, the steps that are left of ten, and how many blocks were handed over. The first may be cut short; both are paused then.
pub(crate) fn tell_two_runs(
    alloc: Global,
    told: &mut Vec<u8>,
    cut_short: bool,
) -> Result<(), AllocError> {
    let mut symbiont = Standard::new(alloc, MemoryDevice::new(alloc, Vec::new(alloc)));
    let mut runs = NodeRuns::new(alloc);
    learn_both(alloc, told, &mut runs, &symbiont, cut_short)?;
    tell_steps(alloc, told, &mut runs, &mut symbiont)?;
    tell_left(alloc, told, &runs, symbiont.device().held().len())
}
