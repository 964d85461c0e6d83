// Which moment a node tells with a report, over a device and a clock that share a count.
ghost use Rattle.std.specs.Prelude.{◌≡◌, None, OnOk};
ghost use Rattle.qm_symb.specs.Symbiont.{IsWithinLimits};

use crate::job::is_within_limits;
use crate::node::work_of;
use qm_disk::Clock;
use qm_history::{Answer, Call};
use qm_kinds::{Duty, JobKind, Moment, Name, Seq, Work};
use qm_node::{Asked, Next, NodeState};
use qm_plans::push_line;
use qm_scans::Scans;
use qm_symb::{Device, DeviceFault, Standard, Symbiont};
use std::alloc::{AllocError, Global};
use std::cell::Cell;

// A device that counts the blocks that it takes, and tells nothing of them.
#[derive(Drop)]
struct CountingDevice<'a> {
    blocks: &'a Cell<u64>,
}

impl<'a> Device for CountingDevice<'a> {
    ghost use Rattle.std.specs.Prelude.{[], false};

    ghost meaning = { record {
      tells = false;
      taken = λ device. [];
      faults = λ device. 0;
    } };

    fn hand(&mut self, _run: u64, _device: &Name, _block: &[u8]) -> Result<(), DeviceFault> {
        self.blocks.set(self.blocks.get().saturating_add(1));
        Ok(())
    }
}

// A clock that goes on with each block that was counted. What it told isn't kept, not even for proofs.
#[derive(Drop)]
struct BlockClock<'a> {
    blocks: &'a Cell<u64>,
}

impl<'a> Clock for BlockClock<'a> {
    ghost use Rattle.std.specs.Prelude.{None};

    ghost told = { λ clock. None };

    fn tell(&mut self) -> Moment {
        Moment::new(self.blocks.get()).unwrap_or(Moment::BASE)
    }
}

// Lets a node without lines learn this work of run 1 from a fetch.
fn learn_work<'a, Y: Symbiont>(
    alloc: Global,
    node: &mut NodeState<'a, Y>,
    symbiont: &Y,
    work: Work,
) -> Result<(), AllocError>
    requires told { node.old.made ≡ None }
    requires limits { IsWithinLimits work }
    ensures { OnOk result (node.new.made ≡ None) }
{
    let Some(Next::Fetch) = node.next(true) else {
        return Ok(());
    };
    let mut duties = Vec::with_capacity(alloc, 1)?;
    duties.push(Duty {
        run: 1,
        aborting: false,
        paused: false,
        work: Some(work),
    })?;
    let answer = Answer::Duties {
        took: None,
        moment: Moment::BASE,
        duties: Seq::of(duties),
    };
    node.hear(&Next::Fetch, 0, answer, symbiont)
}

// The moment of the report that comes next, if one does.
fn moment_of_report<'a, C: Clock, Y: Symbiont>(
    node: &mut NodeState<'a, Y>,
    clock: &mut C,
    symbiont: &mut Y,
) -> Result<Option<Moment>, AllocError>
    requires { node.old.made ≡ None }
{
    let Some(next) = node.next(true) else {
        return Ok(None);
    };
    let Asked { moment, call } = node.call(&next, &Scans::new(), clock, symbiont)?;
    match call {
        Call::Report { .. } => Ok(Some(moment)),
        _ => Ok(None),
    }
}

// The moment of the first report of run 1, whose work a node without lines learned from a fetch.
fn moment_of_work<C: Clock, Y: Symbiont>(
    alloc: Global,
    clock: &mut C,
    symbiont: &mut Y,
    work: Work,
) -> Result<Option<Moment>, AllocError>
    requires { IsWithinLimits work }
{
    let mut node = NodeState::new(alloc, &[]);
    learn_work(alloc, &mut node, symbiont, work)?;
    moment_of_report(&mut node, clock, symbiont)
}

// The moment of the report of the first page of a print job, where blocks are counted here.
fn moment_of_page(alloc: Global, blocks: &Cell<u64>) -> Result<Option<Moment>, AllocError> {
    let work = work_of(alloc, 1, JobKind::Print, b"ab")?;
    if !is_within_limits(&work) {
        return Ok(None);
    }
    let mut clock = BlockClock { blocks };
    let mut symbiont = Standard::new(alloc, CountingDevice { blocks });
    moment_of_work(alloc, &mut clock, &mut symbiont, work)
}

/// Tells the moment of the report of the first page of a print job, by a clock that goes on with each block.
pub(crate) fn tell_moment(alloc: Global, told: &mut Vec<u8>) -> Result<(), AllocError> {
    let blocks = Cell::new(0);
    match moment_of_page(alloc, &blocks)? {
        Some(moment) => push_line(
            told,
            format!(in alloc; "report at {}", moment.hundredths())?.as_str(),
        ),
        None => push_line(told, "no report"),
    }
}
