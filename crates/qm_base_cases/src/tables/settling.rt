// Jobs that start.
ghost use Rattle.std.specs.Prelude.{◌≡◌, ◌<◌, []};

use crate::tables::rows::job;
use crate::tables::sites::{nodes_alone, put_job, put_queue};
use qm_kinds::{Node, Seq, Start, system_user};
use qm_parts::Parts;
use qm_ready::Steps;
use qm_sched::{settle, starts_are_few};
use std::alloc::{AllocError, Global};
use std::marker::Brand;
use std::process::Abort;
use std::sync::ledger::{Blank, Ledger};
use std::test::Fail;

// Takes memory for all the starts that there can be, and settles, by steps of a ledger.
fn settle_by<L: Ledger>(
    alloc: Global,
    parts: &mut Parts,
    blank: Blank,
) -> Result<Vec<Start>, AllocError>
    requires name { blank.name ≡ L.name }
    requires parts { blank.parts ≡ L.parts }
    requires some { 0 < blank.parts }
{
    let count = parts.entry_count();
    parts.reserve_runs(count)?;
    let mut out = Vec::new(alloc);
    out.reserve(count)?;
    starts_are_few();
    settle(parts, &mut out, &mut Steps::<L>::open(blank));
    Ok(out)
}

// The same. Nobody counts the looks.
fn settle_all(alloc: Global, parts: &mut Parts) -> Result<Vec<Start>, AllocError> {
    settle_by::<Brand>(alloc, parts, Blank::new(1))
}

// Puts in the first three jobs.
fn put_three(parts: &mut Parts) -> Result<(), AllocError>
    requires { parts.old.entries ≡ [] }
{
    put_job(parts, job(1, 100))?;
    put_job(parts, job(2, 100))?;
    put_job(parts, job(3, 101))
}

// Puts in a queue with places for two jobs, and three jobs.
fn fill(alloc: Global, parts: &mut Parts) -> Result<(), AllocError>
    requires { parts.old.entries ≡ [] }
{
    put_queue(alloc, parts)?;
    put_three(parts)
}

// A node that is up.
fn one_node(alloc: Global) -> Result<Seq<Node>, AllocError> {
    let node = Node {
        name: system_user(),
        up: true,
    };
    Ok(Seq::of(vec![in alloc; node]?))
}

// Settles, and gives the job and the run of each start.
fn started(alloc: Global, parts: &mut Parts) -> Result<Vec<(u32, u64)>, AllocError> {
    let starts = settle_all(alloc, parts)?;
    starts
        .iter()
        .map(|start| (start.entry, start.run))
        .collect(alloc)
}

// Two jobs start, and then no more. The next run is 7.
fn start_two(rt: &impl Abort, alloc: Global, parts: &mut Parts) -> Result<(), Fail>
    requires { parts.old.entries ≡ [] }
{
    fill(alloc, parts)?;
    for expected in [[(3, 7), (1, 8)].as_slice(), &[]] {
        assert!(rt; started(alloc, parts)?.as_slice() == expected);
    }
    Ok(())
}

#[test]
fn jobs_start_while_there_are_places(rt: HostRuntime) -> Result<(), Fail> {
    let mut parts = nodes_alone(rt.alloc(), one_node(rt.alloc())?, 7)?;
    let end = start_two(&rt, rt.alloc(), &mut parts);
    drop(parts);
    end
}
