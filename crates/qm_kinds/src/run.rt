// The runs of jobs.
use crate::name::Name;

/// A run of a job in a queue on a node. Runs are numbered from 1 on.
#[derive(Clone, Copy)]
pub struct Run {
    pub run: u64,
    pub entry: u32,
    pub queue: Name,
    pub node: Name,
}

/// A job that was started: its home, and the queue where it runs.
#[derive(Clone, Copy, PartialEq, Eq)]
pub struct Start {
    pub entry: u32,
    pub name: Name,
    pub home: Name,
    pub queue: Name,
    pub run: u64,
}
