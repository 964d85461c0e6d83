//! Worked cases of what jobs print and do, as plans: the pages of print jobs, the lines of batch jobs, where both go on behind a
//! mark, what a device that fails leaves, what lies in the place of a device's file, what a node keeps of its runs, and which moment
//! it tells with a report.
#![tactic(auto)]

mod devices;
mod job;
mod moments;
mod node;

use devices::tell_devices;
use job::Job;
use qm_plans::{Desk, follow};
use std::io;
use std::process::ExitCode;

impl Desk for Job {
    fn act(
        &mut self,
        rt: &HostRuntime,
        told: &mut Vec<u8>,
        verb: &str,
        text: &str,
    ) -> io::Result<()> {
        if verb == "devices" {
            return tell_devices(rt, told);
        }
        self.tell(rt.alloc(), told, verb, text)?;
        Ok(())
    }
}

fn main(rt: HostRuntime) -> io::Result<ExitCode> {
    let mut job = Job::new(rt.alloc());
    follow(&rt, &mut job)
}
