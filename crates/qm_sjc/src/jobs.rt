// Requests for jobs.
ghost use Rattle.std.specs.Prelude.{◌≡◌};
ghost use Rattle.qm_values.specs.Asked.{read_in, default_queue, default_restart, job_of, submit_of};

use qm_kinds::{FileName, Job, JobKind, JobRetain, Name, Request, Seq, batch_queue, print_queue};
use qm_values::codes::*;
use qm_values::{
    Item, Lists, after_in, byte_in, file_in, is_given, job_kind_in, job_retain_in, name_in,
    reference_in, short_name_in, truth_in,
};
use std::alloc::Global;

// The queue of jobs that name none.
fn default_queue(kind: JobKind) -> Name
    ensures { result ≡ default_queue kind }
{
    match kind {
        JobKind::Batch => batch_queue(),
        JobKind::Print => print_queue(),
    }
}

// Whether jobs may start again for which it isn't said.
fn default_restart(kind: JobKind) -> bool
    ensures { result ≡ default_restart kind }
{
    match kind {
        JobKind::Batch => false,
        JobKind::Print => true,
    }
}

// The job of a user for a file.
fn job_of(
    alloc: Global,
    user: Name,
    items: &[Item],
    lists: Lists,
    kind: JobKind,
    file: FileName,
) -> Job
    ensures { result ≡ job_of user items.now lists kind file }
{
    let Lists {
        characteristics,
        ..
    } = lists;
    let characteristics = match characteristics {
        Some(list) => list,
        None => Seq::new(alloc),
    };
    Job {
        user,
        kind,
        queue: short_name_in(items, QUEUE).unwrap_or(default_queue(kind)),
        file,
        name: name_in(items, JOB_NAME).unwrap_or(file.name),
        priority: byte_in(items, PRIORITY).unwrap_or(100),
        after: after_in(items, AFTER).unwrap_or(None),
        hold: is_given(items, HOLD),
        retain: job_retain_in(items, RETAIN).unwrap_or(JobRetain::Default),
        restart: truth_in(items, RESTART).unwrap_or(default_restart(kind)),
        characteristics,
        form: reference_in(items, FORM),
        copies: byte_in(items, COPIES).unwrap_or(1),
        flag: is_given(items, FLAG),
    }
}

/// A job is submitted.
pub(crate) fn submit_of(alloc: Global, user: Name, items: &[Item], lists: Lists) -> Option<Request>
    ensures { result ≡ submit_of user items.now lists }
{
    let kind = job_kind_in(items, KIND)?;
    let file = file_in(items, FILE)?;
    Some(Request::Submit(job_of(alloc, user, items, lists, kind, file)))
}
