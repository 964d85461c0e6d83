// SUBMIT file and PRINT file.
ghost use Rattle.std.specs.Prelude.{◌≡◌};
ghost use Rattle.qm_dcl.specs.Submitting.{default_queue, default_type, default_restart, with_type, job_of};

use crate::lists::Lists;
use crate::settings::Settings;
use qm_kinds::{FileName, Job, JobKind, JobRetain, Name, Seq, batch_queue, print_queue};
use std::alloc::Global;

// The queue of jobs that name none.
fn default_queue(kind: JobKind) -> Name
    ensures { result ≡ default_queue kind }
{
    match kind {
        JobKind::Batch => batch_queue(),
        JobKind::Print => print_queue(),
    }
}

// The type of files that name none.
fn default_type(kind: JobKind) -> Name
    ensures { result ≡ default_type kind }
{
    match kind {
        JobKind::Batch => Name::read(b"COM").unwrap(),
        JobKind::Print => Name::read(b"LIS").unwrap(),
    }
}

// Whether jobs may start again for which it isn't said.
fn default_restart(kind: JobKind) -> bool
    ensures { result ≡ default_restart kind }
{
    match kind {
        JobKind::Batch => false,
        JobKind::Print => true,
    }
}

// The file, with this type where it names none.
fn with_type(file: FileName, extension: Name) -> FileName
    ensures { result ≡ with_type file extension file.extension }
{
    match file.extension {
        Some(_) => file,
        None => FileName {
            name: file.name,
            extension: Some(extension),
        },
    }
}

/// The job of a user for a file that is asked for. Where nothing else is given, it goes into the queue of its kind, under the
/// file's name, and is kept as the queue says.
pub(crate) fn job_of(
    alloc: Global,
    user: Name,
    kind: JobKind,
    file: FileName,
    s: &Settings,
    lists: Lists,
) -> Job
    ensures { result ≡ job_of user kind file s.now lists }
{
    let Lists {
        characteristics,
        ..
    } = lists;
    let characteristics = match characteristics {
        Some(list) => list,
        None => Seq::new(alloc),
    };
    let queue = s.queue.unwrap_or(default_queue(kind));
    let name = s.job.name.unwrap_or(file.name);
    let priority = s.job.priority.unwrap_or(100);
    let restart = s.job.restart.unwrap_or(default_restart(kind));
    let file = with_type(file, default_type(kind));
    Job {
        user,
        kind,
        queue,
        file,
        name,
        priority,
        after: s.job.after.unwrap_or(None),
        hold: s.job.hold,
        retain: s.job.retain.unwrap_or(JobRetain::Default),
        restart,
        characteristics,
        form: s.job.form,
        copies: s.job.copies,
        flag: s.job.flag,
    }
}
