// Kinds of queues.
ghost use Rattle.std.specs.Prelude.{◌≡◌};
ghost use Rattle.qm_model.specs.Kinds.{is_generic, is_batch_queue, is_print_queue, is_same_kind, job_kind, is_same_queue_kind, is_other_kind};

use qm_kinds::{JobKind, Queue, QueueKind};

/// Whether the queue passes its jobs on.
pub fn is_generic(kind: QueueKind) -> bool
    ensures { result ≡ is_generic kind }
{
    matches!(kind, QueueKind::GenericBatch | QueueKind::GenericPrint)
}

/// Whether it is an execution queue for batch jobs.
pub(crate) fn is_batch_queue(kind: QueueKind) -> bool
    ensures { result ≡ is_batch_queue kind }
{
    matches!(kind, QueueKind::Batch)
}

/// Whether it is an execution queue for print jobs.
pub(crate) fn is_print_queue(kind: QueueKind) -> bool
    ensures { result ≡ is_print_queue kind }
{
    matches!(kind, QueueKind::Print)
}

// The kind of job that the queue takes.
fn job_kind(kind: QueueKind) -> JobKind
    ensures { result ≡ job_kind kind }
{
    match kind {
        QueueKind::Batch | QueueKind::GenericBatch => JobKind::Batch,
        QueueKind::Print | QueueKind::GenericPrint => JobKind::Print,
    }
}

/// Whether both take the same kind of job.
pub(crate) fn take_same_jobs(a: QueueKind, b: QueueKind) -> bool
    ensures { result ≡ is_same_kind (job_kind a) (job_kind b) }
{
    matches!(
        (job_kind(a), job_kind(b)),
        (JobKind::Batch, JobKind::Batch) | (JobKind::Print, JobKind::Print)
    )
}

/// Whether both take the same kind of job, and both are execution queues or both generic.
pub(crate) fn is_same_queue_kind(a: QueueKind, b: QueueKind) -> bool
    ensures { result ≡ is_same_queue_kind a b }
{
    a == b
}

/// Whether the queue takes jobs of the other kind.
pub(crate) fn is_other_kind(kind: JobKind, queue: &Queue) -> bool
    ensures { result ≡ is_other_kind kind queue.now }
{
    job_kind(queue.kind) != kind
}
