// What the tables of queue states and of job retention say.
ghost use Rattle.std.specs.Prelude.{◌≡◌, ◌<◌, ◌≤◌, ℕ, true, false, [], ◌∷◌, map, None, Some, nat_lt};
ghost use Rattle.qm_kinds.specs.declared.entry.JobRetain.TheVariants as job;
ghost use Rattle.qm_kinds.specs.declared.queue.QueueRetain.{QueueRetain};
ghost use Rattle.qm_kinds.specs.declared.queue.QueueRetain.TheVariants as of_queue;
ghost use Rattle.qm_kinds.specs.declared.queue.QueueState.{QueueState};
ghost use Rattle.qm_kinds.specs.declared.queue.QueueState.TheVariants.{Stopped, Started, Paused, Stopping};
ghost use Rattle.qm_kinds.specs.declared.request.StopMode.{StopMode};
ghost use Rattle.qm_kinds.specs.declared.request.StopMode.TheVariants.{Pause, Next, Reset};
ghost use Rattle.qm_model.specs.Fitting.{is_started};
ghost use Rattle.qm_model.specs.Retaining.{retained_until};
ghost use Rattle.qm_model.specs.States.{state_on_start, state_on_stop, state_when_idle};
ghost use Rattle.qm_model.specs.Tables.{FailuresStayToo, IsDoneOnce, IsNotOverAtOnce, LeadsTo, LeavesNoneStarted, OwnDecides, OwnKeeps, QueueKeeps, own_settings};

/// The table of queue states, a row for each command, from each of the states Stopped, Started, Paused and Stopping; and
/// what becomes of each state after a request, in a queue with a run and in one without. START/QUEUE starts a queue from
/// each state, no STOP/QUEUE leaves it started, and one that is stopped stays so. Stopping it again in the same way changes
/// nothing.
pub fn queue_states()
    ensures start { LeadsTo state_on_start Started Started Started Started }
    ensures stop { LeadsTo (state_on_stop Pause) Stopped Paused Paused Stopping }
    ensures stop_next { LeadsTo (state_on_stop Next) Stopped Stopping Stopping Stopping }
    ensures stop_reset { LeadsTo (state_on_stop Reset) Stopped Stopped Stopped Stopped }
    ensures with_run { LeadsTo (state_when_idle true) Stopped Started Paused Stopping }
    ensures without_run { LeadsTo (state_when_idle false) Stopped Started Paused Stopped }

    ensures started { (state : QueueState) → is_started (state_on_start state) ≡ true }
    ensures not_started { (how : StopMode) → LeavesNoneStarted (state_on_stop how) }
    ensures stopped { (how : StopMode) → state_on_stop how Stopped ≡ Stopped }
    ensures reset { (state : QueueState) → state_on_stop Reset state ≡ Stopped }
    ensures again { (how : StopMode) → IsDoneOnce (state_on_stop how) }
    ensures idle { (state : QueueState) → is_started (state_when_idle false state) ≡ is_started state }
{}

/// The table of retention, a row for each setting of the job and, where it has none of its own, of the queue: whether the
/// job is kept after a success and after a failure; and until when. What is retained after a success is retained after a
/// failure, the job's own setting comes before the queue's, and a job that is retained until a moment isn't over at once.
pub fn job_retention()
    ensures own_always { (now : ℕ) → OwnKeeps job.Always now (true, true) }
    ensures own_failed { (now : ℕ) → OwnKeeps job.Failed now (false, true) }
    ensures own_until_ahead { (at now : ℕ) → now < at → OwnKeeps (job.Until at) now (true, true) }
    ensures own_until_past { (at now : ℕ) → at ≤ now → OwnKeeps (job.Until at) now (false, false) }
    ensures queue_all { QueueKeeps of_queue.All (true, true) }
    ensures queue_failed { QueueKeeps of_queue.Failed (false, true) }
    ensures queue_nothing { QueueKeeps of_queue.Nothing (false, false) }
    ensures moments { (at : ℕ) → map retained_until (own_settings at) ≡ None ∷ None ∷ Some at ∷ None ∷ [] }

    ensures failures { (queue : QueueRetain) → FailuresStayToo queue }
    ensures always { OwnDecides job.Always (λ now. true) }
    ensures until { (at : ℕ) → OwnDecides (job.Until at) (λ now. nat_lt now at) }
    ensures not_over { (at : ℕ) → IsNotOverAtOnce (job.Until at) }
{}
