// Laws about starting the jobs that can start.
ghost use Rattle.std.specs.Prelude.{◌≡◌, ◌+◌, ◌<◌, true, [], length, All, Contains};
ghost use Rattle.qm_kinds.specs.declared.limits.TheConstants.{END_OF_RUNS};
ghost use Rattle.qm_kinds.specs.declared.system.System.{System};
ghost use Rattle.qm_model.specs.Fitting.{fits};
ghost use Rattle.qm_model.specs.Free.{is_free};
ghost use Rattle.qm_model.specs.Settling.{AreStarts, settled};
ghost use Rattle.qm_model.specs.Starting.{IsFirstToStart, StandByName, WasStarted};
ghost use Rattle.qm_model.specs.Laws.{AreNumberedFrom, AreSameButForStates, HasStartedAll, IsFirstByName, IsFirstJob, IsSameButForEntries, OfEachAccepted, OfEachChoice, OfEachSettled, OthersStay};

/// In a settled system no queue that has a place has a job that fits it, unless the numbers of runs are spent.
pub fn settling_ends()
    ensures { OfEachSettled (λ s new started. HasStartedAll new) }
{}

/// Settling gives entries runs, and changes nothing else. Each start takes one run number, in their order. The entries
/// that it doesn't start stay as they are, and those that it starts are the same but for their state, each in its place.
/// A job that is started was pending, and runs in the queue of the start, on that queue's node, under the run of the start.
pub fn settling_changes_entries_alone()
    ensures rest { OfEachSettled (λ s new started. IsSameButForEntries s new) }
    ensures numbers { OfEachSettled (λ s new started. new.next_run ≡ s.next_run + length started) }
    ensures runs { OfEachSettled (λ s new started. AreNumberedFrom s.next_run started) }
    ensures others { OfEachSettled (λ s new started. OthersStay started s.entries new.entries) }
    ensures states_alone { OfEachSettled (λ s new started. AreSameButForStates s.entries new.entries) }
    ensures each_runs { OfEachSettled (λ s new started. All (WasStarted s new) started) }
{}

/// A system that is settled stays as it is when it is settled again.
pub fn settling_is_done_once()
    ensures { OfEachSettled (λ s new started. settled new ≡ record { system = new; started = [] }) }
{}

/// After each accepted request no queue that has a place has a job that fits it, unless the numbers of runs are spent.
pub fn requests_settle()
    ensures { OfEachAccepted (λ s now a. HasStartedAll a.system) }
{}

/// Jobs are started one by one, while run numbers are left. Each is an entry of the system, and one that fits the queue in
/// which it is started. No other that fits it comes before it. The queue is one of the system's and has a place for the
/// job. None that stands before it, or has a lesser name where queues stand by name, has a place and a job that fits it.
pub fn first_jobs_are_started()
    ensures starts { (s : System) → AreStarts s (settled s).started (settled s).system }
    ensures fits { OfEachChoice (λ s c. fits s c.entry c.queue ≡ true) }
    ensures first { OfEachChoice (λ s c. IsFirstJob s c) }
    ensures entry_there { OfEachChoice (λ s c. Contains s.entries c.entry) }
    ensures queue_there { OfEachChoice (λ s c. Contains s.queues c.queue) }
    ensures has_place { OfEachChoice (λ s c. is_free s c.queue ≡ true) }
    ensures numbers_left { OfEachChoice (λ s c. s.next_run < END_OF_RUNS) }
    ensures first_queue { OfEachChoice (λ s c. IsFirstToStart s c.queue) }
    ensures first_by_name { OfEachChoice (λ s c. StandByName s.queues → IsFirstByName s c) }
{}
