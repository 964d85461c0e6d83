// What bounds the number of the jobs that are started.
ghost use Rattle.std.specs.Prelude.{◌≤◌, length};
ghost use Rattle.qm_model.specs.Common.{System, settled};
ghost use Rattle.qm_sched.specs.Starts.{start_places};

/// Settling starts no more jobs than there are entries, and no more than there are places in the queues that are started.
pub fn starts_are_few()
    ensures entries { (s : System) → length (settled s).started ≤ length s.entries }
    ensures places { (s : System) → length (settled s).started ≤ start_places s.queues }
{}
