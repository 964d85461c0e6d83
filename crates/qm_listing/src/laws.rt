// What the listing is to a user of commands.
ghost use Rattle.std.specs.Prelude.{◌≡◌, ℕ, List, Ok, codes};
ghost use Rattle.qm_dcl.specs.Command.{command_of};
ghost use Rattle.qm_history.specs.Ends.{all_jobs};
ghost use Rattle.qm_kinds.specs.declared.input.Input.TheVariants.{Show};

/// The listing is what SHOW QUEUE/ALL_JOBS asks for, whoever types it and whenever it is read.
pub fn all_jobs_are_what_a_command_shows()
    ensures { (user : List ℕ) (now : ℕ)
        → command_of user now (codes "SHOW QUEUE/ALL_JOBS") ≡ Ok (Show all_jobs) }
{}
