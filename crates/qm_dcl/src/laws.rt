// Laws of what texts ask for.
ghost use Rattle.std.specs.Prelude.{◌≡◌, ◌≤◌, ℕ, List, Err, IsOk, IfOk};
ghost use Rattle.qm_commands.specs.declared.fault.Fault.{Fault};
ghost use Rattle.qm_grammar.specs.Parsed.{command_in};
ghost use Rattle.qm_dcl.specs.Command.{command_of};

/// Only a text that is a command by the grammar asks for something.
pub fn what_is_asked_is_a_command()
    ensures { (user : List ℕ) (now : ℕ) (text : List ℕ)
        → IfOk (command_of user now text) (λ _. IsOk (command_in text)) }
{}

/// No fault is told that stands behind the first one of the grammar.
pub fn no_fault_is_told_behind_the_first()
    ensures { (user : List ℕ) (now : ℕ) (text : List ℕ) (first told : Fault)
        → command_in text ≡ Err first → command_of user now text ≡ Err told
        → told.place ≤ first.place }
{}
