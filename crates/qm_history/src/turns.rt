// The turn that a call makes.
ghost use Rattle.std.specs.Prelude.{◌<◌};
ghost use Rattle.qm_history.specs.CourseLaws.{EachCallHasATurn, IsComputed, OfTurnsWithoutFault, TurnsWithoutFaultAreOne};

use qm_model::{nodes_keep_their_names, requests_keep_consistent};

/// Each call of a node of the cluster has a turn, whatever its clock told and whatever a takeover finds of a record in doubt:
/// where the call asks for nothing that is the queue manager's own, what it asks for keeps the rules on names, and what its turn
/// records has a spelling. So the rules of turns leave no such call without a legal one.
pub fn each_call_has_a_turn()
    ensures { EachCallHasATurn }
{
    requests_keep_consistent();
    nodes_keep_their_names();
}

/// Where no disk fails, all has room and nothing is compacted, a call's turn is the computed one. So two turns of one call, of one
/// node at one moment, are the same turn, where reading told the same of a record in doubt.
pub fn turns_without_fault_are_one()
    ensures computed { OfTurnsWithoutFault IsComputed }
    ensures one { TurnsWithoutFaultAreOne }
{}
