// What scripts say of their nodes.
ghost use Rattle.std.specs.Prelude.{◌≡◌, ℕ, List, Ok, Some};
ghost use Rattle.qm_history.specs.Common.{script_lines, UserLine};
ghost use Rattle.qm_cluster.specs.Runs.{AreOfNodes, names_of};
ghost use Rattle.qm_node.specs.Seats.{HeldSeat};

/// A script for a cluster has lines of its nodes alone.
pub fn lines_are_of_their_cluster()
    ensures { (names : List (List ℕ)) (text : List ℕ) (lines : List UserLine) (seats : List HeldSeat)
        → script_lines (Some names) text ≡ Ok lines → names_of seats ≡ names
        → AreOfNodes seats lines }
{}
