// What the records of a queue file stand for.
ghost use Rattle.std.specs.Prelude.{◌≡◌, ℕ, List, map, true, false, [], ◌∷◌};
ghost use Rattle.qm_history.specs.Common.{Node, System, site_of, AreNodes, IsConsistent};
ghost use Rattle.qm_model.specs.First.{first_system};
ghost use Rattle.qm_restore.specs.QueueFile.{IsFileFrom, IsSiteFile, SpellAccepted};
ghost use Rattle.qm_restore.specs.Site.{names_of, new_system};

use qm_model::{nodes_keep_their_names, requests_keep_consistent};

/// The system of a new site is consistent, whichever nodes it has and however they are called. It is that of one node which is
/// up, and that which is made for nodes, all down.
pub fn new_sites_are_consistent()
    ensures consistent { (nodes : List Node) → AreNodes nodes → IsConsistent (new_system nodes) }
    ensures one { (node : List ℕ)
        → new_system (record { name = node; up = true } ∷ []) ≡ first_system node }
    ensures several { (names : List (List ℕ))
        → new_system (map (λ name. record { name = name; up = false }) names) ≡ site_of names }
{}

/// The system for which the records of a queue file stand is consistent.
pub fn site_files_are_consistent()
    ensures { (bodies : List (List ℕ)) (s : System) → IsSiteFile bodies s → IsConsistent s }
{
    new_sites_are_consistent();
    requests_keep_consistent();
}

/// The nodes of the system for which the records of a queue file stand are called as those of the system from which they lead on,
/// in their order. Which are up its records tell.
pub fn names_of_files_stay()
    ensures { (first s : System) (bodies : List (List ℕ))
        → IsFileFrom first bodies s → names_of s.nodes ≡ names_of first.nodes }
{
    nodes_keep_their_names();
}

/// The records of a queue file are a log that a program can begin on, and stand for the same system there.
pub fn site_files_are_accepted()
    ensures { (bodies : List (List ℕ)) (s : System) → IsSiteFile bodies s → SpellAccepted bodies s }
{
    new_sites_are_consistent();
}
