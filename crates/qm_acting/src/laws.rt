// What queue files go on with, that files of a site can be read, and which requests are never refused.
ghost use Rattle.std.specs.Prelude.{◌≡◌, ◌++◌, ◌∷◌, [], ℕ, List, false, IsOk};
ghost use Rattle.qm_store.specs.Recorded.{Recorded, Holds};
ghost use Rattle.qm_history.specs.Common.{CrashState, CanFollow, Request, System, applied, are_numbers_spent, after_record, request_record};
ghost use Rattle.qm_glog.specs.declared.fault.OpenFault.TheVariants.{Damaged, Unformatted};
ghost use Rattle.qm_kinds.specs.declared.request.Request.TheVariants.{NodeUp, NodeLost, Took};
ghost use Rattle.qm_restore.specs.QueueFile.{IsSiteFile};
ghost use Rattle.qm_acting.specs.Asking.{text_of};
ghost use Rattle.qm_acting.specs.Reading.{IsRestoreFault};

use qm_store::held_files_load;

/// A queue file goes on with the record of each request that can follow, and then stands for the system behind that.
pub fn site_files_go_on()
    ensures { (bodies : List (List ℕ)) (s : System) (moment node : ℕ) (asked : Request)
        → IsSiteFile bodies s → CanFollow s moment node asked
        → IsSiteFile (bodies ++ text_of moment node asked ∷ [])
        (after_record s (request_record moment node asked)) }
{}

/// Files that hold a site are neither damaged nor unformatted to whoever reads them.
pub fn sites_can_be_read()
    ensures undamaged { (files : CrashState) (r : Recorded) (s : System) (file place : ℕ)
        → Holds files r → IsSiteFile r.bodies s → IsRestoreFault files (Damaged file place) → ⊥ }
    ensures formatted { (files : CrashState) (r : Recorded) (byte : ℕ)
        → Holds files r → IsRestoreFault files (Unformatted byte) → ⊥ }
{
    held_files_load();
}

/// What the queue manager asks for itself isn't refused: the loss of nodes and a takeover never, and that a node is up only where
/// the numbers of runs are spent.
pub fn own_requests_are_accepted()
    ensures took { (s : System) (moment node epoch : ℕ) (gone up may : List (List ℕ))
        → IsOk (applied s moment node (Took epoch gone up may)) }
    ensures lost { (s : System) (moment node : ℕ) (nodes : List (List ℕ))
        → IsOk (applied s moment node (NodeLost nodes)) }
    ensures up { (s : System) (moment node : ℕ)
        → are_numbers_spent s ≡ false → IsOk (applied s moment node NodeUp) }
{}
