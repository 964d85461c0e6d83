// Laws of what a queue database holds.
ghost use Rattle.std.specs.Prelude.{◌≡◌, ℕ, List, map};
ghost use Rattle.qm_disk.specs.Disk.{CrashState, IsLeft};
ghost use Rattle.qm_glog.specs.declared.fault.OpenFault.TheVariants.{Damaged, Unformatted};
ghost use Rattle.qm_history.specs.Common.{IsAccepted, MasterState, master_text, Record, record_text};
ghost use Rattle.qm_history.specs.Start.{AreDamaged, HoldRecords};
ghost use Rattle.qm_store.specs.Loading.{IsLoadFault};
ghost use Rattle.qm_store.specs.Recorded.{Recorded, Holds, IsAtRest};

use qm_disk::Disk;
use qm_history::{masters_are_judged_once, queue_files_read_one_way};

/// Files hold one database.
pub fn one_content()
    ensures { (files : CrashState) (a b : Recorded) → Holds files a → Holds files b → a ≡ b }
{}

/// What no crash can take away each crash leaves.
pub fn at_rest_is_held<D: Disk>()
    ensures { (r : Recorded) (disk : D) (crashed : CrashState) → IsAtRest D.meaning r disk
        → IsLeft (D.meaning.may_leave disk) crashed → Holds crashed r }
{}

/// Files that hold a database hold the records that its bodies spell, where these are accepted; and the other way round.
pub fn held_by_records()
    ensures records { (files : CrashState) (r : Recorded) (records : List Record) → Holds files r
        → r.bodies ≡ map record_text records → IsAccepted records
        → HoldRecords files r.says records }
    ensures bodies { (files : CrashState) (says : MasterState) (records : List Record)
        → (h : HoldRecords files says records)
        → Holds files
        (record { master = map master_text h.masters; says = says; bodies = map record_text records }) }
{}

/// Where loading finds files damaged they are; and those that hold a database are neither damaged nor unformatted.
pub fn held_files_load()
    ensures damaged { (files : CrashState) (file place : ℕ) → IsLoadFault files (Damaged file place)
        → AreDamaged files file place }
    ensures undamaged { (files : CrashState) (r : Recorded) (file place : ℕ) → Holds files r
        → IsLoadFault files (Damaged file place) → ⊥ }
    ensures formatted { (files : CrashState) (r : Recorded) (byte : ℕ) → Holds files r
        → IsLoadFault files (Unformatted byte) → ⊥ }
{
    masters_are_judged_once();
    queue_files_read_one_way();
}
