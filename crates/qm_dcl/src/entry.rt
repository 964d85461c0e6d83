// SET ENTRY number.
ghost use Rattle.std.specs.Prelude.{◌≡◌};
ghost use Rattle.qm_dcl.specs.Entries.{entry_change_of};

use crate::settings::JobSettings;
use qm_kinds::{EntryChange, Name, NameOrNumber, Seq};

/// What is changed of an entry, which may be moved to a queue.
pub(crate) fn entry_change_of(
    job: &JobSettings,
    queue: Option<Name>,
    characteristics: Option<Seq<NameOrNumber>>,
) -> EntryChange
    ensures { result ≡ entry_change_of job.now queue characteristics }
{
    EntryChange {
        release: job.release,
        hold: job.hold,
        after: job.after,
        priority: job.priority,
        name: job.name,
        characteristics,
        form: job.form,
        queue,
        restart: job.restart,
        retain: job.retain,
    }
}
