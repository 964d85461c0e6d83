// Entries that go together, and the files that they name.
ghost use Rattle.std.specs.Prelude.{◌≡◌, not, filter};
ghost use Rattle.qm_tables.specs.Boxed.{contents};
ghost use Rattle.qm_tables.specs.SpoolCounts.{CountsOf};
ghost use Rattle.qm_ending.specs.Leaving.{goes};

use qm_kinds::{Entry, EntryState, Moment, Name};
use qm_tables::Spool;

/// Which entries go.
#[derive(Clone, Copy)]
pub enum Leaving<'a> {
    /// Those that are retained until a moment that has come.
    Over(Moment),
    /// Those that have this queue as their home.
    Of(&'a Name),
}

// Whether an entry goes.
fn goes(leaving: &Leaving<'_>, entry: &Entry) -> bool
    ensures { result ≡ goes leaving.now entry.now }
{
    match leaving {
        Leaving::Over(now) => match entry.state {
            EntryState::Retained {
                until: Some(until),
                ..
            } => until <= *now,
            _ => false,
        },
        Leaving::Of(home) => entry.home == **home,
    }
}

/// Counts that these entries don't name their files any more.
pub fn leave_files(spool: &mut Spool, entries: &[Box<Entry>], leaving: &Leaving<'_>)
    requires { CountsOf (contents entries.now) spool.old.counts }
    ensures counts { CountsOf (filter (λ e. not (goes leaving.now e)) (contents entries.now)) spool.new.counts }
    ensures files { spool.new ≡ record spool.old { counts = spool.new.counts } }
{
    for boxed in entries {
        let entry = boxed.as_ref();
        if goes(leaving, entry) {
            spool.leave(&entry.file);
        }
    }
}
