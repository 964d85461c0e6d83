// What a moment and a merge of queues make of entries, and what goes with a queue. It concerns no entry that has a run.
ghost use Rattle.std.specs.Prelude.{◌≡◌, map, find, count_by, None};
ghost use Rattle.qm_model.specs.Common.{entry_at, runs_for};
ghost use Rattle.qm_model.specs.Merging.{moved_to, waits_in};
ghost use Rattle.qm_tables.specs.Entries.{without_home, without_over};

use crate::tables::TableSet;
use qm_kinds::{Moment, Name};

impl TableSet {
    /// Takes out the entries that are retained until a moment that has come. It looks at each entry once, and writes the tags of
    /// those that stay anew in a second walk.
    pub fn remove_over(&mut self, now: Moment)
        ensures { self.new ≡ record self.old { entries = without_over now self.old.entries } }
    {
        self.entries.remove_over(now);
    }

    /// Makes each entry what the moment finds: a job that waited until then becomes pending. It looks at each entry once.
    pub fn wake(&mut self, now: Moment)
        ensures { self.new ≡ record self.old { entries = map (entry_at now) self.old.entries } }
    {
        self.entries.wake(now);
    }

    /// Gives each job that waits in the queue `from` the home `to`, and tells how many there were. It looks at each entry
    /// once, and writes the tags of all anew in a second walk.
    pub fn merge(&mut self, to: &Name, from: &Name) -> usize
        ensures entries { self.new ≡ record self.old {
          entries = map (moved_to to.now from.now) self.old.entries;
        } }
        ensures moved { result ≡ count_by (waits_in from.now) self.old.entries }
    {
        self.entries.merge(to, from)
    }

    /// Takes out the entries that have this queue as their home, none of which has a run. It looks at each entry once, and
    /// writes the tags of those that stay anew in a second walk.
    pub fn remove_of_home(&mut self, home: &Name)
        requires { find (runs_for home.now) self.old.entries ≡ None }
        ensures { self.new ≡ record self.old { entries = without_home home.now self.old.entries } }
    {
        self.entries.remove_of_home(home);
    }
}
