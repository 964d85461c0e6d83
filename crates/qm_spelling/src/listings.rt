// Commands that list.
ghost use Rattle.std.specs.Prelude.{Some};
ghost use Rattle.qm_spelling.specs.Listings.{pattern_text, kinds_text, entries_text, query_text};

use crate::pieces::Marked;
use qm_kinds::{Kinds, Listing, Pattern, Query};
use qm_sayable::{are_all, says_all};
use std::fmt;

/// `SHOW QUEUE` or `SHOW ENTRY`
#[derive(Clone, Copy)]
pub(crate) struct QueryText<'a>(pub(crate) &'a Query);

// A pattern behind a blank, unless it is `*` alone.
#[derive(Clone, Copy)]
struct PatternText<'a>(&'a Pattern);

// The kinds of queue that are listed, unless all are.
#[derive(Clone, Copy)]
struct KindsText(Kinds);

// One entry, or entries by the names of their jobs.
#[derive(Clone, Copy)]
struct EntriesText<'a> {
    number: Option<u32>,
    pattern: &'a Pattern,
}

impl fmt::Display for PatternText<'_> {
    ghost output = { λ p. Some (pattern_text p.0.now) };

    fn fmt<W: fmt::Write>(&self, f: &mut fmt::Formatter<W>) -> fmt::Result {
        if says_all(self.0) {
            Ok(())
        } else {
            write!(f, " {}", self.0.as_str())
        }
    }
}

impl fmt::Display for KindsText {
    ghost output = { λ k. Some (kinds_text k.0) };

    fn fmt<W: fmt::Write>(&self, f: &mut fmt::Formatter<W>) -> fmt::Result {
        let kinds = self.0;
        if are_all(kinds) {
            return Ok(());
        }
        let batch = Marked {
            qualifier: "BATCH",
            given: kinds.batch,
        };
        let device = Marked {
            qualifier: "DEVICE",
            given: kinds.print,
        };
        let generic = Marked {
            qualifier: "GENERIC",
            given: kinds.generic_batch,
        };
        write!(f, "{batch}{device}{generic}")
    }
}

impl fmt::Display for EntriesText<'_> {
    ghost output = { λ e. Some (entries_text e.number e.pattern.now) };

    fn fmt<W: fmt::Write>(&self, f: &mut fmt::Formatter<W>) -> fmt::Result {
        match self.number {
            None => write!(f, "SHOW ENTRY{}", PatternText(self.pattern)),
            Some(number) => write!(f, "SHOW ENTRY {number}"),
        }
    }
}

impl fmt::Display for QueryText<'_> {
    ghost output = { λ q. Some (query_text q.0.now.listing q.0.now) };

    fn fmt<W: fmt::Write>(&self, f: &mut fmt::Formatter<W>) -> fmt::Result {
        let query = self.0;
        let pattern = PatternText(&query.pattern);
        match query.listing {
            Listing::Queues => {
                let all_jobs = Marked {
                    qualifier: "ALL_JOBS",
                    given: !query.user.is_some(),
                };
                let kinds = KindsText(query.kinds);
                write!(f, "SHOW QUEUE{pattern}{all_jobs}{kinds}")
            }
            Listing::Entries => {
                let entries = EntriesText {
                    number: query.number,
                    pattern: &query.pattern,
                };
                write!(f, "{entries}")
            }
            Listing::Forms => write!(f, "SHOW QUEUE/FORM{pattern}"),
            Listing::Characteristics => write!(f, "SHOW QUEUE/CHARACTERISTICS{pattern}"),
            Listing::Manager => f.write_str("SHOW QUEUE/MANAGERS"),
            Listing::Jobs | Listing::Cancel => Ok(()),
        }
    }
}
