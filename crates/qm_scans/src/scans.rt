// The listings that a node has begun.
ghost use Rattle.std.specs.Prelude.{◌≡◌};
ghost use Rattle.qm_history.specs.Scans.{begun_query, behind_refusal, behind_rows, behind_shown, no_scans, place_behind, scan_of, scanned, with_found, with_scan};
ghost use Rattle.qm_scans.specs.Behind.{behind_answer, behind_query, behind_stop};

use crate::step::ScanStep;
use qm_history::Answer;
use qm_kinds::{After, Listing, Name, Query, Refusal, Row};
use qm_rows::Rows;
use std::marker::Model;

/// The listings that a node has begun by item lists, one for each function, each behind the last row that it gave; and the queue
/// that was given last. Contracts see the record `Scans` of histories. No call of it takes memory.
///
/// OpenVMS System Services Reference Manual, $GETQUI, on wildcard searches and the calls that go on with them.
#[derive(Drop)]
pub struct Scans {
    queues: Option<Query>,
    jobs: Option<Query>,
    entries: Option<Query>,
    forms: Option<Query>,
    characteristics: Option<Query>,
    found: Option<Name>,
}

impl Model for Scans {
    ghost use Rattle.qm_history.specs.Scans.{Scans as Begun};

    ghost Value = { Begun };

    ghost view = { λ s. record {
      queues = s.queues;
      jobs = s.jobs;
      entries = s.entries;
      forms = s.forms;
      characteristics = s.characteristics;
      found = s.found;
    } };
}

// Where a listing goes on behind a row.
fn place_behind(row: &Row) -> Option<After>
    ensures { result ≡ place_behind row.now }
{
    match row {
        Row::Queue(queue) => Some(After::Name(queue.get().name)),
        Row::Entry(entry) => Some(After::Number(entry.number())),
        Row::Form(form) => Some(After::Number(u32::from(form.number))),
        Row::Characteristic(one) => Some(After::Number(u32::from(one.number))),
        Row::Manager { .. } => None,
    }
}

impl Scans {
    /// None was begun.
    pub fn new() -> Scans
        ensures { result ≡ no_scans }
    {
        Scans {
            queues: None,
            jobs: None,
            entries: None,
            forms: None,
            characteristics: None,
            found: None,
        }
    }

    // The listing of a function that was begun, if it was.
    fn scan_of(&self, listing: Listing) -> Option<Query>
        ensures { result ≡ scan_of self.now listing }
    {
        match listing {
            Listing::Queues => self.queues,
            Listing::Jobs => self.jobs,
            Listing::Entries => self.entries,
            Listing::Forms => self.forms,
            Listing::Characteristics => self.characteristics,
            Listing::Manager | Listing::Cancel => None,
        }
    }

    // A query with which a listing begins: one of jobs begins in the queue that was given last.
    fn begun_query(&self, query: Query) -> Query
        ensures { result ≡ begun_query self.now query query.listing }
    {
        match query.listing {
            Listing::Jobs => Query {
                queue: self.found,
                ..query
            },
            _ => query,
        }
    }

    /// What a query asks for at this node: one of an item list goes on with the listing that was begun, whatever it searches for, or
    /// begins one; any other stays as it is.
    pub fn scanned(&self, query: Query) -> Query
        ensures { result ≡ scanned self.now query query.single }
    {
        if !query.single {
            return query;
        }
        match self.scan_of(query.listing) {
            Some(begun) => begun,
            None => self.begun_query(query),
        }
    }

    // The listing is behind a row, or ended; one of queues ends that of their jobs.
    fn set_scan(&mut self, listing: Listing, query: Option<Query>)
        ensures { self.new ≡ with_scan self.old listing query }
    {
        match listing {
            Listing::Queues => {
                self.queues = query;
                self.jobs = None;
            }
            Listing::Jobs => self.jobs = query,
            Listing::Entries => self.entries = query,
            Listing::Forms => self.forms = query,
            Listing::Characteristics => self.characteristics = query,
            Listing::Manager | Listing::Cancel => {}
        }
    }

    // The queue that a row gives is found.
    fn find(&mut self, row: &Row)
        ensures { self.new ≡ with_found self.old row.now }
    {
        if let Row::Queue(queue) = row {
            self.found = Some(queue.get().name);
        }
    }

    // A listing gave the first of these rows, if there is one.
    fn go_behind(&mut self, query: &Query, rows: &Rows)
        ensures { self.new ≡ behind_rows self.old query.now rows.now }
    {
        if let Some(row) = rows.first() {
            let behind = Query {
                after: place_behind(row),
                ..*query
            };
            self.set_scan(query.listing, Some(behind));
            self.find(row);
        }
    }

    // A query of an item list was shown.
    fn hear_shown(&mut self, query: &Query, rows: &Rows)
        ensures { self.new ≡ behind_shown self.old query.now query.now.listing rows.now }
    {
        match query.listing {
            Listing::Cancel => *self = Scans::new(),
            Listing::Manager => {}
            _ => self.go_behind(query, rows),
        }
    }

    // A query of an item list was refused.
    fn hear_refusal(&mut self, query: &Query, refusal: &Refusal)
        ensures { self.new ≡ behind_refusal self.old query.now refusal.now }
    {
        if let Refusal::NoMore { .. } = refusal {
            self.set_scan(query.listing, None);
        }
    }

    // A query was answered.
    fn hear_query(&mut self, query: &Query, answer: &Answer)
        ensures { self.new ≡ behind_query self.old query.now answer.now }
    {
        if !query.single {
            return;
        }
        match answer {
            Answer::Shown { rows, .. } => self.hear_shown(query, rows),
            Answer::Refused { refusal, .. } => self.hear_refusal(query, refusal),
            _ => {}
        }
    }

    // A stop was answered.
    fn hear_stop(&mut self, answer: &Answer)
        ensures { self.new ≡ behind_stop self.old answer.now }
    {
        match answer {
            Answer::Done { .. } | Answer::Journal { .. } => *self = Scans::new(),
            _ => {}
        }
    }

    /// Takes what a call was answered: a row of a listing, that it has no more, or that all have ended. A call answered otherwise moves
    /// none.
    pub fn hear(&mut self, step: &ScanStep, answer: &Answer)
        ensures { self.new ≡ behind_answer self.old step.now answer.now }
    {
        match step {
            ScanStep::Lists(query) => self.hear_query(query, answer),
            ScanStep::Stops => self.hear_stop(answer),
            ScanStep::Stays => {}
        }
    }
}
