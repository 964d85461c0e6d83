// Scans: rows that are asked for one by one.
ghost use Rattle.std.specs.Prelude.{◌≡◌, IfOk, IsSome, OnErr};
ghost use Rattle.qm_kinds.specs.declared.system.System.{System};
ghost use Rattle.qm_parts.specs.Tables.{with_tables};
ghost use Rattle.qm_scan.specs.Scanning.{behind_row, listing_of, place_behind, query_of, row_behind};

use crate::next::next_row;
use qm_kinds::{After, Kinds, Listing, Name, Pattern, Query, Row};
use qm_parts::Parts;
use std::alloc::{AllocError, Global};

/// What a scan goes through.
#[derive(Clone, Copy)]
pub enum ScanKind {
    /// Queues, by name.
    Queues,
    /// The entries that stand in one queue, by number.
    Jobs,
    /// All entries, by number.
    Entries,
    /// Forms, by number.
    Forms,
    /// Characteristics, by number.
    Characteristics,
}

/// Rows that are asked for one by one: those whose names match, of all users. It keeps which row it gave last, and no more: so it goes
/// on where rows came or went meanwhile, that one among them.
///
/// OpenVMS System Services Reference Manual, $GETQUI, on wildcard searches.
#[derive(Clone, Copy)]
pub struct Scan {
    alloc: Global,
    kind: ScanKind,
    pattern: Pattern,
    queue: Option<Name>,
    after: Option<After>,
}

// The listing that a scan goes through.
fn listing_of(kind: ScanKind) -> Listing
    ensures { result ≡ listing_of kind }
{
    match kind {
        ScanKind::Queues => Listing::Queues,
        ScanKind::Jobs => Listing::Jobs,
        ScanKind::Entries => Listing::Entries,
        ScanKind::Forms => Listing::Forms,
        ScanKind::Characteristics => Listing::Characteristics,
    }
}

// Where a listing goes on behind a row.
fn place_behind(row: &Row) -> Option<After>
    ensures { result ≡ place_behind row.now }
{
    match row {
        Row::Queue(queue) => Some(After::Name(queue.get().name)),
        Row::Entry(entry) => Some(After::Number(entry.number())),
        Row::Form(form) => Some(After::Number(u32::from(form.number))),
        Row::Characteristic(one) => Some(After::Number(u32::from(one.number))),
        Row::Manager { .. } => None,
    }
}

impl Scan {
    /// A scan of what matches the pattern, in this queue where it goes through the jobs of one. It begins behind `after`, as if that row
    /// had been given, or with the first row. It takes no memory.
    pub fn new(
        alloc: Global,
        kind: ScanKind,
        pattern: Pattern,
        queue: Option<Name>,
        after: Option<After>,
    ) -> Scan
        ensures { result ≡ record {
          alloc = alloc;
          kind = kind;
          pattern = pattern;
          queue = queue;
          after = after;
        } }
    {
        Scan {
            alloc,
            kind,
            pattern,
            queue,
            after,
        }
    }

    // What the scan asks for.
    fn query(&self) -> Query
        ensures { result ≡ query_of self.now }
    {
        Query {
            listing: listing_of(self.kind),
            pattern: self.pattern,
            number: None,
            user: None,
            kinds: Kinds {
                batch: true,
                print: true,
                generic_batch: true,
                generic_print: true,
            },
            queue: self.queue,
            after: self.after,
            single: true,
        }
    }

    /// The row behind the last one that was given, as the tables stand now; none just where no row past that one matches. Want of
    /// memory comes only where there is such a row, and leaves the scan where it was.
    ///
    /// It asks a logarithm of the entries, and then walks to the next that matches.
    pub fn next(&mut self, parts: &Parts) -> Result<Option<Row>, AllocError>
        ensures row { (s : System)
            → IfOk result (λ one. one ≡ row_behind self.old (with_tables s parts.now)) }
        ensures no_memory { (s : System)
            → OnErr result (IsSome (row_behind self.old (with_tables s parts.now))) }
        ensures goes_on { IfOk result (λ one. self.new ≡ behind_row self.old one) }
        ensures stays { OnErr result (self.new ≡ self.old) }
    {
        let row = next_row(self.alloc, parts, &self.query())?;
        self.go_behind(&row);
        Ok(row)
    }

    // The scan goes on behind this row, if there is one.
    fn go_behind(&mut self, row: &Option<Row>)
        ensures { self.new ≡ behind_row self.old row.now }
    {
        if let Some(row) = row {
            self.after = place_behind(row);
        }
    }
}
