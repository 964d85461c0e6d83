// The rows of a listing.
ghost use Rattle.std.specs.Prelude.{◌≡◌, ◌<◌, [], flat_map, length, slice_get, IfOk, IfNone, IfSome, option_copied};

use crate::part::Part;
use qm_kinds::Row;
use std::alloc::{AllocError, Global};
use std::marker::Model;

/// The rows of a listing in order, in parts. Contracts see just their list.
#[derive(Drop)]
pub struct Rows {
    parts: Vec<Part>,
}

impl Model for Rows {
    ghost use Rattle.std.specs.Prelude.{List, flat_map};
    ghost use Rattle.qm_kinds.specs.declared.query.Row.{Row as AnyRow};

    ghost Value = { List AnyRow };

    ghost view = { λ r. flat_map (λ part. part) r.parts.items };
}

impl Rows {
    /// No row. It takes no memory.
    pub fn new(alloc: Global) -> Rows
        ensures { result ≡ [] }
    {
        Rows {
            parts: Vec::new(alloc),
        }
    }

    /// These rows, as one part.
    pub fn of(alloc: Global, rows: Vec<Row>) -> Result<Rows, AllocError>
        ensures { IfOk result (λ all. all ≡ rows.items) }
    {
        let mut parts = Vec::with_capacity(alloc, 1)?;
        parts.push(Part::of(rows))?;
        Ok(Rows { parts })
    }

    /// The rows of these parts, one behind another. It takes no memory.
    pub fn of_parts(parts: Vec<Part>) -> Rows
        ensures { result ≡ flat_map (λ part. part) parts.items }
    {
        Rows { parts }
    }

    /// The parts, one behind another.
    pub fn parts(&self) -> &[Part]
        ensures { flat_map (λ part. part) result.now ≡ self.now }
    {
        self.parts.as_slice()
    }

    /// The first row, if there is one.
    pub fn first(&self) -> Option<&Row>
        ensures { option_copied result ≡ slice_get self.now 0 }
    {
        for part in &self.parts {
            if let [row, ..] = part.as_slice() {
                return Some(row);
            }
        }
        None
    }

    /// How many rows there are, if a `usize` can tell it.
    pub fn count(&self) -> Option<usize>
        ensures some { IfSome result (λ count. count ≡ length self.now) }
        ensures none { IfNone result (18446744073709551615 < length self.now) }
    {
        let mut count = 0usize;
        for part in &self.parts {
            match count.checked_add(part.len()) {
                Some(more) => count = more,
                None => return None,
            }
        }
        Some(count)
    }
}
