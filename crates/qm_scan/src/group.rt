// The rows of a queue, as they come.
ghost use Rattle.std.specs.Prelude.{◌≡◌, ◌++◌, ◌∷◌, [], IfOk, OnOk};

use qm_kinds::Row;
use qm_rows::Part;
use std::alloc::{AllocError, Global};
use std::marker::Model;

// So many rows are put behind the others at once.
const RUN: usize = 8;

/// Rows in the order in which they came. Contracts see just their list.
///
/// The last few rows stand apart, close to those of other groups, and are brought behind the others all at once: so memory is written in
/// runs where rows of many groups come in turn.
#[derive(Drop)]
pub(crate) struct Group {
    first: Vec<Row>,
    last: Vec<Row>,
}

impl Model for Group {
    ghost use Rattle.std.specs.Prelude.{List, ◌++◌};
    ghost use Rattle.qm_kinds.specs.declared.query.Row.{Row as AnyRow};

    ghost Value = { List AnyRow };

    ghost view = { λ g. g.first.items ++ g.last.items };
}

impl Group {
    /// No row. It takes no memory.
    pub(crate) fn new(alloc: Global) -> Group
        ensures { result ≡ [] }
    {
        Group {
            first: Vec::new(alloc),
            last: Vec::new(alloc),
        }
    }

    /// No row, and room for so many.
    pub(crate) fn with_capacity(alloc: Global, room: usize) -> Result<Group, AllocError>
        ensures { IfOk result (λ group. group ≡ []) }
    {
        if room <= RUN {
            Ok(Group {
                first: Vec::new(alloc),
                last: Vec::with_capacity(alloc, room)?,
            })
        } else {
            Ok(Group {
                first: Vec::with_capacity(alloc, room)?,
                last: Vec::with_capacity(alloc, RUN)?,
            })
        }
    }

    /// Puts a row behind the others.
    pub(crate) fn push(&mut self, row: Row) -> Result<(), AllocError>
        ensures { OnOk result (self.new ≡ self.old ++ row ∷ []) }
    {
        if self.last.len() >= RUN {
            self.first.append(&mut self.last)?;
        }
        self.last.push(row)?;
        Ok(())
    }

    /// The rows, as a part of a listing.
    pub(crate) fn into_part(self) -> Result<Part, AllocError>
        ensures { IfOk result (λ part. part ≡ self) }
    {
        let Group {
            mut first,
            mut last,
        } = self;
        if first.is_empty() {
            return Ok(Part::of(last));
        }
        first.append(&mut last)?;
        Ok(Part::of(first))
    }
}
