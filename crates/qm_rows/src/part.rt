// A part of a listing.
ghost use Rattle.std.specs.Prelude.{◌≡◌, length};

use qm_kinds::Row;
use std::marker::Model;

/// Rows that stand one behind another in memory. Contracts see just their list.
#[derive(Drop)]
pub struct Part {
    rows: Vec<Row>,
}

impl Model for Part {
    ghost use Rattle.std.specs.Prelude.{List};
    ghost use Rattle.qm_kinds.specs.declared.query.Row.{Row as AnyRow};

    ghost Value = { List AnyRow };

    ghost view = { λ p. p.rows.items };
}

impl Part {
    /// These rows. It takes no memory.
    pub fn of(rows: Vec<Row>) -> Part
        ensures { result ≡ rows.items }
    {
        Part { rows }
    }

    /// The rows.
    pub fn as_slice(&self) -> &[Row]
        ensures { result.now ≡ self.now }
    {
        self.rows.as_slice()
    }

    /// How many rows there are.
    pub fn len(&self) -> usize
        ensures { result ≡ length self.now }
    {
        self.rows.len()
    }
}
