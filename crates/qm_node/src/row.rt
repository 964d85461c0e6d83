// A run that is kept, with the cursor of its symbiont.
ghost use Rattle.std.specs.Prelude.{◌≡◌, IfOk, OnErr};
ghost use Rattle.qm_model.specs.Kept.{may_step};
ghost use Rattle.qm_symb.specs.Symbiont.{IfGoesOn, IsWithinLimits};
ghost use Rattle.qm_node.specs.Rows.{bare};
ghost use Rattle.qm_node.specs.Steps.{IsStep};

use qm_keyed::Keyed;
use qm_kinds::{ABORTED_STATUS, Place, Report, Work};
use qm_symb::Symbiont;
use std::alloc::AllocError;

/// A run, what the last fetch said of it, and how far it is: its place, and the cursor of its symbiont.
#[derive(Drop)]
pub struct Row<C> {
    pub run: u64,
    pub aborting: bool,
    pub paused: bool,
    pub work: Work,
    pub place: Place,
    pub cursor: C,
    /// The number of the fetch that gave it.
    pub fetched: u64,
}

/// Runs stand by number.
impl<C> Keyed<u64> for Row<C> {
    ghost use Rattle.std.specs.Prelude.{◌==◌, nat_lt};
    ghost use Rattle.std.specs.Cmp.{unsigned_ties};
    ghost use Rattle.qm_keyed.specs.Numbers.{lesser_is};

    ghost key = { λ row. row.run };

    ghost has = { λ number row. row.run == number };

    ghost follows = { λ number row. nat_lt number row.run };

    fn key(&self) -> &u64 {
        &self.run
    }

    ghost has_tests = { λ number row. unsigned_ties row.run number };

    ghost follows_tests = { λ number row. lesser_is number row.run };
}

impl<C> Row<C> {
    // An aborting run may step, and so may one whose queue isn't paused.
    pub(crate) fn may_step(&self) -> bool
        ensures { result ≡ may_step (bare self.now) }
    {
        self.aborting || !self.paused
    }
}

// Makes a step of a run, whose place stays: its cursor stands behind the report.
pub(crate) fn make_step<Y: Symbiont>(
    symbiont: &mut Y,
    row: &mut Row<Y::Cursor>,
) -> Result<Report, AllocError>
    requires limits { IsWithinLimits row.old.work }
    requires place { Y.stands row.old.work row.old.place row.old.cursor }
    ensures same { row.new ≡ record row.old { cursor = row.new.cursor } }
    ensures step { IfOk result (λ told.
        IsStep Y.meaning (bare row.old) told symbiont.old symbiont.new) }
    ensures next_place { IfOk result (λ told.
        IfGoesOn told (λ next. Y.stands row.old.work next row.new.cursor)) }
    ensures nothing_handed { OnErr result (symbiont.new ≡ symbiont.old) }
    ensures same_place { OnErr result (Y.stands row.old.work row.old.place row.new.cursor) }
{
    if row.aborting {
        return Ok(Report::Done {
            status: ABORTED_STATUS,
        });
    }
    symbiont.step(&row.work, row.place, &mut row.cursor)
}
