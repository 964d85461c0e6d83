// Jobs start, and nobody counts the looks at rows.
ghost use Rattle.std.specs.Prelude.{◌≡◌, ◌<◌, ◌≤◌, [], length, vec_capacity};
ghost use Rattle.qm_model.specs.Common.{System, settled};
ghost use Rattle.qm_parts.specs.Tables.{with_tables};
ghost use Rattle.qm_state.specs.Settling.{AreSettled, DifferInRuns};

use qm_kinds::Start;
use qm_parts::Parts;
use qm_ready::Steps;
use std::marker::Brand;
use std::sync::ledger::{Blank, Ledger};

// Starts the jobs that can start, by steps of a ledger.
fn settle_by<L: Ledger>(parts: &mut Parts, out: &mut Vec<Start>, blank: Blank)
    requires name { blank.name ≡ L.name }
    requires parts { blank.parts ≡ L.parts }
    requires some { 0 < blank.parts }
    requires empty { out.old.items ≡ [] }
    requires room { (s : System) → length (settled (with_tables s parts.old)).started ≤ vec_capacity out.old }
    requires runs { (s : System) → length (settled (with_tables s parts.old)).started ≤ parts.old.spare_runs }
    ensures settled { AreSettled parts.old parts.new out.new.items }
    ensures rest { DifferInRuns parts.old parts.new }
{
    let mut steps = Steps::<L>::open(blank);
    qm_sched::settle(parts, out, &mut steps);
}

/// Starts the jobs that can start, as `settle` of `qm_sched` does, which counts the rows that it asks.
pub(crate) fn settle(parts: &mut Parts, out: &mut Vec<Start>)
    requires empty { out.old.items ≡ [] }
    requires room { (s : System) → length (settled (with_tables s parts.old)).started ≤ vec_capacity out.old }
    requires runs { (s : System) → length (settled (with_tables s parts.old)).started ≤ parts.old.spare_runs }
    ensures settled { AreSettled parts.old parts.new out.new.items }
    ensures rest { DifferInRuns parts.old parts.new }
{
    settle_by::<Brand>(parts, out, Blank::new(1));
}
