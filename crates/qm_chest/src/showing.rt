// What a manager at work shows.
ghost use Rattle.std.specs.Prelude.{◌≡◌, ◌<◌, ℕ, IfOk, Ok, Some, List, false, length, slice_get};
ghost use Rattle.qm_kinds.specs.declared.input.Input.TheVariants as input;
ghost use Rattle.qm_image.specs.Refusing.{Refuses};
ghost use Rattle.qm_history.specs.Common.{is_journal, cluster};
ghost use Rattle.qm_acting.specs.Standing.{standing_of, IsReady};
ghost use Rattle.qm_chest.specs.declared.work.Work.TheVariants as work;
ghost use Rattle.qm_chest.specs.declared.members.Members.{Members as AnyMembers};
ghost use Rattle.qm_chest.specs.Steps.{IsToldStep, OwnStep, came_of, is_in_doubt, rows_of};

use crate::answering::{Step, refused, short, shown};
use crate::members::Members;
use qm_acting::Manager;
use qm_disk::Disk;
use qm_history::{Answer, Takeover};
use qm_image::Refused;
use qm_kinds::{Input, Listing, Moment, Query, Row, Seq};
use qm_restore::{site_files_are_accepted, site_files_are_consistent};
use qm_rows::Rows;
use qm_scan::the_manager_shows_in_its_listing;
use std::alloc::AllocError;

/// The runs of a node.
#[inline(never)]
pub(crate) fn fetch<D: Disk>(
    manager: &Manager<D>,
    at: u8,
    node: u8,
    now: Moment,
    known: Seq<u64>,
    took: Option<Takeover>,
) -> Step
    requires ready { IsReady D.meaning manager.now }
    requires there { node < length (standing_of manager.now).system.nodes }
    ensures up { is_in_doubt result.event ≡ false }
    ensures quiet { is_journal result.answer ≡ false }
    ensures told { IsToldStep took result.event result.answer }
    ensures comes { (members : AnyMembers) → OwnStep D.meaning members manager.now at node now (input.Fetch known) took
        (came_of result (work.Up manager.now at)) }
{
    site_files_are_accepted();
    site_files_are_consistent();
    let moment = manager.acting(now);
    match manager.duties(node, known.as_slice()) {
        Ok(duties) => shown(
            node,
            moment,
            Input::Fetch { known },
            Answer::Duties {
                took,
                moment,
                duties: Seq::of(duties),
            },
        ),
        Err(AllocError) => short(took),
    }
}

impl Members {
    /// The rows of a listing.
    #[inline(never)]
    pub(crate) fn show<D: Disk>(
        &self,
        manager: &Manager<D>,
        at: u8,
        node: u8,
        now: Moment,
        query: Query,
        took: Option<Takeover>,
    ) -> Step
        requires ready { IsReady D.meaning manager.now }
        requires names { cluster (standing_of manager.now).system ≡ self.now.names.items }
        requires there { at < length self.now.names.items }
        ensures up { is_in_doubt result.event ≡ false }
        ensures quiet { is_journal result.answer ≡ false }
        ensures told { IsToldStep took result.event result.answer }
        ensures comes { OwnStep D.meaning self.now manager.now at node now (input.Show query) took
            (came_of result (work.Up manager.now at)) }
    {
        site_files_are_accepted();
        let moment = manager.acting(now);
        match self.rows(manager, at, &query) {
            Ok(rows) => shown(
                node,
                moment,
                Input::Show(query),
                Answer::Shown { took, moment, rows },
            ),
            Err(Refused::By(refusal)) => refused(node, moment, Input::Show(query), refusal, took),
            Err(Refused::NoMemory) => short(took),
        }
    }

    // The row of the manager, or those of the image, which knows of no manager.
    fn rows<D: Disk>(&self, manager: &Manager<D>, at: u8, query: &Query) -> Result<Rows, Refused>
        requires there { at < length self.now.names.items }
        ensures rows { (name : List ℕ) → slice_get self.now.names.items at ≡ Some name
            → IfOk result (λ rows. rows_of manager.now name query.now ≡ Ok rows) }
        ensures refused { (name : List ℕ) → slice_get self.now.names.items at ≡ Some name
            → Refuses result (rows_of manager.now name query.now) }
    {
        the_manager_shows_in_its_listing();
        match query.listing {
            Listing::Manager => {
                let mut rows = Vec::new(self.alloc);
                rows.push(Row::Manager {
                    node: self.name(at),
                    epoch: manager.epoch(),
                    may: Seq::of(Vec::from_slice(self.alloc, manager.may())?),
                })?;
                Ok(Rows::of(self.alloc, rows)?)
            }
            _ => manager.view(query),
        }
    }
}
