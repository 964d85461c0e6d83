// The rows of a query, or why there are none.
ghost use Rattle.std.specs.Prelude.{◌≡◌, IfOk, IsSome, None, Ok, OnErr};
ghost use Rattle.qm_model.specs.Find.{entry_numbered};
ghost use Rattle.qm_model.specs.Listing.{entry_row};
ghost use Rattle.qm_model.specs.Rows.{all_rows, next_row, one_row, rows_listed, rows_of_entries, rows_of_jobs, single_rows, view};
ghost use Rattle.qm_image.specs.Image.{system_of};
ghost use Rattle.qm_image.specs.Refusing.{Refuses};
ghost use Rattle.qm_view.specs.Viewing.{row_asked};

use qm_image::{Image, Refused};
use qm_kinds::{ListedEntry, Listing, Query, Refusal, Row};
use qm_rows::Rows;
use qm_scan::{all_rows, next_row};
use std::alloc::{AllocError, Global};

/// The rows that a query asks for: those of the model's listing, but none of the queue manager, of which the image knows nothing.
/// It is refused where the entry that is asked for isn't there, where no queue is named whose entries are asked for, and where
/// rows are asked for one by one and none stands behind the last.
///
/// An entry is found by its number by a logarithm of the entries; so is the place behind the last row, where rows are asked for
/// one by one. All rows of a listing take one walk over the entries, and no more than 1 KiB a row, but for the targets of generic
/// queues.
pub fn view(alloc: Global, image: &Image, query: &Query) -> Result<Rows, Refused>
    ensures rows { IfOk result (λ rows. view (system_of image.now) None query.now ≡ Ok rows) }
    ensures refused { Refuses result (view (system_of image.now) None query.now) }
{
    match query.listing {
        Listing::Queues | Listing::Forms | Listing::Characteristics => listed(alloc, image, query),
        Listing::Jobs => view_jobs(alloc, image, query),
        Listing::Entries => view_entries(alloc, image, query),
        Listing::Manager | Listing::Cancel => Ok(Rows::new(alloc)),
    }
}

// The entries of the queue that is named.
fn view_jobs(alloc: Global, image: &Image, query: &Query) -> Result<Rows, Refused>
    ensures rows { IfOk result (λ rows. rows_of_jobs (system_of image.now) query.now query.now.queue ≡ Ok rows) }
    ensures refused { Refuses result (rows_of_jobs (system_of image.now) query.now query.now.queue) }
{
    match query.queue {
        None => Err(Refused::By(Refusal::NoContext)),
        Some(_) => listed(alloc, image, query),
    }
}

// The entry of a number, or a listing of entries.
fn view_entries(alloc: Global, image: &Image, query: &Query) -> Result<Rows, Refused>
    ensures rows { IfOk result (λ rows. rows_of_entries (system_of image.now) query.now query.now.number ≡ Ok rows) }
    ensures refused { Refuses result (rows_of_entries (system_of image.now) query.now query.now.number) }
{
    match query.number {
        None => listed(alloc, image, query),
        Some(number) => view_entry(alloc, image, number),
    }
}

// The entry of a number.
#[tactic(auto, unfolding(qm_image::specs::Image::system_of))]
fn view_entry(alloc: Global, image: &Image, number: u32) -> Result<Rows, Refused>
    ensures rows { IfOk result (λ rows. entry_row number (entry_numbered number (system_of image.now).entries) ≡ Ok rows) }
    ensures refused { Refuses result (entry_row number (entry_numbered number (system_of image.now).entries)) }
{
    match image.parts().entry(number) {
        None => Err(Refused::By(Refusal::NoSuchEntry { number })),
        Some(entry) => {
            let mut rows = Vec::with_capacity(alloc, 1)?;
            rows.push_reserved(Row::Entry(ListedEntry::of(alloc, entry)?));
            Ok(Rows::of(alloc, rows)?)
        }
    }
}

// The next row of a listing that goes on one by one, or all its rows.
#[inline(never)]
fn listed(alloc: Global, image: &Image, query: &Query) -> Result<Rows, Refused>
    ensures rows { IfOk result (λ rows. rows_listed (system_of image.now) query.now ≡ Ok rows) }
    ensures refused { Refuses result (rows_listed (system_of image.now) query.now) }
{
    if query.single {
        next_listed(alloc, image, query)
    } else {
        Ok(all_listed(alloc, image, query)?)
    }
}

// All rows of a listing.
fn all_listed(alloc: Global, image: &Image, query: &Query) -> Result<Rows, AllocError>
    ensures { IfOk result (λ rows. rows ≡ all_rows (system_of image.now) query.now query.now.listing) }
{
    all_rows(alloc, image.parts(), query)
}

// The next row of a listing, if there is one.
fn next(alloc: Global, image: &Image, query: &Query) -> Result<Option<Row>, AllocError>
    ensures row { IfOk result (λ one. one ≡ row_asked (system_of image.now) query.now) }
    ensures no_memory { OnErr result (IsSome (row_asked (system_of image.now) query.now)) }
{
    next_row(alloc, image.parts(), query)
}

// The next row of a listing, or its end.
fn next_listed(alloc: Global, image: &Image, query: &Query) -> Result<Rows, Refused>
    ensures rows { IfOk result (λ rows. one_row query.now.listing
        (next_row query.now.after (single_rows (system_of image.now) query.now query.now.listing)) ≡ Ok rows) }
    ensures refused { Refuses result (one_row query.now.listing
        (next_row query.now.after (single_rows (system_of image.now) query.now query.now.listing))) }
{
    let listing = query.listing;
    match next(alloc, image, query)? {
        None => Err(Refused::By(Refusal::NoMore { listing })),
        Some(row) => {
            let mut rows = Vec::with_capacity(alloc, 1)?;
            rows.push_reserved(row);
            Ok(Rows::of(alloc, rows)?)
        }
    }
}
