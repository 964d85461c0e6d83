// SHOW QUEUE and SHOW ENTRY.
ghost use Rattle.std.specs.Prelude.{◌≡◌, ◌∷◌, [], None};
ghost use Rattle.qm_dcl.specs.Showing.{characteristics_query, entries_query, forms_query, kinds_shown, listing_of, manager_query, queues_query, query_of};

use crate::settings::ListingSettings;
use qm_kinds::{Kinds, Listing, Name, Pattern, Query};

const ALL_KINDS: Kinds = Kinds {
    batch: true,
    print: true,
    generic_batch: true,
    generic_print: true,
};

// The pattern that each name matches.
fn any_name() -> Pattern
    ensures { result ≡ 42 ∷ [] }
{
    Pattern::read(b"*").unwrap()
}

// All rows of a listing whose names match. Without a pattern each name does.
fn listing_of(listing: Listing, pattern: Option<Pattern>, user: Option<Name>, kinds: Kinds) -> Query
    ensures { result ≡ listing_of listing pattern user kinds }
{
    let pattern = match pattern {
        Some(pattern) => pattern,
        None => any_name(),
    };
    Query {
        listing,
        pattern,
        number: None,
        user,
        kinds,
        queue: None,
        after: None,
        single: false,
    }
}

// The kinds of queue that are named, or all where none is.
fn kinds_shown(listing: &ListingSettings) -> Kinds
    ensures { result ≡ kinds_shown listing.now }
{
    if listing.batch || listing.device || listing.generic {
        Kinds {
            batch: listing.batch,
            print: listing.device,
            generic_batch: listing.generic,
            generic_print: listing.generic,
        }
    } else {
        ALL_KINDS
    }
}

/// The question for queues, and below them for the user's jobs, or those of all users.
#[inline(never)]
pub(crate) fn queues_query(user: Name, listing: &ListingSettings) -> Query
    ensures { result ≡ queues_query user listing.now }
{
    let user = if listing.all_jobs { None } else { Some(user) };
    listing_of(Listing::Queues, listing.pattern, user, kinds_shown(listing))
}

// The question for one entry, whatever its user, queue and kind.
fn query_of(number: u32) -> Query
    ensures { result ≡ query_of number }
{
    Query {
        number: Some(number),
        ..listing_of(Listing::Entries, None, None, ALL_KINDS)
    }
}

/// The question for the entry of a number, or for the user's by the names of their jobs.
#[inline(never)]
pub(crate) fn entries_query(user: Name, pattern: Option<Pattern>, number: Option<u32>) -> Query
    ensures { result ≡ entries_query user pattern number }
{
    match number {
        Some(number) => query_of(number),
        None => listing_of(Listing::Entries, pattern, Some(user), ALL_KINDS),
    }
}

/// The question for forms by their names.
#[inline(never)]
pub(crate) fn forms_query(pattern: Option<Pattern>) -> Query
    ensures { result ≡ forms_query pattern }
{
    listing_of(Listing::Forms, pattern, None, ALL_KINDS)
}

/// The question for characteristics by their names.
#[inline(never)]
pub(crate) fn characteristics_query(pattern: Option<Pattern>) -> Query
    ensures { result ≡ characteristics_query pattern }
{
    listing_of(Listing::Characteristics, pattern, None, ALL_KINDS)
}

/// The question for the queue manager.
#[inline(never)]
pub(crate) fn manager_query() -> Query
    ensures { result ≡ manager_query }
{
    listing_of(Listing::Manager, None, None, ALL_KINDS)
}
