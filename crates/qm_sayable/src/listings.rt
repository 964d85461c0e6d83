// Which listings a command asks for.
ghost use Rattle.std.specs.Prelude.{◌≡◌};
ghost use Rattle.qm_dcl.specs.Values.{are_digits, says_all};
ghost use Rattle.qm_sayable.specs.Listings.{are_all, are_kinds, is_whole, is_for_all, is_entries_query, is_listing, is_query};

use crate::values::is_of_digits;
use qm_kinds::{Kinds, Listing, Pattern, Query};

/// Whether a pattern is `*` alone.
pub fn says_all(pattern: &Pattern) -> bool
    ensures { result ≡ says_all pattern.now }
{
    pattern.as_bytes() == b"*".as_slice()
}

// Whether a pattern is a number.
fn is_number(pattern: &Pattern) -> bool
    ensures { result ≡ are_digits pattern.now }
{
    is_of_digits(pattern.as_bytes()) && 0 < pattern.as_bytes().len()
}

/// Whether queues of all kinds are listed.
pub fn are_all(kinds: Kinds) -> bool
    ensures { result ≡ are_all kinds }
{
    kinds.batch && kinds.print && kinds.generic_batch && kinds.generic_print
}

// Whether a command can list queues of these kinds alone.
fn are_kinds(kinds: Kinds) -> bool
    ensures { result ≡ are_kinds kinds }
{
    if kinds.generic_batch {
        kinds.generic_print
    } else {
        (kinds.batch || kinds.print) && !kinds.generic_print
    }
}

// Whether all rows of a listing are asked for.
fn is_whole(query: &Query) -> bool
    ensures { result ≡ is_whole query.now }
{
    !query.queue.is_some() && !query.after.is_some() && !query.single
}

// Whether all users' rows are asked for, whatever the kinds of their queues.
fn is_for_all(query: &Query) -> bool
    ensures { result ≡ is_for_all query.now }
{
    !query.number.is_some() && !query.user.is_some() && are_all(query.kinds)
}

// Whether a command asks for these entries.
fn is_entries_query(query: &Query) -> bool
    ensures { result ≡ is_entries_query query.now.number query.now }
{
    match query.number {
        None => query.user.is_some() && are_all(query.kinds) && !is_number(&query.pattern),
        Some(_number) => {
            !query.user.is_some() && are_all(query.kinds) && says_all(&query.pattern)
        }
    }
}

// Whether a command asks for a listing of its kind.
fn is_listing(query: &Query) -> bool
    ensures { result ≡ is_listing query.now.listing query.now }
{
    match query.listing {
        Listing::Queues => !query.number.is_some() && are_kinds(query.kinds),
        Listing::Entries => is_entries_query(query),
        Listing::Forms | Listing::Characteristics => is_for_all(query),
        Listing::Manager => is_for_all(query) && says_all(&query.pattern),
        Listing::Jobs | Listing::Cancel => false,
    }
}

/// Whether a command asks for this listing.
pub(crate) fn is_query(query: &Query) -> bool
    ensures { result ≡ is_query query.now }
{
    is_whole(query) && is_listing(query)
}
