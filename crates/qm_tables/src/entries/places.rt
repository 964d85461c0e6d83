// Entries in boxes: where they stand, and what is changed there.
ghost use Rattle.std.specs.Prelude.{◌≡◌, ◌≤◌, ◌<◌, length, vec_len, vec_capacity, slice_get, slice_index_or};
ghost use Rattle.std.specs.Ordering.{nat_cmp};
ghost use Rattle.qm_model.specs.Consistent.{IsInOrder};
ghost use Rattle.qm_keyed.specs.Places.{IsPlace};
ghost use Rattle.qm_keyed.specs.Rows.{ChangesAt};
ghost use Rattle.qm_kinds.specs.declared.entry.Entry.{Entry as AnyEntry};
ghost use Rattle.qm_tables.specs.Boxed.{contents};
ghost use Rattle.qm_tables.specs.Changes.{changed_by};
ghost use Rattle.qm_tables.specs.Entries.{entry_after};

use crate::entries::change::Change;
use qm_kinds::{
    CharacteristicSet, Entry, EntryState, FileName, JobKind, JobRetain, Mark, system_user,
};

// The places where an entry may stand yet, from `low` up to `high`, and the numbers that stand in front of these and behind them.
#[derive(Drop)]
struct Span {
    low: usize,
    high: usize,
    below: u32,
    above: u32,
}

// How many places of a search are guessed by the numbers. The others halve what is left, so that a search asks no more than that
// and a logarithm of the entries, however uneven the numbers are.
const MOST_GUESSES: usize = 8;

// All places.
fn whole(boxes: &[Box<Entry>]) -> Span
    ensures low { result.low ≡ 0 }
    ensures high { result.high ≡ length boxes.now }
{
    let (below, above) = match (boxes.first(), boxes.last()) {
        (Some(first), Some(last)) => (first.number, last.number),
        _ => (0, 0),
    };
    Span {
        low: 0,
        high: boxes.len(),
        below: below.saturating_sub(1),
        above: above.saturating_add(1),
    }
}

// Where a number would stand if the numbers between both sides were all as far from each other: they mostly are one apart.
fn guess(span: &Span, number: u32) -> usize
    requires { span.now.low < span.now.high }
    ensures low { span.now.low ≤ result }
    ensures high { result < span.now.high }
{
    let places = span.high - span.low;
    let numbers = (span.above.saturating_sub(span.below) as usize).max(1);
    let ahead = number.saturating_sub(span.below) as usize;
    let place = ahead.saturating_mul(places.saturating_add(1)) / numbers;
    span.low + place.saturating_sub(1).min(places - 1)
}

// The place that a search looks at next, where so many may be guessed yet.
fn probe(span: &Span, number: u32, guesses: usize) -> usize
    requires { span.now.low < span.now.high }
    ensures low { span.now.low ≤ result }
    ensures high { result < span.now.high }
{
    if guesses > 0 {
        return guess(span, number);
    }
    span.low + (span.high - span.low) / 2
}

// The number of the entry at a place.
fn number_at(boxes: &[Box<Entry>], place: usize) -> u32
    requires { place < length boxes.now }
    ensures { (d : AnyEntry) → result ≡ (slice_index_or (contents boxes.now) place d).number }
{
    boxes[place].number
}

// Where the entry of a number stands, or where one would belong. Each entry lies in a box of its own, so each look goes to a far place
// of the memory: where numbers are evenly spread, as they mostly are, one to four looks are enough, of 65,536 entries too.
fn searched(boxes: &[Box<Entry>], number: u32) -> Result<usize, usize>
    requires { IsInOrder nat_cmp (λ e. e.number) (contents boxes.now) }
    ensures { IsPlace nat_cmp (λ e. e.number) number (contents boxes.now) result }
{
    let mut span = whole(boxes);
    let mut guesses = MOST_GUESSES;
    while span.low < span.high {
        let place = probe(&span, number, guesses);
        let there = number_at(boxes, place);
        if there == number {
            return Ok(place);
        }
        if there < number {
            span.low = place + 1;
            span.below = there;
        } else {
            span.high = place;
            span.above = there;
        }
        guesses = guesses.saturating_sub(1);
    }
    Err(span.low)
}

/// Where the entry of a number stands, or where one would belong. The last one is asked first, since an entry that has just come
/// is looked for most; else it asks a logarithm of the entries.
pub(crate) fn place_of(boxes: &[Box<Entry>], number: u32) -> Result<usize, usize>
    requires { IsInOrder nat_cmp (λ e. e.number) (contents boxes.now) }
    ensures { IsPlace nat_cmp (λ e. e.number) number (contents boxes.now) result }
{
    match boxes.last() {
        Some(last) if last.number == number => Ok(boxes.len() - 1),
        _ => searched(boxes, number),
    }
}

/// Where the first entry of a greater number stands, or would.
pub(crate) fn place_after(boxes: &[Box<Entry>], number: u32) -> usize
    requires { IsInOrder nat_cmp (λ e. e.number) (contents boxes.now) }
    ensures { slice_get (contents boxes.now) result ≡ entry_after number (contents boxes.now) }
{
    match place_of(boxes, number) {
        Ok(place) => place + 1,
        Err(place) => place,
    }
}

// Sets a field of an entry.
fn set(entry: &mut Entry, change: &Change)
    ensures { entry.new ≡ changed_by change.now entry.old }
{
    match *change {
        Change::State(state) => entry.state = state,
        Change::Mark(mark) => entry.mark = mark,
        Change::Again => entry.again = true,
        Change::Home(home) => entry.home = home,
    }
}

/// Sets a field of the entry at a place.
pub(crate) fn change_at(boxes: &mut Vec<Box<Entry>>, place: usize, change: &Change)
    requires { place < vec_len boxes.old }
    ensures contents { ChangesAt (changed_by change.now)
        (contents boxes.old.items) (contents boxes.new.items) place }
    ensures len { vec_len boxes.new ≡ vec_len boxes.old }
    ensures capacity { vec_capacity boxes.new ≡ vec_capacity boxes.old }
{
    set(boxes[place].as_mut(), change);
}

/// What a box holds until an entry comes. Which entry it is doesn't matter: the one that comes is written over it.
pub(crate) fn filler() -> Entry {
    let name = system_user();
    Entry {
        number: 0,
        kind: JobKind::Batch,
        home: name,
        name,
        user: name,
        file: FileName {
            name,
            extension: None,
        },
        size: 1,
        priority: 0,
        after: None,
        held: false,
        retain: JobRetain::Default,
        restart: false,
        characteristics: CharacteristicSet::new(),
        form: None,
        copies: 1,
        flag: false,
        mark: Mark::new(b"").unwrap(),
        again: false,
        state: EntryState::Pending,
    }
}
