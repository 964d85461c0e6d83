// What is due at a moment: jobs that wait for it become pending, and those that are retained until then go. It is found by
// the timers, so what isn't due costs nothing.
ghost use Rattle.std.specs.Prelude.{◌≡◌, ◌≤◌, ◌<◌, All, IfSome, IfNone, Some, None, false, if◌then◌else◌, length};
ghost use Rattle.qm_model.specs.Due.{entry_at, is_due, is_over};
ghost use Rattle.qm_image.specs.Image.{system_of};
ghost use Rattle.qm_making.specs.Keeping.{KeepsOthers};
ghost use Rattle.qm_image.specs.Preparing.{found};
ghost use Rattle.qm_image.specs.Timers.{entries_at, HasCome};
ghost use Rattle.qm_tables.specs.Timers.{moment_of};

use crate::making::leave;
use qm_ending::{Leaving, leave_files};
use qm_image::Image;
use qm_kinds::{Entry, EntryState, Moment};
use qm_model::what_is_not_due_stays;
use qm_parts::see_entries;

/// Up to so many entries that are due are released each by itself; more in one pass over all.
const FEW: usize = 64;

// What a moment leaves of an entry.
fn left_at(now: Moment, entry: &Entry) -> Option<Entry>
    ensures { result ≡ (if is_over now entry.now.state then None else Some (entry_at now entry.now)) }
{
    match entry.state {
        EntryState::Timed { at } if at <= now => Some(Entry {
            state: EntryState::Pending,
            ..*entry
        }),
        EntryState::Retained {
            until: Some(until),
            ..
        } if until <= now => None,
        _ => Some(*entry),
    }
}

// The number of the first entry that is due. Where none is told, none is due.
fn next_due(image: &Image, now: Moment) -> Option<u32>
    ensures due { IfSome result (λ number. HasCome now (moment_of number image.now.parts.timers)) }
    ensures none { IfNone result (All (λ e. is_due now e.state ≡ false) image.now.parts.entries) }
{
    see_entries(&image.parts);
    match image.parts.timers().due(now) {
        None => None,
        Some((_, number)) => Some(number),
    }
}

// The entry of a number, which is due, becomes what the moment finds.
#[tactic(auto, unfolding(qm_image::specs::Image::system_of))]
fn release(image: &mut Image, now: Moment, number: u32)
    requires due { HasCome now (moment_of number image.old.parts.timers) }
    ensures found { entries_at now image.new.parts.entries ≡ entries_at now image.old.parts.entries }
    ensures rows { system_of image.new ≡ record (system_of image.old) { entries = image.new.parts.entries } }
    ensures others { KeepsOthers image.old image.new }
    ensures fewer { length image.new.parts.timers < length image.old.parts.timers }
    ensures room { image.old.parts.spare_timers ≤ image.new.parts.spare_timers }
{
    let Some(entry) = image.parts.entry(number) else {
        unreachable!()
    };
    let left = left_at(now, entry);
    leave(image, number, left);
}

// Each entry that is due is released, one by one.
#[tactic(auto, unfolding(qm_image::specs::Image::system_of))]
fn release_each(image: &mut Image, now: Moment)
    ensures entries { image.new.parts.entries ≡ entries_at now image.old.parts.entries }
    ensures rows { system_of image.new ≡ record (system_of image.old) { entries = image.new.parts.entries } }
    ensures others { KeepsOthers image.old image.new }
    ensures room { image.old.parts.spare_timers ≤ image.new.parts.spare_timers }
{
    what_is_not_due_stays();
    while let Some(number) = next_due(image, now) {
        release(image, now, number);
    }
}

// The entries that are due are released in one pass over all, and one over the timers.
#[tactic(auto, unfolding(qm_image::specs::Image::system_of))]
fn release_all(image: &mut Image, now: Moment)
    ensures entries { image.new.parts.entries ≡ entries_at now image.old.parts.entries }
    ensures rows { system_of image.new ≡ record (system_of image.old) { entries = image.new.parts.entries } }
    ensures others { KeepsOthers image.old image.new }
    ensures room { image.old.parts.spare_timers ≤ image.new.parts.spare_timers }
{
    see_entries(&image.parts);
    leave_files(&mut image.spool, image.parts.entries(), &Leaving::Over(now));
    image.parts.remove_over(now);
    image.parts.wake(now);
    image.parts.remove_due_timers(now);
}

/// Makes the rows those that the acting moment finds. Where nothing is due no entry is looked at, and where few are,
/// these alone.
#[tactic(auto, unfolding(qm_image::specs::Image::system_of))]
pub fn reach(image: &mut Image, now: Moment)
    ensures rows { system_of image.new ≡ found now (system_of image.old) }
    ensures others { KeepsOthers image.old image.new }
    ensures room { image.old.parts.spare_timers ≤ image.new.parts.spare_timers }
{
    image.last = now;
    if image.parts.timers().due_now(now).len() <= FEW {
        release_each(image, now);
    } else {
        release_all(image, now);
    }
}
