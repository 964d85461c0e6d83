// Entries are changed, and the clock is looked at: what is decided.
ghost use Rattle.std.specs.Prelude.{◌≡◌, ◌<◌, ℕ, List, OnOk};
ghost use Rattle.qm_kinds.specs.declared.request.Request.TheVariants as request;
ghost use Rattle.qm_model.specs.Entries.{entry_change_refusal, changed_entry};
ghost use Rattle.qm_parts.specs.Rooms.{HavePlacesFor};
ghost use Rattle.qm_image.specs.Deciding.{Prepares, PreparesAt};
ghost use Rattle.qm_image.specs.Image.{system_of};
ghost use Rattle.qm_jobs.specs.Rooms.{DifferInRooms};

use crate::jobs::reserve_timer;
use qm_image::{Change, Image, Refused};
use qm_kinds::{Entry, EntryChange, Moment, Name, Refusal};
use std::alloc::AllocError;

// Why an entry that is there can't be changed so.
#[tactic(auto, unfolding(qm_image::specs::Image::system_of))]
fn entry_change_refusal(image: &Image, change: &EntryChange, entry: &Entry) -> Option<Refusal>
    ensures { result ≡ entry_change_refusal (system_of image.now) change.now entry.now }
{
    qm_rules::entry_change_refusal(
        image.parts.form_table(),
        image.parts.queue_table(),
        change,
        entry,
    )
}

// The entry as it is after the change, at the acting moment.
#[tactic(auto, unfolding(qm_image::specs::Image::system_of))]
fn changed_entry(image: &Image, now: Moment, change: &EntryChange, entry: &Entry) -> Entry
    ensures { result ≡ changed_entry (system_of image.now) now change.now entry.now }
{
    qm_rules::changed_entry(image.parts.form_table(), now, change, entry)
}

// Makes room for an entry that is changed, in the rows of the queues that jobs of its home may come to, and for a timer.
#[tactic(auto, unfolding(qm_image::specs::Image::system_of))]
fn reserve_change(image: &mut Image, home: &Name) -> Result<(), AllocError>
    ensures rows { system_of image.new ≡ system_of image.old }
    ensures tables { DifferInRooms image.old.parts image.new.parts }
    ensures places { OnOk result (HavePlacesFor home.now 1 image.new.parts) }
    ensures timer { OnOk result (0 < image.new.parts.spare_timers) }
{
    reserve_timer(image)?;
    image.parts.reserve_places(home, 1)
}

/// Decides on an entry that is changed, and takes the room for it and for a timer: it may have another home and wait for a
/// moment then. Whether it waits is judged before what is due at the acting moment is done; its new state goes by that
/// moment.
#[tactic(auto, unfolding(qm_image::specs::Image::system_of))]
#[inline(never)]
pub fn prepare_set_entry<'a>(
    image: &mut Image,
    now: Moment,
    number: u32,
    change: &EntryChange,
) -> Result<Change<'a>, Refused>
    ensures { (node : List ℕ) → PreparesAt now node (request.SetEntry number change.now) image.old image.new result }
{
    let Some(entry) = image.parts.entry(number) else {
        return Err(Refused::By(Refusal::NoSuchEntry { number }));
    };
    if let Some(refusal) = entry_change_refusal(image, change, entry) {
        return Err(Refused::By(refusal));
    }
    let entry = changed_entry(image, now, change, entry);
    match reserve_change(image, &entry.home) {
        Ok(()) => Ok(Change::ReplaceEntry { entry }),
        Err(AllocError) => Err(Refused::NoMemory),
    }
}

/// Decides on a look at the clock, which nothing refuses.
#[tactic(auto, unfolding(qm_image::specs::Image::system_of))]
pub fn prepare_tick<'a>(image: &Image) -> Result<Change<'a>, Refused>
    ensures { Prepares request.Tick image.now image.now result }
{
    Ok(Change::Tick)
}
