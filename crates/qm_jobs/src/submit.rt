// A job is submitted: what is decided.
ghost use Rattle.std.specs.Prelude.{◌≡◌, ◌<◌, ◌^◌, ℕ, List, [], None, OnOk, length};
ghost use Rattle.qm_kinds.specs.Sizes.{blocks_of};
ghost use Rattle.qm_kinds.specs.declared.request.Request.TheVariants as request;
ghost use Rattle.qm_model.specs.Appending.{bytes_of};
ghost use Rattle.qm_model.specs.Submitting.{submit_refusal, form_of, entry_of};
ghost use Rattle.qm_parts.specs.Rooms.{HavePlacesFor};
ghost use Rattle.qm_image.specs.Deciding.{Makes, PreparesAt};
ghost use Rattle.qm_image.specs.Image.{system_of};
ghost use Rattle.qm_image.specs.Preparing.{found, IsReady};

use qm_image::{Change, Image, Refused};
use qm_kinds::{
    ENTRIES_LIMIT, Entry, FileName, Job, JobKind, Mark, Moment, Name, NameOrNumber, Refusal,
    blocks, default_form,
};
use qm_rules::{
    first_refusal, has_bad_value, refused_absent, refused_form, refused_kind, refused_where,
    state_of,
};
use std::alloc::AllocError;

// The form of a print job: DEFAULT where none is asked for.
#[tactic(auto, unfolding(qm_image::specs::Image::system_of))]
fn form_of(image: &Image, kind: JobKind, form: Option<NameOrNumber>) -> Option<Name>
    ensures { result ≡ form_of (system_of image.now) kind form }
{
    match (kind, form) {
        (JobKind::Batch, _) => None,
        (JobKind::Print, None) => Some(default_form()),
        (JobKind::Print, Some(wanted)) => {
            image.parts.form_table().form(&wanted).map(|form| form.name)
        }
    }
}

// The number of the next entry.
fn next_number(image: &Image) -> u32
    ensures value { result ≡ image.now.next_entry }
    ensures fits { result < 2 ^ 32 }
{
    image.next_entry
}

// Why a job is refused, if it is.
#[tactic(auto, unfolding(qm_image::specs::Image::system_of))]
fn submit_refusal(image: &Image, job: &Job) -> Option<Refusal>
    ensures { result ≡ submit_refusal (system_of image.now) job.now }
{
    let queue = image.parts.queue(&job.queue);
    let refusals = [
        refused_absent(queue, &job.queue),
        refused_kind(job.kind, queue),
        refused_where(!image.has_file(&job.file), Refusal::NoSuchFile),
        refused_where(has_bad_value(job), Refusal::BadValue),
        refused_form(image.parts.form_table(), job.form),
        image
            .parts
            .form_table()
            .refused_characteristics(job.characteristics.as_slice()),
        refused_where(
            image.parts.entry_count() >= ENTRIES_LIMIT,
            Refusal::EntriesFull,
        ),
        refused_where(image.next_entry == u32::MAX, Refusal::NumbersSpent),
    ];
    first_refusal(&refusals)
}

// How many blocks a file has, at least 1.
#[tactic(auto, unfolding(qm_image::specs::Image::system_of))]
fn file_blocks(image: &Image, name: &FileName) -> u32
    ensures { result ≡ blocks_of (length (bytes_of name.now (system_of image.now).files)) }
{
    blocks(image.file_size(name) as u64) as u32
}

// The entry of a job.
#[tactic(auto, unfolding(qm_image::specs::Image::system_of))]
fn entry_of(image: &Image, now: Moment, job: &Job, mark: Mark) -> Entry
    requires { mark ≡ [] }
    ensures { result ≡ entry_of (system_of image.now) now job.now }
{
    Entry {
        number: image.next_entry,
        kind: job.kind,
        home: job.queue,
        name: job.name,
        user: job.user,
        file: job.file,
        size: file_blocks(image, &job.file),
        priority: job.priority,
        after: job.after,
        held: job.hold,
        retain: job.retain,
        restart: job.restart,
        characteristics: image
            .parts
            .form_table()
            .set_of(job.characteristics.as_slice()),
        form: form_of(image, job.kind, job.form),
        copies: job.copies,
        flag: job.flag,
        mark,
        again: false,
        state: state_of(job.hold, job.after, now),
    }
}

// Makes room for one entry more of this home, and a timer.
#[tactic(auto, unfolding(qm_image::specs::Image::system_of))]
fn reserve_entry(image: &mut Image, home: &Name) -> Result<(), AllocError>
    ensures rows { system_of image.new ≡ system_of image.old }
    ensures room { OnOk result (0 < image.new.parts.spare_entries) }
    ensures places { OnOk result (HavePlacesFor home.now 1 image.new.parts) }
    ensures timer { OnOk result (0 < image.new.parts.spare_timers) }
{
    image.parts.reserve_timer()?;
    image.parts.reserve_entry(home)
}

// The change by which a job comes that isn't refused, and for which there is room. An entry is large, so it is made at its
// place.
#[tactic(auto, unfolding(qm_image::specs::Image::system_of))]
fn new_entry<'a>(image: &Image, now: Moment, job: &Job) -> Change<'a>
    requires accepted { submit_refusal (system_of image.now) job.now ≡ None }
    requires room { 0 < image.now.parts.spare_entries }
    requires places { HavePlacesFor job.now.queue 1 image.now.parts }
    requires timer { 0 < image.now.parts.spare_timers }
    ensures ready { IsReady image.now result }
    ensures made { (node : List ℕ) → Makes now node (request.Submit job.now) (found now (system_of image.now)) result }
{
    let _number = next_number(image);
    let mark = Mark::new(&[]).unwrap();
    Change::NewEntry {
        entry: entry_of(image, now, job, mark),
    }
}

/// Decides on a job, and takes the memory for its entry.
#[inline(never)]
pub fn prepare_submit<'a>(image: &mut Image, now: Moment, job: &Job) -> Result<Change<'a>, Refused>
    ensures { (node : List ℕ) → PreparesAt now node (request.Submit job.now) image.old image.new result }
{
    if let Some(refusal) = submit_refusal(image, job) {
        return Err(Refused::By(refusal));
    }
    match reserve_entry(image, &job.queue) {
        Ok(()) => Ok(new_entry(image, now, job)),
        Err(AllocError) => Err(Refused::NoMemory),
    }
}
