// Changes of queues and entries are made.
ghost use Rattle.std.specs.Prelude.{◌≡◌, ◌<◌, ◌≤◌, find, None, IfSome};
ghost use Rattle.std.specs.Ordering.{nat_cmp};
ghost use Rattle.qm_model.specs.Common.{IsConsistent, IsInOrder, entry_numbered, run_reported, with_queue, queue_stopped, stopped_queue, entries_on_stop, entry_aborting};
ghost use Rattle.qm_model.specs.Queues.{runs_for, queue_deleted};
ghost use Rattle.qm_parts.specs.Rooms.{CanPut};
ghost use Rattle.qm_rules.specs.Ending.{report_of};
ghost use Rattle.qm_image.specs.Image.{system_of};
ghost use Rattle.qm_making.specs.Keeping.{KeepsOthers, KeepsTimerRoom, HasPlaceIfMoved};
ghost use Rattle.qm_image.specs.Timers.{moment_left};
ghost use Rattle.qm_tables.specs.Timers.{with_timer, without};
ghost use Rattle.qm_image.specs.Preparing.{queue_put, queue_changed, entry_replaced, entry_removed, with_left, CanReplace, IsLeftOf};
ghost use Rattle.qm_making.specs.Replying.{IsMade};

use crate::queue_act::queue_act;
use qm_ending::{Leaving, after_report, fate_of, leave_files, report_act};
use qm_image::{Image, moment_in};
use qm_kinds::{Act, Entry, Fate, Moment, Name, Queue, QueueState, StopMode};
use qm_parts::{Parts, see_entries};
use qm_rules::{Reported, state_on_stop};
use qm_tables::Settings;

// The queue has the state that a stop leaves, if it is there.
fn set_stopped(parts: &mut Parts, name: &Name, how: StopMode)
    ensures { parts.new ≡ record parts.old { queues = with_queue name.now (stopped_queue how) parts.old.queues } }
{
    let Some(queue) = parts.queue(name) else {
        return;
    };
    let state = state_on_stop(how, queue.state);
    parts.set_queue_state(name, state);
}

// A reset cuts the queue's jobs short.
fn reset_jobs(parts: &mut Parts, name: &Name, how: StopMode)
    ensures { parts.new ≡ record parts.old { entries = entries_on_stop how name.now parts.old.entries } }
{
    match how {
        StopMode::Pause | StopMode::Next => {}
        StopMode::Reset => parts.reset_queue(name),
    }
}

/// The queue stands in its place by name, for which there is room.
#[tactic(auto, unfolding(qm_image::specs::Image::system_of))]
#[inline(never)]
pub fn put_queue(image: &mut Image, queue: Queue) -> Act
    requires { CanPut queue image.old.parts }
    ensures done { IsMade (queue_put (system_of image.old) queue) image.new result }
    ensures room { image.new.parts.spare_runs ≡ image.old.parts.spare_runs }
{
    let name = queue.name;
    image.parts.put_queue(queue);
    queue_act(image, &name)
}

/// The queue gets the settings, and the state where one is given.
#[tactic(auto, unfolding(qm_image::specs::Image::system_of))]
#[inline(never)]
pub fn set_queue(
    image: &mut Image,
    name: &Name,
    settings: &Settings,
    state: Option<QueueState>,
) -> Act
    ensures done { IsMade (queue_changed (system_of image.old) name.now settings.now state) image.new result }
    ensures room { image.new.parts.spare_runs ≡ image.old.parts.spare_runs }
{
    image.parts.set_queue(name, settings, state);
    queue_act(image, name)
}

/// The queue is stopped, and its jobs are cut short by a reset.
#[tactic(auto, unfolding(qm_image::specs::Image::system_of))]
#[inline(never)]
pub fn stop_queue(image: &mut Image, name: &Name, how: StopMode) -> Act
    ensures done { IsMade (queue_stopped (system_of image.old) name.now how) image.new result }
    ensures room { image.new.parts.spare_runs ≡ image.old.parts.spare_runs }
{
    set_stopped(&mut image.parts, name, how);
    reset_jobs(&mut image.parts, name, how);
    queue_act(image, name)
}

/// The run of the entry is to be cut short.
#[tactic(auto, unfolding(qm_image::specs::Image::system_of))]
#[inline(never)]
pub fn cut_short(image: &mut Image, entry: u32, fate: Fate) -> Act
    ensures done { IsMade (entry_aborting (system_of image.old) fate entry) image.new result }
    ensures room { image.new.parts.spare_runs ≡ image.old.parts.spare_runs }
{
    image.parts.set_fate(entry, fate);
    Act::EntryAborting { entry }
}

/// The queue goes, with its entries, none of which has a run.
#[tactic(auto, unfolding(qm_image::specs::Image::system_of))]
#[inline(never)]
pub fn remove_queue(image: &mut Image, name: &Name) -> Act
    requires { find (runs_for name.now) image.old.parts.entries ≡ None }
    ensures done { IsMade (queue_deleted (system_of image.old) name.now) image.new result }
    ensures room { image.new.parts.spare_runs ≡ image.old.parts.spare_runs }
{
    see_entries(&image.parts);
    leave_files(&mut image.spool, image.parts.entries(), &Leaving::Of(name));
    image.parts.remove_timers_of(name);
    image.parts.remove_of_home(name);
    image.parts.remove_queue(name);
    Act::QueueDeleted { queue: *name }
}

// The entry goes, if it is there, with its timer, and doesn't name its file any more.
#[tactic(auto, unfolding(qm_image::specs::Image::system_of))]
fn take_out(image: &mut Image, number: u32)
    ensures rows { system_of image.new ≡ with_left number None (system_of image.old) }
    ensures others { KeepsOthers image.old image.new }
    ensures timers { image.new.parts.timers ≡ without number image.old.parts.timers }
    ensures room { KeepsTimerRoom image.old.parts image.new.parts }
{
    let Some(entry) = image.parts.entry(number) else {
        return;
    };
    let file = entry.file;
    let _ = image.parts.remove_entry(number);
    image.spool.leave(&file);
    image.parts.set_timer(number, None);
}

/// The entry goes.
#[tactic(auto, unfolding(qm_image::specs::Image::system_of))]
#[inline(never)]
pub fn remove_entry(image: &mut Image, entry: u32) -> Act
    ensures done { IsMade (entry_removed (system_of image.old) entry) image.new result }
    ensures room { image.old.parts.spare_runs ≤ image.new.parts.spare_runs }
{
    take_out(image, entry);
    Act::EntryDeleted { entry }
}

/// What is left of an entry takes its place, with the timer that it wants, or it goes. Each entry that is changed, but for
/// what is due in one pass, comes by here.
#[tactic(auto, unfolding(qm_image::specs::Image::system_of))]
pub(crate) fn leave(image: &mut Image, number: u32, left: Option<Entry>)
    requires order { IsInOrder nat_cmp (λ e. e.number) image.old.parts.entries }
    requires left { IfSome left (λ e. IsLeftOf e number (entry_numbered number image.old.parts.entries)) }
    requires place { IfSome left (HasPlaceIfMoved number image.old.parts) }
    requires timer { IfSome (moment_left left) (λ _. 0 < image.old.parts.spare_timers) }
    ensures rows { system_of image.new ≡ with_left number left (system_of image.old) }
    ensures others { KeepsOthers image.old image.new }
    ensures timers { image.new.parts.timers ≡ with_timer number (moment_left left) image.old.parts.timers }
    ensures room { KeepsTimerRoom image.old.parts image.new.parts }
{
    match left {
        None => take_out(image, number),
        Some(entry) => {
            image.parts.set_timer(number, moment_in(&entry.state));
            image.parts.replace_entry(entry);
        }
    }
}

/// The entry takes the place of the one of its number.
#[tactic(auto, unfolding(qm_image::specs::Image::system_of))]
#[inline(never)]
pub fn replace_entry(image: &mut Image, entry: Entry) -> Act
    requires sound { IsConsistent (system_of image.old) }
    requires ready { CanReplace image.old entry }
    ensures done { IsMade (entry_replaced (system_of image.old) entry) image.new result }
    ensures room { image.old.parts.spare_runs ≤ image.new.parts.spare_runs }
{
    let number = entry.number;
    let state = entry.state;
    leave(image, number, Some(entry));
    Act::EntryIs {
        entry: number,
        state,
    }
}

/// The run is reported by the node, with a checkpoint or its end: what becomes of its entry takes its place.
#[tactic(auto, unfolding(qm_image::specs::Image::system_of))]
#[inline(never)]
pub fn report_run(image: &mut Image, now: Moment, node: &Name, run: u64, report: &Reported) -> Act
    requires sound { IsConsistent (system_of image.old) }
    requires timer { 0 < image.old.parts.spare_timers }
    ensures done { IsMade (run_reported (system_of image.old) now node.now run (report_of report.now)) image.new result }
    ensures room { image.old.parts.spare_runs ≤ image.new.parts.spare_runs }
{
    let Some(entry) = image.parts.entry_of_run(run, node) else {
        return report_act(run, report, None, &None);
    };
    let number = entry.number;
    let fate = fate_of(&entry.state);
    let left = after_report(image.parts.queue_table(), now, report, entry);
    let act = report_act(run, report, fate, &left);
    leave(image, number, left);
    act
}
