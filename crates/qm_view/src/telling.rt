// What a node has to do for its runs. It costs the runs of all nodes and the bytes of the works that are told, whatever entries
// wait.
ghost use Rattle.std.specs.Prelude.{◌≡◌, ◌==◌, ◌++◌, [], All, IfOk, OnOk, IsSome, false, unwrap_or};
ghost use Rattle.std.specs.List.{list_any};
ghost use Rattle.std.specs.List.Sorted.{IsNonDecreasing};
ghost use Rattle.std.specs.Option.{option_copied, option_map_or};
ghost use Rattle.qm_kinds.specs.declared.request.NameOrNumber.TheVariants.{Name as Named};
ghost use Rattle.qm_model.specs.Common.{bytes_of, IsConsistent, form_wanted};
ghost use Rattle.qm_model.specs.Duties.{duties, duty_of, work_of, is_paused, run_number, queue_of_run, device_of_run, form_that_shapes, shape_of};
ghost use Rattle.qm_parts.specs.ByRun.{entry_on};
ghost use Rattle.qm_view.specs.Duties.{HasWork, HasWorkOn, duty_on, duties_on};
ghost use Rattle.qm_image.specs.Image.{system_of};

use qm_ending::{fate_of, runs_in};
use qm_image::Image;
use qm_kinds::{
    Duty, Entry, EntryState, FileName, JobKind, Name, NameOrNumber, Queue, QueueState, Run, Seq,
    Shape, Work, default_form,
};
use std::alloc::AllocError;

// Whether the runs of a queue in this state wait.
fn is_paused(state: QueueState) -> bool
    ensures { result ≡ is_paused state }
{
    match state {
        QueueState::Paused => true,
        QueueState::Stopped | QueueState::Started | QueueState::Stopping => false,
    }
}

// The number of the run of an entry, 0 where it has none.
fn run_number(entry: &Entry) -> u64
    ensures { result ≡ run_number entry.now }
{
    match entry.state {
        EntryState::Running { run, .. } | EntryState::Aborting { run, .. } => run,
        _ => 0,
    }
}

// The form that shapes the pages of a job: that of a print job, and DEFAULT for a batch job.
fn form_that_shapes(entry: &Entry) -> Name
    ensures { result ≡ form_that_shapes entry.now.kind entry.now.form }
{
    match (entry.kind, entry.form) {
        (JobKind::Print, Some(form)) => form,
        (JobKind::Print, None) | (JobKind::Batch, _) => default_form(),
    }
}

// Whether the number is among numbers that rise.
fn is_among(numbers: &[u64], number: u64) -> bool
    requires { IsNonDecreasing numbers.now }
    ensures { result ≡ list_any (λ n. n == number) numbers.now }
{
    numbers.binary_search(&number).is_ok()
}

// The queue where an entry has its run.
#[tactic(auto, unfolding(qm_image::specs::Image::system_of))]
fn queue_of_run<'a>(image: &'a Image, entry: &Entry) -> Option<&'a Queue>
    ensures { option_copied result ≡ queue_of_run (system_of image.now) entry.now }
{
    match runs_in(&entry.state) {
        None => None,
        Some(name) => image.parts.queue(&name),
    }
}

// Whether the run of an entry waits, since its queue is paused.
fn waits(image: &Image, entry: &Entry) -> bool
    ensures { result ≡ option_map_or (λ q. is_paused q.state) (queue_of_run (system_of image.now) entry.now) false }
{
    match queue_of_run(image, entry) {
        None => false,
        Some(queue) => is_paused(queue.state),
    }
}

// The device at which an entry runs.
fn device_of_run(image: &Image, entry: &Entry) -> Name
    requires { IsSome (device_of_run (system_of image.now) entry.now) }
    ensures { result ≡ unwrap_or (device_of_run (system_of image.now) entry.now) [] }
{
    let Some(queue) = queue_of_run(image, entry) else {
        unreachable!()
    };
    let Some(device) = queue.device else {
        unreachable!()
    };
    device
}

// How the pages of a job are set.
#[tactic(auto, unfolding(qm_image::specs::Image::system_of))]
fn shape_of(image: &Image, entry: &Entry) -> Shape
    requires { IsSome (form_wanted (Named (form_that_shapes entry.now.kind entry.now.form)) (system_of image.now).forms) }
    ensures { result ≡ shape_of (system_of image.now) entry.now }
{
    let wanted = NameOrNumber::Name(form_that_shapes(entry));
    let Some(form) = image.parts.form_table().form(&wanted) else {
        unreachable!()
    };
    form.shape
}

// A copy of the bytes of a file, none where it isn't there.
#[tactic(auto, unfolding(qm_image::specs::Image::system_of))]
fn copy_file(image: &Image, name: &FileName) -> Result<Vec<u8>, AllocError>
    ensures { IfOk result (λ bytes. bytes.items ≡ bytes_of name.now (system_of image.now).files) }
{
    match image.spool.bytes(name) {
        None => Ok(Vec::new(image.alloc)),
        Some(bytes) => Vec::from_slice(image.alloc, bytes),
    }
}

// What a symbiont needs for the run of an entry.
fn work_of(image: &Image, entry: &Entry) -> Result<Work, AllocError>
    requires { HasWork (system_of image.now) entry.now }
    ensures { IfOk result (λ work. work ≡ work_of (system_of image.now) entry.now) }
{
    let text = copy_file(image, &entry.file)?;
    Ok(Work {
        run: run_number(entry),
        entry: entry.number,
        kind: entry.kind,
        name: entry.name,
        user: entry.user,
        device: device_of_run(image, entry),
        text: Seq::of(text),
        shape: shape_of(image, entry),
        copies: entry.copies,
        flag: entry.flag,
        again: entry.again,
        mark: entry.mark,
    })
}

// The work of an entry, unless its run is among these, whose numbers rise.
fn new_work(image: &Image, entry: &Entry, known: &[u64]) -> Result<Option<Work>, AllocError>
    requires work { HasWork (system_of image.now) entry.now }
    requires rising { IsNonDecreasing known.now }
    ensures { IfOk result (λ work. work ≡ (duty_of (system_of image.now) known.now entry.now).work) }
{
    if is_among(known, run_number(entry)) {
        return Ok(None);
    }
    let work = work_of(image, entry)?;
    Ok(Some(work))
}

// What a node has to do for the run of an entry, where it knows the works of these runs, whose numbers rise.
fn duty_of(image: &Image, entry: &Entry, known: &[u64]) -> Result<Duty, AllocError>
    requires work { HasWork (system_of image.now) entry.now }
    requires rising { IsNonDecreasing known.now }
    ensures { IfOk result (λ duty. duty ≡ duty_of (system_of image.now) known.now entry.now) }
{
    let work = new_work(image, entry, known)?;
    Ok(Duty {
        run: run_number(entry),
        aborting: fate_of(&entry.state).is_some(),
        paused: waits(image, entry),
        work,
    })
}

// The entry of a run that is on the node.
#[tactic(auto, unfolding(qm_image::specs::Image::system_of))]
fn entry_on<'a>(image: &'a Image, node: &Name, run: &Run) -> Option<&'a Entry>
    ensures { option_copied result ≡ entry_on node.now (system_of image.now).entries run.now }
{
    if run.node != *node {
        return None;
    }
    image.parts.entry(run.entry)
}

// Adds what a node has to do for a run, where it is on the node.
fn add_duty(
    image: &Image,
    node: &Name,
    known: &[u64],
    run: &Run,
    duties: &mut Vec<Duty>,
) -> Result<(), AllocError>
    requires work { HasWorkOn (system_of image.now) node.now run.now }
    requires rising { IsNonDecreasing known.now }
    ensures { OnOk result (duties.new.items ≡ duties.old.items ++ duty_on (system_of image.now) node.now known.now run.now) }
{
    let Some(entry) = entry_on(image, node, run) else {
        return Ok(());
    };
    let duty = duty_of(image, entry, known)?;
    duties.push(duty)?;
    Ok(())
}

// What a node has to do for those of these runs that are on it, in their order.
fn duties_of_runs(
    image: &Image,
    node: &Name,
    known: &[u64],
    runs: &[Run],
) -> Result<Vec<Duty>, AllocError>
    requires works { All (HasWorkOn (system_of image.now) node.now) runs.now }
    requires rising { IsNonDecreasing known.now }
    ensures { IfOk result (λ list. list.items ≡ duties_on (system_of image.now) node.now known.now runs.now) }
{
    let mut duties = Vec::new(image.alloc);
    for run in runs {
        add_duty(image, node, known, run, &mut duties)?;
    }
    Ok(duties)
}

/// What a node has to do that has the works of the runs of these numbers: its runs by number, whether each is to be cut
/// short, whether its queue is paused, and the work of each that isn't among them. Nothing is changed; it fails for want
/// of memory alone.
#[tactic(auto, unfolding(qm_image::specs::Image::system_of))]
pub fn duties(image: &Image, node: &Name, known: &[u64]) -> Result<Vec<Duty>, AllocError>
    requires sound { IsConsistent (system_of image.now) }
    ensures { IfOk result (λ list. list.items ≡ duties (system_of image.now) node.now known.now) }
{
    let mut rising = Vec::from_slice(image.alloc, known)?;
    rising.sort_unstable();
    let duties = duties_of_runs(image, node, &rising, image.parts.runs())?;
    Ok(duties)
}
