// What a qualifier, its value, or a parameter gives. It is set in place, since settings are large and each part changes little. What
// takes a name, a file or a pattern is not inlined, so that no other way clears its locals.
ghost use Rattle.std.specs.Prelude.{◌≡◌, Some, option_map};
ghost use Rattle.qm_dcl.specs.Forms.{with_default_margins, with_margin};
ghost use Rattle.qm_dcl.specs.Given.{job_marked, queue_marked, shape_marked, stop_marked, listing_marked, with_word, queue_given, entry_given, blocks_with, valued, nodes_begun, node_given, schedule_given, queue_retain_given, until_given, after_given, margin_given, definable_given, form_given, characteristic_given, merge_given, file_given, pattern_given, parametered};
ghost use Rattle.qm_dcl.specs.Values.{raised_by};

use crate::settings::{DEFAULT_SHAPE, JobSettings, ListingSettings, QueueSettings, Settings, Stop};
use crate::value::{
    Side, are_digits, blocks_said, byte_said, characteristic_said, definable_name_said, entry_said,
    form_number_said, form_said, location_said, node_said, pattern_said, queue_retain_said,
    says_all, schedule_said, short_name_said,
};
use qm_commands::{Command, Token, Word};
use qm_kinds::{FileName, JobRetain, Moment, Name, QueueRetain, Shape};

// Sets what a qualifier gives of a job.
fn mark_job(job: &mut JobSettings, word: Word)
    ensures { job.new ≡ job_marked job.old word }
{
    match word {
        Word::Restart => job.restart = Some(true),
        Word::NoRestart => job.restart = Some(false),
        Word::Flag => job.flag = true,
        Word::NoFlag => job.flag = false,
        Word::Hold => job.hold = true,
        Word::Release => job.release = true,
        Word::NoAfter => job.after = Some(None),
        _ => {}
    }
}

// Sets what a qualifier gives of a queue. /BLOCK_LIMIT begins without limits.
fn mark_queue(queue: &mut QueueSettings, word: Word)
    ensures { queue.new ≡ queue_marked queue.old word }
{
    match word {
        Word::Batch => queue.batch = true,
        Word::Start => queue.start = true,
        Word::BlockLimit => queue.blocks = None,
        Word::NoBlockLimit => queue.blocks = Some((1, u32::MAX)),
        Word::NoRetain => queue.retain = Some(QueueRetain::Nothing),
        _ => {}
    }
}

// The margins that a form has where none are given.
fn with_default_margins(shape: Shape) -> Shape
    ensures { result ≡ with_default_margins shape }
{
    Shape {
        length: shape.length,
        width: shape.width,
        wrap: shape.wrap,
        ..DEFAULT_SHAPE
    }
}

// Sets what a qualifier gives of a form's shape. /MARGIN begins with the margins of a form for which none are given.
fn mark_shape(shape: &mut Shape, word: Word)
    ensures { shape.new ≡ shape_marked shape.old word }
{
    match word {
        Word::Margin => *shape = with_default_margins(*shape),
        Word::Wrap => shape.wrap = true,
        Word::Truncate => shape.wrap = false,
        _ => {}
    }
}

// How a qualifier stops a queue.
fn stop_marked(how: Option<Stop>, word: Word) -> Option<Stop>
    ensures { result ≡ stop_marked how word }
{
    match word {
        Word::Next => Some(Stop::Next),
        Word::Reset => Some(Stop::Reset),
        Word::Abort => Some(Stop::Abort),
        Word::Requeue => Some(Stop::Requeue),
        _ => how,
    }
}

// Sets what a qualifier gives of a listing. The kinds of queue that are listed add up.
fn mark_listing(listing: &mut ListingSettings, word: Word)
    ensures { listing.new ≡ listing_marked listing.old word }
{
    match word {
        Word::AllJobs => listing.all_jobs = true,
        Word::Batch => listing.batch = true,
        Word::Device => listing.device = true,
        Word::Generic => listing.generic = true,
        _ => {}
    }
}

/// Takes a qualifier, whose value may come next.
pub(crate) fn take_word(s: &mut Settings, word: Word)
    ensures { s.new ≡ with_word s.old word }
{
    s.word = Some(word);
    s.has_node = false;
    s.stop = stop_marked(s.stop, word);
    mark_job(&mut s.job, word);
    mark_queue(&mut s.queue_settings, word);
    mark_shape(&mut s.definition.shape, word);
    mark_listing(&mut s.listing, word);
}

// Takes the name of a queue, if it can be one.
#[inline(never)]
fn take_queue(s: &mut Settings, said: &[u8]) -> Option<()>
    ensures { queue_given s.old said.now ≡ option_map (λ _. s.new) result }
{
    s.queue = Some(short_name_said(said)?);
    Some(())
}

// Takes the number of an entry, if it can be one.
fn take_entry(s: &mut Settings, said: &[u8]) -> Option<()>
    ensures { entry_given s.old said.now ≡ option_map (λ _. s.new) result }
{
    s.entry = Some(entry_said(said)?);
    Some(())
}

// Takes the name of a job, if it can be one.
fn take_name(s: &mut Settings, said: &[u8]) -> Option<()>
    ensures { valued s.old (Some Word.Name) said.now ≡ option_map (λ _. s.new) result }
{
    let Ok(name) = Name::read(said) else {
        return None;
    };
    s.job.name = Some(name);
    Some(())
}

// Takes the priority of a job, if it can be one.
fn take_priority(s: &mut Settings, said: &[u8]) -> Option<()>
    ensures { valued s.old (Some Word.Priority) said.now ≡ option_map (λ _. s.new) result }
{
    s.job.priority = Some(byte_said(said)?);
    Some(())
}

// Takes the form of a job, if it can be one.
fn take_job_form(s: &mut Settings, said: &[u8]) -> Option<()>
    ensures { valued s.old (Some Word.Form) said.now ≡ option_map (λ _. s.new) result }
{
    s.job.form = Some(form_said(said)?);
    Some(())
}

// Takes how many copies are printed, if it can be so many.
fn take_copies(s: &mut Settings, said: &[u8]) -> Option<()>
    ensures { valued s.old (Some Word.Copies) said.now ≡ option_map (λ _. s.new) result }
{
    s.job.copies = byte_said(said)?;
    Some(())
}

// Takes how many jobs may run at once, if it can be so many.
fn take_limit(s: &mut Settings, said: &[u8]) -> Option<()>
    ensures { valued s.old (Some Word.JobLimit) said.now ≡ option_map (λ _. s.new) result }
{
    s.queue_settings.limit = Some(byte_said(said)?);
    Some(())
}

// Takes the form that is mounted, if it can be one.
fn take_mounted(s: &mut Settings, said: &[u8]) -> Option<()>
    ensures { valued s.old (Some Word.FormMounted) said.now ≡ option_map (λ _. s.new) result }
{
    s.queue_settings.form = Some(form_said(said)?);
    Some(())
}

// One limit is the upper one, and the lower one is then 1; of two the lower one stands first.
fn blocks_with(so_far: Option<(u32, u32)>, upper: u32) -> (u32, u32)
    ensures { result ≡ blocks_with so_far upper }
{
    match so_far {
        None => (1, upper),
        Some((_, lower)) => (lower, upper),
    }
}

// Takes a limit of the sizes of jobs, if it can be one.
fn take_blocks(s: &mut Settings, said: &[u8]) -> Option<()>
    ensures { valued s.old (Some Word.BlockLimit) said.now ≡ option_map (λ _. s.new) result }
{
    let number = blocks_said(said)?;
    s.queue_settings.blocks = Some(blocks_with(s.queue_settings.blocks, number));
    Some(())
}

// Takes where a queue stands, if it can stand there.
fn take_location(s: &mut Settings, said: &[u8]) -> Option<()>
    ensures { valued s.old (Some Word.On) said.now ≡ option_map (λ _. s.new) result }
{
    s.queue_settings.location = Some(location_said(said)?);
    Some(())
}

// Takes the stock of a form, if it can be one.
#[inline(never)]
fn take_stock(s: &mut Settings, said: &[u8]) -> Option<()>
    ensures { valued s.old (Some Word.Stock) said.now ≡ option_map (λ _. s.new) result }
{
    s.definition.stock = Some(short_name_said(said)?);
    Some(())
}

// Takes how many lines a page has, if it can have so many.
fn take_length(s: &mut Settings, said: &[u8]) -> Option<()>
    ensures { valued s.old (Some Word.Length) said.now ≡ option_map (λ _. s.new) result }
{
    s.definition.shape.length = byte_said(said)?;
    Some(())
}

// Takes how many columns a page has, if it can have so many.
fn take_width(s: &mut Settings, said: &[u8]) -> Option<()>
    ensures { valued s.old (Some Word.Width) said.now ≡ option_map (λ _. s.new) result }
{
    s.definition.shape.width = byte_said(said)?;
    Some(())
}

// Judges whether a value can be a characteristic of a list.
fn judge_characteristic(s: &mut Settings, said: &[u8]) -> Option<()>
    ensures { valued s.old (Some Word.Characteristics) said.now ≡ option_map (λ _. s.new) result }
{
    characteristic_said(said)?;
    Some(())
}

// Judges whether a value can be a target of a list.
#[inline(never)]
fn judge_target(s: &mut Settings, said: &[u8]) -> Option<()>
    ensures { valued s.old (Some Word.Generic) said.now ≡ option_map (λ _. s.new) result }
{
    short_name_said(said)?;
    Some(())
}

/// Takes the value of a qualifier, if it can be one. Those of a list are only judged here.
pub(crate) fn take_value(s: &mut Settings, said: &[u8]) -> Option<()>
    ensures { valued s.old s.old.word said.now ≡ option_map (λ _. s.new) result }
{
    match s.word? {
        Word::Queue | Word::Requeue => take_queue(s, said),
        Word::Entry => take_entry(s, said),
        Word::Name => take_name(s, said),
        Word::Priority => take_priority(s, said),
        Word::Form => take_job_form(s, said),
        Word::Copies => take_copies(s, said),
        Word::JobLimit => take_limit(s, said),
        Word::FormMounted => take_mounted(s, said),
        Word::BlockLimit => take_blocks(s, said),
        Word::On => take_location(s, said),
        Word::Stock => take_stock(s, said),
        Word::Length => take_length(s, said),
        Word::Width => take_width(s, said),
        Word::Characteristics => judge_characteristic(s, said),
        Word::Generic => judge_target(s, said),
        _ => None,
    }
}

// Takes all nodes, where they stand alone.
fn take_all_nodes(s: &mut Settings, alone: bool) -> Option<()>
    ensures { nodes_begun s.old alone ≡ option_map (λ _. s.new) result }
{
    if !alone || s.has_node {
        return None;
    }
    s.has_node = true;
    Some(())
}

/// Takes a node on which the queue manager may run, if it can be one; or all of them, by a `*` with no other value behind it or in
/// front.
pub(crate) fn take_node(s: &mut Settings, alone: bool, said: &[u8]) -> Option<()>
    ensures { node_given s.old alone said.now ≡ option_map (λ _. s.new) result }
{
    if says_all(said) {
        return take_all_nodes(s, alone);
    }
    node_said(said)?;
    s.has_node = true;
    Some(())
}

/// Takes the order in which jobs start, if it can be one.
pub(crate) fn take_schedule(s: &mut Settings, text: &[u8], token: Token) -> Option<()>
    ensures { schedule_given s.old (raised_by text.now token) ≡ option_map (λ _. s.new) result }
{
    s.queue_settings.by_size = Some(schedule_said(text, token)?);
    Some(())
}

/// Takes which jobs a queue keeps, if it can be these.
pub(crate) fn take_queue_retain(s: &mut Settings, text: &[u8], token: Token) -> Option<()>
    ensures { queue_retain_given s.old (raised_by text.now token) ≡ option_map (λ _. s.new) result }
{
    s.queue_settings.retain = Some(queue_retain_said(text, token)?);
    Some(())
}

/// Takes the moment until which a job is kept, if there is one.
pub(crate) fn take_until(s: &mut Settings, moment: Option<Moment>) -> Option<()>
    ensures { until_given s.old moment ≡ option_map (λ _. s.new) result }
{
    s.job.retain = Some(JobRetain::Until(moment?));
    Some(())
}

/// Takes the moment before which a job doesn't start, if there is one.
pub(crate) fn take_after(s: &mut Settings, moment: Option<Moment>) -> Option<()>
    ensures { after_given s.old moment ≡ option_map (λ _. s.new) result }
{
    s.job.after = Some(Some(moment?));
    Some(())
}

// Sets one margin.
fn set_margin(shape: &mut Shape, side: Side, margin: u8)
    ensures { shape.new ≡ with_margin shape.old side margin }
{
    match side {
        Side::Top => shape.top = margin,
        Side::Bottom => shape.bottom = margin,
        Side::Left => shape.left = margin,
        Side::Right => shape.right = margin,
    }
}

/// Takes the margin of a side, if it can be so large.
pub(crate) fn take_margin(s: &mut Settings, side: Side, said: &[u8]) -> Option<()>
    ensures { margin_given s.old side said.now ≡ option_map (λ _. s.new) result }
{
    let margin = byte_said(said)?;
    set_margin(&mut s.definition.shape, side, margin);
    Some(())
}

// Takes the name of a form or a characteristic, if it can be one.
fn take_definable(s: &mut Settings, said: &[u8]) -> Option<()>
    ensures { definable_given s.old said.now ≡ option_map (λ _. s.new) result }
{
    s.definition.name = Some(definable_name_said(said)?);
    Some(())
}

// Takes the name of a form, and behind it its number, if it can be one.
fn take_form(s: &mut Settings, said: &[u8]) -> Option<()>
    ensures { form_given s.old s.old.definition.name said.now ≡ option_map (λ _. s.new) result }
{
    if s.definition.name.is_none() {
        return take_definable(s, said);
    }
    s.definition.form_number = Some(form_number_said(said)?);
    Some(())
}

// Takes the name of a characteristic, and behind it its number, if it can be one.
fn take_characteristic(s: &mut Settings, said: &[u8]) -> Option<()>
    ensures { characteristic_given s.old s.old.definition.name said.now
        ≡ option_map (λ _. s.new) result }
{
    if s.definition.name.is_none() {
        return take_definable(s, said);
    }
    s.definition.characteristic_number = Some(byte_said(said)?);
    Some(())
}

// Takes the name of the target of a merge, and behind it that of its source, if it can be one.
#[inline(never)]
fn take_merged(s: &mut Settings, said: &[u8]) -> Option<()>
    ensures { merge_given s.old s.old.queue said.now ≡ option_map (λ _. s.new) result }
{
    if s.queue.is_none() {
        return take_queue(s, said);
    }
    s.source = Some(short_name_said(said)?);
    Some(())
}

// Takes the name of a file, if it can be one.
#[inline(never)]
fn take_file(s: &mut Settings, said: &[u8]) -> Option<()>
    ensures { file_given s.old said.now ≡ option_map (λ _. s.new) result }
{
    s.file = Some(FileName::read(said)?);
    Some(())
}

// Takes a pattern of names, if it can be one.
#[inline(never)]
fn take_pattern(s: &mut Settings, said: &[u8]) -> Option<()>
    ensures { pattern_given s.old said.now ≡ option_map (λ _. s.new) result }
{
    s.listing.pattern = Some(pattern_said(said)?);
    Some(())
}

/// Takes a parameter, if it can be one.
pub(crate) fn take_parameter(s: &mut Settings, command: Command, said: &[u8]) -> Option<()>
    ensures { parametered s.old command said.now ≡ option_map (λ _. s.new) result }
{
    match command {
        Command::Submit | Command::Print => take_file(s, said),
        Command::SetEntry => take_entry(s, said),
        Command::ShowEntry if are_digits(said) => take_entry(s, said),
        Command::ShowEntry
        | Command::ShowQueue
        | Command::ShowForms
        | Command::ShowCharacteristics => take_pattern(s, said),
        Command::InitializeQueue
        | Command::SetQueue
        | Command::StartQueue
        | Command::StopQueue
        | Command::DeleteQueue => take_queue(s, said),
        Command::AssignMerge => take_merged(s, said),
        Command::DefineForm => take_form(s, said),
        Command::DefineCharacteristic => take_characteristic(s, said),
        Command::DeleteForm | Command::DeleteCharacteristic => take_definable(s, said),
        _ => None,
    }
}
