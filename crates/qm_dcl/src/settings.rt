// What the parts of a command give.
ghost use Rattle.std.specs.Prelude.{◌≡◌, ok_or};
ghost use Rattle.qm_dcl.specs.Settings.{has_object, no_job, no_queue_settings, no_definition, no_listing, nothing_given, with_parameter, with_key, with_until, with_retain_word, with_job_retain, is_of_queue, with_retained, with_value, inner_value, has_value_ahead, lists_nodes, with_value_of, with_part, settings_of, Leaves};
ghost use Rattle.qm_dcl.specs.Values.{raised_by, side_said};

use crate::given::{
    take_after, take_margin, take_node, take_parameter, take_queue_retain, take_schedule,
    take_until, take_value, take_word,
};
use crate::value::{
    Location, has_equals, is_until, job_retain_said, moment_said, said_by, side_said,
};
use qm_commands::{Command, Fault, Token, Word};
use qm_grammar::Part;
use qm_kinds::{
    FileName, JobRetain, Moment, Name, NameOrNumber, ParseKind, Pattern, QueueRetain, Shape,
};

/// How a queue is stopped, or a job of it.
#[derive(Clone, Copy)]
pub enum Stop {
    Next,
    Reset,
    Abort,
    Requeue,
}

/// What is given of a job.
#[derive(Clone, Copy)]
pub struct JobSettings {
    pub name: Option<Name>,
    pub priority: Option<u8>,
    /// The moment before which the job doesn't start. Some of none takes away the one that it has.
    pub after: Option<Option<Moment>>,
    pub hold: bool,
    /// Whether it waits no longer, neither held nor for a moment.
    pub release: bool,
    pub retain: Option<JobRetain>,
    /// Whether the job may start again.
    pub restart: Option<bool>,
    pub form: Option<NameOrNumber>,
    pub copies: u8,
    /// Whether a page that names the job stands before its text.
    pub flag: bool,
}

/// What is given of a queue.
#[derive(Clone, Copy)]
pub struct QueueSettings {
    /// How many jobs may run at once.
    pub limit: Option<u8>,
    /// The form that is mounted.
    pub form: Option<NameOrNumber>,
    /// The least and the greatest size of a job, in blocks.
    pub blocks: Option<(u32, u32)>,
    /// Whether jobs stand in order of their sizes.
    pub by_size: Option<bool>,
    /// Which jobs the queue keeps after they end.
    pub retain: Option<QueueRetain>,
    /// Whether the queue is for batch jobs.
    pub batch: bool,
    pub location: Option<Location>,
    /// Whether a new queue is started.
    pub start: bool,
}

/// What is given of a form or a characteristic.
#[derive(Clone, Copy)]
pub struct Definition {
    pub name: Option<Name>,
    pub form_number: Option<u16>,
    pub characteristic_number: Option<u8>,
    pub stock: Option<Name>,
    pub shape: Shape,
}

/// What is given of a listing.
#[derive(Clone, Copy)]
pub struct ListingSettings {
    pub pattern: Option<Pattern>,
    /// Whether the jobs of all users are listed.
    pub all_jobs: bool,
    /// Whether batch queues are listed.
    pub batch: bool,
    /// Whether print queues are listed.
    pub device: bool,
    /// Whether generic queues of both kinds are listed.
    pub generic: bool,
}

/// What the parts of a command give, but for lists.
#[derive(Clone, Copy)]
pub struct Settings {
    /// Whether the option that is the first parameter is still to come.
    pub awaits_object: bool,
    /// The qualifier whose value may come next.
    pub word: Option<Word>,
    /// Whether a value of it has named a node on which the queue manager may run, or all of them.
    pub has_node: bool,
    pub file: Option<FileName>,
    /// The name of a queue; where two are merged, of the target.
    pub queue: Option<Name>,
    /// The name of the queue whose entries are moved to another.
    pub source: Option<Name>,
    /// The number of an entry.
    pub entry: Option<u32>,
    pub stop: Option<Stop>,
    pub job: JobSettings,
    pub queue_settings: QueueSettings,
    pub definition: Definition,
    pub listing: ListingSettings,
}

// Whether the first parameter of a command is its option.
fn has_object(command: Command) -> bool
    ensures { result ≡ has_object command }
{
    match command {
        Command::SetEntry
        | Command::SetQueue
        | Command::ShowForms
        | Command::ShowCharacteristics
        | Command::ShowManagers
        | Command::ShowQueue
        | Command::ShowEntry => true,
        _ => false,
    }
}

const NO_JOB: JobSettings = JobSettings {
    name: None,
    priority: None,
    after: None,
    hold: false,
    release: false,
    retain: None,
    restart: None,
    form: None,
    copies: 1,
    flag: false,
};

const NO_QUEUE_SETTINGS: QueueSettings = QueueSettings {
    limit: None,
    form: None,
    blocks: None,
    by_size: None,
    retain: None,
    batch: false,
    location: None,
    start: false,
};

/// The shape of a form for which nothing is given.
pub(crate) const DEFAULT_SHAPE: Shape = Shape {
    length: 66,
    width: 132,
    top: 0,
    bottom: 6,
    left: 0,
    right: 0,
    wrap: false,
};

const NO_DEFINITION: Definition = Definition {
    name: None,
    form_number: None,
    characteristic_number: None,
    stock: None,
    shape: DEFAULT_SHAPE,
};

const NO_LISTING: ListingSettings = ListingSettings {
    pattern: None,
    all_jobs: false,
    batch: false,
    device: false,
    generic: false,
};

// Nothing is given.
fn nothing_given(command: Command) -> Settings
    ensures { result ≡ nothing_given command }
{
    Settings {
        awaits_object: has_object(command),
        word: None,
        has_node: false,
        file: None,
        queue: None,
        source: None,
        entry: None,
        stop: None,
        job: NO_JOB,
        queue_settings: NO_QUEUE_SETTINGS,
        definition: NO_DEFINITION,
        listing: NO_LISTING,
    }
}

// A value that can't be read is a fault at its first byte.
fn or_value_fault(token: Token, taken: Option<()>) -> Result<(), Fault>
    ensures { result ≡ ok_or taken (record { place = token.start; kind = ParseKind.Value }) }
{
    match taken {
        Some(()) => Ok(()),
        None => Err(Fault {
            place: token.start,
            kind: ParseKind::Value,
        }),
    }
}

// Goes on with one more parameter, behind the option where that is one.
fn read_parameter(
    text: &[u8],
    command: Command,
    s: &mut Settings,
    token: Token,
) -> Result<(), Fault>
    ensures { Leaves result s.new (with_parameter text.now command s.old token) }
{
    if s.awaits_object {
        s.awaits_object = false;
        return Ok(());
    }
    or_value_fault(token, take_parameter(s, command, said_by(text, token)))
}

// Goes on with a key of /MARGIN: it must name a side, and a number must stand behind its =. Where that can be no value, it is at
// fault by the grammar, and not the key.
fn read_key(text: &[u8], s: &mut Settings, key: Token, inner: Option<Token>) -> Result<(), Fault>
    ensures { Leaves result s.new
        (with_key text.now s.old key (side_said (raised_by text.now key)) inner) }
{
    match (side_said(text, key), inner) {
        (Some(side), Some(number)) => {
            or_value_fault(number, take_margin(s, side, said_by(text, number)))
        }
        (Some(_), None) if has_equals(text, key) => Ok(()),
        _ => or_value_fault(key, None),
    }
}

// Goes on with UNTIL, behind whose = the moment stands until which a job is kept. Where that can be no value, it is at fault by
// the grammar, and not the word.
fn read_until(
    text: &[u8],
    now: Moment,
    s: &mut Settings,
    token: Token,
    inner: Option<Token>,
) -> Result<(), Fault>
    ensures { Leaves result s.new (with_until now text.now s.old token inner) }
{
    match inner {
        Some(time) => or_value_fault(time, take_until(s, moment_said(text, time, now))),
        None if has_equals(text, token) => Ok(()),
        None => or_value_fault(token, None),
    }
}

// Goes on with a word that says whether a job is kept. It takes no value.
fn read_retain_word(
    s: &mut Settings,
    token: Token,
    retain: Option<JobRetain>,
    inner: Option<Token>,
) -> Result<(), Fault>
    ensures { Leaves result s.new (with_retain_word s.old token retain inner) }
{
    match (retain, inner) {
        (Some(retain), None) => {
            s.job.retain = Some(retain);
            Ok(())
        }
        (Some(_), Some(value)) => or_value_fault(value, None),
        (None, _) => or_value_fault(token, None),
    }
}

// Goes on with the value of /RETAIN of a job.
fn read_job_retain(
    text: &[u8],
    now: Moment,
    s: &mut Settings,
    token: Token,
    inner: Option<Token>,
) -> Result<(), Fault>
    ensures { Leaves result s.new
        (with_job_retain now text.now s.old token (raised_by text.now token) inner) }
{
    if is_until(text, token) {
        read_until(text, now, s, token, inner)
    } else {
        read_retain_word(s, token, job_retain_said(text, token), inner)
    }
}

// Whether a command sets what a queue does with its jobs.
fn is_of_queue(command: Command) -> bool
    ensures { result ≡ is_of_queue command }
{
    match command {
        Command::InitializeQueue | Command::SetQueue | Command::StartQueue => true,
        _ => false,
    }
}

// Goes on with the value of /RETAIN, of a queue or of a job.
fn read_retained(
    text: &[u8],
    now: Moment,
    command: Command,
    s: &mut Settings,
    token: Token,
    inner: Option<Token>,
) -> Result<(), Fault>
    ensures { Leaves result s.new
        (with_retained now text.now command s.old token (raised_by text.now token) inner) }
{
    if is_of_queue(command) {
        or_value_fault(token, take_queue_retain(s, text, token))
    } else {
        read_job_retain(text, now, s, token, inner)
    }
}

// Goes on with a value of a qualifier, and the value behind its =, if there is one.
fn read_value(
    text: &[u8],
    now: Moment,
    command: Command,
    s: &mut Settings,
    token: Token,
    inner: Option<Token>,
) -> Result<(), Fault>
    ensures { Leaves result s.new (with_value now text.now command s.old s.old.word token inner) }
{
    match s.word {
        Some(Word::Margin) => read_key(text, s, token, inner),
        Some(Word::Schedule) => or_value_fault(token, take_schedule(s, text, token)),
        Some(Word::After) => or_value_fault(token, take_after(s, moment_said(text, token, now))),
        Some(Word::Retain) => read_retained(text, now, command, s, token, inner),
        _ => or_value_fault(token, take_value(s, said_by(text, token))),
    }
}

// The value behind the = of a value, where these parts follow that.
fn inner_value(behind: &[Part]) -> Option<Token>
    ensures { result ≡ inner_value behind.now }
{
    match behind {
        [Part::KeyValue { token }, ..] => Some(*token),
        _ => None,
    }
}

// Whether parts begin with one more value.
fn has_value_ahead(parts: &[Part]) -> bool
    ensures { result ≡ has_value_ahead parts.now }
{
    match parts {
        [Part::Value { .. }, ..] => true,
        _ => false,
    }
}

// Whether the values of a qualifier are the nodes on which the queue manager may run.
fn lists_nodes(command: Command, word: Option<Word>) -> bool
    ensures { result ≡ lists_nodes command word }
{
    match (command, word) {
        (Command::StartManager, Some(Word::On)) => true,
        _ => false,
    }
}

// Goes on with a value of a qualifier, with these parts behind it.
fn read_value_of(
    text: &[u8],
    now: Moment,
    command: Command,
    s: &mut Settings,
    token: Token,
    behind: &[Part],
) -> Result<(), Fault>
    ensures { Leaves result s.new (with_value_of now text.now command s.old token behind.now) }
{
    if lists_nodes(command, s.word) {
        let alone = !has_value_ahead(behind);
        or_value_fault(token, take_node(s, alone, said_by(text, token)))
    } else {
        read_value(text, now, command, s, token, inner_value(behind))
    }
}

// Goes on with one more part, with these behind it.
fn read_part(
    text: &[u8],
    now: Moment,
    command: Command,
    s: &mut Settings,
    part: Part,
    behind: &[Part],
) -> Result<(), Fault>
    ensures { Leaves result s.new (with_part now text.now command s.old part behind.now) }
{
    match part {
        Part::Parameter { token } => read_parameter(text, command, s, token),
        Part::Qualifier { word, .. } => {
            take_word(s, word);
            Ok(())
        }
        Part::Value { token } => read_value_of(text, now, command, s, token, behind),
        Part::KeyValue { .. } => Ok(()),
    }
}

/// What the parts of a command give, but for lists. Of a qualifier that is given twice the last one counts. Relative times count
/// from `now`.
///
/// Errors: the first value that can't be read, with the kind `Value` at its first byte.
#[inline(never)]
pub(crate) fn settings_of(
    text: &[u8],
    now: Moment,
    command: Command,
    parts: &[Part],
) -> Result<Settings, Fault>
    ensures { result ≡ settings_of now text.now command parts.now }
{
    let mut s = nothing_given(command);
    let mut rest = parts;
    while let [part, behind @ ..] = rest {
        read_part(text, now, command, &mut s, *part, behind)?;
        rest = behind;
    }
    Ok(s)
}
