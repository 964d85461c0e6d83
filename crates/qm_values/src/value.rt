// What the value of an item says.
ghost use Rattle.std.specs.Prelude.{◌≡◌, ◌==◌, ◌≤◌, IfSome, length};
ghost use Rattle.std.specs.List.{list_all};
ghost use Rattle.std.specs.Char.{is_ascii_digit};
ghost use Rattle.qm_model.specs.Built.{is_definable};
ghost use Rattle.qm_values.specs.Values.{short_name_said, definable_name_said, node_said, are_digits, number_to, reference_said, byte_said, truth_of, truth_said, short_said, long_said, small_said, moment_said, after_said, queue_kind_said, job_kind_said, queue_retain_said, retain_of, job_retain_said, how_said, shape_said, pattern_said, name_said, is_held};

use crate::holds::Holds;
use qm_kinds::{
    FileName, JobKind, JobRetain, Moment, NODE_NAME_BYTES, Name, NameOrNumber, Pattern, QueueKind,
    QueueRetain, SHORT_NAME_BYTES, Shape, StopMode,
};
use qm_time::number_up_to;

/// A name.
pub(crate) fn name_said(value: &[u8]) -> Option<Name>
    ensures { result ≡ name_said value.now }
{
    Name::read(value).ok()
}

/// The name of a queue, a stock or a device, of 31 bytes at most.
pub(crate) fn short_name_said(value: &[u8]) -> Option<Name>
    ensures { result ≡ short_name_said value.now }
{
    match Name::read(value) {
        Ok(name) if name.as_bytes().len() <= SHORT_NAME_BYTES => Some(name),
        _ => None,
    }
}

fn all_digits(value: &[u8]) -> bool
    ensures { result ≡ list_all is_ascii_digit value.now }
{
    value.iter().all(|b| b.is_ascii_digit())
}

// Whether a form or a characteristic can have a name.
fn is_definable(name: Name) -> bool
    ensures { result ≡ is_definable name }
{
    name.as_bytes().len() <= SHORT_NAME_BYTES && !all_digits(name.as_bytes())
}

/// The name of a form or a characteristic: of 31 bytes at most, and not digits alone.
pub(crate) fn definable_name_said(value: &[u8]) -> Option<Name>
    ensures { result ≡ definable_name_said value.now }
{
    match Name::read(value) {
        Ok(name) if is_definable(name) => Some(name),
        _ => None,
    }
}

/// The name of a node, of 6 bytes at most.
pub(crate) fn node_said(value: &[u8]) -> Option<Name>
    ensures { result ≡ node_said value.now }
{
    match Name::read(value) {
        Ok(name) if name.as_bytes().len() <= NODE_NAME_BYTES => Some(name),
        _ => None,
    }
}

// Whether a value is decimal digits, and nothing else.
fn are_digits(value: &[u8]) -> bool
    ensures { result ≡ are_digits value.now }
{
    all_digits(value) && !value.is_empty()
}

// The number that digits say, one at least, where it isn't above the most. Zeros may stand in front.
fn number_to(most: u16, value: &[u8]) -> Option<u16>
    ensures { result ≡ number_to most value.now }
{
    if value.is_empty() {
        return None;
    }
    let number = number_up_to(u64::from(most), value)?;
    Some(number as u16)
}

/// A form or a characteristic, by its name, of 31 bytes at most, or by its number, of 16 bits.
pub(crate) fn reference_said(value: &[u8]) -> Option<NameOrNumber>
    ensures { result ≡ reference_said value.now }
{
    if are_digits(value) {
        let number = number_to(65_535, value)?;
        Some(NameOrNumber::Number(number))
    } else {
        let name = short_name_said(value)?;
        Some(NameOrNumber::Name(name))
    }
}

/// A number of 8 bits.
pub(crate) fn byte_said(value: &[u8]) -> Option<u8>
    ensures { result ≡ byte_said value.now }
{
    match value {
        [byte] => Some(*byte),
        _ => None,
    }
}

// No, or yes.
fn truth_of(byte: u8) -> Option<bool>
    ensures { result ≡ truth_of byte }
{
    match byte {
        0 => Some(false),
        1 => Some(true),
        _ => None,
    }
}

/// No, or yes.
pub(crate) fn truth_said(value: &[u8]) -> Option<bool>
    ensures { result ≡ truth_said value.now }
{
    truth_of(byte_said(value)?)
}

/// A number of 16 bits.
pub(crate) fn short_said(value: &[u8]) -> Option<u16>
    ensures { result ≡ short_said value.now }
{
    match value {
        [a, b] => Some(u16::from_le_bytes([*a, *b])),
        _ => None,
    }
}

/// The number of a characteristic, up to 255, in 16 bits.
pub(crate) fn small_said(value: &[u8]) -> Option<u8>
    ensures { result ≡ small_said value.now }
{
    let number = short_said(value)?;
    if number <= 255 {
        Some(number as u8)
    } else {
        None
    }
}

/// A number of 32 bits.
pub(crate) fn long_said(value: &[u8]) -> Option<u32>
    ensures { result ≡ long_said value.now }
{
    match value {
        [a, b, c, d] => Some(u32::from_le_bytes([*a, *b, *c, *d])),
        _ => None,
    }
}

/// A moment, in hundredths of a second from 17-NOV-1858, in 64 bits.
pub(crate) fn moment_said(value: &[u8]) -> Option<Moment>
    ensures { result ≡ moment_said value.now }
{
    match value {
        [a, b, c, d, e, f, g, h] => {
            Moment::new(u64::from_le_bytes([*a, *b, *c, *d, *e, *f, *g, *h]))
        }
        _ => None,
    }
}

/// A moment, or that there is none.
pub(crate) fn after_said(value: &[u8]) -> Option<Option<Moment>>
    ensures { result ≡ after_said value.now }
{
    if value.is_empty() {
        return Some(None);
    }
    let moment = moment_said(value)?;
    Some(Some(moment))
}

/// What a queue is for.
pub(crate) fn queue_kind_said(value: &[u8]) -> Option<QueueKind>
    ensures { result ≡ queue_kind_said value.now }
{
    match byte_said(value)? {
        1 => Some(QueueKind::Batch),
        2 => Some(QueueKind::Print),
        3 => Some(QueueKind::GenericBatch),
        4 => Some(QueueKind::GenericPrint),
        _ => None,
    }
}

/// Which kind of job.
pub(crate) fn job_kind_said(value: &[u8]) -> Option<JobKind>
    ensures { result ≡ job_kind_said value.now }
{
    match byte_said(value)? {
        1 => Some(JobKind::Batch),
        2 => Some(JobKind::Print),
        _ => None,
    }
}

/// Which jobs a queue keeps.
pub(crate) fn queue_retain_said(value: &[u8]) -> Option<QueueRetain>
    ensures { result ≡ queue_retain_said value.now }
{
    match byte_said(value)? {
        0 => Some(QueueRetain::Nothing),
        1 => Some(QueueRetain::Failed),
        2 => Some(QueueRetain::All),
        _ => None,
    }
}

// Whether a job is kept, where no moment belongs to it.
fn retain_of(byte: u8) -> Option<JobRetain>
    ensures { result ≡ retain_of byte }
{
    match byte {
        0 => Some(JobRetain::Default),
        1 => Some(JobRetain::Always),
        2 => Some(JobRetain::Failed),
        _ => None,
    }
}

/// Whether a job is kept, and until which moment.
pub(crate) fn job_retain_said(value: &[u8]) -> Option<JobRetain>
    ensures { result ≡ job_retain_said value.now }
{
    let [byte, behind @ ..] = value else {
        return None;
    };
    if *byte == 3 {
        let moment = moment_said(behind)?;
        Some(JobRetain::Until(moment))
    } else if behind.is_empty() {
        retain_of(*byte)
    } else {
        None
    }
}

/// How a queue is stopped.
pub(crate) fn how_said(value: &[u8]) -> Option<StopMode>
    ensures { result ≡ how_said value.now }
{
    match byte_said(value)? {
        1 => Some(StopMode::Pause),
        2 => Some(StopMode::Next),
        3 => Some(StopMode::Reset),
        _ => None,
    }
}

/// The shape of a form's pages.
pub(crate) fn shape_said(value: &[u8]) -> Option<Shape>
    ensures { result ≡ shape_said value.now }
{
    if value.len() != 7 {
        return None;
    }
    let wrap = truth_of(value[6])?;
    Some(Shape {
        length: value[0],
        width: value[1],
        top: value[2],
        bottom: value[3],
        left: value[4],
        right: value[5],
        wrap,
    })
}

/// A pattern of names.
pub(crate) fn pattern_said(value: &[u8]) -> Option<Pattern>
    ensures { result ≡ pattern_said value.now }
{
    Pattern::read(value).ok()
}

/// Whether bytes are a value of this form.
pub fn is_held(holds: Holds, value: &[u8]) -> bool
    ensures { result ≡ is_held holds value.now }
{
    match holds {
        Holds::Nothing => value.is_empty(),
        Holds::Byte => byte_said(value).is_some(),
        Holds::Short => short_said(value).is_some(),
        Holds::Long => long_said(value).is_some(),
        Holds::Truth => truth_said(value).is_some(),
        Holds::CharacteristicNumber => small_said(value).is_some(),
        Holds::How => how_said(value).is_some(),
        Holds::QueueKind => queue_kind_said(value).is_some(),
        Holds::JobKind => job_kind_said(value).is_some(),
        Holds::QueueRetain => queue_retain_said(value).is_some(),
        Holds::JobRetain => job_retain_said(value).is_some(),
        Holds::Moment => after_said(value).is_some(),
        Holds::Shape => shape_said(value).is_some(),
        Holds::Name => name_said(value).is_some(),
        Holds::ShortName => short_name_said(value).is_some(),
        Holds::NodeName => node_said(value).is_some(),
        Holds::DefinableName => definable_name_said(value).is_some(),
        Holds::File => FileName::read(value).is_some(),
        Holds::Reference => reference_said(value).is_some(),
        Holds::Characteristic => value.is_empty() || reference_said(value).is_some(),
        Holds::Pattern => pattern_said(value).is_some(),
        Holds::Bytes => !value.is_empty(),
    }
}
