// What the item of a code says, where there is one and it says that.
ghost use Rattle.std.specs.Prelude.{◌≡◌};
ghost use Rattle.qm_kinds.specs.Files.{file_name_of};
ghost use Rattle.qm_values.specs.Asked.{read_in};
ghost use Rattle.qm_values.specs.Values.{name_said, short_name_said, definable_name_said, node_said, pattern_said, reference_said, byte_said, short_said, long_said, small_said, after_said, truth_said, queue_kind_said, job_kind_said, queue_retain_said, job_retain_said, how_said, shape_said};

use crate::items::Item;
use crate::looking::value_in;
use crate::value::{
    after_said, byte_said, definable_name_said, how_said, job_kind_said, job_retain_said,
    long_said, name_said, node_said, pattern_said, queue_kind_said, queue_retain_said,
    reference_said, shape_said, short_name_said, short_said, small_said, truth_said,
};
use qm_kinds::{
    FileName, JobKind, JobRetain, Moment, Name, NameOrNumber, Pattern, QueueKind, QueueRetain,
    Shape, StopMode,
};

/// The name of a file, which an item of this code says.
pub fn file_in(items: &[Item], code: u16) -> Option<FileName>
    ensures { result ≡ read_in file_name_of code items.now }
{
    FileName::read(value_in(items, code)?)
}

/// The name that an item of this code says.
pub fn name_in(items: &[Item], code: u16) -> Option<Name>
    ensures { result ≡ read_in name_said code items.now }
{
    name_said(value_in(items, code)?)
}

/// The name of at most 31 bytes that an item of this code says.
pub fn short_name_in(items: &[Item], code: u16) -> Option<Name>
    ensures { result ≡ read_in short_name_said code items.now }
{
    short_name_said(value_in(items, code)?)
}

pub(crate) fn definable_name_in(items: &[Item], code: u16) -> Option<Name>
    ensures { result ≡ read_in definable_name_said code items.now }
{
    definable_name_said(value_in(items, code)?)
}

pub(crate) fn node_in(items: &[Item], code: u16) -> Option<Name>
    ensures { result ≡ read_in node_said code items.now }
{
    node_said(value_in(items, code)?)
}

pub(crate) fn pattern_in(items: &[Item], code: u16) -> Option<Pattern>
    ensures { result ≡ read_in pattern_said code items.now }
{
    pattern_said(value_in(items, code)?)
}

/// The form or the characteristic, by its name or its number, that an item of this code says.
pub fn reference_in(items: &[Item], code: u16) -> Option<NameOrNumber>
    ensures { result ≡ read_in reference_said code items.now }
{
    reference_said(value_in(items, code)?)
}

/// The number of 8 bits that an item of this code says.
pub fn byte_in(items: &[Item], code: u16) -> Option<u8>
    ensures { result ≡ read_in byte_said code items.now }
{
    byte_said(value_in(items, code)?)
}

pub(crate) fn short_in(items: &[Item], code: u16) -> Option<u16>
    ensures { result ≡ read_in short_said code items.now }
{
    short_said(value_in(items, code)?)
}

pub(crate) fn small_in(items: &[Item], code: u16) -> Option<u8>
    ensures { result ≡ read_in small_said code items.now }
{
    small_said(value_in(items, code)?)
}

pub(crate) fn long_in(items: &[Item], code: u16) -> Option<u32>
    ensures { result ≡ read_in long_said code items.now }
{
    long_said(value_in(items, code)?)
}

/// No, or yes, as an item of this code says.
pub fn truth_in(items: &[Item], code: u16) -> Option<bool>
    ensures { result ≡ read_in truth_said code items.now }
{
    truth_said(value_in(items, code)?)
}

/// The moment that an item of this code says, or that there is none.
pub fn after_in(items: &[Item], code: u16) -> Option<Option<Moment>>
    ensures { result ≡ read_in after_said code items.now }
{
    after_said(value_in(items, code)?)
}

pub(crate) fn queue_kind_in(items: &[Item], code: u16) -> Option<QueueKind>
    ensures { result ≡ read_in queue_kind_said code items.now }
{
    queue_kind_said(value_in(items, code)?)
}

/// Which kind of job an item of this code says.
pub fn job_kind_in(items: &[Item], code: u16) -> Option<JobKind>
    ensures { result ≡ read_in job_kind_said code items.now }
{
    job_kind_said(value_in(items, code)?)
}

pub(crate) fn queue_retain_in(items: &[Item], code: u16) -> Option<QueueRetain>
    ensures { result ≡ read_in queue_retain_said code items.now }
{
    queue_retain_said(value_in(items, code)?)
}

/// Whether a job is kept, as an item of this code says.
pub fn job_retain_in(items: &[Item], code: u16) -> Option<JobRetain>
    ensures { result ≡ read_in job_retain_said code items.now }
{
    job_retain_said(value_in(items, code)?)
}

pub(crate) fn how_in(items: &[Item], code: u16) -> Option<StopMode>
    ensures { result ≡ read_in how_said code items.now }
{
    how_said(value_in(items, code)?)
}

pub(crate) fn shape_in(items: &[Item], code: u16) -> Option<Shape>
    ensures { result ≡ read_in shape_said code items.now }
{
    shape_said(value_in(items, code)?)
}
