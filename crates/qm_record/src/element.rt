// What lists and optional fields are made of.
ghost use Rattle.std.specs.Prelude.{◌≡◌, ◌<◌, ◌^◌, ◌++◌, ℕ, List, Ok, length, OnOk, IfOk};
ghost use Rattle.std.specs.List.{AllByRecursion};
ghost use Rattle.qm_bytes.specs.Spelling.{short_bytes, low_first, byte, truth, moment, each, list, optional, IsName, IsMoment, IsList, AllOf};
ghost use Rattle.qm_bytes.specs.Reading.{Reader, Gives, GivesKept, name_at, number_at, truth_at, moment_at, list_at, optional_at, repeat_at};
ghost use Rattle.qm_record.specs.Spelling.{node, name_or_number, queue_retain, job_retain, limits, IsByte, IsEntryNumber, NodeFits, NameOrNumberFits, RetainFits, LimitsFit};
ghost use Rattle.qm_record.specs.Reading.{Passes, byte_at, node_at, name_or_number_at, queue_retain_at, job_retain_at, limits_at};

use crate::field::{
    put_byte, put_job_retain, put_limits, put_name_or_number, put_node, queue_retain_code,
    read_job_retain, read_limits, read_name_or_number, read_node, read_queue_retain,
};
use qm_bytes::{
    BadField, Width, put_name, put_number, put_optional_moment, put_truth, read_byte, read_name,
    read_number, read_optional_moment, read_truth,
};
use qm_kinds::{JobRetain, Moment, Name, NameOrNumber, Node, QueueRetain, Seq};
use std::alloc::{AllocError, Global};

/// A value that is read and written as a field.
pub(crate) trait Element: Drop {
    ghost fits: { Self → Type 0 };

    ghost spelling: { Self → List ℕ };

    ghost reading: { Reader Self };

    fn read(bytes: &mut &[u8]) -> Result<Self, BadField>
    where
        Self: Sized,
        ensures { Gives result bytes.new.now (reading bytes.old.now) };

    fn put(&self, out: &mut Vec<u8>) -> Result<(), AllocError>
        ensures ok { OnOk result (out.new.items ≡ out.old.items ++ spelling self.now) }
        ensures lawful { OnOk result (fits self.now) };
}

impl Element for Name {
    ghost fits = { IsName };

    ghost spelling = { short_bytes };

    ghost reading = { name_at };

    fn read(bytes: &mut &[u8]) -> Result<Name, BadField> {
        read_name(bytes)
    }

    fn put(&self, out: &mut Vec<u8>) -> Result<(), AllocError> {
        put_name(out, self)
    }
}

impl Element for Node {
    ghost fits = { NodeFits };

    ghost spelling = { node };

    ghost reading = { node_at };

    fn read(bytes: &mut &[u8]) -> Result<Node, BadField> {
        read_node(bytes)
    }

    fn put(&self, out: &mut Vec<u8>) -> Result<(), AllocError> {
        put_node(out, self)
    }
}

impl Element for NameOrNumber {
    ghost fits = { NameOrNumberFits };

    ghost spelling = { name_or_number };

    ghost reading = { name_or_number_at };

    fn read(bytes: &mut &[u8]) -> Result<NameOrNumber, BadField> {
        read_name_or_number(bytes)
    }

    fn put(&self, out: &mut Vec<u8>) -> Result<(), AllocError> {
        put_name_or_number(out, self)
    }
}

impl Element for u8 {
    ghost fits = { IsByte };

    ghost spelling = { byte };

    ghost reading = { byte_at };

    fn read(bytes: &mut &[u8]) -> Result<u8, BadField> {
        read_byte(bytes, 0, 255)
    }

    fn put(&self, out: &mut Vec<u8>) -> Result<(), AllocError> {
        put_byte(out, *self)
    }
}

impl Element for u32 {
    ghost fits = { IsEntryNumber };

    ghost spelling = { low_first 4 };

    ghost reading = { number_at 4 };

    fn read(bytes: &mut &[u8]) -> Result<u32, BadField> {
        let number = read_number(bytes, Width::Four)?;
        Ok(number as u32)
    }

    fn put(&self, out: &mut Vec<u8>) -> Result<(), AllocError> {
        put_number(out, Width::Four, u64::from(*self))
    }
}

impl Element for bool {
    ghost fits = { λ x. Unit {0} };

    ghost spelling = { truth };

    ghost reading = { truth_at };

    fn read(bytes: &mut &[u8]) -> Result<bool, BadField> {
        read_truth(bytes)
    }

    fn put(&self, out: &mut Vec<u8>) -> Result<(), AllocError> {
        put_truth(out, *self)
    }
}

impl Element for QueueRetain {
    ghost fits = { λ x. Unit {0} };

    ghost spelling = { queue_retain };

    ghost reading = { queue_retain_at };

    fn read(bytes: &mut &[u8]) -> Result<QueueRetain, BadField> {
        read_queue_retain(bytes)
    }

    fn put(&self, out: &mut Vec<u8>) -> Result<(), AllocError> {
        put_byte(out, queue_retain_code(*self))
    }
}

impl Element for JobRetain {
    ghost fits = { RetainFits };

    ghost spelling = { job_retain };

    ghost reading = { job_retain_at };

    fn read(bytes: &mut &[u8]) -> Result<JobRetain, BadField> {
        read_job_retain(bytes)
    }

    fn put(&self, out: &mut Vec<u8>) -> Result<(), AllocError> {
        put_job_retain(out, self)
    }
}

// A moment, or that there is none.
impl Element for Option<Moment> {
    ghost fits = { AllOf IsMoment };

    ghost spelling = { optional moment };

    ghost reading = { optional_at moment_at };

    fn read(bytes: &mut &[u8]) -> Result<Option<Moment>, BadField> {
        read_optional_moment(bytes)
    }

    fn put(&self, out: &mut Vec<u8>) -> Result<(), AllocError> {
        put_optional_moment(out, *self)
    }
}

impl Element for (u32, u32) {
    ghost fits = { LimitsFit };

    ghost spelling = { limits };

    ghost reading = { limits_at };

    fn read(bytes: &mut &[u8]) -> Result<(u32, u32), BadField> {
        read_limits(bytes)
    }

    fn put(&self, out: &mut Vec<u8>) -> Result<(), AllocError> {
        put_limits(out, self.0, self.1)
    }
}

/// Appends a list: a count of 16 bits, and the elements.
pub(crate) fn put_list<T: Element>(out: &mut Vec<u8>, items: &Seq<T>) -> Result<(), AllocError>
    requires { length items.now < 2 ^ 16 }
    ensures ok { OnOk result (out.new.items ≡ out.old.items ++ list T.spelling items.now) }
    ensures lawful { OnOk result (IsList T.fits items.now) }
{
    put_number(out, Width::Two, items.len() as u64)?;
    put_each(out, items.as_slice())
}

fn put_each<T: Element>(out: &mut Vec<u8>, items: &[T]) -> Result<(), AllocError>
    ensures ok { OnOk result (out.new.items ≡ out.old.items ++ each T.spelling items.now) }
    ensures lawful { OnOk result (AllByRecursion T.fits items.now) }
{
    for item in items {
        item.put(out)?;
    }
    Ok(())
}

/// Reads a list. An error in it says that memory ran out for it, behind which reading goes on.
#[tactic(auto, unfolding(qm_bytes::specs::Reading::list_at))]
pub(crate) fn read_list<T: Element>(
    alloc: Global,
    bytes: &mut &[u8],
) -> Result<Result<Seq<T>, AllocError>, BadField>
    ensures { GivesKept result bytes.new.now (list_at T.reading bytes.old.now) }
{
    let count = read_number(bytes, Width::Two)?;
    read_several(alloc, bytes, count)
}

fn read_several<T: Element>(
    alloc: Global,
    bytes: &mut &[u8],
    count: u64,
) -> Result<Result<Seq<T>, AllocError>, BadField>
    ensures { GivesKept result bytes.new.now (repeat_at T.reading count bytes.old.now) }
{
    let mut items = Vec::new(alloc);
    for place in 0..count {
        let item = T::read(bytes)?;
        match items.push(item) {
            Ok(()) => {}
            Err(_) => {
                pass_several::<T>(bytes, count - (place + 1))?;
                return Ok(Err(AllocError));
            }
        }
    }
    Ok(Ok(Seq::of(items)))
}

// Reads so many elements, and keeps none.
fn pass_several<T: Element>(bytes: &mut &[u8], count: u64) -> Result<(), BadField>
    ensures { Passes result bytes.new.now (repeat_at T.reading count bytes.old.now) }
{
    for _ in 0..count {
        T::read(bytes)?;
    }
    Ok(())
}

/// Appends a value where there is one.
pub(crate) fn put_optional<T: Element>(
    out: &mut Vec<u8>,
    value: &Option<T>,
) -> Result<(), AllocError>
    ensures ok { OnOk result (out.new.items ≡ out.old.items ++ optional T.spelling value.now) }
    ensures lawful { OnOk result (AllOf T.fits value.now) }
{
    match value {
        None => put_byte(out, 0),
        Some(value) => {
            put_byte(out, 1)?;
            value.put(out)
        }
    }
}

/// Reads a value, or none.
#[tactic(auto, unfolding(qm_bytes::specs::Reading::optional_at))]
pub(crate) fn read_optional<T: Element>(bytes: &mut &[u8]) -> Result<Option<T>, BadField>
    ensures { Gives result bytes.new.now (optional_at T.reading bytes.old.now) }
{
    if read_byte(bytes, 0, 1)? == 0 {
        return Ok(None);
    }
    let value = T::read(bytes)?;
    Ok(Some(value))
}

/// Appends a list where there is one.
pub(crate) fn put_optional_list<T: Element>(
    out: &mut Vec<u8>,
    items: &Option<Seq<T>>,
) -> Result<(), AllocError>
    requires { AllOf (λ xs. length xs < 2 ^ 16) items.now }
    ensures ok { OnOk result (out.new.items
        ≡ out.old.items ++ optional (list T.spelling) items.now) }
    ensures lawful { OnOk result (AllOf (IsList T.fits) items.now) }
{
    match items {
        None => put_byte(out, 0),
        Some(items) => {
            put_byte(out, 1)?;
            put_list(out, items)
        }
    }
}

/// Reads a list, or none. An error in it says that memory ran out for it, behind which reading goes on.
#[tactic(auto, unfolding(qm_bytes::specs::Reading::optional_at))]
pub(crate) fn read_optional_list<T: Element>(
    alloc: Global,
    bytes: &mut &[u8],
) -> Result<Result<Option<Seq<T>>, AllocError>, BadField>
    ensures { GivesKept result bytes.new.now (optional_at (list_at T.reading) bytes.old.now) }
{
    if read_byte(bytes, 0, 1)? == 0 {
        return Ok(Ok(None));
    }
    match read_list(alloc, bytes)? {
        Ok(items) => Ok(Ok(Some(items))),
        Err(fault) => Ok(Err(fault)),
    }
}

/// Two values that were read, unless memory ran out for one of them.
pub(crate) fn both<A: Drop, B: Drop>(
    first: Result<A, AllocError>,
    second: Result<B, AllocError>,
) -> Result<(A, B), AllocError>
    ensures { IfOk result (λ p. (first ≡ Ok p.0) × (second ≡ Ok p.1)) }
{
    match (first, second) {
        (Ok(first), Ok(second)) => Ok((first, second)),
        _ => Err(AllocError),
    }
}
