// A file is filled with lines, or dropped: what is decided.
ghost use Rattle.std.specs.Prelude.{◌≡◌, length, None, IfOk, IsSome};
ghost use Rattle.qm_kinds.specs.declared.request.Request.TheVariants as request;
ghost use Rattle.qm_model.specs.Common.{append_refusal, file_named};
ghost use Rattle.qm_model.specs.Filing.{filling, fill_refusal, drop_refusal};
ghost use Rattle.qm_image.specs.Deciding.{Prepares, Takes};
ghost use Rattle.qm_image.specs.Image.{system_of};

use crate::deciding::append::{append_refusal, refused_as_named, take_file_of};
use qm_image::{Change, Image, Refused};
use qm_kinds::{FileName, Refusal};
use std::alloc::{AllocError, Global};

// A line of 63 letters.
const LINE: &str = "xxxxxxxxxxxxxxxxxxxxxxxxxxxxxxxxxxxxxxxxxxxxxxxxxxxxxxxxxxxxxxx\n";

// How many bytes so many lines have.
fn filling_size(lines: u16) -> usize
    ensures { result ≡ length (filling lines) }
{
    usize::from(lines) * LINE.len()
}

// So many lines.
fn filling(alloc: Global, lines: u16) -> Result<Vec<u8>, AllocError>
    ensures { IfOk result (λ bytes. bytes.items ≡ filling lines) }
{
    Ok(LINE.repeat(alloc, usize::from(lines))?.into_bytes())
}

// Takes room for more lines of a file that is there.
#[tactic(auto, unfolding(qm_image::specs::Image::system_of))]
fn take_more_lines<'a>(
    image: &mut Image,
    name: &FileName,
    bytes: Vec<u8>,
) -> Result<Change<'a>, AllocError>
    requires there { IsSome (file_named name.now image.old.spool.files) }
    requires accepted { append_refusal (system_of image.old) name.now bytes.items ≡ None }
    ensures { Takes (request.Append name.now bytes.items) image.old image.new result }
{
    image.spool.reserve_bytes(name, bytes.len())?;
    Ok(Change::MoreLines { name: *name, bytes })
}

// Takes the memory for lines that aren't refused.
fn take_lines<'a>(image: &mut Image, name: &FileName, lines: u16) -> Result<Change<'a>, AllocError>
    requires { fill_refusal (system_of image.old) name.now lines ≡ None }
    ensures { Takes (request.Fill name.now lines) image.old image.new result }
{
    let bytes = filling(image.alloc, lines)?;
    if image.spool.bytes(name).is_some() {
        take_more_lines(image, name, bytes)
    } else {
        take_file_of(image, name, bytes)
    }
}

/// Decides on lines for a file, and takes the memory for them.
#[inline(never)]
pub fn prepare_fill<'a>(
    image: &mut Image,
    name: &FileName,
    lines: u16,
) -> Result<Change<'a>, Refused>
    ensures { Prepares (request.Fill name.now lines) image.old image.new result }
{
    if let Some(refusal) = append_refusal(image, name, filling_size(lines)) {
        return Err(Refused::By(refusal));
    }
    match take_lines(image, name, lines) {
        Ok(change) => Ok(change),
        Err(AllocError) => Err(Refused::NoMemory),
    }
}

// Why a file can't be dropped.
#[tactic(auto, unfolding(qm_image::specs::Image::system_of))]
fn drop_refusal(image: &Image, name: &FileName) -> Option<Refusal>
    ensures { result ≡ drop_refusal (system_of image.now) name.now }
{
    if !image.has_file(name) {
        return Some(Refusal::NoSuchFile);
    }
    refused_as_named(image, name)
}

/// Decides on a file that is dropped.
#[tactic(auto, unfolding(qm_image::specs::Image::system_of))]
#[inline(never)]
pub fn prepare_drop<'a>(image: &Image, name: &FileName) -> Result<Change<'a>, Refused>
    ensures { Prepares (request.Drop name.now) image.now image.now result }
{
    if let Some(refusal) = drop_refusal(image, name) {
        return Err(Refused::By(refusal));
    }
    Ok(Change::RemoveFile { name: *name })
}
