// Bytes are added to a file: what is decided.
ghost use Rattle.std.specs.Prelude.{◌≡◌, ℕ, List, length, IsSome};
ghost use Rattle.qm_model.specs.Common.{refused_as_named, append_refusal, file_named};
ghost use Rattle.qm_image.specs.Image.{system_of};
ghost use Rattle.qm_kinds.specs.declared.request.Request.TheVariants as request;
ghost use Rattle.qm_image.specs.Deciding.{Prepares, Takes};

use qm_image::{Change, Image, Refused};
use qm_kinds::{FileName, Refusal};
use qm_rules::{Named, first_refusal, refused_by_entry, refused_where};
use std::alloc::AllocError;

/// The refusal that names the least entry of those that name the file. The entries are looked at only where there is one.
#[tactic(auto, unfolding(qm_image::specs::Image::system_of))]
pub(crate) fn refused_as_named(image: &Image, name: &FileName) -> Option<Refusal>
    ensures { result ≡ refused_as_named name.now (system_of image.now).entries }
{
    if image.spool.count(name) == 0 {
        return None;
    }
    refused_by_entry(image.parts.entries(), &Named::File(name))
}

/// Why so many bytes for the file are refused.
#[tactic(auto, unfolding(qm_image::specs::Image::system_of))]
pub(crate) fn append_refusal(image: &Image, name: &FileName, more: usize) -> Option<Refusal>
    ensures { (bytes : List ℕ) → length bytes ≡ more → result ≡ append_refusal (system_of image.now) name.now bytes }
{
    let refusals = [
        refused_as_named(image, name),
        refused_where(image.spool.is_full_for(name, more), Refusal::SpoolFull),
    ];
    first_refusal(&refusals)
}

// Takes room for more bytes of a file that is there.
#[tactic(auto, unfolding(qm_image::specs::Image::system_of))]
fn take_more<'a>(
    image: &mut Image,
    name: &FileName,
    bytes: &'a [u8],
) -> Result<Change<'a>, AllocError>
    requires there { IsSome (file_named name.now image.old.spool.files) }
    requires accepted { append_refusal (system_of image.old) name.now bytes.now ≡ None }
    ensures { Takes (request.Append name.now bytes.now) image.old image.new result }
{
    image.spool.reserve_bytes(name, bytes.len())?;
    Ok(Change::MoreBytes { name: *name, bytes })
}

/// Takes the memory of a new file that has these very bytes.
#[tactic(auto, unfolding(qm_image::specs::Image::system_of))]
pub(crate) fn take_file_of<'a>(
    image: &mut Image,
    name: &FileName,
    bytes: Vec<u8>,
) -> Result<Change<'a>, AllocError>
    requires absent { file_named name.now image.old.spool.files ≡ None }
    requires accepted { append_refusal (system_of image.old) name.now bytes.items ≡ None }
    ensures { Takes (request.Append name.now bytes.items) image.old image.new result }
{
    image.spool.reserve_file()?;
    Ok(Change::NewFile { name: *name, bytes })
}

// Takes the memory of a new file of these bytes.
#[tactic(auto, unfolding(qm_image::specs::Image::system_of))]
fn take_file<'a>(image: &mut Image, name: &FileName, bytes: &[u8]) -> Result<Change<'a>, AllocError>
    requires absent { file_named name.now image.old.spool.files ≡ None }
    requires accepted { append_refusal (system_of image.old) name.now bytes.now ≡ None }
    ensures { Takes (request.Append name.now bytes.now) image.old image.new result }
{
    let bytes = Vec::from_slice(image.alloc, bytes)?;
    take_file_of(image, name, bytes)
}

// Takes the memory for bytes that aren't refused.
fn take_bytes<'a>(
    image: &mut Image,
    name: &FileName,
    bytes: &'a [u8],
) -> Result<Change<'a>, AllocError>
    requires { append_refusal (system_of image.old) name.now bytes.now ≡ None }
    ensures { Takes (request.Append name.now bytes.now) image.old image.new result }
{
    if image.spool.bytes(name).is_some() {
        take_more(image, name, bytes)
    } else {
        take_file(image, name, bytes)
    }
}

/// Decides on bytes for a file, and takes the memory for them.
#[inline(never)]
pub fn prepare_append<'a>(
    image: &mut Image,
    name: &FileName,
    bytes: &'a [u8],
) -> Result<Change<'a>, Refused>
    ensures { Prepares (request.Append name.now bytes.now) image.old image.new result }
{
    if let Some(refusal) = append_refusal(image, name, bytes.len()) {
        return Err(Refused::By(refusal));
    }
    match take_bytes(image, name, bytes) {
        Ok(change) => Ok(change),
        Err(AllocError) => Err(Refused::NoMemory),
    }
}
