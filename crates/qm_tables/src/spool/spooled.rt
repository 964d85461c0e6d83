// A file as the spool keeps it, and what is written in its place. Only `reserve_bytes` takes memory.
ghost use Rattle.std.specs.Prelude.{◌≡◌, ◌<◌, [], length, vec_len, vec_capacity, OnErr, OnOk, HoldsAt};
ghost use Rattle.qm_keyed.specs.Rows.{ChangesAt};
ghost use Rattle.qm_tables.specs.SpoolRows.{Replaces, IsExtended, HasRoom, LacksRoom, named_by};

use qm_kinds::FileName;
use std::alloc::AllocError;

/// A file that jobs can name, with its bytes.
#[derive(Drop)]
pub(crate) struct Spooled {
    pub(crate) name: FileName,
    pub(crate) bytes: Vec<u8>,
    /// How many entries name the file.
    pub(crate) named: u32,
}

/// Takes memory for so many more bytes of the file at a place.
pub(crate) fn reserve_bytes(
    files: &mut Vec<Spooled>,
    place: usize,
    more: usize,
) -> Result<(), AllocError>
    requires { place < vec_len files.old }
    ensures same { Replaces files.old.items files.new.items place (IsExtended []) }
    ensures room { OnOk result (HoldsAt (HasRoom more) files.new.items place) }
    ensures full { OnErr result (HoldsAt (LacksRoom more) files.old.items place) }
    ensures len { vec_len files.new ≡ vec_len files.old }
    ensures capacity { vec_capacity files.new ≡ vec_capacity files.old }
{
    let file = &mut files[place];
    file.bytes.reserve(more)?;
    Ok(())
}

/// Adds bytes to the file at a place, for which memory was taken.
pub(crate) fn extend(files: &mut Vec<Spooled>, place: usize, more: &[u8])
    requires within { place < vec_len files.old }
    requires room { HoldsAt (HasRoom (length more.now)) files.old.items place }
    ensures extended { Replaces files.old.items files.new.items place (IsExtended more.now) }
    ensures len { vec_len files.new ≡ vec_len files.old }
    ensures capacity { vec_capacity files.new ≡ vec_capacity files.old }
{
    let file = &mut files[place];
    let Ok(()) = file.bytes.extend_from_slice(more) else {
        unreachable!()
    };
}

/// Sets how many entries name the file at a place.
pub(crate) fn set_named(files: &mut Vec<Spooled>, place: usize, named: u32)
    requires { place < vec_len files.old }
    ensures items { ChangesAt (named_by named) files.old.items files.new.items place }
    ensures len { vec_len files.new ≡ vec_len files.old }
    ensures capacity { vec_capacity files.new ≡ vec_capacity files.old }
{
    let file = &mut files[place];
    file.named = named;
}
