// A file that comes, grows, is named and goes.
ghost use Rattle.std.specs.Prelude.{◌≡◌, []};
ghost use Rattle.qm_model.specs.Consistent.{AreFiles};

use crate::tables::rows::file;
use qm_kinds::FileName;
use qm_tables::Spool;
use std::alloc::{AllocError, Global};
use std::test::Fail;

// Puts in a file of three bytes and adds two, and says whether there was room for both and no such file.
fn fill(alloc: Global, spool: &mut Spool, name: &FileName) -> Result<bool, AllocError>
    requires { spool.old.files ≡ [] }
{
    spool.reserve_file()?;
    if spool.is_full_for(name, 3) || spool.bytes(name).is_some() {
        return Ok(false);
    }
    spool.insert_file(*name, vec![in alloc; b'a', b'b', b'c']?);
    spool.reserve_bytes(name, 2)?;
    if spool.is_full_for(name, 2) {
        return Ok(false);
    }
    spool.append(name, b"de");
    Ok(true)
}

// How often a file is named in a copy of the files.
fn count_in_copy(alloc: Global, spool: &Spool, name: &FileName) -> Result<u32, AllocError>
    requires { AreFiles spool.now.files }
{
    let files = spool.files(alloc)?;
    let copy = Spool::from_files(alloc, files.as_slice())?;
    Ok(copy.count(name))
}

// Names the file, which a copy doesn't keep, and removes it, and says whether it was there, was named once, and has gone.
fn name_and_remove(alloc: Global, spool: &mut Spool, name: &FileName) -> Result<bool, AllocError> {
    if spool.bytes(name).is_none() || spool.count(name) != 0 {
        return Ok(false);
    }
    spool.enter(name);
    let copied = count_in_copy(alloc, spool, name)?;
    let named = spool.count(name);
    spool.leave(name);
    spool.remove(name);
    Ok([copied, named, spool.size()] == [0, 1, 0])
}

// A file comes, grows, is named and goes.
fn come_and_go(alloc: Global, spool: &mut Spool) -> Result<[bool; 4], AllocError>
    requires { spool.old.files ≡ [] }
{
    let name = file();
    Ok([
        fill(alloc, spool, &name)?,
        spool.bytes(&name) == Some(b"abcde"),
        spool.size() == 5,
        name_and_remove(alloc, spool, &name)?,
    ])
}

#[test]
fn a_file_is_filled_and_named(rt: HostRuntime) -> Result<(), Fail> {
    let mut spool = Spool::new(rt.alloc());
    let end = come_and_go(rt.alloc(), &mut spool);
    drop(spool);
    assert!(rt; end? == [true; 4]);
    Ok(())
}
