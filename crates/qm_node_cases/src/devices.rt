// What lies in the place of a device's file.
use crate::job::name;
use qm_plans::push_line;
use qm_symb::{Device, FileDevice};
use std::alloc::AllocError;
use std::os::fd::AsRawFd;
use std::os::unix::fs::symlink;
use std::{fs, io};

const FOLDER: &str = "qm_symbiont_devices";

fn new_folder(rt: &HostRuntime) -> io::Result<()> {
    let _ = fs::remove_dir_all(rt, FOLDER);
    fs::create_dir(rt, FOLDER)
}

// Whether a block is taken by the device of this name.
fn takes(rt: &HostRuntime, device: &str) -> io::Result<bool> {
    let mut devices = FileDevice::new(rt.clone()?, String::from_str(rt.alloc(), FOLDER)?);
    Ok(devices.hand(1, &name(device), b"page").is_ok())
}

// Tells whether a block is taken by the device of this name.
fn tell_taking(rt: &HostRuntime, told: &mut Vec<u8>, device: &str) -> io::Result<()> {
    push_line(told, if takes(rt, device)? { "takes" } else { "fails" })?;
    Ok(())
}

// Devices whose files are links: to a file that lets nobody write, to a device that is full, and to a name that isn't there.
const LINKS: [(&str, &str); 3] = [
    ("/proc/version", "qm_symbiont_devices/LOCKED.OUT"),
    ("/dev/full", "qm_symbiont_devices/FULL.OUT"),
    ("NONE", "qm_symbiont_devices/NOTHING.OUT"),
];

fn make_links(rt: &HostRuntime) -> io::Result<()> {
    for (place, link) in LINKS {
        symlink(rt, place, link)?;
    }
    Ok(())
}

// A pipe whose reader went away, as a device's file: to open it for writing alone would wait for another. It lasts as long as its writer.
fn make_pipe(rt: &HostRuntime) -> io::Result<io::PipeWriter> {
    let (reader, writer) = io::pipe(rt)?;
    drop(reader);
    let pipe = format!(in rt.alloc(); "/proc/self/fd/{}", writer.as_raw_fd())?;
    symlink(rt, pipe.as_str(), "qm_symbiont_devices/PIPE.OUT")?;
    Ok(writer)
}

// Tells which of five devices take a block.
fn tell_five(rt: &HostRuntime, told: &mut Vec<u8>) -> io::Result<()> {
    for device in ["FOLDER", "PIPE", "LOCKED", "FULL", "NOTHING"] {
        push_line(told, device)?;
        tell_taking(rt, told, device)?;
    }
    if fs::exists(rt, "qm_symbiont_devices/NONE")? {
        push_line(told, "a file was made")?;
    }
    Ok(())
}

// Tells which of five devices take a block, in the places of whose files no plain file is.
fn tell_others(rt: &HostRuntime, told: &mut Vec<u8>) -> io::Result<()> {
    new_folder(rt)?;
    fs::create_dir(rt, "qm_symbiont_devices/FOLDER.OUT")?;
    make_links(rt)?;
    let writer = make_pipe(rt)?;
    let end = tell_five(rt, told);
    drop(writer);
    end
}

// Tells what a plain file holds.
fn tell_paper(rt: &HostRuntime, told: &mut Vec<u8>) -> io::Result<()> {
    let paper = fs::read_to_string(rt, "qm_symbiont_devices/PAPER")?;
    push_line(told, paper.as_str())?;
    Ok(())
}

// A plain file, and a link to it in the place of a device's file.
fn make_paper(rt: &HostRuntime) -> io::Result<()> {
    new_folder(rt)?;
    fs::write(rt, "qm_symbiont_devices/PAPER", "old ")?;
    symlink(rt, "PAPER", "qm_symbiont_devices/LPA0.OUT")
}

// Tells whether a block is taken behind a link to a plain file, and what that file holds then, to which one was appended.
fn tell_plain(rt: &HostRuntime, told: &mut Vec<u8>) -> io::Result<()> {
    make_paper(rt)?;
    tell_taking(rt, told, "LPA0")?;
    tell_paper(rt, told)
}

// Tells whether a block was taken.
fn tell_whether(told: &mut Vec<u8>, is_taken: bool) -> Result<(), AllocError> {
    push_line(told, if is_taken { "takes" } else { "fails" })
}

// Blocks that are handed to two devices, one behind another.
const BLOCKS: [(&str, &str); 4] = [
    ("LPA0", "one\n"),
    ("LPB0", ""),
    ("LPA0", "two\x0c"),
    ("LPB0", "three"),
];

// Hands blocks to the devices of a new folder.
fn hand_blocks(rt: &HostRuntime, told: &mut Vec<u8>) -> io::Result<()> {
    new_folder(rt)?;
    let mut devices = FileDevice::new(rt.clone()?, String::from_str(rt.alloc(), FOLDER)?);
    for (device, block) in BLOCKS {
        let is_taken = devices.hand(1, &name(device), block.as_bytes()).is_ok();
        tell_whether(told, is_taken)?;
    }
    Ok(())
}

// Tells which blocks are taken, and what the files hold then, to one of which another value appended.
fn tell_blocks(rt: &HostRuntime, told: &mut Vec<u8>) -> io::Result<()> {
    hand_blocks(rt, told)?;
    tell_taking(rt, told, "LPA0")?;
    for path in [
        "qm_symbiont_devices/LPA0.OUT",
        "qm_symbiont_devices/LPB0.OUT",
    ] {
        let text = fs::read_to_string(rt, path)?;
        push_line(told, text.as_str())?;
    }
    Ok(())
}

// Tells whether blocks are taken where the folder isn't there; a fault leaves the next call open.
fn tell_nowhere(rt: &HostRuntime, told: &mut Vec<u8>) -> io::Result<()> {
    let folder = String::from_str(rt.alloc(), "qm_symbiont_devices/none")?;
    let mut devices = FileDevice::new(rt.clone()?, folder);
    for _ in 0..2 {
        let is_taken = devices.hand(1, &name("LPA0"), b"page").is_ok();
        tell_whether(told, is_taken)?;
    }
    Ok(())
}

/// Tells which devices take a block whose file is none, and what a plain file holds behind a link, to which one was appended;
/// which blocks are taken by devices of a folder, and what their files hold then.
pub(crate) fn tell_devices(rt: &HostRuntime, told: &mut Vec<u8>) -> io::Result<()> {
    tell_others(rt, told)?;
    tell_plain(rt, told)?;
    tell_blocks(rt, told)?;
    tell_nowhere(rt, told)
}
