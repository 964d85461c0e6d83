// What the contracts leave open: how a block gets into a file of the system that takes less than it is given, or nothing.
use crate::files::append_whole;
use std::fs::File;
use std::io::{ErrorKind, Write};
use std::test::Fail;
use std::{fs, io};

const FILE: &str = "qm_symb_test.OUT";

#[test]
fn a_descriptor_that_cannot_be_written_to_is_a_fault(rt: HostRuntime) -> Result<(), Fail> {
    fs::write(&rt, FILE, "old")?;
    let mut unwritable = File::open(&rt, FILE)?;
    assert!(rt; append_whole(&mut unwritable, b"a").is_err());
    assert_eq!(rt; fs::read_to_string(&rt, FILE)?.as_str(), "old");
    Ok(())
}

// A file that takes two bytes in a call at most, and each second call on which is interrupted.
#[derive(Drop)]
struct Slow {
    written: Vec<u8>,
    calls: usize,
}

impl Write for Slow {
    fn write(&mut self, piece: &[u8]) -> io::Result<usize> {
        self.calls = self.calls.wrapping_add(1);
        if self.calls % 2 == 0 {
            return Err(ErrorKind::Interrupted.into());
        }
        let most = piece.len().min(2);
        self.written.extend_from_slice(&piece[..most])?;
        Ok(most)
    }

    fn flush(&mut self) -> io::Result<()> {
        Ok(())
    }
}

#[test]
fn a_block_is_appended_whole(rt: HostRuntime) -> Result<(), Fail> {
    let mut file = Slow {
        written: Vec::new(rt.alloc()),
        calls: 0,
    };
    append_whole(&mut file, b"abcde")?;
    assert!(rt; file.written.as_slice() == b"abcde".as_slice());
    Ok(())
}
