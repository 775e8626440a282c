//! Readers that fail once.

use jc_command_shared::{Failure, read_whole};
use std::io;
use std::io::Read;
use std::test::Fail;

/// Gives a few bytes and then fails.
#[derive(Drop)]
struct Broken {
    left: usize,
    with: io::ErrorKind,
}

impl Read for Broken {
    fn read(&mut self, buf: &mut [u8]) -> io::Result<usize> {
        let given = buf.len().min(self.left);
        if given < 1 {
            return Err(io::Error::from(self.with));
        }
        self.left -= given;
        Ok(given)
    }
}

#[test]
fn a_failure_in_mid_stream_is_reported(rt: HostRuntime) -> Result<(), Fail> {
    let alloc = rt.alloc();
    for left in [0, 1, 100_000] {
        let with = io::ErrorKind::Other;
        let failed = read_whole(alloc, &mut Broken { left, with });
        assert!(rt; matches!(failed, Err(Failure::ReadFailed)));
        let with = io::ErrorKind::OutOfMemory;
        let failed = read_whole(alloc, &mut Broken { left, with });
        assert!(rt; matches!(failed, Err(Failure::OutOfMemory)));
    }
    let Ok(whole) = read_whole(alloc, &mut b"some bytes".as_slice()) else {
        return Err(Fail::from("it failed"));
    };
    assert_eq!(rt; whole.as_slice(), b"some bytes".as_slice());
    Ok(())
}
