//! Whole reads and writes of something that does less at once, and is interrupted.

use std::io::{self, ErrorKind};
use std::test::Fail;
use system_io::{Positioned, read_whole, write_whole};

// Five bytes that are read and written one at once, where every other call is interrupted.
#[derive(Drop)]
struct Stubborn {
    bytes: [u8; 5],
    calls: u64,
}

impl Stubborn {
    fn interrupts(&mut self) -> bool {
        self.calls = self.calls.wrapping_add(1);
        self.calls % 2 == 1
    }
}

impl Positioned for Stubborn {
    ghost use Rattle.std.specs.Prelude.{None};

    ghost held = { λ _. None };

    fn read_some(&mut self, at: u64, into: &mut [u8]) -> io::Result<usize> {
        if self.interrupts() {
            return Err(io::Error::from(ErrorKind::Interrupted));
        }
        if into.is_empty() || at >= 5 {
            return Ok(0);
        }
        into[0] = self.bytes[at as usize];
        Ok(1)
    }

    fn write_some(&mut self, at: u64, piece: &[u8]) -> io::Result<usize> {
        if self.interrupts() {
            return Err(io::Error::from(ErrorKind::Interrupted));
        }
        if piece.is_empty() || at >= 5 {
            return Ok(0);
        }
        self.bytes[at as usize] = piece[0];
        Ok(1)
    }

    ghost reached = { λ _. tt };
}

#[test]
fn parts_come_to_the_whole(rt: HostRuntime) -> Result<(), Fail> {
    let mut file = Stubborn {
        bytes: *b"abcde",
        calls: 0,
    };
    write_whole(&mut file, 1, b"XYZ")?;
    assert_eq!(rt; file.bytes, *b"aXYZe");
    let mut into = [b'.'; 4];
    assert_eq!(rt; read_whole(&mut file, 2, &mut into)?, 3);
    assert_eq!(rt; into, *b"YZe.");
    assert!(rt; write_whole(&mut file, 3, b"pqr").is_err());
    Ok(())
}
