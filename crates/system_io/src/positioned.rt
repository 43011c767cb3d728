//! Whole reads and writes at offsets of a file, which may do less at once.

ghost use Rattle.std.specs.Prelude.{◌≡◌, ◌+◌, ◌-◌, ◌<◌, ◌≤◌, ◌^◌, ℕ, List, Option, None, length, take, drop, min, IfOk};
ghost use Rattle.std.specs.Prelude.{IfErr, OnOk, IfSome, option_map};
ghost use Rattle.std.specs.Io.{ReadsAtMost, WritesAtMost};
ghost use Rattle.std.specs.IoError.{error_kind};
ghost use Rattle.outside.specs.Disks.{write_over};

use std::fs::File;
use std::io::{self, ErrorKind};
use std::os::unix::fs::FileExt;

/// Bytes that are read and written at offsets, a part at once.
pub trait Positioned {
    /// The bytes, where they are told.
    ghost held: { Self → Option (List ℕ) };

    /// Reads some of the bytes from `at` on: none only where none fit or none are there.
    fn read_some(&mut self, at: u64, into: &mut [u8]) -> io::Result<usize>
        ensures bound { ReadsAtMost result into.new }
        ensures within { IfOk result (λ n. IfSome (held self.old) (λ s. n ≤ length s - at)) }
        ensures some { IfOk result (λ n. n ≡ 0
            → IfSome (held self.old) (λ s. min (length into.old) (length s - at) ≡ 0)) }
        ensures bytes { IfOk result (λ n. IfSome (held self.old) (λ s. take n into.new ≡ take n (drop at s))) }
        ensures same { held self.new ≡ held self.old };

    /// Writes some first part of the piece. Where it was interrupted it wrote nothing.
    fn write_some(&mut self, at: u64, piece: &[u8]) -> io::Result<usize>
        requires { at + length piece.now ≤ 2 ^ 63 }
        ensures bound { WritesAtMost result piece.now }
        ensures written { IfOk result
            (λ n. held self.new ≡ option_map (write_over at (take n piece.now)) (held self.old)) }
        ensures interrupted { IfErr result (λ e. error_kind e ≡ ErrorKind.Interrupted
            → held self.new ≡ held self.old) };

    /// Each byte has an offset.
    ghost reached: { (file : Self) → IfSome (held file) (λ s. length s < 2 ^ 64) };
}

impl Positioned for File {
    ghost held = { λ _. None };

    fn read_some(&mut self, at: u64, into: &mut [u8]) -> io::Result<usize> {
        self.read_at(into, at)
    }

    fn write_some(&mut self, at: u64, piece: &[u8]) -> io::Result<usize> {
        self.write_at(piece, at)
    }

    ghost reached = { λ _. tt };
}

// One read, which is made again where it was interrupted.
fn read_part<F: Positioned>(file: &mut F, at: u64, into: &mut [u8]) -> io::Result<usize>
    ensures bound { ReadsAtMost result into.new }
    ensures within { IfOk result (λ n. IfSome (F.held file.old) (λ s. n ≤ length s - at)) }
    ensures some { IfOk result (λ n. n ≡ 0
        → IfSome (F.held file.old) (λ s. min (length into.old) (length s - at) ≡ 0)) }
    ensures bytes { IfOk result (λ n. IfSome (F.held file.old) (λ s. take n into.new ≡ take n (drop at s))) }
    ensures same { F.held file.new ≡ F.held file.old }
{
    for _ in 0..u64::MAX {
        match file.read_some(at, into) {
            Err(error) if error.kind() == ErrorKind::Interrupted => {}
            answer => return answer,
        }
    }
    Err(io::Error::from(ErrorKind::Interrupted))
}

// One write, which is made again where it was interrupted. It fails where the file takes nothing.
fn write_part<F: Positioned>(file: &mut F, at: u64, piece: &[u8]) -> io::Result<usize>
    requires { at + length piece.now ≤ 2 ^ 63 }
    ensures bound { WritesAtMost result piece.now }
    ensures some { IfOk result (λ n. 0 < n) }
    ensures written { IfOk result
        (λ n. F.held file.new ≡ option_map (write_over at (take n piece.now)) (F.held file.old)) }
{
    for _ in 0..u64::MAX {
        match file.write_some(at, piece) {
            Ok(0) => return Err(io::Error::from(ErrorKind::WriteZero)),
            Err(error) if error.kind() == ErrorKind::Interrupted => {}
            answer => return answer,
        }
    }
    Err(io::Error::from(ErrorKind::Interrupted))
}

/// Reads until the buffer is full or no byte is left.
pub fn read_whole<F: Positioned>(file: &mut F, at: u64, into: &mut [u8]) -> io::Result<usize>
    ensures bound { ReadsAtMost result into.new }
    ensures count { IfOk result (λ n. IfSome (F.held file.old) (λ s. n ≡ min (length into.old) (length s - at))) }
    ensures bytes { IfOk result (λ n. IfSome (F.held file.old) (λ s. take n into.new ≡ take n (drop at s))) }
    ensures same { F.held file.new ≡ F.held file.old }
{
    let mut got = 0;
    while got < into.len() {
        let count = read_part(file, at.saturating_add(got as u64), &mut into[got..])?;
        if count == 0 {
            break;
        }
        got += count;
    }
    Ok(got)
}

/// Writes the whole piece.
pub fn write_whole<F: Positioned>(file: &mut F, at: u64, piece: &[u8]) -> io::Result<()>
    requires some { 0 < length piece.now }
    requires fits { at + length piece.now ≤ 2 ^ 63 }
    ensures { OnOk result (F.held file.new ≡ option_map (write_over at piece.now) (F.held file.old)) }
{
    let mut place = at;
    let mut rest = piece;
    while !rest.is_empty() {
        let count = write_part(file, place, rest)?;
        place += count as u64;
        rest = &rest[count..];
    }
    Ok(())
}
