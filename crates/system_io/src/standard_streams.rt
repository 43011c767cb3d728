//! Standard input and output, or another reader and writer.

ghost use Rattle.std.specs.Prelude.{◌≡◌, ◌≤◌, None, length};

use outside::{Failed, Sink, Source};
use std::io::{BufRead, Write};

// Copies the front of what was read ahead; how many bytes fit. A script is read byte by byte, so one is copied by itself.
fn front_into(ahead: &[u8], into: &mut [u8]) -> usize
    ensures { result ≤ length into.old }
{
    if let ([first, ..], [one]) = (ahead, &mut *into) {
        *one = *first;
        return 1;
    }
    let count = ahead.len().min(into.len());
    into[..count].copy_from_slice(&ahead[..count]);
    count
}

/// What is read from standard input, or another reader that reads ahead.
#[derive(Drop)]
pub struct StdinSource<R: BufRead + Drop> {
    reader: R,
    faults: u64,
}

impl<R: BufRead + Drop> StdinSource<R> {
    /// Nothing was read yet, and nothing has failed.
    pub fn new(reader: R) -> StdinSource<R>
        ensures { result.faults ≡ 0 }
    {
        StdinSource { reader, faults: 0 }
    }
}

impl<R: BufRead + Drop> Source for StdinSource<R> {
    ghost left = { λ s. None };

    ghost faults = { λ s. s.faults };

    fn read(&mut self, into: &mut [u8]) -> Result<usize, Failed> {
        let count = match self.reader.fill_buf() {
            Ok(ahead) => front_into(ahead, into),
            Err(_) => {
                self.faults = self.faults.saturating_add(1);
                return Err(Failed);
            }
        };
        self.reader.consume(count);
        Ok(count)
    }
}

/// What is written to standard output, or to another writer.
#[derive(Drop)]
pub struct StdoutSink<W: Write + Drop> {
    writer: W,
    faults: u64,
}

impl<W: Write + Drop> StdoutSink<W> {
    /// Nothing was written yet, and nothing has failed.
    pub fn new(writer: W) -> StdoutSink<W>
        ensures { result.faults ≡ 0 }
    {
        StdoutSink { writer, faults: 0 }
    }
}

impl<W: Write + Drop> Sink for StdoutSink<W> {
    ghost held = { λ s. None };

    ghost faults = { λ s. s.faults };

    /// A writer that takes nothing of a piece has failed.
    fn write(&mut self, piece: &[u8]) -> Result<usize, Failed> {
        match self.writer.write(piece) {
            Ok(0) if !piece.is_empty() => {
                self.faults = self.faults.saturating_add(1);
                Err(Failed)
            }
            Ok(count) => Ok(count),
            Err(_) => {
                self.faults = self.faults.saturating_add(1);
                Err(Failed)
            }
        }
    }
}
