//! The records of a batch, as they are to be written.

ghost use Rattle.std.specs.Prelude.{◌≡◌, ◌≤◌, ◌++◌, ◌+◌, [], take, drop, length, IfOk, OnOk, OnErr};
ghost use Rattle.log_sides.specs.Texts.{sealed, records_in, written};

use byte_text::NoMemory;
use std::alloc::Global;
use std::marker::Model;

// The bytes of a batch's two gates and its length.
const FRAME: usize = 10;

/// The records of a batch, kept as they are to be written: between two gates, behind their length.
#[derive(Drop)]
pub struct Batch {
    bytes: Vec<u8>,
}

impl Model for Batch {
    ghost use Rattle.std.specs.Prelude.{◌≡◌, List, ℕ};
    ghost use Rattle.log_sides.specs.Texts.{sealed, records_in};

    ghost Value = { List ℕ };

    ghost view = { λ b. records_in b.bytes.items };

    ghost invariant = { λ b. b.bytes.items ≡ sealed (records_in b.bytes.items) };
}

impl Batch {
    /// No record.
    pub fn new(alloc: Global) -> Result<Batch, NoMemory>
        ensures { IfOk result (λ b. b ≡ []) }
    {
        match vec![in alloc; 0u8; FRAME] {
            Ok(mut bytes) => {
                seal_all(&mut bytes);
                Ok(Batch { bytes })
            }
            Err(_) => Err(NoMemory),
        }
    }

    /// The bytes as they are written.
    pub fn bytes(&self) -> &[u8]
        ensures { result.now ≡ sealed self.now }
    {
        &self.bytes
    }

    /// The bytes as they are written: none where there is no record.
    pub fn written(&self) -> &[u8]
        ensures { result.now ≡ written self.now }
    {
        if self.len() == 0 {
            return &[];
        }
        self.bytes()
    }

    /// How many bytes the records have.
    pub fn len(&self) -> usize
        ensures { result ≡ length self.now }
    {
        self.bytes.len() - FRAME
    }

    /// Puts a record last.
    pub fn push(&mut self, entry: &[u8]) -> Result<(), NoMemory>
        ensures ok { OnOk result (self.new ≡ self.old ++ entry.now) }
        ensures err { OnErr result (self.new ≡ self.old) }
    {
        let end = self.bytes.len() - 1;
        match self.bytes.extend_from_slice(entry) {
            Ok(()) => {
                put(&mut self.bytes, end, entry);
                seal_all(&mut self.bytes);
                Ok(())
            }
            Err(_) => Err(NoMemory),
        }
    }

    /// Forgets the records behind the first `len` bytes.
    pub fn cut_to(&mut self, len: usize)
        requires { len ≤ length self.old }
        ensures { self.new ≡ take len self.old }
    {
        self.bytes.truncate(len + FRAME);
        seal_all(&mut self.bytes);
    }
}

// Puts a piece over the bytes from a place on.
fn put(bytes: &mut Vec<u8>, at: usize, piece: &[u8])
    requires { at + length piece.now ≤ length bytes.old.items }
    ensures len { length bytes.new.items ≡ length bytes.old.items }
    ensures items { bytes.new.items
        ≡ take at bytes.old.items ++ piece.now ++ drop (at + length piece.now) bytes.old.items }
{
    put_in(bytes, at, piece);
}

fn put_in(bytes: &mut [u8], at: usize, piece: &[u8])
    requires { at + length piece.now ≤ length bytes.old }
    ensures { bytes.new ≡ take at bytes.old ++ piece.now ++ drop (at + length piece.now) bytes.old }
{
    bytes[at..at + piece.len()].copy_from_slice(piece);
}

// Writes the gates and the length round the records.
fn seal_all(bytes: &mut Vec<u8>)
    requires { 10 ≤ length bytes.old.items }
    ensures { bytes.new.items ≡ sealed (records_in bytes.old.items) }
{
    seal(bytes);
}

fn seal(bytes: &mut [u8])
    requires { 10 ≤ length bytes.old }
    ensures { bytes.new ≡ sealed (records_in bytes.old) }
{
    let end = bytes.len() - 1;
    let len = (bytes.len() - FRAME) as u64;
    bytes[0] = 1;
    bytes[1..9].copy_from_slice(&len.to_be_bytes());
    bytes[end] = 0;
}
