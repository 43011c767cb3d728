//! The records of some items, which a rewriting copies in one step.

ghost use Rattle.std.specs.Prelude.{◌≡◌, ◌+◌, ◌≤◌, ◌<◌, ◌++◌, [], length, Decides, IfOk, OnOk, OnErr};

use byte_text::NoMemory;
use log_sides::Batch;
use std::alloc::Global;

/// The most items of one step of a rewriting.
pub const PIECE: usize = 256;

/// The records of at most `PIECE` items.
#[derive(Drop)]
pub struct Piece {
    records: Batch,
    items: usize,
    ghost few: { items ≤ 256 },
}

impl Piece {
    /// No item.
    pub fn new(alloc: Global) -> Result<Piece, NoMemory>
        ensures records { IfOk result (λ piece. piece.records ≡ []) }
        ensures items { IfOk result (λ piece. piece.items ≡ 0) }
    {
        match Batch::new(alloc) {
            Ok(records) => Ok(Piece { records, items: 0 }),
            Err(NoMemory) => Err(NoMemory),
        }
    }

    /// How many items there are.
    pub fn items(&self) -> usize
        ensures { result ≡ self.now.items }
    {
        self.items
    }

    /// Whether no item more may be put in.
    pub fn is_full(&self) -> bool
        ensures { Decides result (256 ≤ self.now.items) }
    {
        self.items >= PIECE
    }

    /// How many bytes their records have.
    pub fn len(&self) -> usize
        ensures { result ≡ length self.now.records }
    {
        self.records.len()
    }

    /// Puts the record of one item last. At want of memory the piece is as before.
    pub fn push(&mut self, entry: &[u8]) -> Result<(), NoMemory>
        requires { self.old.items < 256 }
        ensures ok { OnOk result (self.new.records ≡ self.old.records ++ entry.now) }
        ensures items { OnOk result (self.new.items ≡ self.old.items + 1) }
        ensures err { OnErr result (self.new.records ≡ self.old.records) }
        ensures err_items { OnErr result (self.new.items ≡ self.old.items) }
    {
        match self.records.push(entry) {
            Ok(()) => {
                self.items += 1;
                Ok(())
            }
            Err(NoMemory) => Err(NoMemory),
        }
    }

    /// The records as one batch.
    pub(crate) fn records(&self) -> &Batch
        ensures { result.now ≡ self.now.records }
    {
        &self.records
    }
}
