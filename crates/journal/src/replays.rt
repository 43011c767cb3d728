//! Who takes what an opening reads.
//!
//! The version of the records is told first. A batch is handed over in pieces, and its end told apart. A `Replay` may
//! refuse as soon as no bytes behind could mend what it has, so places of damage come in the order of reading.

ghost use Rattle.std.specs.Prelude.{◌≡◌, ◌+◌, ◌≤◌, ◌++◌, ℕ, List, [], ◌∷◌, Option, None, Some, length, OnOk, IfErr};
ghost use Rattle.byte_text.specs.Names.{Bytes};
ghost use Rattle.log_sides.specs.Texts.{newest};

/// Why what was read is not taken.
#[derive(Clone, Copy, Debug, PartialEq, Eq)]
pub enum Refusal {
    /// The bytes from this place of the batch on are no record.
    NoRecord(u64),
    Memory,
}

/// Takes the batches of a log in order, each in pieces. It is of the newest version until it is told another one.
pub trait Replay {
    /// It stands for these batches of records of this version, which it took whole, and for this part of the next one.
    ghost took: { Self → ℕ → List Bytes → Bytes → Type 0 };

    /// The place of the first bytes of a batch that are no record of this version, unless all are.
    ghost fault: { ℕ → Bytes → Option ℕ };

    /// Tells the version of the records, before any batch is taken.
    fn begin(&mut self, version: u8)
        requires known { 1 ≤ version }
        requires latest { version ≤ newest }
        ensures { (v : ℕ) → took self.old v [] [] → took self.new version [] [] };

    /// Takes the next bytes of a batch. It may refuse a batch as soon as no bytes behind could mend it.
    fn take(&mut self, piece: &[u8]) -> Result<(), Refusal>
        ensures took { (v : ℕ) (batches : List Bytes) (part : Bytes) → took self.old v batches part
            → OnOk result (took self.new v batches (part ++ piece.now)) }
        ensures refused { (v : ℕ) (batches : List Bytes) (part : Bytes) → took self.old v batches part
            → IfErr result (λ refusal. (at : ℕ) → refusal ≡ Refusal.NoRecord at
            → (at ≤ length part + length piece.now)
            × ((rest : Bytes) → fault v ((part ++ piece.now) ++ rest) ≡ Some at)) };

    /// Ends the batch.
    fn end(&mut self) -> Result<(), Refusal>
        ensures took { (v : ℕ) (batches : List Bytes) (part : Bytes) → took self.old v batches part
            → OnOk result (took self.new v (batches ++ part ∷ []) []) }
        ensures whole { (v : ℕ) (batches : List Bytes) (part : Bytes) → took self.old v batches part
            → OnOk result (fault v part ≡ None) }
        ensures refused { (v : ℕ) (batches : List Bytes) (part : Bytes) → took self.old v batches part
            → IfErr result
            (λ refusal. (at : ℕ) → refusal ≡ Refusal.NoRecord at → (at ≤ length part) × (fault v part ≡ Some at)) };
}
