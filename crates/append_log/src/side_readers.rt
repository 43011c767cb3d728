//! A side is read batch by batch, into a buffer that the caller gives.

ghost use Rattle.std.specs.Prelude.{Ok, ◌≡◌, ◌+◌, ◌-◌, ◌≤◌, ◌<◌, ◌++◌, ℕ, List, [], ◌∷◌, take, drop, length, min, IfOk};
ghost use Rattle.std.specs.Prelude.{◌^◌};
ghost use Rattle.byte_text.specs.Names.{Bytes};
ghost use Rattle.outside.specs.Causes.{HasCause};
ghost use Rattle.log_sides.specs.States.{ReadsAs, SideLeads};
ghost use Rattle.log_sides.specs.Texts.{with_batch};

use outside::{Disk, Failed, Side};

/// What stands behind the batches that were read.
#[derive(Clone, Copy, Debug, PartialEq, Eq)]
pub enum Gate {
    /// A batch of so many bytes.
    Open(u64),
    /// A closed gate: the side ends.
    Closed,
    /// No gate at this place, or no batch whose length stands there.
    Damaged(u64),
}

/// How far a side was read.
#[derive(Drop)]
pub struct Reader {
    side: Side,
    len: u64,
    at: u64,
    left: u64,
    ghost short: { len ≤ 2 ^ 62 },
    ghost within: { at + left ≤ len },
}

impl Reader {
    ghost use Rattle.append_log.specs.Reading.{IsAtGate, IsInBatch, IsGateOf};

    /// A side of so many bytes, read to behind its header.
    pub fn new(side: Side, len: u64) -> Reader
        requires short { len ≤ 2 ^ 62 }
        requires headed { 16 ≤ len }
        ensures side { result.side ≡ side }
        ensures len { result.len ≡ len }
        ensures at { result.at ≡ 16 }
        ensures left { result.left ≡ 0 }
    {
        Reader {
            side,
            len,
            at: 16,
            left: 0,
        }
    }

    /// How many bytes of the batch that is read are left.
    pub fn left(&self) -> u64
        ensures { result ≡ self.now.left }
    {
        self.left
    }

    /// The place of the next byte.
    pub fn place(&self) -> u64
        ensures { result ≡ self.now.at }
    {
        self.at
    }

    /// Reads the next gate, and the length of the batch behind it where it is open.
    pub fn next_batch<D: Disk>(&mut self, disk: &mut D) -> Result<Gate, Failed>
        ensures gate { (v g : ℕ) (bs : List Bytes) (bytes : Bytes)
            → ReadsAs D.crashes D.seen D.images disk.old self.old.side bytes
            → IsAtGate v g bs self.old.len self.old.at bytes
            → IfOk result (IsGateOf v g bs bytes self.new.len self.new.left self.new.at) }
        ensures on { (n : ℕ) → result ≡ Ok (Gate.Open n) → self.old.at < self.new.at }
        ensures safe { (bytes : Bytes) → ReadsAs D.crashes D.seen D.images disk.old self.old.side bytes
            → ReadsAs D.crashes D.seen D.images disk.new self.old.side bytes }
        ensures same { (bytes : Bytes) → ReadsAs D.crashes D.seen D.images disk.old self.old.side bytes
            → SideLeads D.crashes D.seen D.images D.moment D.left_since self.old.side
            (λ x. x ≡ bytes) disk.old disk.new }
        ensures told { D.crashes disk.new ≡ D.crashes disk.old }
        ensures cause { HasCause (D.faults disk.old) (D.faults disk.new) result }
        ensures side { self.new.side ≡ self.old.side }
        ensures len { self.new.len ≡ self.old.len }
    {
        let mut head = [0; 9];
        match disk.read(self.side, self.at, &mut head) {
            Ok(count) => Ok(self.pass(&head, count)),
            Err(Failed) => Err(Failed),
        }
    }

    // What the first bytes from the gate on say, of which so many are there.
    fn pass(&mut self, head: &[u8; 9], count: usize) -> Gate
        requires { count ≤ 9 }
        ensures gate { (v g : ℕ) (bs : List Bytes) (bytes : Bytes) → IsAtGate v g bs self.old.len self.old.at bytes
            → count ≡ min 9 (length bytes - self.old.at) → take count head.now ≡ take count (drop self.old.at bytes)
            → IsGateOf v g bs bytes self.new.len self.new.left self.new.at result }
        ensures on { (n : ℕ) → result ≡ Gate.Open n → self.old.at < self.new.at }
        ensures side { self.new.side ≡ self.old.side }
        ensures len { self.new.len ≡ self.old.len }
    {
        if count == 0 {
            return Gate::Damaged(self.at);
        }
        if head[0] != 1 {
            return Gate::Closed;
        }
        let place = self.at.saturating_add(1);
        if count < 9 {
            return Gate::Damaged(place);
        }
        let n = u64::from_be_bytes([
            head[1], head[2], head[3], head[4], head[5], head[6], head[7], head[8],
        ]);
        let from = self.at.saturating_add(9);
        if from > self.len {
            return Gate::Damaged(place);
        }
        if n > self.len.saturating_sub(from) {
            return Gate::Damaged(place);
        }
        self.at = from;
        self.left = n;
        Gate::Open(n)
    }

    /// Passes over what is left of the batch that is read, without a look at it.
    pub fn skip(&mut self)
        ensures at { (v g : ℕ) (bs : List Bytes) (part bytes : Bytes)
            → IsInBatch v g bs part self.old.len self.old.left self.old.at bytes
            → IsAtGate v g
            (with_batch bs (part ++ take self.old.left (drop self.old.at bytes))) self.new.len self.new.at bytes }
        ensures place { self.new.at ≡ self.old.at + self.old.left }
        ensures left { self.new.left ≡ 0 }
        ensures side { self.new.side ≡ self.old.side }
        ensures len { self.new.len ≡ self.old.len }
    {
        self.at = self.at.saturating_add(self.left);
        self.left = 0;
    }

    /// Reads on in a batch, as far as there is room, and answers how many bytes.
    pub fn next_piece<D: Disk>(&mut self, disk: &mut D, into: &mut [u8]) -> Result<usize, Failed>
        ensures piece { (v g : ℕ) (bs : List Bytes) (part bytes : Bytes)
            → ReadsAs D.crashes D.seen D.images disk.old self.old.side bytes
            → IsInBatch v g bs part self.old.len self.old.left self.old.at bytes
            → IfOk result (λ n. (n ≡ min (length into.old) self.old.left)
            × IsInBatch v g bs (part ++ take n into.new) self.new.len self.new.left self.new.at bytes) }
        ensures safe { (bytes : Bytes) → ReadsAs D.crashes D.seen D.images disk.old self.old.side bytes
            → ReadsAs D.crashes D.seen D.images disk.new self.old.side bytes }
        ensures same { (bytes : Bytes) → ReadsAs D.crashes D.seen D.images disk.old self.old.side bytes
            → SideLeads D.crashes D.seen D.images D.moment D.left_since self.old.side
            (λ x. x ≡ bytes) disk.old disk.new }
        ensures told { D.crashes disk.new ≡ D.crashes disk.old }
        ensures cause { HasCause (D.faults disk.old) (D.faults disk.new) result }
        ensures side { self.new.side ≡ self.old.side }
        ensures len { self.new.len ≡ self.old.len }
        ensures bound { IfOk result (λ n. n ≤ length into.new) }
        ensures on { IfOk result (λ n. self.new.at ≡ self.old.at + n) }
        ensures left { IfOk result (λ n. self.new.left + n ≡ self.old.left) }
    {
        let room = into.len().min(self.left as usize);
        match disk.read(self.side, self.at, &mut into[..room]) {
            Ok(count) => {
                self.at = self.at.saturating_add(count as u64);
                self.left = self.left.saturating_sub(count as u64);
                Ok(count)
            }
            Err(Failed) => Err(Failed),
        }
    }
}
