//! What the first bytes of the sides say, and which side is in use.

ghost use Rattle.std.specs.Prelude.{◌≡◌, ◌≤◌, ◌^◌, ℕ, Some, length, take, IfOk, OnOk};
ghost use Rattle.byte_text.specs.Names.{Bytes};
ghost use Rattle.outside.specs.Causes.{HasCause};
ghost use Rattle.outside.specs.declared.sides.Side.TheVariants.{A, B};
ghost use Rattle.outside.specs.Sides.{Sides, side_of, Told};
ghost use Rattle.outside.specs.Crashes.{LeavesOnly};
ghost use Rattle.log_sides.specs.States.{SafeOn};
ghost use Rattle.append_log.specs.Heads.{head_of, start_of, IsHeadedIn, IsOpenHead, IsSizedHead, IsSizedStart};

use log_sides::NEWEST;
use outside::{Disk, Failed, Side};

// The most bytes of a side.
const MAX_SIDE: u64 = 1 << 62;

/// What the sides of a disk hold.
#[derive(Clone, Copy, Debug, PartialEq, Eq)]
pub enum Start {
    /// No log was begun.
    Fresh,
    /// A side of so many bytes is in use, if its batches are whole.
    Standing {
        side: Side,
        version: u8,
        generation: u64,
        len: u64,
    },
    /// A header is wrong, or no side is open: where.
    Damaged {
        side: Side,
        place: u64,
    },
}

/// What the first bytes of a side say.
#[derive(Clone, Copy, Debug, PartialEq, Eq)]
pub enum Head {
    TooLong,
    /// It is not open, and has so many bytes.
    Shut(u64),
    /// A byte of its header is wrong: where.
    Wrong(u64),
    Open {
        version: u8,
        generation: u64,
        len: u64,
    },
}

impl Head {
    ghost use Rattle.append_log.specs.Heads.{head_in, start_of, IsOpenHead, IsSizedHead, IsSizedStart};

    // A side of so many bytes that begins with these.
    fn of(len: u64, first: &[u8; 16]) -> Head
        ensures head { result ≡ head_in len first.now }
        ensures headed { (bytes : Bytes) → len ≡ length bytes → (16 ≤ len → first.now ≡ take 16 bytes)
            → IsOpenHead bytes result }
        ensures sized { IsSizedHead result }
    {
        Head::said(len, first)
    }

    fn said(len: u64, first: &[u8; 16]) -> Head
        ensures { result ≡ head_in len first.now }
    {
        if len > MAX_SIDE {
            return Head::TooLong;
        }
        if len < 17 || first[0] != 1 {
            return Head::Shut(len);
        }
        if !(first[1] == b'T' && first[2] == b'F' && first[3] == b'L') {
            return Head::Wrong(1);
        }
        let version = first[4];
        if version == 0 || version > NEWEST {
            return Head::Wrong(4);
        }
        if !(first[5] == 0 && first[6] == 0 && first[7] == 0) {
            return Head::Wrong(5);
        }
        let generation = u64::from_be_bytes([
            first[8], first[9], first[10], first[11], first[12], first[13], first[14], first[15],
        ]);
        if generation == 0 || (version < NEWEST && generation == u64::MAX) {
            return Head::Wrong(8);
        }
        Head::Open {
            version,
            generation,
            len,
        }
    }

    fn start(a: Head, b: Head) -> Start
        ensures start { result ≡ start_of a b }
        ensures sized { IsSizedHead a → IsSizedHead b → IsSizedStart result }
    {
        match (a, b) {
            (Head::TooLong, _) => damaged(Side::A, MAX_SIDE),
            (_, Head::TooLong) => damaged(Side::B, MAX_SIDE),
            (Head::Wrong(place), _) => damaged(Side::A, place),
            (_, Head::Wrong(place)) => damaged(Side::B, place),
            (
                Head::Open {
                    version,
                    generation,
                    len,
                },
                Head::Open {
                    version: other_version,
                    generation: other,
                    len: other_len,
                },
            ) => {
                if generation == other {
                    damaged(Side::B, 8)
                } else if generation > other {
                    standing(Side::A, version, generation, len)
                } else {
                    standing(Side::B, other_version, other, other_len)
                }
            }
            (
                Head::Open {
                    version,
                    generation,
                    len,
                },
                Head::Shut(_),
            ) => standing(Side::A, version, generation, len),
            (
                Head::Shut(_),
                Head::Open {
                    version,
                    generation,
                    len,
                },
            ) => standing(Side::B, version, generation, len),
            (Head::Shut(_), Head::Shut(0)) => Start::Fresh,
            (Head::Shut(_), Head::Shut(_)) => damaged(Side::A, 0),
        }
    }
}

/// Makes both sides safe, and sees which of them is in use.
pub fn start_log<D: Disk>(disk: &mut D) -> Result<Start, Failed>
    ensures start { (s : Sides) → D.seen disk.old ≡ Some s
        → IfOk result (λ start. (start ≡ start_of (head_of s.a) (head_of s.b)) × IsHeadedIn s start) }
    ensures sized { IfOk result IsSizedStart }
    ensures a { (s : Sides) → D.seen disk.old ≡ Some s
        → OnOk result (SafeOn D.crashes D.seen D.images disk.new A (λ x. x ≡ s.a)) }
    ensures b { (s : Sides) → D.seen disk.old ≡ Some s
        → OnOk result (SafeOn D.crashes D.seen D.images disk.new B (λ x. x ≡ s.b)) }
    ensures same { Told (D.seen disk.old) (D.seen disk.new) (λ s t. t ≡ s) }
    ensures crash { (c : Sides) → D.images disk.new c → D.images disk.old c }
    ensures moments { LeavesOnly D.moment D.left_since disk.old disk.new (D.images disk.old) }
    ensures told { D.crashes disk.new ≡ D.crashes disk.old }
    ensures cause { HasCause (D.faults disk.old) (D.faults disk.new) result }
{
    match sync_both(disk) {
        Ok(()) => look_at_both(disk),
        Err(Failed) => Err(Failed),
    }
}

fn look_at_both<D: Disk>(disk: &mut D) -> Result<Start, Failed>
    ensures start { (s : Sides) → D.seen disk.old ≡ Some s
        → IfOk result (λ start. (start ≡ start_of (head_of s.a) (head_of s.b)) × IsHeadedIn s start) }
    ensures sized { IfOk result IsSizedStart }
    ensures same { Told (D.seen disk.old) (D.seen disk.new) (λ s t. t ≡ s) }
    ensures crash { (c : Sides) → D.images disk.new c → D.images disk.old c }
    ensures moments { LeavesOnly D.moment D.left_since disk.old disk.new (D.images disk.old) }
    ensures told { D.crashes disk.new ≡ D.crashes disk.old }
    ensures cause { HasCause (D.faults disk.old) (D.faults disk.new) result }
{
    match look_at(disk, Side::A) {
        Ok(a) => match look_at(disk, Side::B) {
            Ok(b) => Ok(Head::start(a, b)),
            Err(Failed) => Err(Failed),
        },
        Err(Failed) => Err(Failed),
    }
}

fn look_at<D: Disk>(disk: &mut D, side: Side) -> Result<Head, Failed>
    ensures head { (s : Sides) → D.seen disk.old ≡ Some s
        → IfOk result (λ head. (head ≡ head_of (side_of s side)) × IsOpenHead (side_of s side) head) }
    ensures sized { IfOk result IsSizedHead }
    ensures same { Told (D.seen disk.old) (D.seen disk.new) (λ s t. t ≡ s) }
    ensures crash { (c : Sides) → D.images disk.new c → D.images disk.old c }
    ensures moments { LeavesOnly D.moment D.left_since disk.old disk.new (D.images disk.old) }
    ensures told { D.crashes disk.new ≡ D.crashes disk.old }
    ensures cause { HasCause (D.faults disk.old) (D.faults disk.new) result }
{
    match disk.len(side) {
        Ok(len) => {
            let mut first = [0; 16];
            match disk.read(side, 0, &mut first) {
                Ok(_) => Ok(Head::of(len, &first)),
                Err(Failed) => Err(Failed),
            }
        }
        Err(Failed) => Err(Failed),
    }
}

fn sync_both<D: Disk>(disk: &mut D) -> Result<(), Failed>
    ensures a { (s : Sides) → D.seen disk.old ≡ Some s
        → OnOk result (SafeOn D.crashes D.seen D.images disk.new A (λ x. x ≡ s.a)) }
    ensures b { (s : Sides) → D.seen disk.old ≡ Some s
        → OnOk result (SafeOn D.crashes D.seen D.images disk.new B (λ x. x ≡ s.b)) }
    ensures same { Told (D.seen disk.old) (D.seen disk.new) (λ s t. t ≡ s) }
    ensures crash { (c : Sides) → D.images disk.new c → D.images disk.old c }
    ensures moments { LeavesOnly D.moment D.left_since disk.old disk.new (D.images disk.old) }
    ensures told { D.crashes disk.new ≡ D.crashes disk.old }
    ensures cause { HasCause (D.faults disk.old) (D.faults disk.new) result }
{
    match disk.sync(Side::A) {
        Ok(()) => disk.sync(Side::B),
        Err(Failed) => Err(Failed),
    }
}

fn damaged(side: Side, place: u64) -> Start
    ensures { result ≡ Start.Damaged side place }
{
    Start::Damaged { side, place }
}

fn standing(side: Side, version: u8, generation: u64, len: u64) -> Start
    ensures { result ≡ Start.Standing side version generation len }
{
    Start::Standing {
        side,
        version,
        generation,
        len,
    }
}
