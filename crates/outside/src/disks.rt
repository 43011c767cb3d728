//! Disks of two sides that may crash.
//!
//! A write behind the old end reads as zeros up to it. A cut to no less than the length changes nothing. The longest
//! that a side read as since its last sync is a member, so that a bound on the length of its images is a law. Contents
//! and crash images are told apart: one may be told without the other. Time goes on at every call that succeeds; a
//! failed call changes nothing but the count of faults.

ghost use Rattle.std.specs.Prelude.{◌≡◌, ◌+◌, ◌-◌, ◌<◌, ◌≤◌, ◌^◌, ℕ, Bool, true, Option, length, take, drop, min, IfOk};
ghost use Rattle.std.specs.Prelude.{OnOk, OnErr, MatchResult};
ghost use Rattle.std.specs.Io.{ReadsAtMost};
ghost use Rattle.outside.specs.Causes.{HasCause};
ghost use Rattle.outside.specs.declared.sides.Side.{Side};
ghost use Rattle.outside.specs.Sides.{Sides, side_of, with_side, AreBytes, Told, IfTold, On};
ghost use Rattle.outside.specs.Crashes.{IsSettled};
ghost use Rattle.outside.specs.Disks.{write_over, Torn, CutOrNot, Follows, Elapses, GoesOn, BeginsAnew};

use crate::failures::Failed;
use crate::sides::Side;

/// Two sides of bytes, and what a crash may leave of both at each moment.
///
/// Between two syncs of a side each written range, and what a write makes of the part past the old end, may hold
/// any bytes after a crash; a cut may have happened or not; the rest stays. A failed call may leave a side so, too.
pub trait Disk {
    /// What a read gives, where the disk tells it.
    ghost seen: { Self → Option Sides };

    /// Whether the disk tells what a crash may leave.
    ghost crashes: { Self → Bool };

    /// What a crash at this moment may leave of both sides.
    ghost images: { Self → Sides → Type 0 };

    /// The longest that a side read as since its last sync.
    ghost longest: { Self → Side → ℕ };

    /// The moment, as a number that does not fall.
    ghost moment: { Self → ℕ };

    /// What a crash at some moment from that one on might have left, during a call or between two.
    ghost left_since: { Self → ℕ → Sides → Type 0 };

    /// How often it has failed, up to the greatest `u64`.
    ghost faults: { Self → ℕ };

    /// How many bytes a side has.
    fn len(&mut self, side: Side) -> Result<u64, Failed>
        ensures length { IfOk result (λ n. IfTold (seen self.old) (λ s. n ≡ length (side_of s side))) }
        ensures sound { OnOk result (IfTold (seen self.old) (λ s. AreBytes (side_of s side))) }
        ensures same { Told (seen self.old) (seen self.new) (λ s t. t ≡ s) }
        ensures crash { (c : Sides) → images self.new c → images self.old c }
        ensures longest { crashes self.old ≡ true
            → IfTold (seen self.new) (GoesOn (longest self.old) (longest self.new)) }
        ensures time { Elapses crashes images moment left_since self.old self.new }
        ensures ticks { crashes self.old ≡ true → OnOk result (moment self.old < moment self.new) }
        ensures cause { HasCause (faults self.old) (faults self.new) result };

    /// Puts the bytes from `at` on into the front of `into`, as far as they fit and exist, and answers how many.
    fn read(&mut self, side: Side, at: u64, into: &mut [u8]) -> Result<usize, Failed>
        ensures bound { ReadsAtMost result into.new }
        ensures count { IfOk result
            (λ n. IfTold (seen self.old) (λ s. n ≡ min (length into.old) (length (side_of s side) - at))) }
        ensures bytes { IfOk result
            (λ n. IfTold (seen self.old) (λ s. take n into.new ≡ take n (drop at (side_of s side)))) }
        ensures sound { OnOk result (IfTold (seen self.old) (λ s. AreBytes (side_of s side))) }
        ensures same { Told (seen self.old) (seen self.new) (λ s t. t ≡ s) }
        ensures crash { (c : Sides) → images self.new c → images self.old c }
        ensures longest { crashes self.old ≡ true
            → IfTold (seen self.new) (GoesOn (longest self.old) (longest self.new)) }
        ensures time { Elapses crashes images moment left_since self.old self.new }
        ensures ticks { crashes self.old ≡ true → OnOk result (moment self.old < moment self.new) }
        ensures cause { HasCause (faults self.old) (faults self.new) result };

    /// Writes over what is there, and past the end: bytes between the old end and `at` read as 0.
    fn write_at(&mut self, side: Side, at: u64, piece: &[u8]) -> Result<(), Failed>
        requires { at + length piece.now ≤ 2 ^ 63 }
        ensures written { OnOk result
            (Told (seen self.old) (seen self.new)
            (λ s t. t ≡ with_side s side (write_over at piece.now (side_of s side)))) }
        ensures failed { OnErr result (Told (seen self.old) (seen self.new) (On side (Torn at (length piece.now)))) }
        ensures crash { Follows (On side (Torn at (length piece.now))) (images self.old) (images self.new) }
        ensures longest { crashes self.old ≡ true
            → IfTold (seen self.new) (GoesOn (longest self.old) (longest self.new)) }
        ensures time { Elapses crashes images moment left_since self.old self.new }
        ensures ticks { crashes self.old ≡ true → OnOk result (moment self.old < moment self.new) }
        ensures cause { HasCause (faults self.old) (faults self.new) result };

    /// Cuts a side to `len` bytes; a side that is no longer than that stays.
    fn cut(&mut self, side: Side, len: u64) -> Result<(), Failed>
        ensures cut { OnOk result
            (Told (seen self.old) (seen self.new) (λ s t. t ≡ with_side s side (take len (side_of s side)))) }
        ensures failed { OnErr result (Told (seen self.old) (seen self.new) (On side (CutOrNot len))) }
        ensures crash { Follows (On side (CutOrNot len)) (images self.old) (images self.new) }
        ensures longest { crashes self.old ≡ true
            → IfTold (seen self.new) (GoesOn (longest self.old) (longest self.new)) }
        ensures time { Elapses crashes images moment left_since self.old self.new }
        ensures ticks { crashes self.old ≡ true → OnOk result (moment self.old < moment self.new) }
        ensures cause { HasCause (faults self.old) (faults self.new) result };

    /// After it, a crash leaves of this side what a read gives. At `Failed` nothing is made sure.
    fn sync(&mut self, side: Side) -> Result<(), Failed>
        ensures durable { crashes self.old ≡ true
            → OnOk result (IfTold (seen self.old) (λ s. IsSettled (images self.new) side (side_of s side))) }
        ensures same { Told (seen self.old) (seen self.new) (λ s t. t ≡ s) }
        ensures crash { (c : Sides) → images self.new c → images self.old c }
        ensures longest { crashes self.old ≡ true
            → IfTold (seen self.new)
            (λ s. MatchResult result (λ _. BeginsAnew side (longest self.old) (longest self.new) s)
            (λ _. GoesOn (longest self.old) (longest self.new) s)) }
        ensures time { Elapses crashes images moment left_since self.old self.new }
        ensures ticks { crashes self.old ≡ true → OnOk result (moment self.old < moment self.new) }
        ensures cause { HasCause (faults self.old) (faults self.new) result };

    /// The disk as it reads is one of its images.
    ghost as_read: { (disk : Self) → IfTold (seen disk) (images disk) };

    /// No image of a side is longer than the longest that the side read as since its last sync.
    ghost no_longer: { (disk : Self) (c : Sides) (side : Side) → crashes disk ≡ true → images disk c
        → length (side_of c side) ≤ longest disk side };

    /// This moment is one of those since an earlier one.
    ghost counts_now: { (disk : Self) (t : ℕ) (c : Sides) → t ≤ moment disk → images disk c → left_since disk t c };

    /// Since this moment there is no other.
    ghost only_now: { (disk : Self) (c : Sides) → left_since disk (moment disk) c → images disk c };

    /// What may have been left since a moment may have been left since an earlier one.
    ghost from_earlier: { (disk : Self) (t u : ℕ) (c : Sides) → t ≤ u → u ≤ moment disk → left_since disk u c
        → left_since disk t c };
}
