//! Where bytes come from and go to.

ghost use Rattle.std.specs.Prelude.{◌≡◌, ◌<◌, ℕ, List, Option, length, IfOk};
ghost use Rattle.std.specs.Io.{ReadsAtMost, WritesAtMost};
ghost use Rattle.std.specs.Io.KnownBytes.{ReadConsumes, WriteAppends};
ghost use Rattle.outside.specs.Causes.{HasCause};

use crate::failures::Failed;

/// Where bytes come from.
pub trait Source {
    /// The bytes that are still to come, where the source tells them.
    ghost left: { Self → Option (List ℕ) };

    /// How often it has failed, up to the greatest `u64`.
    ghost faults: { Self → ℕ };

    /// Puts the next bytes into the front of `into`, and answers how many. 0 for a nonempty `into` is the end of
    /// the input. At `Failed` no byte was taken.
    fn read(&mut self, into: &mut [u8]) -> Result<usize, Failed>
        ensures bound { ReadsAtMost result into.new }
        ensures bytes { ReadConsumes (left self.old) (left self.new) result into.new }
        ensures cause { HasCause (faults self.old) (faults self.new) result };
}

/// Where bytes go to.
pub trait Sink {
    /// The bytes that were written, where the sink tells them.
    ghost held: { Self → Option (List ℕ) };

    /// How often it has failed, up to the greatest `u64`.
    ghost faults: { Self → ℕ };

    /// Takes bytes from the front of `piece`, and answers how many: of a nonempty piece at least one. At `Failed`
    /// none was taken.
    fn write(&mut self, piece: &[u8]) -> Result<usize, Failed>
        ensures bound { WritesAtMost result piece.now }
        ensures some { 0 < length piece.now → IfOk result (λ n. 0 < n) }
        ensures bytes { WriteAppends (held self.old) (held self.new) result piece.now }
        ensures cause { HasCause (faults self.old) (faults self.new) result };
}
