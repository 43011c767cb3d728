//! Why a line of a script is not done.

ghost use Rattle.std.specs.Prelude.{◌≡◌};
ghost use Rattle.replay_run.specs.Undone.{halt_at};

use byte_text::NoMemory;
use journal::OpenFault;
use outside::Side;

/// Why a line is not done.
#[derive(Clone, Copy, Debug, PartialEq, Eq)]
pub enum Halt {
    /// The log has come to its greatest length.
    Spent,
    /// The disk failed.
    DiskFault,
    /// The disk was opened again, and a side of it is damaged at a place.
    Damaged(Side, u64),
    Memory,
}

impl From<NoMemory> for Halt {
    ghost use Rattle.std.specs.Prelude.{◌≡◌};
    ghost use Rattle.replay_run.specs.declared.halts.Halt.{Halt};

    ghost from_gives = { λ _ f. f ≡ Halt.Memory };

    fn from(_fault: NoMemory) -> Halt {
        Halt::Memory
    }
}

/// Why a script is not played on where its disk is not opened.
pub fn halt_of(why: OpenFault) -> Halt
    ensures { result ≡ halt_at why }
{
    match why {
        OpenFault::Damaged { side, place } => Halt::Damaged(side, place),
        OpenFault::Disk => Halt::DiskFault,
        OpenFault::Memory => Halt::Memory,
    }
}
