//! A link over TCP whose calls never wait: a plain stream, or a WebSocket over one.

ghost use Rattle.std.specs.Prelude.{◌≡◌, ◌≤◌, None};
ghost use Rattle.outside.specs.Causes.{Rose};

use crate::lines::Line;
use outside::{Failed, Got, ReadyLink, Sent};

/// A link to a caller over TCP. When it is dropped it ends both ways.
pub struct PollLink {
    pub(crate) line: Line,
    pub(crate) caller: u64,
    pub(crate) faults: u64,
}

impl PollLink {
    // Counts a failure.
    fn fail(&mut self) -> Failed
        ensures caller { self.new.caller ≡ self.old.caller }
        ensures rose { Rose self.old.faults self.new.faults }
        ensures later { self.old.faults ≤ self.new.faults }
    {
        self.faults = self.faults.saturating_add(1);
        Failed
    }
}

impl ReadyLink for PollLink {
    ghost use Rattle.std.specs.Prelude.{◌<◌, length};
    ghost use Rattle.outside.specs.Links.{LinkState, GotWithin, SentWithin, Reads, Writes};

    ghost shows = { λ link. record { caller = link.caller; left = None; held = None; faults = link.faults } };

    fn read(&mut self, into: &mut [u8]) -> Result<Got, Failed> {
        match self.line.read(into) {
            Ok(got) => Ok(got),
            Err(Failed) => Err(self.fail()),
        }
    }

    fn write(&mut self, piece: &[u8]) -> Result<Sent, Failed> {
        match self.line.write(piece) {
            Ok(sent) => Ok(sent),
            Err(Failed) => Err(self.fail()),
        }
    }
}

impl Drop for PollLink {
    fn drop(self) {
        let PollLink {
            line,
            caller: _,
            faults: _,
        } = self;
        line.end();
    }
}
