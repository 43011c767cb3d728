//! Where callers come from, without waiting for them.

ghost use Rattle.std.specs.Prelude.{◌≡◌, IfOk};
ghost use Rattle.outside.specs.Doors.{opened_at};

use crate::failures::Failed;
use crate::links::ReadyLink;
use memory::NoMemory;
use std::alloc::Global;
use std::marker::Model;

/// Which kinds of links a door gives out.
#[derive(Clone, Copy, Debug, PartialEq, Eq)]
pub enum Kinds {
    /// Links of callers, on which requests and frames stand one behind another.
    Plain,
    /// WebSockets, and requests for the server's own page.
    Web,
    /// Both.
    Both,
    /// Links to whoever listens at the address: nobody is let in, and the door itself calls there at each look.
    Dialed,
}

/// Where a door is opened, and for whom.
#[derive(Clone, Copy)]
pub struct Port<'a> {
    /// The address.
    pub addr: &'a str,
    /// The kinds of links that it gives out.
    pub kinds: Kinds,
    /// The origins (RFC 6454) of pages that may open a WebSocket beside the server's own page, a comma between two.
    pub origins: &'a str,
}

/// How a door was opened.
#[derive(Drop)]
pub struct OpenPort {
    /// The address.
    pub addr: Vec<u8>,
    /// The kinds of links that it gives out.
    pub kinds: Kinds,
    /// The origins, a comma between two.
    pub origins: Vec<u8>,
}

impl Model for OpenPort {
    ghost use Rattle.outside.specs.Doors.{OpenedAt};

    ghost Value = { OpenedAt };

    ghost view = { λ p. record { addr = p.addr.items; kinds = p.kinds; origins = p.origins.items } };
}

impl OpenPort {
    /// A copy of it.
    pub fn of(alloc: Global, port: &Port<'_>) -> Result<OpenPort, NoMemory>
        ensures { IfOk result (λ p. p ≡ opened_at port.now) }
    {
        Ok(OpenPort {
            addr: port.addr.as_bytes().to_vec(alloc)?,
            kinds: port.kinds,
            origins: port.origins.as_bytes().to_vec(alloc)?,
        })
    }
}

/// What a door answers to one who looks for a caller.
#[derive(Drop)]
pub enum Caller<K> {
    /// One came.
    Came(K),
    /// None yet. A door may answer so at any time, also where one waits whom it has no means to let in.
    Later,
    /// None will come.
    Over,
}

/// Where callers come from. No call waits for one.
pub trait ReadyDoor {
    ghost use Rattle.outside.specs.Doors.{DoorState, Opens, Accepts, opened_at};

    type Link: ReadyLink;

    /// What the door shows: how it was opened, and its callers, ends and failures, each up to the greatest `u64`.
    ghost shows: { Self → DoorState };

    /// Opens the door at an address, for these kinds of links and no others. One that calls there itself may answer Ok
    /// although nobody listens: its looks fail then.
    fn listen(&mut self, port: &Port<'_>) -> Result<(), Failed>
        ensures { Opens (shows self.old) (shows self.new) result (opened_at port.now) };

    /// Looks for a caller.
    fn accept(&mut self) -> Result<Caller<Self::Link>, Failed>
        ensures { Accepts Self.Link.shows (shows self.old) (shows self.new) result };
}
