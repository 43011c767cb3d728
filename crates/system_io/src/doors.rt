//! Where callers come from over TCP, without waiting for them.
//!
//! A caller who can't be accepted is no failure of the door: the system answers an accept by errors of that caller, or
//! by want of descriptors, which say nothing about the listener. The door then looks for the next one, since a caller
//! who waits already is not reported again. Where the system has no descriptor or memory it answers Later, and is to be
//! asked again after a while, though nobody is reported.
//!
//! At a door for plain links alone each caller is let in at once. At one for WebSockets a caller waits in the door until
//! it is known which kind of link it wants, and whom the door answers itself is never let in. A door for links that it
//! opens itself lets nobody in and listens nowhere: each look calls at the address, waits for the answer, and fails
//! where none comes soon.

ghost use Rattle.std.specs.Prelude.{◌≡◌, ◌≤◌, None};
ghost use Rattle.outside.specs.Causes.{Rose};

use crate::dials::{dial, look_up};
use crate::guests::Look;
use crate::lines::Line;
use crate::links::PollLink;
use crate::listeners::{NoListener, listener_at, look_past_lost};
use crate::lobbies::Lobby;
use mio::net::TcpListener;
use outside::{Caller, Failed, Kinds, OpenPort, Port, ReadyDoor};
use std::alloc::Global;
use std::net::{self, Net};
use std::time::Instant;
use std::{io, rt};

/// The callers at a TCP address, or the links that it opens there itself. It fails where it can't listen, where its
/// listener is none, and where nobody answers whom it calls; that a caller went away, or that the system has no
/// descriptor or memory for one, is no failure of the door. It tells no end.
#[derive(Drop)]
pub struct PollDoor<R: Net<Stream = net::TcpStream> + rt::Clock + Copy + Drop> {
    rt: R,
    alloc: Global,
    pub(crate) listener: Option<TcpListener>,
    pub(crate) lobby: Lobby,
    pub(crate) opened: Option<OpenPort>,
    pub(crate) links: u64,
    pub(crate) faults: u64,
}

// Listens where a port is for callers. One for links that the door opens itself has to have an address only.
fn listener_for<R: Net>(rt: &R, port: &Port<'_>) -> io::Result<Option<TcpListener>> {
    if port.kinds == Kinds::Dialed {
        look_up(rt, port.addr)?;
        return Ok(None);
    }
    Ok(Some(listener_at(rt, port.addr)?))
}

impl<R: Net<Stream = net::TcpStream> + rt::Clock + Copy + Drop> PollDoor<R> {
    /// A door that is not open yet.
    pub fn new(rt: R, alloc: Global) -> PollDoor<R>
        ensures opened { result.opened ≡ None }
        ensures links { result.links ≡ 0 }
        ensures faults { result.faults ≡ 0 }
    {
        PollDoor {
            rt,
            alloc,
            listener: None,
            lobby: Lobby::new(alloc),
            opened: None,
            links: 0,
            faults: 0,
        }
    }

    // Counts a failure.
    fn fail(&mut self) -> Failed
        ensures opened { self.new.opened ≡ self.old.opened }
        ensures links { self.new.links ≡ self.old.links }
        ensures rose { Rose self.old.faults self.new.faults }
        ensures later { self.old.faults ≤ self.new.faults }
    {
        self.faults = self.faults.saturating_add(1);
        Failed
    }

    // Looks for one who is let in, or calls.
    fn look(&mut self) -> Result<Option<Line>, NoListener>
        ensures opened { self.new.opened ≡ self.old.opened }
        ensures links { self.new.links ≡ self.old.links }
        ensures faults { self.new.faults ≡ self.old.faults }
    {
        let Some(port) = &self.opened else {
            return Err(NoListener);
        };
        if port.kinds == Kinds::Dialed {
            return Ok(Some(Line::Plain(dial(&self.rt, port.addr.as_slice())?)));
        }
        let Some(listener) = &self.listener else {
            return Err(NoListener);
        };
        if port.kinds == Kinds::Plain {
            return Ok(look_past_lost(listener)?.map(Line::Plain));
        }
        let at = Look {
            alloc: self.alloc,
            kinds: port.kinds,
            own: port.addr.as_slice(),
            named: port.origins.as_slice(),
            now: Instant::now(&self.rt).ok(),
        };
        self.lobby.look(listener, &at)
    }
}

impl<R: Net<Stream = net::TcpStream> + rt::Clock + Copy + Drop> ReadyDoor for PollDoor<R> {
    ghost use Rattle.outside.specs.Doors.{DoorState, Opens, Accepts, opened_at};

    type Link = PollLink;

    ghost shows = { λ door. record {
      opened = door.opened;
      links = door.links;
      ends = 0;
      faults = door.faults;
    } };

    /// Where no memory is left for the address, it fails too.
    fn listen(&mut self, port: &Port<'_>) -> Result<(), Failed> {
        let Ok(opened) = OpenPort::of(self.alloc, port) else {
            return Err(self.fail());
        };
        match listener_for(&self.rt, port) {
            Ok(listener) => {
                self.listener = listener;
                self.opened = Some(opened);
                Ok(())
            }
            Err(_) => Err(self.fail()),
        }
    }

    fn accept(&mut self) -> Result<Caller<PollLink>, Failed> {
        match self.look() {
            Ok(Some(line)) => {
                let caller = self.links;
                self.links = self.links.saturating_add(1);
                Ok(Caller::Came(PollLink {
                    line,
                    caller,
                    faults: 0,
                }))
            }
            Ok(None) => Ok(Caller::Later),
            Err(NoListener) => Err(self.fail()),
        }
    }
}
