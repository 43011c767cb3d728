//! Where callers of a door for WebSockets wait until they are let in.

use crate::guests::{Guest, Look, Step};
use crate::lines::Line;
use crate::listeners::{Found, MOST_LOST, NoListener, look};
use mio::net::{TcpListener, TcpStream};
use mio::unix::SourceFd;
use mio::{Interest, Registry, Token};
use std::alloc::Global;
use std::collections::VecDeque;
use std::io;
use std::os::fd::AsRawFd;

/// The most callers who wait: where there are so many, one who came is let in only in the place of one who has long been
/// silent.
const MOST_GUESTS: usize = 1_024;

/// The token of a door, and of those who are not let in by it yet.
pub(crate) const DOOR: Token = Token(usize::MAX);

/// Callers who are not let in yet. Each look goes over all of them once, be it in one call or in several.
#[derive(Drop)]
pub(crate) struct Lobby {
    guests: VecDeque<Guest>,
    // So many are still to be looked at before the door is looked at again.
    left: usize,
    registry: Option<Registry>,
}

impl Lobby {
    /// Nobody.
    pub(crate) fn new(alloc: Global) -> Lobby {
        Lobby {
            guests: VecDeque::new(alloc),
            left: 0,
            registry: None,
        }
    }

    /// Callers are watched from now on.
    pub(crate) fn watch_by(&mut self, registry: Registry) {
        self.registry = Some(registry);
    }

    // Has a stream watched, where there is one who watches.
    fn watch(&self, stream: &TcpStream) -> io::Result<()> {
        match &self.registry {
            Some(registry) => {
                let both = Interest::READABLE.add(Interest::WRITABLE);
                registry.register(&mut SourceFd(&stream.as_raw_fd()), DOOR, both)
            }
            None => Ok(()),
        }
    }

    // Ends that, so that who is let in can be watched as a link.
    fn unwatch(&self, stream: &TcpStream) {
        if let Some(registry) = &self.registry {
            let _ = registry.deregister(&mut SourceFd(&stream.as_raw_fd()));
        }
    }

    // Lets go the one who has waited longest, where that was long enough.
    fn make_room(&mut self, at: &Look<'_>) -> bool {
        match self.guests.front() {
            Some(guest) if guest.may_go(at) => self.guests.pop_front().is_some(),
            _ => false,
        }
    }

    // Looks for callers as long as some come and there is room.
    fn take_in(&mut self, listener: &TcpListener, at: &Look<'_>) -> Result<(), NoListener> {
        for _ in 0..MOST_LOST {
            if self.guests.len() >= MOST_GUESTS && !self.make_room(at) {
                return Ok(());
            }
            match look(listener) {
                Found::Came(stream) => {
                    // One who can't be watched, or for whom there is no memory, is lost.
                    if self.watch(&stream).is_ok() {
                        let _ = self.guests.push_back(Guest::new(stream, at.now));
                    }
                }
                Found::Lost => {}
                Found::Nobody => return Ok(()),
                Found::NoListener => return Err(NoListener),
            }
        }
        Ok(())
    }

    // Looks at the one who has waited longest since he was looked at. Who is let in.
    fn step(&mut self, at: &Look<'_>) -> Option<Line> {
        match self.guests.pop_front()?.step(at) {
            Step::Stays(guest) => {
                let _ = self.guests.push_back(guest);
                None
            }
            Step::Gone => None,
            Step::Came(line) => {
                self.unwatch(line.stream());
                Some(line)
            }
        }
    }

    /// Looks for one who is let in.
    pub(crate) fn look(
        &mut self,
        listener: &TcpListener,
        at: &Look<'_>,
    ) -> Result<Option<Line>, NoListener> {
        if self.left == 0 {
            self.take_in(listener, at)?;
            self.left = self.guests.len();
        }
        for _ in 0..self.left {
            self.left = self.left.saturating_sub(1);
            if let Some(line) = self.step(at) {
                return Ok(Some(line));
            }
        }
        Ok(None)
    }
}
