//! One that waits for sockets by the system's readiness, and for the end of standard input.
//!
//! An edge is reported once: a link or a door that was named is to be used until it answers Later.

ghost use Rattle.std.specs.Prelude.{◌≡◌, ◌≤◌, None, false, IfOk};
ghost use Rattle.outside.specs.Causes.{Rose};

use crate::doors::PollDoor;
use crate::inputs::{Input, look_at_input, watch_input};
use crate::links::PollLink;
use crate::lobbies::DOOR;
use mio::unix::SourceFd;
use mio::{Events, Interest, Poll, Token, Waker};
use outside::{Failed, Named, NoMemory, WaitForLinks, Wake};
use std::alloc::Global;
use std::io::{self, ErrorKind};
use std::marker::PhantomData;
use std::net::{self, Net};
use std::os::fd::AsRawFd;
use std::rt;
use std::sync::Arc;
use std::time::Duration;

/// The waker's token, and that of standard input. The door has the one behind them, and a link's is its number.
const WAKER: Token = Token(usize::MAX - 1);

const INPUT: Token = Token(usize::MAX - 2);

/// The most that one wait names. The next wait names those that it left out.
const MOST_NAMED: usize = 1_024;

/// Ends the waits of one that waits for sockets.
#[derive(Drop)]
pub struct PollWaker {
    waker: Arc<Waker, Global>,
}

impl Wake for PollWaker {
    fn wake(&self) {
        // It fails where the system is out of memory; who waits then looks again at the end of its time.
        let _ = self.waker.wake();
    }
}

/// One that waits for sockets by the system's readiness. The end of standard input asks for the end of the program,
/// where that is watched: what comes there before it is read and thrown away.
#[derive(Drop)]
pub struct PollWait<R: Net + Copy + Drop> {
    // It watches doors of this runtime.
    rt: PhantomData<R>,
    poll: Poll,
    events: Events<Global>,
    waker: Arc<Waker, Global>,
    // Whether standard input is one that can't be waited for, which counts as its end.
    is_input_still: bool,
    // Whether a wait has found the end of standard input.
    pub(crate) over: bool,
    pub(crate) faults: u64,
}

impl<R: Net + Copy + Drop> PollWait<R> {
    /// It watches nobody yet.
    pub fn new(rt: R, alloc: Global) -> io::Result<PollWait<R>>
        ensures faults { IfOk result (λ wait. wait.faults ≡ 0) }
        ensures over { IfOk result (λ wait. wait.over ≡ false) }
    {
        let Ok(events) = Events::with_capacity(alloc, MOST_NAMED) else {
            return Err(io::Error::from(ErrorKind::OutOfMemory));
        };
        let poll = Poll::new(&rt)?;
        let waker = Waker::new(poll.registry(), WAKER)?;
        let waker = Arc::new(alloc, waker)?;
        Ok(PollWait {
            rt: PhantomData,
            poll,
            events,
            waker,
            is_input_still: false,
            over: false,
            faults: 0,
        })
    }

    // Whether standard input is at its end, as the last wait found it.
    fn finds_end(&self) -> bool {
        self.is_input_still
            || (self.events.iter().any(|event| event.token() == INPUT)
                && look_at_input(self.poll.registry(), INPUT))
    }

    // Counts a failure.
    fn fail(&mut self) -> Failed
        ensures over { self.new.over ≡ self.old.over }
        ensures rose { Rose self.old.faults self.new.faults }
        ensures later { self.old.faults ≤ self.new.faults }
    {
        self.faults = self.faults.saturating_add(1);
        Failed
    }
}

// Who bears a token. Bytes on standard input are nobody's.
fn named_by(token: Token, over: bool) -> Named {
    let Token(number) = token;
    match u32::try_from(number) {
        Ok(number) => Named::Link(number),
        Err(_) if token == DOOR => Named::Door,
        Err(_) if token == INPUT && over => Named::End,
        Err(_) => Named::Waker,
    }
}

impl<R: Net<Stream = net::TcpStream> + rt::Clock + Copy + Drop> WaitForLinks<PollDoor<R>>
    for PollWait<R> {
    ghost use Rattle.std.specs.Prelude.{◌≡◌};
    ghost use Rattle.outside.specs.Waits.{WaitState, Tries, Waits, Shuts};

    type Waker = PollWaker;

    ghost shows = { λ wait. record { shut = None; over = wait.over; faults = wait.faults } };

    /// The door has those watched itself whom it has not let in yet: one of them names the door.
    fn watch_door(&mut self, door: &mut PollDoor<R>) -> Result<(), Failed> {
        let Some(listener) = &mut door.listener else {
            return Err(self.fail());
        };
        let registry = self.poll.registry();
        let registered = registry.register(listener, DOOR, Interest::READABLE);
        match (registered, registry.try_clone()) {
            (Ok(()), Ok(registry)) => {
                door.lobby.watch_by(registry);
                Ok(())
            }
            _ => Err(self.fail()),
        }
    }

    fn watch(&mut self, link: &mut PollLink, token: u32) -> Result<(), Failed> {
        let both = Interest::READABLE.add(Interest::WRITABLE);
        let stream = link.line.stream().as_raw_fd();
        let registered = self
            .poll
            .registry()
            .register(&mut SourceFd(&stream), Token(token as usize), both);
        match registered {
            Ok(()) => Ok(()),
            Err(_) => Err(self.fail()),
        }
    }

    /// An input that can't be waited for is found at its end by the next wait. It fails where the system is out of
    /// memory.
    fn watch_end(&mut self) -> Result<(), Failed> {
        match watch_input(self.poll.registry(), INPUT) {
            Input::Waits => Ok(()),
            Input::Still => {
                self.is_input_still = true;
                Ok(())
            }
            Input::NoMeans => Err(self.fail()),
        }
    }

    /// A signal ends a wait early.
    fn wait(&mut self, millis: u32) -> Result<usize, Failed> {
        // An end that no event tells is not waited for.
        let millis = if self.is_input_still { 0 } else { millis };
        let limit = Duration::from_millis(u64::from(millis));
        match self.poll.poll(&mut self.events, Some(limit)) {
            Ok(()) => {
                self.over = self.over || self.finds_end();
                self.is_input_still = false;
                Ok(self.events.iter().len())
            }
            Err(_) => Err(self.fail()),
        }
    }

    fn is_over(&self) -> bool {
        self.over
    }

    fn named(&self, nth: usize) -> Option<Named> {
        match self.events.iter().nth(nth) {
            Some(event) => Some(named_by(event.token(), self.over)),
            None => None,
        }
    }

    fn waker(&self) -> Result<PollWaker, NoMemory> {
        Ok(PollWaker {
            waker: Arc::try_clone(&self.waker)?,
        })
    }

    /// A socket that is closed leaves the set of those that are watched.
    fn shut(&mut self, link: PollLink) -> Result<(), NoMemory> {
        drop(link);
        Ok(())
    }
}
