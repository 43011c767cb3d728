//! A door in memory that lets in WebSockets, and one that waits for them.

ghost use Rattle.std.specs.Prelude.{◌≡◌, ◌≤◌};
ghost use Rattle.outside.specs.Causes.{Rose};

use outside::{Caller, Failed, Named, NoMemory, OpenPort, Port, ReadyDoor, WaitForLinks, Wake};
use std::alloc::Global;
use std::collections::VecDeque;
use ws_front::{ListTalk, Listening, Saying, WebLink};

/// What comes over a WebSocket, and how what is said in it goes.
#[derive(Drop)]
pub(crate) struct TalkScript {
    pub(crate) listenings: Vec<Listening>,
    pub(crate) sayings: Vec<Saying>,
}

/// A door at which callers come over WebSockets, at each look one who does so, and behind them none will.
#[derive(Drop)]
pub(crate) struct WebDoor {
    alloc: Global,
    scripts: VecDeque<TalkScript>,
    opened: Option<OpenPort>,
    links: u64,
    ends: u64,
    faults: u64,
}

impl WebDoor {
    /// A door that is not open yet.
    pub(crate) fn new(alloc: Global, scripts: Vec<TalkScript>) -> WebDoor {
        WebDoor {
            alloc,
            scripts: VecDeque::from(scripts),
            opened: None,
            links: 0,
            ends: 0,
            faults: 0,
        }
    }
}

impl ReadyDoor for WebDoor {
    ghost use Rattle.outside.specs.Doors.{DoorState, Opens, Accepts, opened_at};

    type Link = WebLink<ListTalk>;

    ghost shows = { λ door. record {
      opened = door.opened;
      links = door.links;
      ends = door.ends;
      faults = door.faults;
    } };

    /// It fails where no memory is left for the address.
    fn listen(&mut self, port: &Port<'_>) -> Result<(), Failed> {
        let Ok(opened) = OpenPort::of(self.alloc, port) else {
            self.faults = self.faults.saturating_add(1);
            return Err(Failed);
        };
        self.opened = Some(opened);
        Ok(())
    }

    fn accept(&mut self) -> Result<Caller<WebLink<ListTalk>>, Failed> {
        let Some(script) = self.scripts.pop_front() else {
            self.ends = self.ends.saturating_add(1);
            return Ok(Caller::Over);
        };
        let talk = ListTalk::new(self.alloc, script.listenings, script.sayings);
        let link = WebLink::new(self.alloc, self.links, talk);
        self.links = self.links.saturating_add(1);
        Ok(Caller::Came(link))
    }
}

/// It wakes nobody, as nobody waits.
#[derive(Drop)]
pub(crate) struct NoWaker;

impl Wake for NoWaker {
    fn wake(&self) {}
}

/// One that waits for nobody, and names all that are watched each time.
#[derive(Drop)]
pub(crate) struct WebWait {
    watched: Vec<Named>,
    shut: Vec<WebLink<ListTalk>>,
    faults: u64,
}

impl WebWait {
    /// One that watches nobody yet.
    pub(crate) fn new(alloc: Global) -> WebWait {
        WebWait {
            watched: Vec::new(alloc),
            shut: Vec::new(alloc),
            faults: 0,
        }
    }

    /// The links that were shut, in that order.
    pub(crate) fn shut_links(&self) -> &[WebLink<ListTalk>] {
        &self.shut
    }

    // Counts a failure.
    fn fail(&mut self) -> Failed
        ensures shut { self.new.shut ≡ self.old.shut }
        ensures rose { Rose self.old.faults self.new.faults }
        ensures later { self.old.faults ≤ self.new.faults }
    {
        self.faults = self.faults.saturating_add(1);
        Failed
    }
}

impl WaitForLinks<WebDoor> for WebWait {
    ghost use Rattle.std.specs.Prelude.{◌≡◌, map, Some, false};
    ghost use Rattle.outside.specs.Waits.{WaitState, Tries, Waits, Shuts};
    ghost use Rattle.ws_front.specs.WebLinks.{link_of};

    type Waker = NoWaker;

    ghost shows = { λ w. record { shut = Some (map link_of w.shut.items); over = false; faults = w.faults } };

    fn watch_door(&mut self, door: &mut WebDoor) -> Result<(), Failed> {
        if self.watched.push(Named::Door).is_err() {
            return Err(self.fail());
        }
        Ok(())
    }

    fn watch(&mut self, link: &mut WebLink<ListTalk>, token: u32) -> Result<(), Failed> {
        if self.watched.push(Named::Link(token)).is_err() {
            return Err(self.fail());
        }
        Ok(())
    }

    /// No end is asked for.
    fn watch_end(&mut self) -> Result<(), Failed> {
        Ok(())
    }

    fn wait(&mut self, millis: u32) -> Result<usize, Failed> {
        Ok(self.watched.len())
    }

    fn is_over(&self) -> bool {
        false
    }

    fn named(&self, nth: usize) -> Option<Named> {
        self.watched.get(nth).copied()
    }

    fn waker(&self) -> Result<NoWaker, NoMemory> {
        Ok(NoWaker)
    }

    fn shut(&mut self, link: WebLink<ListTalk>) -> Result<(), NoMemory> {
        self.shut.push(link)?;
        Ok(())
    }
}
