//! One that waits until something may be ready.
//!
//! It promises nothing of whom it names: it may leave out one that is ready, name one that is not or is none, and name
//! one twice. So no clause of a loop hangs on it, but whoever it does not name again, as it named it before, may wait
//! for ever: what it names is to be used until it answers Later.

use crate::doors::ReadyDoor;
use crate::failures::Failed;
use memory::NoMemory;

/// Who may be ready.
#[derive(Clone, Copy, Debug, PartialEq, Eq)]
pub enum Named {
    /// The link that is watched under this number, to be read from or written to.
    Link(u32),
    /// The door.
    Door,
    /// Somebody called the waker.
    Waker,
    /// Whoever runs the program has asked for its end.
    End,
}

/// Ends the wait of another. It promises nothing.
pub trait Wake {
    /// Ends the wait that is under way, or else the next.
    fn wake(&self);
}

/// One that waits for the links of a door, and where they are shut.
pub trait WaitForLinks<D: ReadyDoor> {
    ghost use Rattle.std.specs.Prelude.{◌≡◌};
    ghost use Rattle.outside.specs.Waits.{WaitState, Tries, Waits, Shuts};

    type Waker: Wake;

    /// The links that were shut, where it tells them, whether an end was asked for, and its failures.
    ghost shows: { Self → WaitState };

    /// Names the door from now on, as long as it stands open.
    fn watch_door(&mut self, door: &mut D) -> Result<(), Failed>
        ensures door { D.shows door.new ≡ D.shows door.old }
        ensures tries { Tries (shows self.old) (shows self.new) result };

    /// Names the link by this number from now on, for reading and for writing, until it is shut. It is asked for once.
    fn watch(&mut self, link: &mut D::Link, token: u32) -> Result<(), Failed>
        ensures link { D.Link.shows link.new ≡ D.Link.shows link.old }
        ensures tries { Tries (shows self.old) (shows self.new) result };

    /// Learns from now on when whoever runs the program asks for its end.
    fn watch_end(&mut self) -> Result<(), Failed>
        ensures { Tries (shows self.old) (shows self.new) result };

    /// Waits until somebody is ready, at most so many milliseconds, and answers how many it names.
    fn wait(&mut self, millis: u32) -> Result<usize, Failed>
        ensures { Waits (shows self.old) (shows self.new) result };

    /// Whether whoever runs the program has asked for its end.
    fn is_over(&self) -> bool
        ensures { result ≡ (shows self.now).over };

    /// The nth that the last wait named, counted from 0; none where it named fewer.
    fn named(&self, nth: usize) -> Option<Named>;

    /// Another's means to end a wait.
    fn waker(&self) -> Result<Self::Waker, NoMemory>;

    /// Ends a link both ways, also where there is no memory to tell it.
    fn shut(&mut self, link: D::Link) -> Result<(), NoMemory>
        ensures { Shuts (shows self.old) (shows self.new) result (D.Link.shows link) };
}
