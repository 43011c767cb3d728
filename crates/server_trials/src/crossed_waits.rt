//! A loop's waiting in memory, in the midst of which another loop is served. So the callers of the other come between
//! two rounds of the first, by one thread, and in every run at the same place.

ghost use Rattle.std.specs.Prelude.{◌≡◌};

use crate::seated::Seated;
use outside::{
    BytesSink, CountingWaker, Failed, Named, NoMemory, ScriptedDoor, ScriptedLink, ScriptedWait,
    WaitForLinks,
};
use std::alloc::Global;
use std::sync::Wait;

/// A loop that is served once: its seat in the hall, its callers, and what it writes.
#[derive(Drop)]
pub(crate) struct OtherLoop<'a> {
    alloc: Global,
    seated: Seated<'a>,
    door: ScriptedDoor,
    pub(crate) wait: ScriptedWait,
    pub(crate) sink: BytesSink,
    /// The status with which it ended, once it was served.
    pub(crate) status: Option<u8>,
}

impl<'a> OtherLoop<'a> {
    pub(crate) fn new(
        alloc: Global,
        seated: Seated<'a>,
        door: ScriptedDoor,
        wait: ScriptedWait,
        sink: BytesSink,
    ) -> OtherLoop<'a> {
        OtherLoop {
            alloc,
            seated,
            door,
            wait,
            sink,
            status: None,
        }
    }

    fn serve<R: Wait>(&mut self, rt: &R) {
        let alloc = self.alloc;
        let status = self
            .seated
            .serve(rt, alloc, &mut self.sink, &mut self.door, &mut self.wait);
        self.status = Some(status);
    }
}

/// One that waits in memory for a loop, and serves another loop in one of its waits.
#[derive(Drop)]
pub(crate) struct CrossedWait<'a, R: Wait> {
    rt: &'a R,
    own: ScriptedWait,
    // So many waits come before the one in which the other loop is served.
    before: u32,
    /// The other loop.
    pub(crate) other: OtherLoop<'a>,
}

impl<'a, R: Wait> CrossedWait<'a, R> {
    /// It waits as `own` does; behind so many waits it serves the other loop first.
    pub(crate) fn new(
        rt: &'a R,
        own: ScriptedWait,
        before: u32,
        other: OtherLoop<'a>,
    ) -> CrossedWait<'a, R> {
        CrossedWait {
            rt,
            own,
            before,
            other,
        }
    }

    /// The links of its loop that were shut, in that order.
    pub(crate) fn shut_links(&self) -> &[ScriptedLink] {
        self.own.shut_links()
    }

    // Serves the other loop, where its time has come and it was not served yet.
    fn serve_other(&mut self)
        ensures { self.new.own ≡ self.old.own }
    {
        if self.before > 0 {
            self.before -= 1;
        } else if self.other.status.is_none() {
            let rt = self.rt;
            self.other.serve(rt);
        }
    }
}

impl<'a, R: Wait> WaitForLinks<ScriptedDoor> for CrossedWait<'a, R> {
    ghost use Rattle.outside.specs.WaitScripts.{waited};

    type Waker = CountingWaker;

    ghost shows = { λ w. waited w.own };

    fn watch_door(&mut self, door: &mut ScriptedDoor) -> Result<(), Failed> {
        self.own.watch_door(door)
    }

    fn watch(&mut self, link: &mut ScriptedLink, token: u32) -> Result<(), Failed> {
        self.own.watch(link, token)
    }

    fn watch_end(&mut self) -> Result<(), Failed> {
        self.own.watch_end()
    }

    fn wait(&mut self, millis: u32) -> Result<usize, Failed> {
        self.serve_other();
        self.own.wait(millis)
    }

    fn is_over(&self) -> bool {
        self.own.is_over()
    }

    fn named(&self, nth: usize) -> Option<Named> {
        self.own.named(nth)
    }

    fn waker(&self) -> Result<CountingWaker, NoMemory> {
        self.own.waker()
    }

    fn shut(&mut self, link: ScriptedLink) -> Result<(), NoMemory> {
        self.own.shut(link)
    }
}
