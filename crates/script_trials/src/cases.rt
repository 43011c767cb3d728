//! A case: what is asked for, over what, and what has to come of it.

use crate::bent_sides::Bend;
use crate::builders::Builder;
use crate::faults::Fault;
use crate::looks::Look;
use crate::stream_faults::Stream;
use byte_text::Text;
use outside::{CallerScript, DoorScript, Named, Side, Visit};
use std::alloc::Global;
use ws_front::Listening;

/// How a case is played.
#[derive(Clone, Copy, PartialEq, Eq)]
pub(crate) enum Play {
    /// The program's one call is asked for what the words say.
    Top,
    /// The disk is opened, and its world is counted.
    Opening,
    /// A core over the disk plays the script, and a crash ends it at each moment.
    Crashes,
    /// A core over the disk plays the script, and the disk fails at each call in turn.
    DiskFaults,
    /// The program's one call plays the script, and the disk fails at each call in turn.
    ReplayFaults,
    /// The program's one call plays the script, and each call of a stream fails in turn.
    StreamFaults(Stream),
    /// The program's one call serves the callers, and the disk fails at each call in turn.
    ServeFaults,
    /// The program's one call serves callers who come over WebSockets.
    Web,
    /// The program's one call is asked for what the words say, over a side that is bent at each place in turn.
    Bent(Side, Bend),
    /// The disk is opened, fails at each call of the opening in turn, and is crashed at each moment of it.
    Upgrade,
    /// A core of an empty world plays the script, and the nodes that it visits are counted.
    Visits,
    /// A core of an empty world is driven with the workload, and the nodes that it visits are counted.
    Drive,
    /// A core over the disk is asked for the workload, which stands in its log then.
    Workload,
}

/// Over which disk a case is played.
#[derive(Clone, Copy, PartialEq, Eq)]
pub(crate) enum Over {
    /// One of the sides that the case tells.
    Fresh,
    /// The one that the case before left.
    Again,
    /// What a crash at this moment may leave of that, by this choice.
    Crash(u64, u64),
}

/// Which calls fail.
pub(crate) struct Fails {
    pub(crate) disk: Vec<u64>,
    pub(crate) source: Vec<u64>,
    pub(crate) sink: Vec<u64>,
}

impl Drop for Fails {
    fn drop(self) {
        let Fails {
            disk: _,
            source: _,
            sink: _,
        } = self;
    }
}

/// A case.
pub(crate) struct Case {
    pub(crate) alloc: Global,
    pub(crate) name: Text,
    pub(crate) play: Play,
    /// What is asked for, where that is said.
    pub(crate) words: Option<Text>,
    pub(crate) script: Text,
    /// What is printed.
    pub(crate) output: Text,
    pub(crate) status: Text,
    /// At what moment sessions ask.
    pub(crate) moment: Text,
    pub(crate) over: Over,
    pub(crate) fails: Fails,
    pub(crate) builder: Builder,
    /// What stands on the sides at first.
    pub(crate) a: Text,
    pub(crate) b: Text,
    /// What happens at the door.
    pub(crate) door: DoorScript,
    /// What comes over the WebSocket of each caller.
    pub(crate) talks: Vec<Vec<Listening>>,
    /// Whom each wait names, up to the end of the list; behind it all who are watched.
    pub(crate) waits: Vec<Vec<Named>>,
    /// What each caller is written; over WebSockets nothing, and behind that each message.
    pub(crate) told: Vec<Text>,
    /// Whose link is shut last, where that is said.
    pub(crate) last: Option<u64>,
    /// What is looked at behind all, and what has to be seen.
    pub(crate) looks: Vec<(Look, Text)>,
    /// Whether a line of the case was none.
    pub(crate) is_faulty: bool,
}

impl Drop for Case {
    fn drop(self) {
        let Case {
            alloc: _,
            name: _,
            play: _,
            words: _,
            script: _,
            output: _,
            status: _,
            moment: _,
            over: _,
            fails: _,
            builder: _,
            a: _,
            b: _,
            door: _,
            talks: _,
            waits: _,
            told: _,
            last: _,
            looks: _,
            is_faulty: _,
        } = self;
    }
}

fn no_fails(alloc: Global) -> Fails {
    Fails {
        disk: Vec::new(alloc),
        source: Vec::new(alloc),
        sink: Vec::new(alloc),
    }
}

// The text, where it is one of characters.
fn line_of(text: &Text) -> Result<&str, Fault> {
    match str::from_utf8(text.bytes()) {
        Ok(line) => Ok(line),
        Err(_) => Err(Fault::Line),
    }
}

impl Case {
    /// A case that has this name, and of which nothing else is said so far.
    pub(crate) fn new(alloc: Global, name: Text) -> Case {
        Case {
            alloc,
            name,
            play: Play::Top,
            words: None,
            script: Text::new(alloc),
            output: Text::new(alloc),
            status: Text::new(alloc),
            moment: Text::new(alloc),
            over: Over::Fresh,
            fails: no_fails(alloc),
            builder: Builder::new(alloc),
            a: Text::new(alloc),
            b: Text::new(alloc),
            door: DoorScript {
                visits: Vec::new(alloc),
                stays: false,
                opens: true,
            },
            talks: Vec::new(alloc),
            waits: Vec::new(alloc),
            told: Vec::new(alloc),
            last: None,
            looks: Vec::new(alloc),
            is_faulty: false,
        }
    }

    /// The lines of the script.
    pub(crate) fn lines(&self) -> Result<&str, Fault> {
        line_of(&self.script)
    }

    /// The line of what is asked for, which has to be said.
    pub(crate) fn asked(&self) -> Result<&str, Fault> {
        match &self.words {
            Some(words) => line_of(words),
            None => Err(Fault::Line),
        }
    }

    /// The caller that was heard of last.
    pub(crate) fn caller(&mut self) -> Result<&mut CallerScript, Fault> {
        match self.door.visits.last_mut() {
            Some(Visit::Comes(caller)) => Ok(caller),
            _ => Err(Fault::Line),
        }
    }

    /// What stands on a side at first.
    pub(crate) fn side(&self, side: Side) -> &[u8] {
        match side {
            Side::A => self.a.bytes(),
            Side::B => self.b.bytes(),
        }
    }
}
