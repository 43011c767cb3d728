//! A node: what it has of the leader's log, and the world that it shows.

ghost use Rattle.std.specs.Prelude.{Err, ◌≡◌, ◌<◌, length, None, Some, IfNone, IfSome, IfOk, OnErr};
ghost use Rattle.world_data.specs.Worlds.{empty_world, object_at};
ghost use Rattle.repl_node.specs.Following.{IsHeard, IsNoPiece, IsPiece, IsRefused, first_node, first_place, is_next};
ghost use Rattle.repl_node.specs.Following.{next_ask, place};

use crate::log_worlds::{HearFault, LogWorld, folded};
use byte_text::{Name, Text};
use log_sides::FIRST_GATE;
use repl_stream::{Ask, Part};
use std::alloc::Global;
use std::marker::Model;
use std::mem;
use world_data::Object;

/// A place in the log of a leader: behind it stands what was not read yet.
#[derive(Clone, Copy, Debug, PartialEq, Eq)]
pub struct LogPlace {
    pub generation: u64,
    pub place: u64,
}

/// What came of a part.
#[derive(Clone, Copy, Debug, PartialEq, Eq)]
pub enum Heard {
    /// It does not go on with what the node has, which stays.
    Old,
    /// It was taken, and the log goes on behind it.
    More,
    /// It was taken, and the world of the log up to its end is published.
    Published,
}

/// What a follower has of the log that it reads, and the world that it published last.
///
/// Beside the published world it has a second one, which is folded on where a world is published and then takes the
/// other one's place: so what a part costs hangs on what is new, and a part that is refused, or for which memory wants,
/// leaves what is published as it was. The bytes of the log are kept until a later log begins: a second world that met
/// a fault is of no use, and the next one begins with them.
#[derive(Drop)]
pub struct Node {
    alloc: Global,
    // The generation of the log.
    generation: u64,
    // The place behind the bytes that it has.
    place: u64,
    // These bytes, from behind the header on.
    log: Text,
    // Up to where the published world goes.
    published: LogPlace,
    shown: LogWorld,
    second: Option<LogWorld>,
}

impl Model for Node {
    ghost use Rattle.std.specs.Prelude.{◌≡◌, ◌+◌, length};
    ghost use Rattle.repl_node.specs.Following.{Followed, IsShown, first_place};
    ghost use Rattle.repl_node.specs.LogWorlds.{AreFolded};

    ghost Value = { Followed };

    ghost view = { λ n. record {
      generation = n.generation;
      taken = n.log;
      published = n.published;
      world = n.shown.replay.world;
    } };

    ghost invariant = { λ n. (n.place ≡ first_place n.generation + length n.log)
        × IsShown n.generation n.log n.published n.shown.replay.world
        × AreFolded n.generation n.log n.published n.shown n.second };
}

impl Node {
    /// A node that has heard nothing: its world is empty. Its worlds and the bytes of a log take their memory from
    /// `alloc`.
    pub fn new(alloc: Global) -> Node
        ensures { result ≡ first_node }
    {
        Node {
            alloc,
            generation: 0,
            place: 0,
            log: Text::new(alloc),
            published: LogPlace {
                generation: 0,
                place: 0,
            },
            shown: LogWorld::new(alloc),
            second: None,
        }
    }

    /// What it asks for next.
    pub fn ask(&self) -> Ask
        ensures { result ≡ next_ask self.now }
    {
        Ask {
            generation: self.generation,
            from: self.place,
        }
    }

    /// Up to where the published world goes; generation 0 and place 0 before anything was published.
    pub fn published(&self) -> LogPlace
        ensures { result ≡ self.now.published }
    {
        self.published
    }

    /// How many objects the published world has.
    pub fn objects(&self) -> u64
        ensures { result ≡ length self.now.world.objects }
    {
        self.shown.world().objects() as u64
    }

    /// How many channels the published world has.
    pub fn channels(&self) -> u64
        ensures { result ≡ length self.now.world.channels }
    {
        self.shown.world().channels() as u64
    }

    /// The object of this key and this id in the published world.
    pub fn get(&self, key: &Name, id: &Name) -> Option<&Object>
        ensures none { IfNone result (object_at self.now.world key.now id.now ≡ None) }
        ensures some { IfSome result (λ o. object_at self.now.world key.now id.now ≡ Some o.now) }
    {
        self.shown.world().get(key, id)
    }

    /// Takes a part with its bytes, if it goes on with what the node has or begins a later log. Where it reaches the
    /// end of the log, the world of the log is published. After a fault the node is as before.
    pub fn hear(&mut self, part: &Part, bytes: &[u8]) -> Result<Heard, HearFault>
        ensures heard { IfOk result (IsHeard self.old part.now bytes.now self.new) }
        ensures fault { OnErr result (self.new ≡ self.old) }
        ensures refused { result ≡ Err HearFault.NotRecords → IsRefused self.old part.now bytes.now }
    {
        if !self.is_next(part) {
            return Ok(Heard::Old);
        }
        let Some(reached) = reached_by(part, bytes) else {
            return Err(HearFault::NotRecords);
        };
        if part.generation == self.generation {
            self.go_on(part, bytes, reached)
        } else {
            self.begin(part, bytes, reached)
        }
    }

    // Whether a part goes on with the bytes that it has, or is the first one of a later log.
    fn is_next(&self, part: &Part) -> bool
        ensures { result ≡ is_next self.now part.now }
    {
        if part.generation == self.generation {
            part.from == self.place
        } else {
            part.generation > self.generation && part.from == FIRST_GATE
        }
    }

    // Goes on with the log that it reads.
    fn go_on(&mut self, part: &Part, bytes: &[u8], reached: u64) -> Result<Heard, HearFault>
        requires generation { part.now.generation ≡ self.old.generation }
        requires from { part.now.from ≡ place self.old }
        requires piece { IsPiece part.now bytes.now reached }
        ensures heard { IfOk result (IsHeard self.old part.now bytes.now self.new) }
        ensures fault { OnErr result (self.new ≡ self.old) }
        ensures refused { result ≡ Err HearFault.NotRecords → IsRefused self.old part.now bytes.now }
    {
        let end = LogPlace {
            generation: part.generation,
            place: part.end,
        };
        // At rest there is nothing to read.
        if reached == part.end && self.published == end {
            return Ok(Heard::Published);
        }
        let before = self.log.len();
        self.log.push(bytes)?;
        if reached < part.end {
            self.place = reached;
            return Ok(Heard::More);
        }
        let second = self.second.take();
        match folded(self.alloc, second, self.log.bytes()) {
            Ok(world) => {
                let last = mem::replace(&mut self.shown, world);
                // That of an earlier log is of no use.
                if self.published.generation == part.generation {
                    self.second = Some(last);
                }
                self.place = reached;
                self.published = end;
                Ok(Heard::Published)
            }
            Err(fault) => {
                self.log.truncate(before);
                Err(fault)
            }
        }
    }

    // Begins to read a later log.
    fn begin(&mut self, part: &Part, bytes: &[u8], reached: u64) -> Result<Heard, HearFault>
        requires generation { self.old.generation < part.now.generation }
        requires from { part.now.from ≡ 16 }
        requires piece { IsPiece part.now bytes.now reached }
        ensures heard { IfOk result (IsHeard self.old part.now bytes.now self.new) }
        ensures fault { OnErr result (self.new ≡ self.old) }
        ensures refused { result ≡ Err HearFault.NotRecords → IsRefused self.old part.now bytes.now }
    {
        // The second world is of no use to it, and gives its memory back first.
        self.second = None;
        let log = Text::of(self.alloc, bytes)?;
        if reached < part.end {
            self.generation = part.generation;
            self.place = reached;
            self.log = log;
            return Ok(Heard::More);
        }
        let world = LogWorld::new(self.alloc).fold_on(log.bytes())?;
        self.generation = part.generation;
        self.place = reached;
        self.log = log;
        self.published = LogPlace {
            generation: part.generation,
            place: reached,
        };
        self.shown = world;
        Ok(Heard::Published)
    }
}

// The place behind the bytes of a part. None where it is past the part's end, or there are no bytes although some stand
// in front of that end.
fn reached_by(part: &Part, bytes: &[u8]) -> Option<u64>
    ensures some { IfSome result (IsPiece part.now bytes.now) }
    ensures none { IfNone result (IsNoPiece part.now bytes.now) }
{
    // Read first: no end is past what a number holds.
    let end = part.end;
    let reached = part.from.checked_add(bytes.len() as u64)?;
    if reached > end || (bytes.is_empty() && reached < end) {
        return None;
    }
    Some(reached)
}
