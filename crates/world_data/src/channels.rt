//! Channels: what they watch, what they want to hear of it, and the list of them that a world holds.

ghost use Rattle.std.specs.Prelude.{◌≡◌, ◌∷◌, ◌++◌, [], true, not, length, filter, IfOk, IfErr, IfSome, IfNone, OnOk};
ghost use Rattle.std.specs.Prelude.{OnErr};
ghost use Rattle.ordered_lists.specs.Lists.{IsHeld, IsFree, put_in};
ghost use Rattle.world_data.specs.Worlds.{are_channels, channel_before, is_named};

use crate::copies::{copy_area, copy_pattern, copy_request};
use crate::filters::Tests;
use byte_text::{Name, NoMemory, Request};
use ordered_lists::{insert_at, is_before, is_same};
use planar_geom::Area;
use std::alloc::Global;
use std::marker::Model;

/// In what sense objects are sought in an area.
#[derive(Clone, Copy, Debug, PartialEq, Eq)]
pub enum Kind {
    Within,
    Intersects,
    Near,
}

/// What a channel watches: an area, or objects near others (their key, the pattern of their ids, meters, and whether
/// those that were near before are left out).
pub enum Watch {
    Zone(Kind, Area),
    Roam(Name, Name, u32, bool),
}

impl Drop for Watch {
    fn drop(self) {
        match self {
            Watch::Zone(_, _) => {}
            Watch::Roam(_, _, _, _) => {}
        }
    }
}

impl Watch {
    ghost use Rattle.std.specs.Prelude.{◌≡◌, IfOk};

    // The same watch in memory of its own.
    fn copy(&self, alloc: Global) -> Result<Watch, NoMemory>
        ensures { IfOk result (λ watch. watch ≡ self.now) }
    {
        match self {
            Watch::Zone(kind, area) => Ok(Watch::Zone(*kind, copy_area(alloc, area)?)),
            Watch::Roam(key, pattern, meters, nodwell) => Ok(Watch::Roam(
                key.copy(alloc)?,
                pattern.copy(alloc)?,
                *meters,
                *nodwell,
            )),
        }
    }
}

/// What a channel wants to hear of: the words of DETECT and of COMMANDS.
#[derive(Clone, Copy, Debug, PartialEq, Eq)]
pub struct Wanted {
    pub inside: bool,
    pub outside: bool,
    pub enter: bool,
    pub exit: bool,
    pub cross: bool,
    pub set: bool,
    pub del: bool,
    pub drop: bool,
}

/// A fence: the key, pattern and tests of the objects that it is for, what is wanted, and what is watched.
pub struct Fence {
    pub key: Name,
    pub glob: Option<Name>,
    pub tests: Tests,
    pub wanted: Wanted,
    pub watch: Watch,
}

impl Drop for Fence {
    fn drop(self) {
        let Fence {
            key: _,
            glob: _,
            tests: _,
            wanted: _,
            watch: _,
        } = self;
    }
}

impl Fence {
    ghost use Rattle.std.specs.Prelude.{◌≡◌, IfOk};

    // The same fence in memory of its own.
    fn copy(&self, alloc: Global) -> Result<Fence, NoMemory>
        ensures { IfOk result (λ fence. fence ≡ self.now) }
    {
        Ok(Fence {
            key: self.key.copy(alloc)?,
            glob: copy_pattern(alloc, &self.glob)?,
            tests: self.tests.copy(alloc)?,
            wanted: self.wanted,
            watch: self.watch.copy(alloc)?,
        })
    }
}

/// A channel: its name, its fence, the words that set it, in their normal form, and the moment at which it goes, in
/// milliseconds, where it does.
pub struct Channel {
    pub name: Name,
    pub fence: Fence,
    pub words: Request,
    pub deadline: Option<u64>,
}

impl Drop for Channel {
    fn drop(self) {
        let Channel {
            name: _,
            fence: _,
            words: _,
            deadline: _,
        } = self;
    }
}

impl Channel {
    ghost use Rattle.std.specs.Prelude.{◌≡◌, IfOk};

    /// The same channel in memory of its own.
    pub fn copy(&self, alloc: Global) -> Result<Channel, NoMemory>
        ensures { IfOk result (λ channel. channel ≡ self.now) }
    {
        Ok(Channel {
            name: self.name.copy(alloc)?,
            fence: self.fence.copy(alloc)?,
            words: copy_request(alloc, &self.words)?,
            deadline: self.deadline,
        })
    }
}

/// Channels in order of names, no name twice.
#[derive(Drop)]
pub struct Channels {
    list: Vec<Channel>,
}

impl Model for Channels {
    ghost use Rattle.std.specs.Prelude.{List, ◌≡◌, true};
    ghost use Rattle.world_data.specs.declared.channels.Channel.{Channel};

    ghost Value = { List Channel };

    ghost use Rattle.world_data.specs.Worlds.{are_channels};

    ghost view = { λ c. c.list.items };

    ghost invariant = { λ c. are_channels c.list.items ≡ true };
}

impl Channels {
    /// No channel yet. What is put takes its memory from `alloc`.
    pub fn new(alloc: Global) -> Channels
        ensures { result ≡ [] }
    {
        Channels {
            list: Vec::new(alloc),
        }
    }

    /// How many channels there are.
    pub fn len(&self) -> usize
        ensures count { result ≡ length self.now }
        ensures sorted { are_channels self.now ≡ true }
    {
        self.list.len()
    }

    /// Takes the last channel out, where there is one.
    pub fn pop(&mut self) -> Option<Channel>
        ensures last { IfSome result (λ c. self.old ≡ self.new ++ c ∷ []) }
        ensures none { IfNone result ((self.old ≡ []) × (self.new ≡ [])) }
    {
        self.list.pop()
    }

    // Puts a channel at its place, in place of the one of its name. For want of memory the channels are as before.
    pub(crate) fn put(&mut self, channel: Channel) -> Result<(), NoMemory>
        ensures ok { OnOk result (self.new ≡ put_in channel_before channel self.old) }
        ensures err { OnErr result (self.new ≡ self.old) }
    {
        match place_of(self.list.as_slice(), &channel) {
            Ok(at) => {
                self.list[at] = channel;
                Ok(())
            }
            Err(at) => insert_at(&mut self.list, at, channel),
        }
    }

    // Takes away the channel of a name.
    pub(crate) fn remove(&mut self, name: &Name)
        ensures { self.new ≡ filter (λ c. not (is_named name.now c)) self.old }
    {
        self.list.retain(
            |channel: &Channel| -> bool
                ensures { result ≡ not (is_named name.entry.now channel.now) }
            { !is_same(&channel.name, name) },
        );
    }

    // Takes all channels away.
    pub(crate) fn clear(&mut self)
        ensures { self.new ≡ [] }
    {
        self.list.clear();
    }
}

// The place of the channel of this name, or, where there is none, the place where it would go.
fn place_of(list: &[Channel], channel: &Channel) -> Result<usize, usize>
    ensures held { IfOk result
        (λ at. IsHeld (λ c. channel_before c channel.now) (channel_before channel.now) list.now at) }
    ensures free { IfErr result
        (λ at. IsFree (λ c. channel_before c channel.now) (channel_before channel.now) list.now at) }
{
    for (at, other) in list.iter().enumerate() {
        if is_before(&channel.name, &other.name) {
            return Err(at);
        }
        if !is_before(&other.name, &channel.name) {
            return Ok(at);
        }
    }
    Err(list.len())
}

/// What a channel may detect of an object.
#[derive(Clone, Copy, Debug, PartialEq, Eq)]
pub enum Detect {
    Inside,
    Outside,
    Enter,
    Exit,
    Cross,
    /// The object has come near to another.
    Near,
    /// The object has gone away from another.
    Far,
}

/// What a change raises on a channel.
#[derive(Clone, Copy, Debug, PartialEq, Eq)]
pub enum Raised {
    Set(Detect),
    Del,
    Drop,
}
