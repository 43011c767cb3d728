//! Channels of a hub, by name.

ghost use Rattle.std.specs.Prelude.{◌≡◌, ◌<◌, [], ◌∷◌, ◌++◌, not, filter, filter_map, length, slice_get, Some, OnOk};
ghost use Rattle.std.specs.Prelude.{IsPermutation};
ghost use Rattle.std.specs.Cmp.Lexicographic.{slice_cmp};
ghost use Rattle.std.specs.List.{cons_option};
ghost use Rattle.std.specs.List.Sorted.{IsSortedByKey};
ghost use Rattle.std.specs.Option.{option_copied};
ghost use Rattle.std.specs.Ordering.{nat_cmp};
ghost use Rattle.world_data.specs.Expiry.{is_channel_due};
ghost use Rattle.fence_model.specs.Messages.{watches};
ghost use Rattle.slab.specs.Slab.{get};
ghost use Rattle.channel_hub.specs.Hubs.{channels_in};
ghost use Rattle.channel_hub.specs.Dues.{left_of};

use crate::dues::is_due;
use byte_text::{Name, NoMemory};
use ordered_lists::is_same;
use rtree::Ids;
use run_list::RunList;
use slab::Slab;
use std::alloc::Global;
use std::cmp::Ordering;
use std::marker::Model;
use world_data::Channel;

/// Some channels of a hub, in byte order of their names.
#[derive(Drop)]
pub struct Candidates<'a> {
    channels: Vec<&'a Channel>,
}

impl<'a> Model for Candidates<'a> {
    ghost use Rattle.std.specs.Prelude.{List, map};
    ghost use Rattle.world_data.specs.declared.channels.Channel.{Channel};

    ghost Value = { List Channel };

    ghost view = { λ c. map (λ channel. channel.now) c.channels.items };
}

impl<'a> Candidates<'a> {
    /// No channel yet. It takes no memory; what is pushed takes it from `alloc`.
    pub(crate) fn new(alloc: Global) -> Candidates<'a>
        ensures { result ≡ [] }
    {
        Candidates {
            channels: Vec::new(alloc),
        }
    }

    /// How many there are.
    pub fn len(&self) -> usize
        ensures { result ≡ length self.now }
    {
        self.channels.len()
    }

    /// The one that stands there, counted from 0.
    pub fn at(&self, i: usize) -> &'a Channel
        requires { i < length self.now }
        ensures { slice_get self.now i ≡ Some result.now }
    {
        self.channels[i]
    }

    /// Puts a channel last, where there is one.
    pub(crate) fn push(&mut self, channel: Option<&'a Channel>) -> Result<(), NoMemory>
        ensures { OnOk result (self.new ≡ self.old ++ cons_option (option_copied channel.entry) []) }
    {
        let Some(channel) = channel else {
            return Ok(());
        };
        match self.channels.push(channel) {
            Ok(()) => Ok(()),
            Err(_) => Err(NoMemory),
        }
    }

    /// Leaves out those that are out, where those are that were due at a moment. It takes no memory.
    pub(crate) fn leave_out(&mut self, out: Option<u64>)
        ensures { self.new ≡ left_of out self.old }
    {
        if let Some(now) = out {
            self.channels.retain(
                |channel: &&Channel| -> bool
                    ensures { result ≡ not (is_channel_due now channel.now.now) }
                { !is_due(channel, now) },
            );
        }
    }

    /// Puts them in byte order of their names. It takes no memory.
    pub(crate) fn sort(&mut self)
        ensures channels { IsPermutation self.old self.new }
        ensures order { IsSortedByKey (λ c. c.name) (slice_cmp nat_cmp) self.new }
    {
        self.channels.sort_unstable_by(
            |a: &&Channel, b: &&Channel| -> Ordering
                ensures { result ≡ slice_cmp nat_cmp a.now.now.name b.now.now.name }
            { a.name.cmp(&b.name) },
        );
    }
}

/// Appends the channels in these slots.
pub(crate) fn push_slots<'a>(
    slots: &'a Slab<Channel>,
    numbers: &Ids,
    into: &mut Candidates<'a>,
) -> Result<(), NoMemory>
    ensures { OnOk result (into.new ≡ into.old ++ filter_map (get slots.now) numbers.now) }
{
    for i in 0..numbers.len() {
        into.push(slots.get(numbers.at(i)))?;
    }
    Ok(())
}

// The channel, where it is on the key.
fn of_key<'a>(channel: Option<&'a Channel>, key: &Name) -> Option<&'a Channel>
    ensures { cons_option (option_copied result) []
        ≡ filter (watches (Some key.now)) (cons_option (option_copied channel.entry) []) }
{
    match channel {
        Some(channel) if is_same(&channel.fence.key, key) => Some(channel),
        _ => None,
    }
}

/// Appends the channels of the key, of those in these slots.
pub(crate) fn push_of_key<'a>(
    slots: &'a Slab<Channel>,
    order: &RunList,
    key: &Name,
    into: &mut Candidates<'a>,
) -> Result<(), NoMemory>
    ensures { OnOk result
        (into.new ≡ into.old ++ filter (watches (Some key.now)) (channels_in (get slots.now) order.now.items)) }
{
    for i in 0..order.len() {
        into.push(of_key(slots.get(order.at(i)), key))?;
    }
    Ok(())
}
