//! The world as it is kept: its objects and its channels, each with their weight.

use byte_text::NoMemory;
use channel_hub::Hub;
use command_plans::MOST_KEPT;
use keyspace::Keyspace;
use rtree::{Steps, Visits};
use std::alloc::Global;
use world_store::{StoreParts, StoredWorld};

/// A world as it is kept.
pub(crate) struct Store {
    pub(crate) objects: Keyspace,
    /// The bytes of the records of all objects.
    pub(crate) weight: u64,
    /// No deadline of an object comes before this moment, so that until then none is due.
    pub(crate) due_from: u64,
    pub(crate) hub: Hub,
    /// The bytes of the records of all channels.
    pub(crate) channel_weight: u64,
    /// No deadline of a channel comes before this moment.
    pub(crate) channels_due_from: u64,
    /// Counts the nodes of trees that are visited.
    pub(crate) steps: Steps<Visits>,
}

/// The numbers that a store keeps of its objects and channels.
#[derive(Clone, Copy)]
pub(crate) struct Sums {
    pub(crate) weight: u64,
    pub(crate) due_from: u64,
    pub(crate) channel_weight: u64,
    pub(crate) channels_due_from: u64,
}

impl Drop for Store {
    fn drop(self) {
        let Store {
            objects: _,
            weight: _,
            due_from: _,
            hub: _,
            channel_weight: _,
            channels_due_from: _,
            steps: _,
        } = self;
    }
}

impl Store {
    ghost use Rattle.std.specs.Prelude.{◌≡◌, IfOk};
    ghost use Rattle.std.specs.List.{AllByRecursion};
    ghost use Rattle.world_data.specs.Sound.{IsSoundWorld};
    ghost use Rattle.world_data.specs.Worlds.{empty_world};
    ghost use Rattle.channel_plans.specs.Planned.{IsRecordedChannel};
    ghost use Rattle.tile_core.specs.Stores.{IsStore, sums_of, world_at};

    /// The empty world.
    pub(crate) fn new(alloc: Global) -> Store
        ensures world { world_at result ≡ empty_world }
        ensures kept { IsStore result }
    {
        Store {
            objects: Keyspace::new(alloc),
            weight: 0,
            due_from: u64::MAX,
            hub: Hub::new(alloc),
            channel_weight: 0,
            channels_due_from: u64::MAX,
            steps: Steps::new(Visits::new()),
        }
    }

    /// Its numbers.
    pub(crate) fn sums(&self) -> Sums
        ensures { result ≡ sums_of self.now }
    {
        Sums {
            weight: self.weight,
            due_from: self.due_from,
            channel_weight: self.channel_weight,
            channels_due_from: self.channels_due_from,
        }
    }

    /// A world that was stored, also one that is heavier than commands may make it. There is no memory for one of more
    /// than 2^36 bytes.
    pub(crate) fn over(world: StoredWorld) -> Result<Store, NoMemory>
        requires sound { IsSoundWorld world }
        requires recorded { AllByRecursion IsRecordedChannel world.channels }
        ensures world { IfOk result (λ s. world_at s ≡ world) }
        ensures kept { IfOk result IsStore }
    {
        let StoreParts {
            objects,
            weight,
            due_from,
            hub,
            channel_weight,
        } = world.into_parts();
        let Some(total) = weight.checked_add(channel_weight) else {
            return Err(NoMemory);
        };
        if total > MOST_KEPT {
            return Err(NoMemory);
        }
        Ok(Store {
            objects,
            weight,
            due_from,
            hub,
            channel_weight,
            channels_due_from: due_from,
            steps: Steps::new(Visits::new()),
        })
    }
}
