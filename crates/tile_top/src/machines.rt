//! A core that nobody else asks.

ghost use Rattle.std.specs.Prelude.{◌≡◌, IfOk};
ghost use Rattle.world_data.specs.Worlds.{empty_world};
ghost use Rattle.world_model.specs.Histories.{opening_hall};

use byte_text::NoMemory;
use std::alloc::Global;
use std::marker::Model;
use tile_core::{Core, NoRecords};
use work_gen::Machine;
use world_data::Frames;
use world_model::{Asked, CallOutcome, ChangedSessions, EnterFault, Taken};

/// A core that nobody else asks.
#[derive(Drop)]
pub struct CoreMachine {
    core: Core,
    // Who was changed by the last call; nobody waits to be told.
    touched: ChangedSessions,
}

impl Model for CoreMachine {
    ghost use Rattle.tile_core.specs.CoreStates.{CoreState};

    ghost Value = { CoreState };

    ghost view = { λ m. m.core };
}

impl CoreMachine {
    /// A core of an empty world.
    pub fn new(alloc: Global) -> Result<CoreMachine, NoMemory>
        ensures { IfOk result (λ m. m.hall ≡ opening_hall empty_world 0) }
    {
        let touched = ChangedSessions::new(alloc)?;
        Ok(CoreMachine {
            core: Core::new(alloc),
            touched,
        })
    }

    /// How many nodes of trees were visited since the start.
    pub fn visited(&self) -> u64
        ensures { result ≡ self.now.visited }
    {
        self.core.visited()
    }
}

impl Machine for CoreMachine {
    ghost hall = { λ m. m.hall };

    fn enter(&mut self) -> Result<u32, EnterFault> {
        self.core.enter()
    }

    fn call(&mut self, session: u32, asked: &Asked) -> CallOutcome {
        self.touched.clear();
        self.core
            .call(session, 0, asked, &mut self.touched, &mut NoRecords)
    }

    fn take(&mut self, session: u32, into: &mut Frames) -> Taken {
        self.core.take(session, into)
    }

    fn objects(&self) -> u64 {
        self.core.objects()
    }
}
