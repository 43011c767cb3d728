//! A core with two sessions over a disk in memory, to which the steps of a script are put.

use crate::faults::Fault;
use crate::growths::RefuseNth;
use crate::looks::seen_of;
use crate::requests::asked_of;
use crate::scripts::{Step, step_of};
use crate::tells::Told;
use byte_text::Text;
use durable_core::DurableCore;
use outside::MemoryDisk;
use std::alloc::Global;
use world_model::{CallOutcome, ChangedSessions};

/// A core with two sessions, and what they were given.
pub(crate) struct Stage {
    alloc: Global,
    core: DurableCore<MemoryDisk>,
    told: Told,
}

impl Drop for Stage {
    fn drop(self) {
        let Stage {
            alloc: _,
            core: _,
            told: _,
        } = self;
    }
}

/// How often memory was wanted, and how often the core was not as before then.
#[derive(Clone, Copy)]
pub(crate) struct Counts {
    pub(crate) wanted: u64,
    pub(crate) differences: u64,
}

impl Stage {
    /// An empty world, in which both sessions have been let in.
    pub(crate) fn begun(alloc: Global) -> Result<Stage, Fault> {
        let disk = MemoryDisk::new(alloc, Vec::new(alloc), Vec::new(alloc), Vec::new(alloc));
        let Ok(core) = DurableCore::open(alloc, disk) else {
            return Err(Fault::Memory);
        };
        let mut core = core;
        let entered = core.enter() == Ok(1) && core.enter() == Ok(2);
        if !entered {
            return Err(Fault::Memory);
        }
        Ok(Stage {
            alloc,
            core,
            told: Told::new(alloc),
        })
    }

    /// What the sessions were given. The core is let go.
    pub(crate) fn into_told(self) -> Told {
        let Stage {
            alloc: _,
            core: _,
            told,
        } = self;
        told
    }

    // Makes the call of a step, and says how it was answered.
    fn make(&mut self, step: Step<'_>, growths: &mut RefuseNth) -> Result<CallOutcome, Fault> {
        let mut touched = ChangedSessions::new(self.alloc)?;
        match step {
            Step::Ask(session, moment, words) => {
                let asked = asked_of(self.alloc, words)?;
                let moment = u64::from(moment);
                Ok(
                    self.core
                        .call_with(session, moment, &asked, &mut touched, growths),
                )
            }
            Step::Tick(moment) => {
                Ok(
                    self.core
                        .tick_with(u64::from(moment), &mut touched, growths),
                )
            }
            Step::Rewrite => Ok(self.core.step_rewrite()),
            Step::Take(session) => {
                self.told.take(self.alloc, &mut self.core, session)?;
                Ok(CallOutcome::Ok)
            }
            Step::Asks(_) | Step::Nothing => Ok(CallOutcome::Ok),
        }
    }

    // Does a step. Where the disk fails, it had no memory.
    fn make_done(&mut self, step: Step<'_>) -> Result<(), Fault> {
        match self.make(step, &mut RefuseNth::new(0))? {
            CallOutcome::Ok => Ok(()),
            CallOutcome::Memory | CallOutcome::LogFault => Err(Fault::Memory),
            _ => Err(Fault::Step),
        }
    }

    // Does the first steps of a script.
    fn play_first(&mut self, script: &str, steps: usize) -> Result<(), Fault> {
        for line in script.lines().take(steps) {
            self.make_done(step_of(line)?)?;
        }
        Ok(())
    }

    // Either session takes.
    fn take_both(&mut self) -> Result<(), Fault> {
        self.told.take(self.alloc, &mut self.core, 1)?;
        self.told.take(self.alloc, &mut self.core, 2)
    }

    // Whether this one shows the same as another to which the first steps of a script are put, and gives the same to
    // both sessions.
    fn is_as(&mut self, twin: &mut Stage, script: &str, steps: usize) -> Result<bool, Fault> {
        twin.play_first(script, steps)?;
        let seen = seen_of(self.alloc, self.core.core())?;
        let wanted = seen_of(self.alloc, twin.core.core())?;
        self.take_both()?;
        twin.take_both()?;
        Ok(seen.bytes() == wanted.bytes() && self.told.is_same(&twin.told))
    }

    // Whether this one is as the first steps of a script leave it.
    fn is_as_before(&mut self, script: &str, steps: usize) -> Result<bool, Fault> {
        let mut twin = Stage::begun(self.alloc)?;
        let is_same = self.is_as(&mut twin, script, steps);
        drop(twin);
        is_same
    }

    /// Does the step at a place of a script. Where memory is wanted, all has to be as before, and the step is asked for
    /// again.
    pub(crate) fn play_step(
        &mut self,
        script: &str,
        place: usize,
        step: Step<'_>,
        growths: &mut RefuseNth,
    ) -> Result<Counts, Fault> {
        match self.make(step, growths)? {
            CallOutcome::Ok => Ok(Counts {
                wanted: 0,
                differences: 0,
            }),
            CallOutcome::Memory => {
                let is_same = self.is_as_before(script, place)?;
                self.make_done(step)?;
                Ok(Counts {
                    wanted: 1,
                    differences: if is_same { 0 } else { 1 },
                })
            }
            CallOutcome::LogFault => Err(Fault::Memory),
            _ => Err(Fault::Step),
        }
    }
}
