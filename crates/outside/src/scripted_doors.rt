//! A door in memory, which a script drives.

ghost use Rattle.std.specs.Prelude.{◌≡◌, None, Some, true, IsErr, IfOk};
ghost use Rattle.outside.specs.Doors.{DoorFails, Opens, Accepts, opened_at};
ghost use Rattle.outside.specs.LinkScripts.{later, shown};
ghost use Rattle.outside.specs.DoorScripts.{Visited, CallerBy};

use crate::doors::{Caller, OpenPort, Port, ReadyDoor};
use crate::failures::Failed;
use crate::scripted_links::{CallerScript, ScriptedLink};
use std::alloc::Global;
use std::collections::VecDeque;
use std::marker::Model;

/// Who visits a door when one looks for a caller.
#[derive(Drop)]
pub enum Visit {
    /// A caller, who does so.
    Comes(CallerScript),
    /// Nobody yet.
    Nobody,
    /// The door fails.
    Fails,
}

/// What happens at a door.
#[derive(Drop)]
pub struct DoorScript {
    /// Who visits it at each look.
    pub visits: Vec<Visit>,
    /// Whether it stays open behind them: a look then answers Later, and not that it is over.
    pub stays: bool,
    /// Whether it can be opened.
    pub opens: bool,
}

/// A door in memory, which a script drives.
pub struct ScriptedDoor {
    alloc: Global,
    visits: VecDeque<Visit>,
    stays: bool,
    opens: bool,
    opened: Option<OpenPort>,
    links: u64,
    ends: u64,
    faults: u64,
}

impl Drop for ScriptedDoor {
    fn drop(self) {
        let ScriptedDoor {
            alloc: _,
            visits: _,
            stays: _,
            opens: _,
            opened: _,
            links: _,
            ends: _,
            faults: _,
        } = self;
    }
}

impl Model for ScriptedDoor {
    ghost use Rattle.outside.specs.DoorScripts.{Visited};

    ghost Value = { Visited };

    ghost view = { λ d. record {
      visits = d.visits.items;
      stays = d.stays;
      opens = d.opens;
      state = record {
        opened = d.opened;
        links = d.links;
        ends = d.ends;
        faults = d.faults;
      };
    } };
}

impl ScriptedDoor {
    /// A door at which this happens. It is not open yet.
    pub fn new(alloc: Global, script: DoorScript) -> ScriptedDoor
        ensures { result
            ≡ record {
              visits = script.visits.items;
              stays = script.stays;
              opens = script.opens;
              state = record { opened = None; links = 0; ends = 0; faults = 0 };
            } }
    {
        ScriptedDoor {
            alloc,
            visits: VecDeque::from(script.visits),
            stays: script.stays,
            opens: script.opens,
            opened: None,
            links: 0,
            ends: 0,
            faults: 0,
        }
    }

    // Counts a failure.
    fn fail(&mut self) -> Failed
        ensures fails { DoorFails self.old.state self.new.state }
        ensures same { self.new ≡ record self.old { state = self.new.state } }
    {
        self.faults = self.faults.saturating_add(1);
        Failed
    }
}

impl ReadyDoor for ScriptedDoor {
    ghost use Rattle.outside.specs.Doors.{DoorState, Opens, Accepts, opened_at};

    type Link = ScriptedLink;

    ghost shows = { λ d. d.state };

    /// Where no memory is left for the address, it fails too.
    fn listen(&mut self, port: &Port<'_>) -> Result<(), Failed>
        ensures opens { Opens self.old.state self.new.state result (opened_at port.now) }
        ensures can { IfOk result (λ _. self.old.opens ≡ true) }
        ensures same { self.new ≡ record self.old { state = self.new.state } }
    {
        if !self.opens {
            return Err(self.fail());
        }
        let Ok(opened) = OpenPort::of(self.alloc, port) else {
            return Err(self.fail());
        };
        self.opened = Some(opened);
        Ok(())
    }

    /// It answers as its script says, and takes no memory.
    fn accept(&mut self) -> Result<Caller<ScriptedLink>, Failed>
        ensures accepts { Accepts shown self.old.state self.new.state result }
        ensures by { CallerBy self.old.visits self.old.stays self.old.state.links result }
        ensures same { self.new ≡ record self.old { visits = later self.old.visits; state = self.new.state } }
    {
        match self.visits.pop_front() {
            Some(Visit::Comes(script)) => {
                let link = ScriptedLink::new(self.alloc, self.links, script);
                self.links = self.links.saturating_add(1);
                Ok(Caller::Came(link))
            }
            Some(Visit::Nobody) => Ok(Caller::Later),
            Some(Visit::Fails) => Err(self.fail()),
            None if self.stays => Ok(Caller::Later),
            None => {
                self.ends = self.ends.saturating_add(1);
                Ok(Caller::Over)
            }
        }
    }
}
