//! The workload, line by line.

ghost use Rattle.std.specs.Prelude.{◌≡◌, IfOk, OnErr};
ghost use Rattle.work_gen.specs.Workload.{NextIs, commands, lines};

use crate::commands::{CHANNELS, channel, command, subscribing};
use crate::draws::Draws;
use crate::lines::{Line, Role};
use byte_text::NoMemory;
use std::alloc::Global;
use std::marker::Model;

// What comes before the commands.
#[derive(Drop)]
struct Opening {
    subscribed: bool,
    // How many were set.
    channels: u32,
}

impl Model for Opening {
    ghost use Rattle.std.specs.Prelude.{List};
    ghost use Rattle.work_gen.specs.declared.lines.Line.{Line};
    ghost use Rattle.work_gen.specs.Workload.{opening};

    ghost Value = { List Line };

    ghost view = { λ o. opening o.subscribed o.channels };
}

impl Opening {
    #[tactic(auto, using(crate::proofs::Lined::opening_subscribes, crate::proofs::Lined::opening_sets, crate::proofs::Lined::opening_done))]
    fn next_line(&mut self, alloc: Global) -> Result<Option<Line>, NoMemory>
        ensures ok { IfOk result (λ next. NextIs self.old self.new next) }
        ensures err { OnErr result (self.new ≡ self.old) }
    {
        if !self.subscribed {
            let words = subscribing(alloc)?;
            self.subscribed = true;
            let role = Role::Listener;
            return Ok(Some(Line { role, words }));
        }
        if self.channels < CHANNELS {
            let words = channel(alloc, self.channels)?;
            self.channels += 1;
            let role = Role::Sender;
            return Ok(Some(Line { role, words }));
        }
        Ok(None)
    }
}

// The commands that are left.
#[derive(Drop)]
struct Commands {
    all: u32,
    left: u32,
    draws: Draws,
}

impl Model for Commands {
    ghost use Rattle.std.specs.Prelude.{List};
    ghost use Rattle.work_gen.specs.declared.lines.Line.{Line};
    ghost use Rattle.work_gen.specs.Workload.{commands};

    ghost Value = { List Line };

    ghost view = { λ c. commands c.all c.left c.draws.state };
}

impl Commands {
    #[tactic(auto, using(crate::proofs::Lined::commands_next, crate::proofs::Lined::commands_done))]
    fn next_line(&mut self, alloc: Global) -> Result<Option<Line>, NoMemory>
        ensures ok { IfOk result (λ next. NextIs self.old self.new next) }
        ensures err { OnErr result (self.new ≡ self.old) }
    {
        if self.left == 0 {
            return Ok(None);
        }
        let mut draws = self.draws;
        let words = command(alloc, self.all, &mut draws)?;
        self.draws = draws;
        self.left -= 1;
        let role = Role::Sender;
        Ok(Some(Line { role, words }))
    }
}

/// What is left of the workload of so many commands from a seed.
#[derive(Drop)]
pub struct Workload {
    opening: Opening,
    commands: Commands,
}

impl Model for Workload {
    ghost use Rattle.std.specs.Prelude.{List, ◌++◌};
    ghost use Rattle.work_gen.specs.declared.lines.Line.{Line};

    ghost Value = { List Line };

    ghost view = { λ w. w.opening ++ w.commands };
}

impl Workload {
    /// All of it: the listener subscribes to all channels, the sender sets them and then sends the commands.
    pub fn new(commands: u32, seed: u64) -> Workload
        ensures { result ≡ lines commands seed }
    {
        let opening = Opening {
            subscribed: false,
            channels: 0,
        };
        let commands = Commands {
            all: commands,
            left: commands,
            draws: Draws { state: seed },
        };
        Workload { opening, commands }
    }

    /// The next line; none at the end. For want of memory the workload stays as it was.
    pub fn next_line(&mut self, alloc: Global) -> Result<Option<Line>, NoMemory>
        ensures ok { IfOk result (λ next. NextIs self.old self.new next) }
        ensures err { OnErr result (self.new ≡ self.old) }
    {
        match self.opening.next_line(alloc)? {
            Some(line) => Ok(Some(line)),
            None => self.commands.next_line(alloc),
        }
    }
}
