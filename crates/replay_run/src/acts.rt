//! What one line of a script does.

ghost use Rattle.std.specs.Prelude.{◌≡◌, ◌≢◌, ◌≤◌, ◌++◌, ◌∷◌, ℕ, Bool, List, [], true, false, Some, Ok, IfOk, IfErr};
ghost use Rattle.outside.specs.Causes.{Rose};
ghost use Rattle.outside.specs.Sides.{Sides};
ghost use Rattle.outside.specs.declared.sides.Side.{Side};
ghost use Rattle.world_data.specs.Limits.{max_moment, take_frames};
ghost use Rattle.world_model.specs.declared.events.Event.TheVariants as event;
ghost use Rattle.script_text.specs.Lines.{KeepsMoment};
ghost use Rattle.script_text.specs.declared.lines.ScriptLine.TheVariants as says;
ghost use Rattle.journal.specs.declared.openings.OpenFault.TheVariants as fault_of;
ghost use Rattle.log_record.specs.Readings.{Damaged};

use crate::calls::{close, step, take, tick};
use crate::feeds::feed;
use crate::halts::Halt;
use crate::outputs::{session_line, text_of};
use crate::readers::{Reader, add_reader, drop_reader};
use crate::turns::Acted;
use byte_text::Text;
use durable_core::DurableCore;
use outside::Disk;
use script_text::{LineFault, ScriptLine, line_of};
use std::alloc::Global;
use world_model::{ChangedSessions, EnterFault, Frames};

/// What the lines of a script that were played have made: a core over a disk, and the readers of the sessions that were
/// entered.
#[derive(Drop)]
pub(crate) struct Player<D> {
    pub(crate) alloc: Global,
    pub(crate) core: DurableCore<D>,
    pub(crate) readers: Vec<Reader>,
    // The places that a take gives its frames into; empty between two lines.
    pub(crate) frames: Frames,
    // Who was changed by the last call; nobody in a script waits to be told.
    pub(crate) touched: ChangedSessions,
    ghost empty: { frames ≡ record { list = []; places = take_frames } },
}

impl<D: Disk> Player<D> {
    ghost use Rattle.durable_core.specs.Logged.{hall_of, disk_of};
    ghost use Rattle.replay_run.specs.Readers.{reader_of};
    ghost use Rattle.replay_run.specs.Traces.{Deed, trace};
    ghost use Rattle.replay_run.specs.Scripts.{Acts, Enters, Closes, Feeds};
    ghost use Rattle.replay_run.specs.Undone.{ActsFail, FailsOn, FeedsFails, Fails};
    ghost use Rattle.replay_run.specs.Standing.{Comes};
    ghost use Rattle.replay_run.specs.Plays.{ActsOn};
    ghost use Rattle.replay_run.specs.Players.{played};

    // Lets a session in, which has a reader from then on.
    fn enter(&mut self) -> Result<Text, Halt>
        requires goes { (hall_of self.old.core).stopped ≡ false }
        ensures made { Comes D.crashes D.seen D.images D.moment D.left_since D.faults self.old.core self.new.core
            (λ out deeds. Enters (played self.old) (trace deeds out) (played self.new))
            (λ halt deeds. Fails halt (hall_of self.old.core) event.Enter deeds (hall_of self.new.core)) result }
    {
        match self.core.enter() {
            Ok(session) => {
                add_reader(self.alloc, &mut self.readers, session)?;
                session_line(self.alloc, session)
            }
            Err(EnterFault::TooMany) => text_of(self.alloc, b"toomany\n"),
            Err(EnterFault::Stopped) => unreachable!(),
            Err(EnterFault::Memory) => Err(Halt::Memory),
        }
    }

    // Feeds bytes to a session's reader.
    fn feed(&mut self, session: u32, moment: u64, bytes: &[u8]) -> Result<Text, Halt>
        requires moment { moment ≤ max_moment }
        requires goes { (hall_of self.old.core).stopped ≡ false }
        ensures made { Comes D.crashes D.seen D.images D.moment D.left_since D.faults self.old.core self.new.core
            (λ out deeds. Feeds (played self.old) session moment bytes.now (reader_of session self.old.readers.items)
            (trace deeds out) (played self.new))
            (λ halt deeds. FeedsFails halt (hall_of self.old.core) session moment bytes.now
            (reader_of session self.old.readers.items) deeds (hall_of self.new.core)) result }
    {
        feed(
            self.alloc,
            &mut self.core,
            &mut self.readers,
            session,
            moment,
            bytes,
            &mut self.touched,
        )
    }

    // Closes a session, whose reader is dropped.
    fn close(&mut self, session: u32) -> Result<Text, Halt>
        requires goes { (hall_of self.old.core).stopped ≡ false }
        ensures made { Comes D.crashes D.seen D.images D.moment D.left_since D.faults self.old.core self.new.core
            (λ out deeds. Closes (played self.old) session (trace deeds out) (played self.new))
            (λ halt deeds. Fails halt (hall_of self.old.core) (event.Close session) deeds
            (hall_of self.new.core)) result }
    {
        drop_reader(&mut self.readers, session);
        close(self.alloc, &mut self.core, session)
    }

    // Does what a line says that does not ask for all to be opened again.
    fn does(&mut self, said: ScriptLine) -> Result<Text, Halt>
        requires other { said ≢ says.Reopen }
        requires moment { KeepsMoment said }
        requires goes { (hall_of self.old.core).stopped ≡ false }
        ensures made { Comes D.crashes D.seen D.images D.moment D.left_since D.faults self.old.core self.new.core
            (λ out deeds. (told : Bool) → Acts told (played self.old) said (trace deeds out) (played self.new))
            (λ halt deeds. (told : Bool)
            → ActsFail told halt (played self.old) said deeds (hall_of self.new.core)) result }
    {
        match said {
            ScriptLine::Nothing => Ok(Text::new(self.alloc)),
            ScriptLine::Enter => self.enter(),
            ScriptLine::Feed(session, moment, bytes) => self.feed(session, moment, bytes.bytes()),
            ScriptLine::Take(session) => {
                take(self.alloc, &mut self.core, &mut self.frames, session)
            }
            ScriptLine::Tick(moment) => {
                tick(self.alloc, &mut self.core, moment, &mut self.touched)
            }
            ScriptLine::Close(session) => self.close(session),
            ScriptLine::Step => step(self.alloc, &mut self.core),
            ScriptLine::Reopen => unreachable!(),
        }
    }

    /// Does what a line says, but for opening all again, and answers its output; where the line is none of a script
    /// nothing is done.
    pub(crate) fn act(&mut self, line: &[u8]) -> Result<Acted, Halt>
        requires goes { (hall_of self.old.core).stopped ≡ false }
        ensures made { Comes D.crashes D.seen D.images D.moment D.left_since D.faults self.old.core self.new.core
            (λ acted deeds. (told : Bool) → ActsOn told (played self.old) (played self.new) line.now deeds acted)
            (λ halt deeds. (told : Bool)
            → FailsOn told halt (played self.old) line.now deeds (hall_of self.new.core)) result }
    {
        match line_of(self.alloc, line) {
            Ok(ScriptLine::Reopen) => Ok(Acted::Reopen),
            Ok(said) => Ok(Acted::Printed(self.does(said)?)),
            Err(LineFault::Outside) => Ok(Acted::Outside),
            Err(LineFault::Memory) => Err(Halt::Memory),
        }
    }
}
