//! Calls of a core, and what is printed of their endings.

ghost use Rattle.std.specs.Prelude.{◌≡◌, ◌≢◌, ◌≤◌, [], Some, true, false, IfOk, IfErr};
ghost use Rattle.world_data.specs.Limits.{max_moment, take_frames};
ghost use Rattle.world_model.specs.Outcomes.{is_proper, take_outcome};
ghost use Rattle.world_model.specs.declared.events.Event.TheVariants as event;
ghost use Rattle.world_model.specs.declared.events.Outcome.TheVariants as outcome;
ghost use Rattle.durable_core.specs.Logged.{hall_of};
ghost use Rattle.replay_run.specs.Outputs.{printed};
ghost use Rattle.replay_run.specs.Traces.{trace};
ghost use Rattle.replay_run.specs.Scripts.{Makes};
ghost use Rattle.replay_run.specs.Undone.{Fails, IsUnprinted};
ghost use Rattle.replay_run.specs.Standing.{Comes};

use crate::halts::Halt;
use crate::outputs::{frame_lines, text_of};
use byte_text::Text;
use durable_core::DurableCore;
use outside::Disk;
use std::alloc::Global;
use world_model::{Asked, CallOutcome, ChangedSessions, Frames, Taken};

// What is printed of the answer to a call; a script ends at the others.
fn called_text(alloc: Global, called: CallOutcome) -> Result<Text, Halt>
    requires { called ≢ CallOutcome.Stopped }
    ensures done { IfOk result (λ out. printed (outcome.Answered called) ≡ Some out) }
    ensures failed { IfErr result (λ halt. IsUnprinted halt (outcome.Answered called)) }
{
    match called {
        CallOutcome::Ok => text_of(alloc, b"ok\n"),
        CallOutcome::Full => text_of(alloc, b"full\n"),
        CallOutcome::Gone => text_of(alloc, b"gone\n"),
        CallOutcome::LogFault => Err(Halt::DiskFault),
        CallOutcome::Spent => Err(Halt::Spent),
        CallOutcome::Memory => Err(Halt::Memory),
        // A script ends where its hall stops.
        CallOutcome::Stopped => unreachable!(),
    }
}

/// Makes a call, and answers what is printed of its ending.
pub(crate) fn call<D: Disk>(
    alloc: Global,
    core: &mut DurableCore<D>,
    session: u32,
    moment: u64,
    asked: &Asked,
    touched: &mut ChangedSessions,
) -> Result<Text, Halt>
    requires moment { moment ≤ max_moment }
    requires proper { is_proper asked.now ≡ true }
    requires goes { (hall_of core.old).stopped ≡ false }
    ensures made { Comes D.crashes D.seen D.images D.moment D.left_since D.faults core.old core.new
        (λ out deeds. Makes (hall_of core.old) (event.Call session moment asked.now) (trace deeds out)
        (hall_of core.new))
        (λ halt deeds. Fails halt (hall_of core.old) (event.Call session moment asked.now) deeds
        (hall_of core.new)) result }
{
    // Nobody waits for frames in a script, so nobody is woken.
    touched.clear();
    let called = core.call(session, moment, asked, touched);
    called_text(alloc, called)
}

/// Lets the clock go on.
pub(crate) fn tick<D: Disk>(
    alloc: Global,
    core: &mut DurableCore<D>,
    moment: u64,
    touched: &mut ChangedSessions,
) -> Result<Text, Halt>
    requires moment { moment ≤ max_moment }
    requires goes { (hall_of core.old).stopped ≡ false }
    ensures made { Comes D.crashes D.seen D.images D.moment D.left_since D.faults core.old core.new
        (λ out deeds. Makes (hall_of core.old) (event.Tick moment) (trace deeds out) (hall_of core.new))
        (λ halt deeds. Fails halt (hall_of core.old) (event.Tick moment) deeds (hall_of core.new)) result }
{
    touched.clear();
    let called = core.tick(moment, touched);
    called_text(alloc, called)
}

/// Makes a step of rewriting.
pub(crate) fn step<D: Disk>(alloc: Global, core: &mut DurableCore<D>) -> Result<Text, Halt>
    requires goes { (hall_of core.old).stopped ≡ false }
    ensures made { Comes D.crashes D.seen D.images D.moment D.left_since D.faults core.old core.new
        (λ out deeds. Makes (hall_of core.old) event.Rewrite (trace deeds out) (hall_of core.new))
        (λ halt deeds. Fails halt (hall_of core.old) event.Rewrite deeds (hall_of core.new)) result }
{
    let called = core.step_rewrite();
    called_text(alloc, called)
}

// What is printed of a take, which gave these frames.
fn taken_text(alloc: Global, taken: Taken, frames: &Frames) -> Result<Text, Halt>
    requires { taken ≢ Taken.Stopped }
    ensures done { IfOk result (λ out. printed (take_outcome taken frames.now.list) ≡ Some out) }
    ensures failed { IfErr result (λ halt. IsUnprinted halt (take_outcome taken frames.now.list)) }
{
    match taken {
        Taken::Some(_) => frame_lines(alloc, frames),
        Taken::Empty => text_of(alloc, b"empty\n"),
        Taken::Ended => text_of(alloc, b"ended\n"),
        Taken::LogFault => Err(Halt::DiskFault),
        Taken::Stopped => unreachable!(),
    }
}

/// Takes the frames of a session. `frames` is empty before and behind it.
pub(crate) fn take<D: Disk>(
    alloc: Global,
    core: &mut DurableCore<D>,
    frames: &mut Frames,
    session: u32,
) -> Result<Text, Halt>
    requires empty { frames.old ≡ record { list = []; places = take_frames } }
    requires goes { (hall_of core.old).stopped ≡ false }
    ensures made { Comes D.crashes D.seen D.images D.moment D.left_since D.faults core.old core.new
        (λ out deeds. Makes (hall_of core.old) (event.Take session) (trace deeds out) (hall_of core.new))
        (λ halt deeds. Fails halt (hall_of core.old) (event.Take session) deeds (hall_of core.new)) result }
    ensures cleared { frames.new ≡ record { list = []; places = take_frames } }
{
    let taken = core.take(session, frames);
    let text = taken_text(alloc, taken, frames);
    frames.clear();
    text
}

/// Closes a session.
pub(crate) fn close<D: Disk>(
    alloc: Global,
    core: &mut DurableCore<D>,
    session: u32,
) -> Result<Text, Halt>
    requires goes { (hall_of core.old).stopped ≡ false }
    ensures made { Comes D.crashes D.seen D.images D.moment D.left_since D.faults core.old core.new
        (λ out deeds. Makes (hall_of core.old) (event.Close session) (trace deeds out) (hall_of core.new))
        (λ halt deeds. Fails halt (hall_of core.old) (event.Close session) deeds (hall_of core.new)) result }
{
    core.close_session(session);
    text_of(alloc, b"ok\n")
}
