//! Each call of a core, once.

ghost use Rattle.std.specs.Prelude.{◌≡◌, true};
ghost use Rattle.world_model.specs.Outcomes.{is_proper};

use crate::requests::asked;
use byte_text::{NoMemory, RespFault, Text};
use std::alloc::Global;
use std::test::Fail;
use tile_core::{Core, NoRecords, RecordSink};
use world_model::{Asked, CallOutcome, ChangedSessions, Frames, Taken};

// A sink that keeps the records that it took last.
#[derive(Drop)]
struct Last {
    records: Text,
}

impl RecordSink for Last {
    ghost use Rattle.std.specs.Prelude.{◌≡◌};

    ghost takes = { λ old records new. new.records ≡ records };

    ghost stays = { λ old new. Unit {0} };

    fn take(&mut self, records: &[u8]) -> Result<(), NoMemory> {
        self.records.truncate(0);
        self.records.push(records)
    }
}

// How the call of a session at moment 0 is answered. The session has to be named where the call is done, and only
// there.
fn called(alloc: Global, core: &mut Core, session: u32, asked: &Asked) -> Option<CallOutcome>
    requires { is_proper asked.now ≡ true }
{
    let mut touched = ChangedSessions::new(alloc).ok()?;
    let answer = core.call(session, 0, asked, &mut touched, &mut NoRecords);
    if touched.names(session) == (answer == CallOutcome::Ok) {
        Some(answer)
    } else {
        None
    }
}

fn called_by(alloc: Global, core: &mut Core, session: u32, line: &str) -> Option<CallOutcome> {
    let asked = asked(alloc, line).ok()?;
    called(alloc, core, session, &asked)
}

// A session breaks the protocol.
fn broken(alloc: Global, core: &mut Core, session: u32) -> Option<CallOutcome> {
    called(alloc, core, session, &Asked::Broken(RespFault::BadType))
}

// How a take of a session is answered, and the first of its frames.
fn taken(alloc: Global, core: &mut Core, session: u32) -> Option<(Taken, Text)> {
    let mut frames = Frames::new(alloc).ok()?;
    let end = core.take(session, &mut frames);
    let mut text = Text::new(alloc);
    if !frames.is_empty() {
        text.push(frames.at(0)).ok()?;
    }
    Some((end, text))
}

fn takes(alloc: Global, core: &mut Core, session: u32, end: Taken, frame: &str) -> bool {
    match taken(alloc, core, session) {
        Some((how, text)) => how == end && text.bytes() == frame.as_bytes(),
        None => false,
    }
}

// How a tick is answered.
fn ticked(alloc: Global, core: &mut Core) -> Option<CallOutcome> {
    let mut touched = ChangedSessions::new(alloc).ok()?;
    Some(core.tick(5, &mut touched, &mut NoRecords))
}

// Two sessions end by what they ask, and say so at the next call.
fn end_by_calls(alloc: Global, core: &mut Core) -> Result<(), &'static str> {
    if called_by(alloc, core, 1, "QUIT") != Some(CallOutcome::Ok) {
        return Err("session 1 quits");
    }
    if called_by(alloc, core, 1, "PING") != Some(CallOutcome::Gone) {
        return Err("session 1 is gone");
    }
    if broken(alloc, core, 2) != Some(CallOutcome::Ok) {
        return Err("session 2 breaks the protocol");
    }
    if broken(alloc, core, 2) != Some(CallOutcome::Gone) {
        return Err("session 2 is gone");
    }
    Ok(())
}

// Their last frames are taken.
fn take_last(alloc: Global, core: &mut Core) -> Result<(), &'static str> {
    if !takes(alloc, core, 1, Taken::Some(1), "+OK\r\n") {
        return Err("session 1 is told that it quits");
    }
    let fault = "-ERR protocol error: bad type\r\n";
    if !takes(alloc, core, 2, Taken::Some(1), fault) {
        return Err("session 2 is told of its fault");
    }
    for session in 1..=4 {
        if !takes(alloc, core, session, Taken::Ended, "") {
            return Err("all four have ended");
        }
    }
    Ok(())
}

fn enter(core: &mut Core, sessions: u32) -> Result<(), &'static str> {
    for session in 1..=sessions {
        if core.enter() != Ok(session) {
            return Err("the sessions enter");
        }
    }
    Ok(())
}

// Four sessions end, each in another way, and a fifth enters behind them.
fn end_sessions(alloc: Global, core: &mut Core) -> Result<(), &'static str> {
    enter(core, 4)?;
    end_by_calls(alloc, core)?;
    core.close_session(3);
    core.remove_session(4);
    if ticked(alloc, core) != Some(CallOutcome::Ok) {
        return Err("a tick is done");
    }
    take_last(alloc, core)?;
    if core.enter() != Ok(5) {
        return Err("session 5 enters");
    }
    if !takes(alloc, core, 5, Taken::Empty, "") {
        return Err("session 5 finds no frame");
    }
    Ok(())
}

#[test]
fn sessions_end_behind_their_frames(rt: HostRuntime) -> Result<(), Fail> {
    let alloc = rt.alloc();
    let mut core = Core::new(alloc);
    assert_eq!(rt; end_sessions(alloc, &mut core), Ok(()));
    assert_eq!(rt;
        (core.objects(), core.channels(), core.visited()),
        (0, 0, 0)
    );
    Ok(())
}

// The records of a call of session 1 with a line.
fn records_of(alloc: Global, core: &mut Core, line: &str) -> Option<Text> {
    let asked = asked(alloc, line).ok()?;
    let mut touched = ChangedSessions::new(alloc).ok()?;
    let mut last = Last {
        records: Text::new(alloc),
    };
    match core.call(1, 0, &asked, &mut touched, &mut last) {
        CallOutcome::Ok => Some(last.records),
        _ => None,
    }
}

fn record(alloc: Global, core: &mut Core, line: &str) -> Option<Text> {
    enter(core, 1).ok()?;
    records_of(alloc, core, line)
}

#[test]
fn a_ledger_takes_the_records_of_a_call(rt: HostRuntime) -> Result<(), Fail> {
    let alloc = rt.alloc();
    let mut core = Core::new(alloc);
    let due =
        b"*5\r\n$3\r\nSET\r\n$1\r\nk\r\n$1\r\na\r\n$6\r\nOBJECT\r\n$36\r\n{\"type\":\"Point\",\"coordinates\":[2,1]}\r\n".as_slice();
    let records = record(alloc, &mut core, "SET k a POINT 1 2");
    assert!(rt; records.is_some_and(|text| text.bytes() == due));
    assert_eq!(rt; core.objects(), 1);
    Ok(())
}
