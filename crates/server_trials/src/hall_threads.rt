//! Two threads share a hall.

ghost use Rattle.std.specs.Arc.{arc_value};
ghost use Rattle.server_trials.specs.Halls.{IsSeatOf};

use crate::halls::{hall_over, taken};
use crate::requests::asked_list;
use byte_text::{NoMemory, Text, push_array_head, push_bulk};
use outside::PlainDisk;
use shared_hall::{HallSeat, SharedHall};
use std::alloc::{AllocError, Global};
use std::sync::{Arc, Wait};
use std::test::Fail;
use std::thread;
use std::thread::{JoinHandle, Threads};
use world_model::{Answers, CallOutcome, ChangedSessions, HallApi, HallSplit};

// What is answered to one who gets what was set at 1 2.
const POINT: &str = "$36\r\n{\"type\":\"Point\",\"coordinates\":[2,1]}\r\n";

const SETTING: &str = "SETCHAN f WITHIN k FENCE DETECT enter BOUNDS 0 0 5 5";

// What a session that listens to that channel hears of two objects that are set at 1 2.
const SET_A: &str =
    r#"{"command":"set","detect":"enter","hook":"f","key":"k","id":"a","object":{"type":"Point","coordinates":[2,1]}}"#;

const SET_B: &str =
    r#"{"command":"set","detect":"enter","hook":"f","key":"k","id":"b","object":{"type":"Point","coordinates":[2,1]}}"#;

// What a session is answered to a line.
fn answered<R: Wait>(
    rt: &R,
    alloc: Global,
    hall: &SharedHall<PlainDisk>,
    seat: &mut HallSeat<PlainDisk>,
    session: u32,
    line: &str,
) -> Option<Text>
    requires { IsSeatOf hall.now seat.old }
    ensures { IsSeatOf hall.now seat.new }
{
    let asked = asked_list(alloc, line).ok()?;
    let touched = ChangedSessions::new(alloc).ok()?;
    let (answers, _asked, touched) = hall.calls(rt, seat, session, 0, asked, touched);
    let whole = Answers {
        served: 1,
        end: CallOutcome::Ok,
    };
    if answers != whole || !touched.names(session) {
        return None;
    }
    taken(rt, alloc, hall, seat, session)
}

// The frame of a message of the channel.
fn message(alloc: Global, payload: &str) -> Result<Text, NoMemory> {
    let mut frame = Text::new(alloc);
    push_array_head(&mut frame, 3)?;
    push_bulk(&mut frame, b"message")?;
    push_bulk(&mut frame, b"f")?;
    push_bulk(&mut frame, payload.as_bytes())?;
    Ok(frame)
}

// Whether the first frame that a session has is this message.
fn hears<R: Wait>(
    rt: &R,
    alloc: Global,
    hall: &SharedHall<PlainDisk>,
    seat: &mut HallSeat<PlainDisk>,
    session: u32,
    payload: &str,
) -> bool
    requires { IsSeatOf hall.now seat.old }
    ensures { IsSeatOf hall.now seat.new }
{
    match (
        taken(rt, alloc, hall, seat, session),
        message(alloc, payload),
    ) {
        (Some(text), Ok(frame)) => text.bytes() == frame.bytes(),
        _ => false,
    }
}

fn is_answered<R: Wait>(
    rt: &R,
    alloc: Global,
    hall: &SharedHall<PlainDisk>,
    seat: &mut HallSeat<PlainDisk>,
    line: &str,
    reply: &str,
) -> bool
    requires { IsSeatOf hall.now seat.old }
    ensures { IsSeatOf hall.now seat.new }
{
    let Ok(session) = hall.enter(rt, seat) else {
        return false;
    };
    match answered(rt, alloc, hall, seat, session, line) {
        Some(text) => text.bytes() == reply.as_bytes(),
        None => false,
    }
}

// A thread that takes what a session heard, and then sets an object, by a seat of its own; whether it was told of both.
fn start<R: Wait + Threads + Copy + Send + 'static>(
    rt: R,
    alloc: Global,
    hall: &Arc<SharedHall<PlainDisk>>,
    seat: &mut HallSeat<PlainDisk>,
    ears: u32,
) -> Result<JoinHandle<bool>, Fail>
    requires { IsSeatOf (arc_value hall.now) seat.old }
    ensures { IsSeatOf (arc_value hall.now) seat.new }
{
    let mut own = hall.split(seat);
    let theirs = Arc::try_clone(hall)?;
    let child = thread::spawn(
        &rt,
        move || -> bool
            requires { IsSeatOf (arc_value theirs) own }
        {
            hears(&rt, alloc, &theirs, &mut own, ears, SET_B)
                && is_answered(
                    &rt,
                    alloc,
                    &theirs,
                    &mut own,
                    "SET k a POINT 1 2",
                    "+OK\r\n",
                )
        },
    )?;
    Ok(child)
}

#[test]
fn what_one_thread_sets_another_hears_and_reads(rt: HostRuntime) -> Result<(), Fail> {
    let alloc = rt.alloc();
    let (hall, mut seat) = hall_over(alloc, PlainDisk::new(alloc))?;
    assert!(rt; is_answered(&rt, alloc, &hall, &mut seat, SETTING, ":1\r\n"));
    let Ok(ears) = hall.enter(&rt, &mut seat) else {
        return Err(Fail::from(AllocError));
    };
    let subscribed = answered(&rt, alloc, &hall, &mut seat, ears, "SUBSCRIBE f");
    assert!(rt; subscribed.is_some());
    assert!(rt; is_answered(&rt, alloc, &hall, &mut seat, "SET k b POINT 1 2", "+OK\r\n"));
    let hall = Arc::new(alloc, hall)?;
    let child = start(rt, alloc, &hall, &mut seat, ears)?;
    assert!(rt; child.join(&rt));
    let mut reader = hall.split(&mut seat);
    assert!(rt; hears(&rt, alloc, &hall, &mut reader, ears, SET_A));
    assert!(rt; is_answered(&rt, alloc, &hall, &mut reader, "GET k a", POINT));
    hall.join(&mut seat, reader);
    Ok(())
}
