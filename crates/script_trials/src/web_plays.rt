//! The program's one call serves callers who come over WebSockets, and each message that is said is written down.

use crate::cases::Case;
use crate::faults::Fault;
use crate::plays::{Came, READ_AT_ONCE, WRITTEN_AT_ONCE, seen_behind, words_of};
use crate::texts::{push_escaped, push_line};
use crate::web_doors::{TalkScript, WebDoor, WebWait};
use byte_text::{Text, push_u64};
use outside::{BytesSink, BytesSource, HandClock, MemoryDisk, Move, Visit};
use std::alloc::Global;
use std::sync::Wait;
use std::thread::Threads;
use tile_top::top;
use ws_front::{ListTalk, Listening, Message, Saying, WebLink};

// What one listening brings, once more.
fn copied_listening(listening: &Listening) -> Result<Listening, Fault> {
    match listening {
        Listening::Comes(Message::Binary(text)) => Ok(Listening::Comes(Message::Binary(
            text.copy()?,
        ))),
        Listening::Comes(Message::Other) => Ok(Listening::Comes(Message::Other)),
        Listening::Quiet => Ok(Listening::Quiet),
        Listening::Later => Ok(Listening::Later),
        Listening::Fails => Ok(Listening::Fails),
    }
}

// How a saying goes where a write moves so. A message is said whole.
fn saying_of(how: Move) -> Saying {
    match how {
        Move::Later => Saying::Later,
        Move::Fails => Saying::Fails,
        Move::Most(_) => Saying::Whole,
    }
}

// What comes over the WebSocket of one caller, and how what is said in it goes.
fn script_of(
    alloc: Global,
    listenings: &[Listening],
    writes: &[Move],
) -> Result<TalkScript, Fault> {
    let mut script = TalkScript {
        listenings: Vec::new(alloc),
        sayings: Vec::new(alloc),
    };
    for listening in listenings.iter() {
        script.listenings.push(copied_listening(listening)?)?;
    }
    for how in writes.iter() {
        script.sayings.push(saying_of(*how))?;
    }
    Ok(script)
}

// The door of a case.
fn door_of(alloc: Global, case: &Case) -> Result<WebDoor, Fault> {
    let mut scripts = Vec::new(alloc);
    let mut talks = case.talks.iter();
    for visit in case.door.visits.iter() {
        match (visit, talks.next()) {
            (Visit::Comes(caller), Some(talk)) => {
                scripts.push(script_of(alloc, talk.as_slice(), caller.writes.as_slice())?)?;
            }
            _ => return Err(Fault::Line),
        }
    }
    Ok(WebDoor::new(alloc, scripts))
}

// Appends a line for each message that was said.
fn push_said(alloc: Global, out: &mut Text, talk: &ListTalk) -> Result<(), Fault> {
    for at in 0..talk.said() {
        out.push(b"told ")?;
        push_escaped(alloc, out, talk.said_at(at))?;
        push_line(out, b"")?;
    }
    Ok(())
}

// Appends a line for a caller, and one for each message that was said to it, where its link was shut.
fn push_caller(
    alloc: Global,
    out: &mut Text,
    links: &[WebLink<ListTalk>],
    caller: u64,
) -> Result<(), Fault> {
    push_line(out, b"told ")?;
    for link in links.iter() {
        if link.caller() == caller {
            push_said(alloc, out, link.talk())?;
        }
    }
    Ok(())
}

// What was written, the status, and what was said to each caller.
fn written(
    alloc: Global,
    case: &Case,
    sink: &BytesSink,
    wait: &WebWait,
    status: u8,
) -> Result<Text, Fault> {
    let mut text = Text::of(alloc, sink.written())?;
    text.push(b"status ")?;
    push_u64(&mut text, u64::from(status))?;
    push_line(&mut text, b"")?;
    for caller in 0..case.talks.len() as u64 {
        push_caller(alloc, &mut text, wait.shut_links(), caller)?;
    }
    Ok(text)
}

/// The program's one call serves the callers of a case over WebSockets, and what is left is looked at.
pub(crate) fn play_web<R: Wait + Threads + Sync>(
    rt: &R,
    alloc: Global,
    case: &Case,
    disk: MemoryDisk,
) -> Result<Came, Fault> {
    let words = words_of(alloc, case.asked()?)?;
    let mut source = BytesSource::new(Vec::new(alloc), READ_AT_ONCE, Vec::new(alloc));
    let mut sink = BytesSink::new(alloc, WRITTEN_AT_ONCE, Vec::new(alloc));
    let mut door = door_of(alloc, case)?;
    let mut wait = WebWait::new(alloc);
    let clock = HandClock::at(7);
    let ended = top(
        rt,
        alloc,
        words.as_slice(),
        &mut source,
        &mut sink,
        disk,
        &mut door,
        &clock,
        &mut wait,
    );
    let text = written(alloc, case, &sink, &wait, ended.status)?;
    seen_behind(alloc, case, ended, text)
}
