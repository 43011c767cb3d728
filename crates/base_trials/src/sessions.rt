//! Sessions: their subscriptions, the frames that wait for them, and the cut of one whose queue is full.

ghost use Rattle.std.specs.Prelude.{IfOk};
ghost use Rattle.session_table.specs.Sessions.{AreSoundSubs};

use crate::samples::name;
use byte_text::Text;
use glob_match::well_formed;
use session_table::{Session, SubscribeFault, Subscriptions, place_staged, stage_message, unstage};
use std::alloc::Global;
use std::test::Fail;
use subscriber_queue::Outbox;
use world_data::{Frames, MAX_SUBS};

#[test]
fn subscriptions_are_counted(rt: HostRuntime) -> Result<(), Fail> {
    let alloc = rt.alloc();
    let (z, all) = (name(alloc, b"z")?, name(alloc, b"*")?);
    let mut subscriptions = Subscriptions::new(alloc);
    assert_eq!(rt; subscriptions.subscribe(alloc, &z, false), Ok(1));
    assert_eq!(rt; subscriptions.subscribe(alloc, &all, true), Ok(2));
    assert_eq!(rt; subscriptions.subscribe(alloc, &z, false), Ok(2));
    assert_eq!(rt; subscriptions.subscribe(alloc, &z, true), Ok(3));
    assert!(rt; subscriptions.is_held(&z, false));
    assert!(rt; !subscriptions.is_held(&all, false));
    assert_eq!(rt; subscriptions.at(1).word().bytes(), b"*".as_slice());
    assert!(rt; subscriptions.at(2).is_pattern());
    assert_eq!(rt; subscriptions.len(), 3);
    subscriptions.clear();
    assert_eq!(rt; subscriptions.len(), 0);
    Ok(())
}

// One less than there may be, each a name of two characters, from `AA` on.
fn nearly_full(alloc: Global) -> Result<Subscriptions, Fail> {
    let mut subscriptions = Subscriptions::new(alloc);
    for i in 0..MAX_SUBS - 1 {
        let word = name(alloc, &[b'A' + (i % 32) as u8, b'A' + (i / 32) as u8])?;
        subscriptions.subscribe(alloc, &word, false).ok();
    }
    Ok(subscriptions)
}

#[test]
fn there_are_no_more_than_the_most(rt: HostRuntime) -> Result<(), Fail> {
    let alloc = rt.alloc();
    let first = name(alloc, b"AA")?;
    let mut subscriptions = nearly_full(alloc)?;
    assert_eq!(rt; subscriptions.subscribe(alloc, &first, true), Ok(1024));
    assert_eq!(rt; subscriptions.subscribe(alloc, &first, false), Ok(1024));
    let last = name(alloc, b"last")?;
    assert_eq!(rt;
        subscriptions.subscribe(alloc, &last, true),
        Err(SubscribeFault::TooMany)
    );
    Ok(())
}

// Stages the frames of one letter each, from `a` on, and places them.
fn place_letters(outbox: &mut Outbox, count: usize) -> Result<(), Fail> {
    for i in 0..count {
        outbox.stage(&[b'a' + (i % 26) as u8])?;
        if !outbox.place_first() {
            return Err(Fail::from("a frame that has no place"));
        }
    }
    Ok(())
}

// Whether a frame of so many bytes is placed.
fn has_place(alloc: Global, outbox: &mut Outbox, size: usize) -> Result<bool, Fail> {
    outbox.stage(vec![in alloc; 0u8; size]?.as_slice())?;
    let is_placed = outbox.place_first();
    outbox.keep_staged(0);
    Ok(is_placed)
}

// Takes once: how many frames come, the first of them, and how many frames and bytes are left.
fn taken(alloc: Global, outbox: &mut Outbox) -> Result<(usize, u8, usize, u64), Fail> {
    let mut frames = Frames::new(alloc)?;
    let count = outbox.take(&mut frames);
    let first = if frames.is_empty() {
        None
    } else {
        frames.at(0).first()
    };
    Ok((
        count,
        first.copied().unwrap_or(0),
        outbox.frames(),
        outbox.bytes(),
    ))
}

// With 70 frames of a byte each, one of 6,291,387 bytes would be one byte too many: whether it is placed, and what is taken then.
fn limited(alloc: Global, outbox: &mut Outbox) -> Result<(bool, (usize, u8, usize, u64)), Fail> {
    place_letters(outbox, 70)?;
    let is_placed = has_place(alloc, outbox, 6_291_387)?;
    Ok((is_placed, taken(alloc, outbox)?))
}

#[test]
fn frames_come_in_order_and_the_bytes_are_limited(rt: HostRuntime) -> Result<(), Fail> {
    let alloc = rt.alloc();
    let found = limited(alloc, &mut Outbox::new(alloc))?;
    assert_eq!(rt; found, (false, (64, b'a', 6, 6)));
    Ok(())
}

// How many takes give 64 frames each, of which the first is the letter that is next.
fn full_takes(alloc: Global, outbox: &mut Outbox) -> Result<usize, Fail> {
    for i in 0..1000usize {
        let (count, first, _, _) = taken(alloc, outbox)?;
        if count != 64 || first != b'a' + (i * 64 % 26) as u8 {
            return Ok(i);
        }
    }
    Ok(1000)
}

#[test]
fn as_many_frames_wait_as_512_takes_give(rt: HostRuntime) -> Result<(), Fail> {
    let alloc = rt.alloc();
    let mut outbox = Outbox::new(alloc);
    place_letters(&mut outbox, 32_768)?;
    let is_placed = has_place(alloc, &mut outbox, 1)?;
    assert_eq!(rt;
        (is_placed, outbox.frames(), outbox.staged(), outbox.bytes()),
        (false, 32_768, 0, 32_768)
    );
    assert_eq!(rt; full_takes(alloc, &mut outbox)?, 512);
    Ok(())
}

// Stages 200 frames behind 100 that wait, keeps 50, and places one of them: how many are staged, and what two takes give.
fn staged_in_part(
    alloc: Global,
    outbox: &mut Outbox,
) -> Result<(usize, [(usize, u8, usize, u64); 2]), Fail> {
    place_letters(outbox, 100)?;
    for _ in 0..200 {
        outbox.stage(b"z")?;
    }
    outbox.keep_staged(50);
    outbox.place_first();
    let staged = outbox.staged();
    let first = taken(alloc, outbox)?;
    Ok((staged, [first, taken(alloc, outbox)?]))
}

#[test]
fn what_is_staged_waits_behind_a_mark(rt: HostRuntime) -> Result<(), Fail> {
    let alloc = rt.alloc();
    let (staged, takes) = staged_in_part(alloc, &mut Outbox::new(alloc))?;
    assert_eq!(rt; staged, 49);
    assert_eq!(rt; takes, [(64, b'a', 37, 37), (37, b'm', 0, 0)]);
    Ok(())
}

// One subscription, to a name or to a pattern.
fn subscribed(alloc: Global, word: &[u8], pattern: bool) -> Result<Subscriptions, Fail>
    ensures { IfOk result (λ subs. AreSoundSubs subs) }
{
    let word = name(alloc, word)?;
    if pattern && !well_formed(word.bytes()) {
        return Err(Fail::from("no pattern"));
    }
    let mut subs = Subscriptions::new(alloc);
    match subs.subscribe(alloc, &word, pattern) {
        Ok(_) => Ok(subs),
        Err(_) => Err(Fail::from("no memory")),
    }
}

// A session that has subscribed to a word.
fn hearing(alloc: Global, number: u32, word: &[u8], pattern: bool) -> Result<Session, Fail> {
    let subs = subscribed(alloc, word, pattern)?;
    let mut session = Session::new(alloc, number);
    session.set_subscriptions(subs);
    Ok(session)
}

// A session of each number, which has subscribed to the word: to a pattern, where that stands behind it.
fn hearers(alloc: Global, words: &[(u32, &[u8], bool)]) -> Result<Vec<Session>, Fail> {
    let mut sessions = Vec::new(alloc);
    for (number, word, pattern) in words {
        let session = hearing(alloc, *number, word, *pattern)?;
        if sessions.push(session).is_err() {
            return Err(Fail::from("no memory"));
        }
    }
    Ok(sessions)
}

// The first frames of a session, one behind another.
fn frames_of(alloc: Global, mut session: Session) -> Result<Text, Fail> {
    let mut frames = Frames::new(alloc)?;
    session.take_frames(&mut frames);
    let mut text = Text::new(alloc);
    for i in 0..frames.len() {
        text.push(frames.at(i))?;
    }
    Ok(text)
}

// What the last session was told.
fn last(alloc: Global, sessions: &mut Vec<Session>) -> Result<Text, Fail> {
    match sessions.pop() {
        Some(session) => frames_of(alloc, session),
        None => Ok(Text::new(alloc)),
    }
}

// Stages a message of the channel `gate` so many times.
fn stage(
    alloc: Global,
    sessions: &mut Vec<Session>,
    payload: &[u8],
    count: u32,
) -> Result<(), Fail> {
    let gate = name(alloc, b"gate")?;
    let payload = Text::of(alloc, payload)?;
    for _ in 0..count {
        stage_message(alloc, sessions, &gate, &payload)?;
    }
    Ok(())
}

// Stages the message `{}` twice, of which the second is placed, for a name, a pattern and another name; what each is told, from the last on,
// behind a colon.
fn told(alloc: Global, sessions: &mut Vec<Session>) -> Result<Text, Fail> {
    stage(alloc, sessions, b"{}", 1)?;
    unstage(sessions);
    stage(alloc, sessions, b"{}", 1)?;
    place_staged(sessions);
    let mut text = Text::new(alloc);
    for _ in 0..3 {
        text.push(b":")?;
        text.push(last(alloc, sessions)?.bytes())?;
    }
    Ok(text)
}

fn told_each(alloc: Global) -> Result<Text, Fail> {
    let words: [(u32, &[u8], bool); 3] = [
        (1, b"gate", false),
        (2, b"g*", true),
        (3, b"yard", false),
    ];
    told(alloc, &mut hearers(alloc, words.as_slice())?)
}

#[test]
fn frames(rt: HostRuntime) -> Result<(), Fail> {
    let wanted: &[u8] =
        b"::*4\r\n$8\r\npmessage\r\n$2\r\ng*\r\n$4\r\ngate\r\n$2\r\n{}\r\n:*3\r\n$7\r\nmessage\r\n$4\r\ngate\r\n$2\r\n{}\r\n";
    assert_eq!(rt; told_each(rt.alloc())?.bytes(), wanted);
    Ok(())
}

// Whether the last session is served, and how many subscriptions it has.
fn served(sessions: &mut Vec<Session>) -> (bool, usize) {
    match sessions.pop() {
        Some(session) => (session.is_live(), session.subscriptions().len()),
        None => (false, 0),
    }
}

// What a session is told to which a message, and behind it two replies are placed; a third was let go.
fn replied(alloc: Global) -> Result<Text, Fail> {
    let mut session = hearing(alloc, 1, b"gate", false)?;
    session.stage_message(alloc, &name(alloc, b"gate")?, &Text::of(alloc, b"{}")?)?;
    session.add_reply(b"-ERR\r\n")?;
    session.clear_replies();
    session.add_reply(b"+OK\r\n")?;
    session.add_reply(b":1\r\n")?;
    session.place_staged();
    session.place_replies();
    frames_of(alloc, session)
}

#[test]
fn replies_come_behind_messages(rt: HostRuntime) -> Result<(), Fail> {
    let wanted: &[u8] = b"*3\r\n$7\r\nmessage\r\n$4\r\ngate\r\n$2\r\n{}\r\n+OK\r\n:1\r\n";
    assert_eq!(rt; replied(rt.alloc())?.bytes(), wanted);
    Ok(())
}

// Stages so many messages for a session and places them; whether it is served then, and how many subscriptions it has.
fn flooded(alloc: Global, count: u32) -> Result<(bool, usize), Fail> {
    let mut sessions = hearers(alloc, &[(1, b"gate", false)])?;
    stage(alloc, &mut sessions, b"", count)?;
    place_staged(&mut sessions);
    Ok(served(&mut sessions))
}

#[test]
fn the_cut(rt: HostRuntime) -> Result<(), Fail> {
    let alloc = rt.alloc();
    assert_eq!(rt; flooded(alloc, 32_768)?, (true, 1));
    assert_eq!(rt; flooded(alloc, 32_769)?, (false, 0));
    Ok(())
}
