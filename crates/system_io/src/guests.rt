//! Callers of a door for WebSockets who are not let in yet: it is not known which kind of link each wants, or the door
//! answers them itself.
//!
//! No clause speaks of them, as a door tells nothing of whom it has not let in.

use crate::lines::Line;
use crate::streams::{read_once, throw_away, write_once};
use byte_text::Text;
use mio::net::TcpStream;
use outside::Kinds;
use std::alloc::Global;
use std::io::ErrorKind;
use std::net::Shutdown;
use std::time::Instant;
use ws_front::{Answer, Greeting, MAX_HEAD, WebLink, WsTalk, answer_text, greet, own_page};

/// So many seconds a caller may take to say what it wants, and as many to take its answer.
const PATIENCE: u64 = 10;

/// So many bytes of a head are read at once.
const PIECE: usize = 4_096;

/// So many reads or writes are made for a caller at one look. A head that is not whole ends before.
const MOST_PIECES: u32 = 64;

/// What a look at callers needs.
#[derive(Clone, Copy)]
pub(crate) struct Look<'a> {
    pub(crate) alloc: Global,
    /// The kinds of links that the door lets in.
    pub(crate) kinds: Kinds,
    /// The address that it was opened at.
    pub(crate) own: &'a [u8],
    /// The origins that were named to it.
    pub(crate) named: &'a [u8],
    /// The moment, where it is known.
    pub(crate) now: Option<Instant>,
}

// How far a caller is.
#[derive(Drop)]
enum Stage {
    /// Its first byte tells which kind of link it wants.
    Unheard,
    /// The first bytes of a head.
    Head(Vec<u8>),
    /// An answer, of which so many bytes have left.
    Answered(Text, usize),
    /// All of the answer has left, and its caller is to end the link.
    Left,
}

/// A caller who is not let in yet.
#[derive(Drop)]
pub(crate) struct Guest {
    pub(crate) stream: TcpStream,
    // Since when it is waited for.
    since: Option<Instant>,
    stage: Stage,
}

/// What came of looking at a caller.
#[derive(Drop)]
pub(crate) enum Step {
    Stays(Guest),
    /// The link has ended.
    Gone,
    /// It is let in.
    Came(Line),
}

// What was heard of a head.
#[derive(Clone, Copy)]
enum Heard {
    NotYet,
    Over,
    /// A head of so many bytes, which is answered so.
    Whole(Answer, usize),
}

// What came of sending an answer.
#[derive(Clone, Copy)]
enum Sending {
    Whole,
    /// So many bytes have left.
    Part(usize),
    Over,
}

impl Look<'_> {
    // Whether one for whom it was waited since then is not waited for any more.
    fn is_late(&self, since: Option<Instant>) -> bool {
        match (since, self.now) {
            (Some(since), Some(now)) => now.duration_since(since).as_secs() >= PATIENCE,
            _ => false,
        }
    }

    // What the bytes of a head come to.
    fn greeting(&self, head: &[u8]) -> Greeting {
        greet(head, self.own, self.named)
    }
}

impl Guest {
    /// One who came now.
    pub(crate) fn new(stream: TcpStream, now: Option<Instant>) -> Guest {
        Guest {
            stream,
            since: now,
            stage: Stage::Unheard,
        }
    }

    /// Whether it was waited for so long that another may have its place.
    pub(crate) fn may_go(&self, look: &Look<'_>) -> bool {
        look.is_late(self.since)
    }

    /// Goes on with it as far as it can.
    pub(crate) fn step(self, look: &Look<'_>) -> Step {
        let Guest {
            stream,
            since,
            stage,
        } = self;
        match stage {
            Stage::Unheard => hear_first(look, stream, since),
            Stage::Head(head) => hear_head(look, stream, since, head),
            Stage::Answered(text, sent) => send(look, stream, since, text, sent),
            Stage::Left => wait_for_end(look, stream, since),
        }
    }
}

// It is waited for on, unless for too long.
fn wait_on(look: &Look<'_>, stream: TcpStream, since: Option<Instant>, stage: Stage) -> Step {
    if look.is_late(since) {
        return Step::Gone;
    }
    Step::Stays(Guest {
        stream,
        since,
        stage,
    })
}

// A caller who does not speak HTTP is let in where plain links are.
fn let_in_plain(look: &Look<'_>, stream: TcpStream) -> Step {
    match look.kinds {
        Kinds::Plain | Kinds::Both | Kinds::Dialed => Step::Came(Line::Plain(stream)),
        Kinds::Web => answer_with(look, stream, &Answer::BadRequest),
    }
}

// The first byte is looked at, and left for who reads the link. Each request for a page or a WebSocket begins with `G`,
// and none on a plain link does.
fn hear_first(look: &Look<'_>, stream: TcpStream, since: Option<Instant>) -> Step {
    let mut first = [0];
    match stream.peek(&mut first) {
        Ok(0) => Step::Gone,
        Ok(_) if first == *b"G" => hear_head(look, stream, since, Vec::new(look.alloc)),
        Ok(_) => let_in_plain(look, stream),
        Err(error) if error.kind() != ErrorKind::WouldBlock => Step::Gone,
        Err(_) => hear_nothing(look, stream, since),
    }
}

// Nothing came yet. Pools of plain links, and browsers, open links that they use later, so where links of both kinds are
// let in such a caller waits for as long as there is room.
fn hear_nothing(look: &Look<'_>, stream: TcpStream, since: Option<Instant>) -> Step {
    match look.kinds {
        Kinds::Web => wait_on(look, stream, since, Stage::Unheard),
        Kinds::Plain | Kinds::Both | Kinds::Dialed => Step::Stays(Guest {
            stream,
            since,
            stage: Stage::Unheard,
        }),
    }
}

// Reads what has come of a head. It is looked at again only behind the end of a line, so that a head in small pieces
// costs no more than one in large ones.
fn read_head(look: &Look<'_>, stream: &TcpStream, head: &mut Vec<u8>) -> Heard {
    let mut piece = [0; PIECE];
    for _ in 0..MOST_PIECES {
        let count = match read_once(stream, &mut piece) {
            Ok(0) => return Heard::Over,
            Ok(count) => count,
            Err(error) if error.kind() == ErrorKind::WouldBlock => return Heard::NotYet,
            Err(_) => return Heard::Over,
        };
        let came = &piece[..count];
        if head.extend_from_slice(came).is_err() {
            return Heard::Over;
        }
        if head.len() < MAX_HEAD && !came.contains(&b'\n') {
            continue;
        }
        match look.greeting(head.as_slice()) {
            Greeting::Begun => {}
            Greeting::Whole(answer, len) => return Heard::Whole(answer, len),
            Greeting::Broken => return Heard::Whole(Answer::BadRequest, head.len()),
        }
    }
    Heard::NotYet
}

// The head is read as far as it came, and answered where it is whole.
fn hear_head(look: &Look<'_>, stream: TcpStream, since: Option<Instant>, head: Vec<u8>) -> Step {
    let mut head = head;
    match read_head(look, &stream, &mut head) {
        Heard::NotYet => wait_on(look, stream, since, Stage::Head(head)),
        Heard::Over => Step::Gone,
        Heard::Whole(Answer::WebSocket(key), len) => {
            let behind = match head.get(len..) {
                Some(behind) => behind,
                None => &[],
            };
            open(look, stream, &Answer::WebSocket(key), behind)
        }
        Heard::Whole(answer, _) => answer_with(look, stream, &answer),
    }
}

// A link becomes a WebSocket. Its answer fits a stream on which nothing was sent; where it does not leave whole, the
// link ends.
fn open(look: &Look<'_>, stream: TcpStream, answer: &Answer, behind: &[u8]) -> Step {
    let Ok(text) = answer_text(look.alloc, answer, own_page()) else {
        return Step::Gone;
    };
    let Ok(behind) = behind.to_vec(look.alloc) else {
        return Step::Gone;
    };
    match write_once(&stream, text.bytes()) {
        Ok(count) if count == text.len() => {
            let talk = WsTalk::over(look.alloc, stream, behind);
            Step::Came(Line::Web(WebLink::new(look.alloc, 0, talk)))
        }
        _ => Step::Gone,
    }
}

// Begins with an answer behind which the link ends.
fn answer_with(look: &Look<'_>, stream: TcpStream, answer: &Answer) -> Step {
    match answer_text(look.alloc, answer, own_page()) {
        Ok(text) => send(look, stream, look.now, text, 0),
        Err(_) => Step::Gone,
    }
}

// Sends what can leave of an answer, of which so many bytes have left.
fn send_on(stream: &TcpStream, text: &[u8], sent: usize) -> Sending {
    let mut sent = sent;
    for _ in 0..MOST_PIECES {
        let rest = match text.get(sent..) {
            Some([]) | None => return Sending::Whole,
            Some(rest) => rest,
        };
        match write_once(stream, rest) {
            Ok(0) => return Sending::Over,
            Ok(count) => sent = sent.saturating_add(count),
            Err(error) if error.kind() == ErrorKind::WouldBlock => return Sending::Part(sent),
            Err(_) => return Sending::Over,
        }
    }
    Sending::Part(sent)
}

// Goes on with an answer.
fn send(
    look: &Look<'_>,
    stream: TcpStream,
    since: Option<Instant>,
    text: Text,
    sent: usize,
) -> Step {
    match send_on(&stream, text.bytes(), sent) {
        Sending::Whole => {
            // It fails where the caller has gone already.
            let _ = stream.shutdown(Shutdown::Write);
            wait_for_end(look, stream, since)
        }
        Sending::Part(sent) => wait_on(look, stream, since, Stage::Answered(text, sent)),
        Sending::Over => Step::Gone,
    }
}

// The answer has left: what comes is thrown away until the caller ends the link.
fn wait_for_end(look: &Look<'_>, stream: TcpStream, since: Option<Instant>) -> Step {
    if throw_away(&stream) {
        return wait_on(look, stream, since, Stage::Left);
    }
    Step::Gone
}
