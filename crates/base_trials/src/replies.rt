//! Replies that no request of a test gets: one that is too long, a refusal of a full database, and other errors.

ghost use Rattle.std.specs.Prelude.{◌≡◌, IfOk};
ghost use Rattle.byte_text.specs.Replies.{IsFrame};

use byte_text::{Piece, Reply, Text};
use reply_text::{ReplyFault, error_reply, push_reply, refusal_reply};
use std::alloc::Global;
use std::test::Fail;
use world_model::Refusal;

// The frame of the refusal of a full database, and that of another error behind it.
fn errors(alloc: Global) -> Result<Text, Fail> {
    let full = refusal_reply(alloc, Refusal::DatabaseFull)?;
    let other = error_reply(alloc, b"other")?;
    let mut text = Text::new(alloc);
    push_reply(&mut text, &full)?;
    push_reply(&mut text, &other)?;
    Ok(text)
}

#[test]
fn errors_are_written(rt: HostRuntime) -> Result<(), Fail> {
    let wanted = b"-ERR database is full\r\n-ERR other\r\n";
    assert_eq!(rt; errors(rt.alloc())?.bytes(), wanted.as_slice());
    Ok(())
}

// A text of so many bytes, at most 4,194,304.
fn long_text(alloc: Global, bytes: usize) -> Result<Text, Fail> {
    let mut text = Text::of(alloc, b"x")?;
    for _ in 0..22 {
        let half = text.copy()?;
        text.push(half.bytes())?;
    }
    text.truncate(bytes);
    Ok(text)
}

// A reply of so many bytes in one bulk string.
fn bulk(alloc: Global, bytes: usize) -> Result<Reply, Fail>
    ensures { IfOk result IsFrame }
{
    let mut reply = Reply::new(alloc);
    match reply.push(Piece::Bulk(long_text(alloc, bytes)?)) {
        Ok(()) => Ok(reply),
        Err(_) => Err(Fail::from("no memory")),
    }
}

// What comes of such a reply behind an earlier frame, and how long the text is then.
fn bulk_answer(alloc: Global, bytes: usize) -> Result<(Result<(), ReplyFault>, usize), Fail> {
    let reply = bulk(alloc, bytes)?;
    let mut into = Text::of(alloc, b"+OK\r\n")?;
    let answer = push_reply(&mut into, &reply);
    Ok((answer, into.len()))
}

// A bulk string of 7 digits of length takes 12 bytes beside its own.
#[test]
fn long_replies(rt: HostRuntime) -> Result<(), Fail> {
    let alloc = rt.alloc();
    assert_eq!(rt; bulk_answer(alloc, 4_194_292)?, (Ok(()), 4_194_309));
    assert_eq!(rt;
        bulk_answer(alloc, 4_194_293)?,
        (Err(ReplyFault::TooLong), 5)
    );
    Ok(())
}
