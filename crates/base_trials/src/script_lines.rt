//! Lines from outside, and each call with ample memory.

use crate::tables::{Answers, are_answered};
use byte_text::{Text, push_u64};
use script_text::{LineFault, ScriptLine, line_of, push_frame_line};
use std::alloc::Global;
use std::test::Fail;

// In each line a line of a script behind a stroke, and what it is read as.
const LINES: &str = "
    | => nothing
    |# a  comment => nothing
    |open => open
    |feed 1 0 *1%0D%0A => feed 1 0 *1<>
    |feed 4294967295 9007199254740991 x => feed 4294967295 9007199254740991 x
    |take 0 => take 0
    |tick 9007199254740991 => tick 9007199254740991
    |close 7 => close 7
    |step => step
    |reopen => reopen
    |  => refused
    |Open => refused
    |open  => refused
    | open => refused
    |open 1 => refused
    |opens => refused
    |feed => refused
    |feed 1 2 => refused
    |feed 1 2  => refused
    |feed 1 2 a b => refused
    |feed 1  2 a => refused
    |feed 01 2 a => refused
    |feed 1 02 a => refused
    |feed -1 2 a => refused
    |feed 4294967296 2 a => refused
    |feed 1 9007199254740992 a => refused
    |feed 1 2 \u{7F} => refused
    |feed 1 2 Ω => refused
    |take => refused
    |take +1 => refused
    |take 1 2 => refused
    |tick 00 => refused
    |tick 9007199254740992 => refused
    |close x => refused
    |step 1 => refused
    |reopen\r => refused
    |quit => refused
    ";

// A word, and numbers behind it.
fn push_line(out: &mut Text, word: &str, numbers: &[u64]) -> Result<(), Fail> {
    out.push(word.as_bytes())?;
    for number in numbers {
        out.push(b" ")?;
        push_u64(out, *number)?;
    }
    Ok(())
}

// What is fed to a session at a moment.
fn push_fed(out: &mut Text, numbers: &[u64], fed: &[u8]) -> Result<(), Fail> {
    push_line(out, "feed", numbers)?;
    out.push(b" ")?;
    Ok(out.push(fed)?)
}

// What a line is read as.
fn push_read(out: &mut Text, line: &ScriptLine) -> Result<(), Fail> {
    match line {
        ScriptLine::Nothing => push_line(out, "nothing", &[]),
        ScriptLine::Enter => push_line(out, "open", &[]),
        ScriptLine::Feed(session, moment, bytes) => {
            push_fed(out, &[*session as u64, *moment], bytes.bytes())
        }
        ScriptLine::Take(session) => push_line(out, "take", &[*session as u64]),
        ScriptLine::Tick(moment) => push_line(out, "tick", &[*moment]),
        ScriptLine::Close(session) => push_line(out, "close", &[*session as u64]),
        ScriptLine::Step => push_line(out, "step", &[]),
        ScriptLine::Reopen => push_line(out, "reopen", &[]),
    }
}

fn read(alloc: Global, line: &[u8]) -> Result<Text, Fail> {
    let mut text = Text::new(alloc);
    match line_of(alloc, line) {
        Ok(line) => push_read(&mut text, &line)?,
        Err(LineFault::Outside) => text.push(b"refused")?,
        Err(_) => text.push(b"no memory")?,
    }
    Ok(text)
}

struct Lines;

impl Answers for Lines {
    fn answer(alloc: Global, case: &str) -> Result<Text, Fail> {
        let (_, line) = case.split_once('|').ok_or("a stroke")?;
        read(alloc, line.as_bytes())
    }
}

#[test]
fn lines_are_read(rt: HostRuntime) -> Result<(), Fail> {
    are_answered::<Lines>(&rt, rt.alloc(), LINES)
}

#[test]
fn long_lines(rt: HostRuntime) -> Result<(), Fail> {
    let long = vec![in rt.alloc(); b'#'; 1_048_577]?;
    assert_eq!(rt;
        read(rt.alloc(), long.as_slice())?.bytes(),
        b"refused".as_slice()
    );
    assert_eq!(rt;
        read(rt.alloc(), &long.as_slice()[1..])?.bytes(),
        b"nothing".as_slice()
    );
    Ok(())
}

#[test]
fn escapes(rt: HostRuntime) -> Result<(), Fail> {
    let mut line = Text::new(rt.alloc());
    push_frame_line(&mut line, b"$5\r\n%~ \x00\xFF\r\n")?;
    assert_eq!(rt;
        line.bytes(),
        b"frame $5%0D%0A%25~%20%00%FF%0D%0A\n".as_slice()
    );
    let fed = read(rt.alloc(), b"feed 1 2 $5%0d%0A%25~%20%00%ff%0D%0A%z%4")?;
    assert_eq!(rt;
        fed.bytes(),
        b"feed 1 2 $5\r\n%~ \x00\xFF\r\n%z%4".as_slice()
    );
    Ok(())
}
