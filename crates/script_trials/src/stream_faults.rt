//! A script that the program's one call replays while a read of it, or a write of its output, fails: each call in turn.

use crate::cases::Case;
use crate::disks::disk_failing;
use crate::faults::Fault;
use crate::plays::{READ_AT_ONCE, WRITTEN_AT_ONCE, asked, words_of};
use crate::texts::push_line;
use crate::turns::{MOST_CALLS, push_made};
use byte_text::{Text, push_u64};
use std::alloc::Global;
use std::sync::Wait;
use std::thread::Threads;

/// Which stream fails.
#[derive(Clone, Copy, PartialEq, Eq)]
pub(crate) enum Stream {
    Source,
    Sink,
}

// A case that replays a script, of whose stream the call of this number fails; none where it is 0.
fn failing_case(alloc: Global, script: &[u8], stream: Stream, failing: u64) -> Result<Case, Fault> {
    let mut case = Case::new(alloc, Text::new(alloc));
    case.script.push(script)?;
    match stream {
        Stream::Source => case.fails.source.push(failing)?,
        Stream::Sink => case.fails.sink.push(failing)?,
    }
    Ok(case)
}

// What comes of it.
fn replayed<R: Wait + Threads + Sync>(
    rt: &R,
    alloc: Global,
    script: &[u8],
    stream: Stream,
    failing: u64,
) -> Result<Text, Fault> {
    let case = failing_case(alloc, script, stream, failing)?;
    let words = words_of(alloc, "replay")?;
    let disk = disk_failing(alloc, 0)?;
    let (_ended, came) = asked(rt, alloc, words.as_slice(), &case, disk)?;
    Ok(came)
}

// What stands in front of the end of what came.
fn printed_before<'a>(came: &'a Text, end: &str) -> Option<&'a str> {
    str::from_utf8(came.bytes()).ok()?.strip_suffix(end)
}

// What was printed, where a script came to its end.
fn output_of(came: &Text) -> Result<&str, Fault> {
    match printed_before(came, "status 0\n") {
        Some(output) => Ok(output),
        None => Err(Fault::Step),
    }
}

// What comes of the first lines of a script, for each number of them from 0 on.
fn replays<R: Wait + Threads + Sync>(
    rt: &R,
    alloc: Global,
    script: &[u8],
) -> Result<Vec<Text>, Fault> {
    let mut replays = Vec::new(alloc);
    let mut lines = Text::new(alloc);
    for line in script.split(|byte| *byte == b'\n') {
        replays.push(replayed(rt, alloc, lines.bytes(), Stream::Source, 0)?)?;
        push_line(&mut lines, line)?;
    }
    Ok(replays)
}

// How many lines are whole in the first bytes of a script.
fn lines_in(script: &[u8], bytes: u64) -> usize {
    let mut lines: usize = 0;
    for byte in script.iter().take(bytes as usize) {
        if *byte == b'\n' {
            lines = lines.saturating_add(1);
        }
    }
    lines
}

// Whether what came of a script, of which a read failed behind so many others, is what its whole lines bring and the
// fault. A read gives a byte at least.
fn is_cut_short(script: &[u8], replays: &[Text], came: &Text, reads: u64) -> Result<bool, Fault> {
    let Some(printed) = printed_before(came, "read fault\nstatus 3\n") else {
        return Ok(false);
    };
    let least = lines_in(script, reads);
    let most = lines_in(script, reads.saturating_mul(READ_AT_ONCE as u64));
    for (lines, replay) in replays.iter().enumerate() {
        if least <= lines && lines <= most && output_of(replay)? == printed {
            return Ok(true);
        }
    }
    Ok(false)
}

// Whether the beginning of an output was written, and some of it by each of so many writes.
fn is_begun(output: &str, came: &Text, writes: u64) -> bool {
    let Some(written) = printed_before(came, "status 4\n") else {
        return false;
    };
    let bytes = written.len() as u64;
    let most = writes.saturating_mul(WRITTEN_AT_ONCE as u64);
    output.starts_with(written) && writes <= bytes && bytes <= most
}

// A script, what comes of each number of its first lines, and of all.
#[derive(Clone, Copy)]
struct Whole<'a> {
    script: &'a [u8],
    replays: &'a [Text],
    came: &'a Text,
}

// Replays the script while the stream's call behind so many fails. Another thing than what has to come is told of.
// Whether the call was made.
fn fail_behind<R: Wait + Threads + Sync>(
    rt: &R,
    alloc: Global,
    out: &mut Text,
    whole: &Whole,
    stream: Stream,
    calls: u64,
) -> Result<bool, Fault> {
    let came = replayed(rt, alloc, whole.script, stream, calls.saturating_add(1))?;
    if came.bytes() == whole.came.bytes() {
        return Ok(false);
    }
    let is_right = match stream {
        Stream::Source => is_cut_short(whole.script, whole.replays, &came, calls)?,
        Stream::Sink => is_begun(output_of(whole.came)?, &came, calls),
    };
    if !is_right {
        out.push(b"behind calls ")?;
        push_u64(out, calls)?;
        push_line(out, b":")?;
        out.push(came.bytes())?;
    }
    Ok(true)
}

/// What a script prints, which is then replayed with each call of the stream failing in turn, until there is none. Then
/// whether they were more than the words say.
pub(crate) fn play_stream_faults<R: Wait + Threads + Sync>(
    rt: &R,
    alloc: Global,
    case: &Case,
    stream: Stream,
) -> Result<Text, Fault> {
    let script = case.script.bytes();
    let came = replayed(rt, alloc, script, stream, 0)?;
    let replays = replays(rt, alloc, script)?;
    let whole = Whole {
        script,
        replays: replays.as_slice(),
        came: &came,
    };
    let mut out = Text::of(alloc, output_of(&came)?.as_bytes())?;
    let mut made: u64 = 0;
    for calls in 0..MOST_CALLS {
        if !fail_behind(rt, alloc, &mut out, &whole, stream, calls)? {
            break;
        }
        made = calls.saturating_add(1);
    }
    push_made(case, &mut out, made)?;
    Ok(out)
}
