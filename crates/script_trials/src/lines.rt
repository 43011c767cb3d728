//! The lines of a case.

use crate::bent_sides::Bend;
use crate::cases::{Case, Over, Play};
use crate::faults::Fault;
use crate::looks::{Look, side_of};
use crate::stream_faults::Stream;
use crate::texts::{push_escaped, push_line, push_request, push_text};
use byte_text::{Text, push_u64};
use log_sides::NEWEST;
use outside::{CallerScript, Move, Named, Visit};
use script_text::push_frame_line;
use std::alloc::Global;
use ws_front::{Listening, Message};

// A number of a line.
fn number(word: &str) -> Result<u64, Fault> {
    match word.parse::<u64>() {
        Ok(number) => Ok(number),
        Err(_) => Err(Fault::Line),
    }
}

// The first word, and the rest.
fn split(words: &str) -> Result<(&str, &str), Fault> {
    match words.split_once(' ') {
        Some(parts) => Ok(parts),
        None => Err(Fault::Line),
    }
}

// The bytes of a text.
fn text_of(alloc: Global, written: &str) -> Result<Text, Fault> {
    let mut text = Text::new(alloc);
    push_text(&mut text, written)?;
    Ok(text)
}

// The request of these words.
fn request_of(alloc: Global, words: &str) -> Result<Text, Fault> {
    let mut text = Text::new(alloc);
    push_request(alloc, &mut text, words)?;
    Ok(text)
}

// The bytes of a frame: of a message the words are told.
fn frame_of(alloc: Global, frame: &str) -> Result<Text, Fault> {
    if frame.starts_with("message ") || frame.starts_with("pmessage ") {
        request_of(alloc, frame)
    } else {
        text_of(alloc, frame)
    }
}

// A case that is played over a side that is bent.
fn bent_of(how: &str) -> Result<Play, Fault> {
    let (bend, letter) = split(how)?;
    let bend = match bend {
        "cut" => Bend::Cut,
        "turned" => Bend::Turned,
        _ => return Err(Fault::Line),
    };
    Ok(Play::Bent(side_of(letter)?, bend))
}

// How a case is played.
fn play_of(how: &str) -> Result<Play, Fault> {
    match how {
        "opening" => Ok(Play::Opening),
        "crashes" => Ok(Play::Crashes),
        "disk faults" => Ok(Play::DiskFaults),
        "replay faults" => Ok(Play::ReplayFaults),
        "source faults" => Ok(Play::StreamFaults(Stream::Source)),
        "sink faults" => Ok(Play::StreamFaults(Stream::Sink)),
        "serve faults" => Ok(Play::ServeFaults),
        "web" => Ok(Play::Web),
        "upgrade" => Ok(Play::Upgrade),
        "visits" => Ok(Play::Visits),
        "drive" => Ok(Play::Drive),
        "workload" => Ok(Play::Workload),
        _ => bent_of(how),
    }
}

// Puts the numbers of a line last in a list.
fn push_numbers(numbers: &mut Vec<u64>, words: &str) -> Result<(), Fault> {
    for word in words.split(' ') {
        numbers.push(number(word)?)?;
    }
    Ok(())
}

// A line feeds a session these bytes at the moment of the case.
fn push_feed(case: &mut Case, session: &str, bytes: &[u8]) -> Result<(), Fault> {
    case.script.push(b"feed ")?;
    case.script.push(session.as_bytes())?;
    case.script.push(b" ")?;
    if case.moment.len() == 0 {
        case.script.push(b"0")?;
    }
    case.script.push(case.moment.bytes())?;
    case.script.push(b" ")?;
    push_escaped(case.alloc, &mut case.script, bytes)?;
    case.script.push(b"\n")?;
    Ok(())
}

// A session asks.
fn ask(case: &mut Case, session: &str, words: &str) -> Result<(), Fault> {
    let request = request_of(case.alloc, words)?;
    push_feed(case, session, request.bytes())
}

// A session takes.
fn take(case: &mut Case, session: &str) -> Result<(), Fault> {
    case.script.push(b"take ")?;
    push_line(&mut case.script, session.as_bytes())
}

fn ask_and_take(case: &mut Case, session: &str, words: &str) -> Result<(), Fault> {
    ask(case, session, words)?;
    push_line(&mut case.output, b"ok")?;
    take(case, session)
}

// A line whose first word ends in a mark behind the number of a session.
fn hear_session(case: &mut Case, word: &str, rest: &str) -> Result<(), Fault> {
    if word == ">" {
        return ask_and_take(case, "1", rest);
    }
    if let Some(session) = word.strip_suffix("?") {
        return ask_and_take(case, session, rest);
    }
    if let Some(session) = word.strip_suffix(">") {
        ask(case, session, rest)?;
        return push_line(&mut case.output, b"ok");
    }
    match word.strip_suffix("!") {
        Some(session) => ask(case, session, rest),
        None => Err(Fault::Line),
    }
}

// A frame is printed.
fn hear_frame(case: &mut Case, frame: &str) -> Result<(), Fault> {
    let frame = frame_of(case.alloc, frame)?;
    push_frame_line(&mut case.output, frame.bytes())?;
    Ok(())
}

// A session is fed bytes.
fn hear_feed(case: &mut Case, rest: &str) -> Result<(), Fault> {
    let (session, bytes) = split(rest)?;
    let bytes = text_of(case.alloc, bytes)?;
    push_feed(case, session, bytes.bytes())
}

// A session is fed bytes in pieces of a size.
fn hear_cut(case: &mut Case, rest: &str) -> Result<(), Fault> {
    let (session, rest) = split(rest)?;
    let (size, bytes) = split(rest)?;
    let size = number(size)?.max(1) as usize;
    let bytes = text_of(case.alloc, bytes)?;
    for piece in bytes.bytes().chunks(size) {
        push_feed(case, session, piece)?;
    }
    Ok(())
}

// Of the things outside, calls fail.
fn hear_fails(case: &mut Case, rest: &str) -> Result<(), Fault> {
    let (which, numbers) = split(rest)?;
    match which {
        "disk" => push_numbers(&mut case.fails.disk, numbers),
        "source" => push_numbers(&mut case.fails.source, numbers),
        "sink" => push_numbers(&mut case.fails.sink, numbers),
        _ => Err(Fault::Line),
    }
}

fn hear_crash(case: &mut Case, rest: &str) -> Result<(), Fault> {
    let (moment, choice) = split(rest)?;
    case.over = Over::Crash(number(moment)?, number(choice)?);
    Ok(())
}

// What was built stands on a side at first.
fn hear_begins(case: &mut Case, letter: &str) -> Result<(), Fault> {
    let side = case.builder.take_side()?;
    match letter {
        "A" => case.a = side,
        "B" => case.b = side,
        _ => return Err(Fault::Line),
    }
    Ok(())
}

// Something has to be seen at the end.
fn push_look(case: &mut Case, look: Look, seen: Text) -> Result<(), Fault> {
    case.looks.push((look, seen))?;
    Ok(())
}

// What was built stands on a side at the end.
fn hear_leaves(case: &mut Case, letter: &str) -> Result<(), Fault> {
    let side = side_of(letter)?;
    let built = case.builder.take_side()?;
    let mut seen = Text::new(case.alloc);
    push_escaped(case.alloc, &mut seen, built.bytes())?;
    push_look(case, Look::Bytes(side), seen)
}

// A side has so many bytes at the end.
fn hear_length(case: &mut Case, rest: &str) -> Result<(), Fault> {
    let (letter, length) = split(rest)?;
    let mut seen = Text::new(case.alloc);
    push_u64(&mut seen, number(length)?)?;
    push_look(case, Look::Length(side_of(letter)?), seen)
}

// A side has fewer bytes at the end.
fn hear_under(case: &mut Case, rest: &str) -> Result<(), Fault> {
    let (letter, bound) = split(rest)?;
    let seen = Text::of(case.alloc, b"fewer")?;
    push_look(case, Look::Under(side_of(letter)?, number(bound)?), seen)
}

// A caller comes.
fn hear_caller(case: &mut Case) -> Result<(), Fault> {
    let caller = CallerScript {
        sends: Vec::new(case.alloc),
        stays: false,
        reads: Vec::new(case.alloc),
        writes: Vec::new(case.alloc),
    };
    case.door.visits.push(Visit::Comes(caller))?;
    case.told.push(Text::new(case.alloc))?;
    case.talks.push(Vec::new(case.alloc))?;
    Ok(())
}

// What a listening brings that brings no binary message.
fn listening_of(word: &str) -> Result<Listening, Fault> {
    match word {
        "text" => Ok(Listening::Comes(Message::Other)),
        "quiet" => Ok(Listening::Quiet),
        "later" => Ok(Listening::Later),
        "fails" => Ok(Listening::Fails),
        _ => Err(Fault::Line),
    }
}

// Puts the listenings of a line last in a list.
fn push_listenings(listenings: &mut Vec<Listening>, words: &str) -> Result<(), Fault> {
    for word in words.split(' ') {
        listenings.push(listening_of(word)?)?;
    }
    Ok(())
}

// What comes next over the last caller's WebSocket.
fn hear_of_talk(case: &mut Case, word: &str, rest: &str) -> Result<(), Fault> {
    let Some(talk) = case.talks.last_mut() else {
        return Err(Fault::Line);
    };
    let message = match word {
        "says" => request_of(case.alloc, rest)?,
        "said" => text_of(case.alloc, rest)?,
        _ => return push_listenings(talk, rest),
    };
    talk.push(Listening::Comes(Message::Binary(message)))?;
    Ok(())
}

// The last caller is told something: a message of its own where it came over a WebSocket.
fn hear_told(case: &mut Case, rest: &str) -> Result<(), Fault> {
    let frame = frame_of(case.alloc, rest)?;
    if case.play != Play::Web {
        return push_last(&mut case.told, &frame);
    }
    case.told.push(frame)?;
    Ok(())
}

// Something else happens at the door.
fn hear_of_door(case: &mut Case, what: &str) -> Result<(), Fault> {
    match what {
        "nobody" => case.door.visits.push(Visit::Nobody)?,
        "fails" => case.door.visits.push(Visit::Fails)?,
        "closed" => case.door.opens = false,
        "stays" => case.door.stays = true,
        _ => return Err(Fault::Line),
    }
    Ok(())
}

// The last caller stays behind what it sends.
fn hear_stays(case: &mut Case) -> Result<(), Fault> {
    case.caller()?.stays = true;
    Ok(())
}

// The link of the last caller is shut behind all others.
fn hear_last(case: &mut Case) -> Result<(), Fault> {
    case.last = (case.told.len() as u64).checked_sub(1);
    Ok(())
}

// How a call of a link moves.
fn move_of(word: &str) -> Result<Move, Fault> {
    match word {
        "later" => Ok(Move::Later),
        "fails" => Ok(Move::Fails),
        _ => Ok(Move::Most(number(word)? as usize)),
    }
}

// Puts the moves of a line last in a list.
fn push_moves(moves: &mut Vec<Move>, words: &str) -> Result<(), Fault> {
    for word in words.split(' ') {
        moves.push(move_of(word)?)?;
    }
    Ok(())
}

// Whom a wait names.
fn named_of(word: &str) -> Result<Named, Fault> {
    match word {
        "door" => Ok(Named::Door),
        "waker" => Ok(Named::Waker),
        "end" => Ok(Named::End),
        _ => match u32::try_from(number(word)?) {
            Ok(place) => Ok(Named::Link(place)),
            Err(_) => Err(Fault::Line),
        },
    }
}

// A wait names these.
fn hear_names(case: &mut Case, words: &str) -> Result<(), Fault> {
    let mut names = Vec::new(case.alloc);
    if !words.is_empty() {
        for word in words.split(' ') {
            names.push(named_of(word)?)?;
        }
    }
    case.waits.push(names)?;
    Ok(())
}

// Appends bytes to the last of some texts.
fn push_last(texts: &mut [Text], bytes: &Text) -> Result<(), Fault> {
    match texts.last_mut() {
        Some(text) => {
            text.push(bytes.bytes())?;
            Ok(())
        }
        None => Err(Fault::Line),
    }
}

// The last caller sends something, its link moves so, or it is written something.
fn hear_of_caller(case: &mut Case, word: &str, rest: &str) -> Result<(), Fault> {
    match word {
        "sends" => {
            let request = request_of(case.alloc, rest)?;
            case.caller()?.sends.extend_from_slice(request.bytes())?;
            Ok(())
        }
        "sent" => {
            let bytes = text_of(case.alloc, rest)?;
            case.caller()?.sends.extend_from_slice(bytes.bytes())?;
            Ok(())
        }
        "reads" => push_moves(&mut case.caller()?.reads, rest),
        "writes" => push_moves(&mut case.caller()?.writes, rest),
        _ => hear_told(case, rest),
    }
}

// The head of a side of an older version: that, and its generation.
fn push_old(case: &mut Case, rest: &str) -> Result<(), Fault> {
    let (version, generation) = split(rest)?;
    match u8::try_from(number(version)?) {
        Ok(version) => case.builder.push_head(version, number(generation)?),
        Err(_) => Err(Fault::Line),
    }
}

// A line that builds a side.
fn hear_building(case: &mut Case, word: &str, rest: &str) -> Result<(), Fault> {
    match word {
        "log" => case.builder.push_head(NEWEST, number(rest)?),
        "old" => push_old(case, rest),
        "batch" => case.builder.begin_batch(),
        "record" => case.builder.begin_record(rest),
        "more" => case.builder.push_more(rest),
        "bytes" => case.builder.push_bytes(rest),
        _ => case.builder.shut(),
    }
}

fn hear_setting(case: &mut Case, word: &str, rest: &str) -> Result<(), Fault> {
    match word {
        "words" => case.words = Some(text_of(case.alloc, rest)?),
        "status" => case.status = text_of(case.alloc, rest)?,
        "at" => case.moment = text_of(case.alloc, rest)?,
        "plays" => case.play = play_of(rest)?,
        _ => case.over = Over::Again,
    }
    Ok(())
}

// A line of a case: its first word, and the rest.
fn hear_split(case: &mut Case, word: &str, rest: &str) -> Result<(), Fault> {
    match word {
        "<" => push_line(&mut case.script, rest.as_bytes()),
        "=" => push_line(&mut case.output, rest.as_bytes()),
        "-" => hear_frame(case, rest),
        "part" => push_text(&mut case.output, rest),
        "last" => push_text(&mut case.script, rest),
        "feed" => hear_feed(case, rest),
        "cut" => hear_cut(case, rest),
        "words" | "status" | "at" | "plays" | "again" => hear_setting(case, word, rest),
        "fails" => hear_fails(case, rest),
        "crash" => hear_crash(case, rest),
        "log" | "old" | "batch" | "record" | "more" | "bytes" | "shut" => hear_building(
            case, word, rest,
        ),
        "begins" => hear_begins(case, rest),
        "leaves" => hear_leaves(case, rest),
        "length" => hear_length(case, rest),
        "under" => hear_under(case, rest),
        "caller" => hear_caller(case),
        "door" => hear_of_door(case, rest),
        "names" => hear_names(case, rest),
        "lasts" => hear_last(case),
        "stays" => hear_stays(case),
        "says" | "said" | "hears" => hear_of_talk(case, word, rest),
        "sends" | "sent" | "reads" | "writes" | "told" => hear_of_caller(case, word, rest),
        _ => hear_session(case, word, rest),
    }
}

/// A line of a case.
pub(crate) fn hear_line(case: &mut Case, line: &str) -> Result<(), Fault> {
    match line.split_once(' ') {
        Some((word, rest)) => hear_split(case, word, rest),
        None => hear_split(case, line, ""),
    }
}

// Appends a template in which `@` stands for a number.
fn push_filled(out: &mut Text, template: &str, number: u64) -> Result<(), Fault> {
    let mut is_first = true;
    for piece in template.split('@') {
        if !is_first {
            push_u64(out, number)?;
        }
        out.push(piece.as_bytes())?;
        is_first = false;
    }
    Ok(())
}

// Lines of a case between which a `;` stands.
fn hear_lines(case: &mut Case, lines: &str) -> Result<(), Fault> {
    for line in lines.split(';') {
        hear_line(case, line.trim_start())?;
    }
    Ok(())
}

// Lines of a case with a number in them.
fn hear_filled(case: &mut Case, template: &str, number: u64) -> Result<(), Fault> {
    let mut lines = Text::new(case.alloc);
    push_filled(&mut lines, template, number)?;
    match str::from_utf8(lines.bytes()) {
        Ok(lines) => hear_lines(case, lines),
        Err(_) => Err(Fault::Line),
    }
}

/// Lines for each number from one to another.
pub(crate) fn hear_each(case: &mut Case, rest: &str) -> Result<(), Fault> {
    let (first, rest) = split(rest)?;
    let (last, template) = split(rest)?;
    for number in number(first)?..number(last)?.saturating_add(1) {
        hear_filled(case, template, number)?;
    }
    Ok(())
}
