//! Sessions over links in memory, stepped to their ends. Each request is one word, and is answered by it.

ghost use Rattle.std.specs.Prelude.{◌≡◌};
ghost use Rattle.session_run.specs.Sessions.{WantsTurn};

use crate::{InEnd, Session, TakeEnd};
use outside::{CallerScript, Move, ScriptedLink};
use repl_stream::Part;
use std::alloc::{AllocError, Global};
use std::test::Fail;
use world_model::{Answers, Asked, CallOutcome, Frames, Taken};

// What came of a session.
#[derive(Drop)]
struct Played {
    /// How many requests each turn carried.
    turns: Vec<usize>,
    asking: Option<InEnd>,
    taking: Option<TakeEnd>,
    written: Vec<u8>,
}

// Makes the calls of a turn: at most so many are answered Ok, and the next one Full.
fn answer(
    session: &mut Session<ScriptedLink>,
    most: usize,
    turns: &mut Vec<usize>,
    frames: &mut Frames,
) -> Result<(), Fail>
    requires { WantsTurn session.old }
{
    let asked = session.move_asked();
    turns.push(asked.len())?;
    let served = asked.len().min(most);
    for i in 0..served {
        match asked.at(i) {
            Asked::Words(request) if request.words() > 0 && frames.has_place() => {
                frames.put(request.word(0))?;
            }
            Asked::Broken(_) if frames.has_place() => frames.put(b"!")?,
            _ => return Err(Fail::from(AllocError)),
        }
    }
    let end = if served == asked.len() {
        CallOutcome::Ok
    } else {
        CallOutcome::Full
    };
    session.on_answered(asked, Answers { served, end });
    Ok(())
}

// What a take answers that gives these frames.
fn taken(session: &Session<ScriptedLink>, frames: &Frames) -> Taken {
    if !frames.is_empty() {
        Taken::Some(frames.len())
    } else if session.end_of_asking().is_some() {
        Taken::Ended
    } else {
        Taken::Empty
    }
}

// Steps a session until it is over.
fn play(alloc: Global, script: CallerScript, most: usize) -> Result<Played, Fail> {
    let mut session = Session::new(alloc, ScriptedLink::new(alloc, 0, script), 7);
    let mut frames = Frames::new(alloc)?;
    let mut turns = Vec::new(alloc);
    let mut block = [0; 4096];
    for _ in 0..10_000u32 {
        if session.wants_to_read() {
            let _ = session.on_readable(&mut block);
        }
        frames.clear();
        if session.wants_turn() {
            answer(&mut session, most, &mut turns, &mut frames)?;
        }
        if session.wants_take() {
            session.on_taken(taken(&session, &frames), &frames);
        }
        if session.wants_to_write() {
            let _ = session.on_writable();
        }
        if session.is_over() {
            break;
        }
    }
    let asking = session.end_of_asking();
    let taking = session.end_of_taking();
    let written = session.into_link().written().to_vec(alloc)?;
    Ok(Played {
        turns,
        asking,
        taking,
        written,
    })
}

// A caller who sends a request for each of these bytes, and this behind them.
fn caller(
    alloc: Global,
    words: &[u8],
    behind: &[u8],
    reads: &[Move],
    writes: &[Move],
) -> Result<CallerScript, AllocError> {
    let mut sends = Vec::new(alloc);
    for word in words {
        sends.extend_from_slice(b"*1\r\n$1\r\n")?;
        sends.push(*word)?;
        sends.extend_from_slice(b"\r\n")?;
    }
    sends.extend_from_slice(behind)?;
    Ok(CallerScript {
        sends,
        stays: false,
        reads: reads.to_vec(alloc)?,
        writes: writes.to_vec(alloc)?,
    })
}

#[test]
fn sessions_end_as_their_links_do(rt: HostRuntime) -> Result<(), Fail> {
    let alloc = rt.alloc();
    let all = [].as_slice();
    let in_order = Some(TakeEnd::Ended);
    for (behind, reads, writes, most, turns, asking, taking, written) in [
        // All is well.
        (
            b"".as_slice(),
            all,
            all,
            64,
            [3].as_slice(),
            Some(InEnd::Over),
            in_order,
            b"abc".as_slice(),
        ),
        // Nothing is asked of a request that does not end.
        (
            b"*1\r\n$1\r\nd",
            all,
            all,
            64,
            &[3],
            Some(InEnd::Over),
            in_order,
            b"abc",
        ),
        // The protocol is broken, in a block with requests before it.
        (
            b"*x",
            all,
            all,
            64,
            &[4],
            Some(InEnd::Broken),
            in_order,
            b"abc!",
        ),
        // Full, twice.
        (
            b"",
            all,
            all,
            1,
            &[3, 2, 1],
            Some(InEnd::Over),
            in_order,
            b"abc",
        ),
        // Reading fails behind the first request, with the second begun.
        (
            b"",
            &[Move::Most(15), Move::Fails],
            all,
            64,
            &[1],
            Some(InEnd::ReadFault),
            in_order,
            b"a",
        ),
        // Writing fails in the middle of the output.
        (
            b"",
            all,
            &[Move::Most(2), Move::Later, Move::Fails],
            64,
            &[3],
            None,
            Some(TakeEnd::WriteFault),
            b"ab",
        ),
    ] {
        let played = play(alloc, caller(alloc, b"abc", behind, reads, writes)?, most)?;
        assert_eq!(rt; played.turns.as_slice(), turns);
        assert_eq!(rt; played.asking, asking);
        assert_eq!(rt; played.taking, taking);
        assert_eq!(rt; played.written.as_slice(), written);
    }
    Ok(())
}

#[test]
fn requests_and_frames_are_cut_anywhere(rt: HostRuntime) -> Result<(), Fail> {
    let alloc = rt.alloc();
    let by_one = [
        Move::Most(1),
        Move::Later,
        Move::Most(1),
        Move::Most(1),
        Move::Later,
        Move::Most(1),
    ];
    for cut in 1..34usize {
        let reads = [Move::Later, Move::Most(cut), Move::Later];
        let played = play(alloc, caller(alloc, b"abc", b"", &reads, &by_one)?, 64)?;
        assert_eq!(rt; played.asking, Some(InEnd::Over));
        assert_eq!(rt; played.taking, Some(TakeEnd::Ended));
        assert_eq!(rt; played.written.as_slice(), b"abc".as_slice());
    }
    Ok(())
}

#[test]
fn a_turn_carries_63_requests_and_the_next_ones_the_rest(rt: HostRuntime) -> Result<(), Fail> {
    let alloc = rt.alloc();
    for (count, most, turns) in [
        (63u8, 64, [63].as_slice()),
        (64, 64, &[63, 1]),
        (130, 64, &[63, 63, 4]),
        (65, 62, &[63, 1, 2]),
    ] {
        let mut words = Vec::new(alloc);
        for word in 0..count {
            words.push(word)?;
        }
        let played = play(alloc, caller(alloc, &words, b"", &[], &[])?, most)?;
        assert_eq!(rt; played.turns.as_slice(), turns);
        assert_eq!(rt; played.written.as_slice(), words.as_slice());
    }
    Ok(())
}

// A live search.
const SEARCH: &[u8] =
    b"*8\r\n$6\r\nwithin\r\n$5\r\nfleet\r\n$5\r\nfence\r\n$6\r\nBOUNDS\r\n$1\r\n0\r\n$1\r\n0\r\n$2\r\n10\r\n\
$2\r\n10\r\n";

#[test]
fn a_live_search_is_two_requests_of_one_turn(rt: HostRuntime) -> Result<(), Fail> {
    let alloc = rt.alloc();
    for (count, turns) in [
        (0u8, [2].as_slice()),
        (62, &[64]),
        (63, &[63, 2]),
        (64, &[63, 3]),
    ] {
        let mut words = Vec::new(alloc);
        for word in 0..count {
            words.push(word)?;
        }
        let played = play(alloc, caller(alloc, &words, SEARCH, &[], &[])?, 64)?;
        assert_eq!(rt; played.turns.as_slice(), turns);
        words.extend_from_slice(b"SETCHANSUBSCRIBE")?;
        assert_eq!(rt; played.written.as_slice(), words.as_slice());
    }
    Ok(())
}

#[test]
fn of_its_live_fence_the_payloads_alone_are_shown(rt: HostRuntime) -> Result<(), Fail> {
    let alloc = rt.alloc();
    let script = caller(alloc, b"", SEARCH, &[], &[])?;
    let mut session = Session::new(alloc, ScriptedLink::new(alloc, 0, script), 7);
    let mut frames = Frames::new(alloc)?;
    for frame in [
        b"*3\r\n$7\r\nmessage\r\n$6\r\nlive/7\r\n$2\r\n{}\r\n".as_slice(),
        b"*3\r\n$7\r\nmessage\r\n$6\r\nlive/8\r\n$1\r\na\r\n",
        b"*4\r\n$8\r\npmessage\r\n$1\r\n*\r\n$6\r\nlive/7\r\n$1\r\nb\r\n",
        b"$0\r\n\r\n",
    ] {
        if frames.has_place() {
            frames.put(frame)?;
        }
    }
    if session.wants_take() {
        session.on_taken(taken(&session, &frames), &frames);
    }
    if session.wants_to_write() {
        let _ = session.on_writable();
    }
    assert!(rt; !session.is_fenced());
    let mut block = [0; 4096];
    if session.wants_to_read() {
        let _ = session.on_readable(&mut block);
    }
    frames.clear();
    let mut turns = Vec::new(alloc);
    if session.wants_turn() {
        answer(&mut session, 64, &mut turns, &mut frames)?;
    }
    assert!(rt; session.is_fenced());
    assert_eq!(rt;
        session.into_link().written(),
        b"$2\r\n{}\r\n*3\r\n$7\r\nmessage\r\n$6\r\nlive/8\r\n$1\r\na\r\n\
*4\r\n$8\r\npmessage\r\n$1\r\n*\r\n$6\r\nlive/7\r\n$1\r\nb\r\n$0\r\n\r\n"
            .as_slice()
    );
    Ok(())
}

#[test]
fn a_part_of_the_log_is_written_as_its_text(rt: HostRuntime) -> Result<(), Fail> {
    let alloc = rt.alloc();
    let script = caller(alloc, b"a", b"", &[], &[Move::Most(20), Move::Later])?;
    let mut session = Session::new(alloc, ScriptedLink::new(alloc, 0, script), 7);
    let mut block = [0; 4096];
    if session.wants_to_read() {
        let _ = session.on_readable(&mut block);
    }
    if session.wants_turn() {
        let asked = session.move_asked();
        if asked.len() == 1 {
            let end = CallOutcome::Ok;
            session.on_answered(asked, Answers { served: 1, end });
        }
    }
    let part = Part {
        generation: 3,
        from: 8,
        end: 4000,
    };
    if session.wants_take() {
        session.on_part(&part, b"ab\r\n");
    }
    for _ in 0..3u32 {
        assert!(rt; !session.wants_take());
        if session.wants_to_write() {
            let _ = session.on_writable();
        }
    }
    assert!(rt; session.wants_take());
    assert_eq!(rt; session.end_of_taking(), None);
    assert_eq!(rt;
        session.into_link().written(),
        b"*5\r\n$4\r\nPART\r\n$1\r\n3\r\n$1\r\n8\r\n$4\r\n4000\r\n$4\r\nab\r\n\r\n".as_slice()
    );
    Ok(())
}

// A session of which a request and a half was read, and the first one is answered.
fn begun(alloc: Global, writes: &[Move]) -> Result<Session<ScriptedLink>, Fail> {
    let script = caller(alloc, b"ab", b"", &[Move::Most(15)], writes)?;
    let mut session = Session::new(alloc, ScriptedLink::new(alloc, 0, script), 7);
    let mut frames = Frames::new(alloc)?;
    let mut turns = Vec::new(alloc);
    let mut block = [0; 4096];
    if session.wants_to_read() {
        let _ = session.on_readable(&mut block);
    }
    if session.wants_turn() {
        answer(&mut session, 64, &mut turns, &mut frames)?;
    }
    if session.wants_take() {
        session.on_taken(taken(&session, &frames), &frames);
    }
    Ok(session)
}

#[test]
fn the_server_dismisses_and_cuts(rt: HostRuntime) -> Result<(), Fail> {
    let alloc = rt.alloc();
    let none = Frames::new(alloc)?;
    let mut session = begun(alloc, &[])?;
    if session.may_be_dismissed() {
        session.dismiss();
    }
    if session.wants_to_write() {
        let _ = session.on_writable();
    }
    if session.wants_take() {
        session.on_taken(taken(&session, &none), &none);
    }
    assert!(rt; session.is_over());
    assert_eq!(rt; session.end_of_asking(), Some(InEnd::Dismissed));
    assert_eq!(rt; session.end_of_taking(), Some(TakeEnd::Ended));
    assert_eq!(rt; session.into_link().written(), b"a".as_slice());

    let mut session = begun(alloc, &[Move::Later])?;
    if session.wants_to_write() {
        let _ = session.on_writable();
    }
    assert!(rt; !session.is_over());
    if session.end_of_taking().is_none() {
        session.cut();
    }
    assert!(rt; session.is_over());
    assert_eq!(rt; session.end_of_taking(), Some(TakeEnd::Late));
    assert_eq!(rt; session.into_link().written(), b"".as_slice());
    Ok(())
}
