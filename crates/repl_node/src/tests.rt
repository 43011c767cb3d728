//! Nodes that hear parts of logs in memory, and followers of leaders over links in memory.

use crate::{FollowEnd, Follower, HearFault, Heard, Node, Phase};
use byte_text::{Name, NoMemory, Text, push_array_head, push_bulk, push_u64};
use outside::{CallerScript, Move, ScriptedLink};
use repl_stream::{Ask, MAX_PART, Part, push_part};
use std::alloc::Global;
use std::process::Abort;
use std::test::Fail;

// The batches of a log, one a line; its records are parted by ` ; `.
const POINTS: &str = r#"
    SET k a OBJECT {"type":"Point","coordinates":[2,1]}
    DEL k a
"#;

const MORE_POINTS: &str = r#"
    SET k a OBJECT {"type":"Point","coordinates":[2,1]} ; SET k b OBJECT {"type":"Point","coordinates":[3,1]}
    SET l a OBJECT {"type":"Point","coordinates":[2,1]}
    DROP k ; SET k c OBJECT {"type":"Point","coordinates":[2,4]}
"#;

const WORDS: &str = "
    SET k
";

const NOTHING: &str = "";

// A part and how many bytes it has, and what comes of it: the answer, the objects of the published world, and the place
// from which the node asks then.
#[derive(Drop)]
struct Case {
    part: Part,
    bytes: usize,
    answer: Result<Heard, HearFault>,
    objects: u64,
    from: u64,
}

const fn step(
    part: [u64; 3],
    bytes: usize,
    answer: Result<Heard, HearFault>,
    objects: u64,
    from: u64,
) -> Case {
    Case {
        part: Part {
            generation: part[0],
            from: part[1],
            end: part[2],
        },
        bytes,
        answer,
        objects,
        from,
    }
}

const OLD: Result<Heard, HearFault> = Ok(Heard::Old);

const MORE: Result<Heard, HearFault> = Ok(Heard::More);

const PUBLISHED: Result<Heard, HearFault> = Ok(Heard::Published);

const NOT_RECORDS: Result<Heard, HearFault> = Err(HearFault::NotRecords);

fn push_record(into: &mut Text, record: &str) -> Result<(), NoMemory> {
    push_array_head(into, record.split(' ').count())?;
    for word in record.split(' ') {
        push_bulk(into, word.as_bytes())?;
    }
    Ok(())
}

// The bytes of a log, from behind its header on.
fn log_of(alloc: Global, batches: &str) -> Result<Text, NoMemory> {
    let mut log = Text::new(alloc);
    for line in batches.trim().lines() {
        let mut batch = Text::new(alloc);
        for record in line.trim().split(" ; ") {
            push_record(&mut batch, record)?;
        }
        push_batch(&mut log, &batch)?;
    }
    Ok(log)
}

// Appends a batch behind an open gate and its length.
fn push_batch(log: &mut Text, batch: &Text) -> Result<(), NoMemory> {
    log.push(&[1])?;
    log.push(&(batch.len() as u64).to_be_bytes())?;
    log.push(batch.bytes())
}

// So many bytes of a log from a place on; what is missing there is left out.
fn piece(log: &Text, from: u64, count: usize) -> &[u8] {
    let bytes = log.bytes();
    let start = (from.saturating_sub(16) as usize).min(bytes.len());
    &bytes[start..start.saturating_add(count).min(bytes.len())]
}

// Whether a node answers each step so. The logs are those of generations 1, 2 and so on.
fn play(rt: &impl Abort, alloc: Global, logs: &[&str], steps: &[Case]) -> Result<(), Fail> {
    let mut node = Node::new(alloc);
    for (i, step) in steps.iter().enumerate() {
        let at = (step.part.generation.saturating_sub(1) as usize).min(logs.len());
        let log = log_of(alloc, logs.get(at).copied().unwrap_or(NOTHING))?;
        let answer = node.hear(&step.part, piece(&log, step.part.from, step.bytes));
        assert_eq!(rt; answer, step.answer, "at step {i}");
        assert_eq!(rt; node.objects(), step.objects, "at step {i}");
        assert_eq!(rt; node.channels(), 0, "at step {i}");
        assert_eq!(rt; node.ask().from, step.from, "at step {i}");
    }
    Ok(())
}

#[test]
fn a_log_is_followed(rt: HostRuntime) -> Result<(), Fail> {
    let steps = [
        step([1, 16, 107], 91, PUBLISHED, 1, 107),
        step([1, 107, 143], 36, PUBLISHED, 0, 143),
        step([1, 16, 107], 91, OLD, 0, 143),
        step([1, 143, 143], 0, PUBLISHED, 0, 143),
        step([2, 16, 16], 0, PUBLISHED, 0, 16),
        step([1, 143, 143], 0, OLD, 0, 16),
    ];
    play(&rt, rt.alloc(), &[POINTS, NOTHING], &steps)
}

#[test]
fn parts_are_lost_and_come_again(rt: HostRuntime) -> Result<(), Fail> {
    let steps = [
        step([1, 107, 143], 36, OLD, 0, 0),
        step([2, 189, 280], 91, OLD, 0, 0),
        step([2, 16, 280], 100, MORE, 0, 116),
        step([2, 16, 280], 100, OLD, 0, 116),
        step([1, 16, 107], 91, OLD, 0, 116),
        step([2, 116, 280], 164, PUBLISHED, 3, 280),
        step([2, 280, 392], 50, MORE, 3, 330),
        step([3, 16, 107], 40, MORE, 3, 56),
        step([2, 330, 392], 62, OLD, 3, 56),
        step([3, 56, 107], 51, PUBLISHED, 1, 107),
    ];
    play(&rt, rt.alloc(), &[POINTS, MORE_POINTS, POINTS], &steps)
}

#[test]
fn bytes_that_are_no_log_are_refused(rt: HostRuntime) -> Result<(), Fail> {
    let steps = [
        step([1, 16, 107], 91, PUBLISHED, 1, 107),
        step([1, 107, 106], 0, NOT_RECORDS, 1, 107),
        step([1, 107, 143], 0, NOT_RECORDS, 1, 107),
        step([1, 107, 142], 36, NOT_RECORDS, 1, 107),
        step([1, 107, 142], 35, NOT_RECORDS, 1, 107),
        step([1, 107, 114], 7, NOT_RECORDS, 1, 107),
        step([1, 107, 108], 1, NOT_RECORDS, 1, 107),
        step([2, 16, 45], 29, NOT_RECORDS, 1, 107),
        step([1, 107, u64::MAX], 36, MORE, 1, 143),
        step([1, 143, 143], 0, PUBLISHED, 0, 143),
    ];
    play(&rt, rt.alloc(), &[POINTS, WORDS], &steps)
}

// A node that heard the bytes of a first log in two parts.
fn heard_in_two(alloc: Global, log: &Text, cut: usize) -> Result<(Node, bool), Fail> {
    let end = 16u64.saturating_add(log.len() as u64);
    let mut node = Node::new(alloc);
    let mut are_so = true;
    for answer in [Heard::More, Heard::Published] {
        let Ask { from, .. } = node.ask();
        let from = from.max(16);
        let count = if answer == Heard::More {
            cut
        } else {
            log.len()
        };
        let part = Part {
            generation: 1,
            from,
            end,
        };
        are_so = are_so && node.hear(&part, piece(log, from, count)) == Ok(answer);
    }
    Ok((node, are_so))
}

#[test]
fn a_log_is_cut_anywhere(rt: HostRuntime) -> Result<(), Fail> {
    let alloc = rt.alloc();
    let log = log_of(alloc, MORE_POINTS)?;
    let key = Name::of(alloc, b"k")?;
    let id = Name::of(alloc, b"c")?;
    for cut in 1..log.len() {
        let (node, are_so) = heard_in_two(alloc, &log, cut)?;
        assert!(rt; are_so, "cut at {cut}");
        assert_eq!(rt; node.objects(), 2, "cut at {cut}");
        assert!(rt; node.get(&key, &id).is_some(), "cut at {cut}");
        assert_eq!(rt;
            node.published().place,
            16u64.saturating_add(log.len() as u64)
        );
    }
    Ok(())
}

// A number's digits behind one text and in front of another.
fn numbered(alloc: Global, front: &str, number: u64, behind: &str) -> Result<Text, NoMemory> {
    let mut text = Text::of(alloc, front.as_bytes())?;
    push_u64(&mut text, number)?;
    text.push(behind.as_bytes())?;
    Ok(text)
}

// Appends the batch that sets the object of a number, and takes out that of its half.
fn push_step(log: &mut Text, alloc: Global, number: u64) -> Result<(), NoMemory> {
    let id = numbered(alloc, "", number, "")?;
    let half = numbered(alloc, "", number / 2, "")?;
    let object = numbered(alloc, r#"{"type":"Point","coordinates":["#, number, ",1]}")?;
    let mut batch = Text::new(alloc);
    push_array_head(&mut batch, 5)?;
    for word in [
        b"SET",
        b"k".as_slice(),
        id.bytes(),
        b"OBJECT",
        object.bytes(),
    ] {
        push_bulk(&mut batch, word)?;
    }
    push_array_head(&mut batch, 3)?;
    for word in [b"DEL", b"k".as_slice(), half.bytes()] {
        push_bulk(&mut batch, word)?;
    }
    push_batch(log, &batch)
}

// Hears bytes of the first log that stand from a place on up to its end.
fn hear_to_end(node: &mut Node, from: u64, bytes: &[u8]) -> Result<Heard, HearFault> {
    let part = Part {
        generation: 1,
        from,
        end: from.saturating_add(bytes.len() as u64),
    };
    node.hear(&part, bytes)
}

// Whether two nodes show the same of the objects up to a number.
fn show_same(alloc: Global, one: &Node, other: &Node, last: u64) -> Result<bool, Fail> {
    let key = Name::of(alloc, b"k")?;
    for number in 0..=last {
        let digits = numbered(alloc, "", number, "")?;
        let id = Name::of(alloc, digits.bytes())?;
        let text = one.get(&key, &id).map(|o| o.text.bytes());
        if other.get(&key, &id).map(|o| o.text.bytes()) != text {
            return Ok(false);
        }
    }
    Ok(one.published() == other.published())
}

#[test]
fn a_log_grows_by_small_parts(rt: HostRuntime) -> Result<(), Fail> {
    let alloc = rt.alloc();
    let words = log_of(alloc, WORDS)?;
    let mut log = Text::new(alloc);
    let mut node = Node::new(alloc);
    for number in 0..100u64 {
        let from = 16u64.saturating_add(log.len() as u64);
        if number % 10 == 9 {
            // The next part is taken behind a fault.
            let answer = hear_to_end(&mut node, from, words.bytes());
            assert_eq!(rt; answer, NOT_RECORDS, "before {number}");
        }
        push_step(&mut log, alloc, number)?;
        let answer = hear_to_end(&mut node, from, piece(&log, from, log.len()));
        assert_eq!(rt; answer, PUBLISHED, "at {number}");
        assert_eq!(rt; node.objects(), number.abs_diff(number / 2), "at {number}");
        let mut whole = Node::new(alloc);
        assert_eq!(rt; hear_to_end(&mut whole, 16, log.bytes()), PUBLISHED);
        assert!(rt; show_same(alloc, &node, &whole, number)?, "at {number}");
    }
    Ok(())
}

// The asks of a node that has heard nothing, and behind these places of the first log.
const FIRST_ASK: &[u8] = b"*3\r\n$4\r\nFEED\r\n$1\r\n0\r\n$1\r\n0\r\n";

const ASKS_TO_116: &[u8] =
    b"*3\r\n$4\r\nFEED\r\n$1\r\n0\r\n$1\r\n0\r\n*3\r\n$4\r\nFEED\r\n$1\r\n1\r\n$3\r\n116\r\n";

const ASKS_TO_107: &[u8] =
    b"*3\r\n$4\r\nFEED\r\n$1\r\n0\r\n$1\r\n0\r\n*3\r\n$4\r\nFEED\r\n$1\r\n1\r\n$3\r\n107\r\n";

// What comes of a follower: how far it is, the objects of its world, and what it wrote.
type Outcome<'a> = (Phase, u64, &'a [u8]);

// Appends the text of a part of the first log with so many bytes, which stand from a place on up to an end.
fn push_piece(into: &mut Text, log: &Text, from: u64, end: u64, count: usize) -> Result<(), Fail> {
    let part = Part {
        generation: 1,
        from,
        end,
    };
    let bytes = piece(log, from, count);
    if bytes.len() <= MAX_PART {
        push_part(into, &part, bytes)?;
    }
    Ok(())
}

// Steps a follower to its end, or until it has published so often.
fn step_on(follower: &mut Follower<ScriptedLink>, times: usize) {
    let mut block = [0; 4096];
    let mut left = times;
    for _ in 0..10_000u32 {
        if follower.wants_to_write() {
            let _ = follower.on_writable();
        }
        if follower.wants_to_read() {
            let _ = follower.on_readable(&mut block);
        }
        if follower.is_published() {
            left = left.saturating_sub(1);
            if left == 0 {
                return;
            }
            follower.ask_again();
        }
        if matches!(follower.phase(), Phase::Ended(_)) {
            return;
        }
    }
}

// Whether this comes of a follower over a link on which this is sent and whose calls move so.
fn follow(
    rt: &impl Abort,
    alloc: Global,
    sends: &[u8],
    moves: (&[Move], &[Move]),
    times: usize,
    wanted: Outcome,
) -> Result<(), Fail> {
    let script = CallerScript {
        sends: sends.to_vec(alloc)?,
        stays: false,
        reads: moves.0.to_vec(alloc)?,
        writes: moves.1.to_vec(alloc)?,
    };
    let link = ScriptedLink::new(alloc, 0, script);
    let mut follower = Follower::new(alloc, link, Node::new(alloc));
    step_on(&mut follower, times);
    let (phase, objects, written) = wanted;
    assert_eq!(rt; follower.phase(), phase);
    assert_eq!(rt; follower.node().objects(), objects);
    let (link, node) = follower.into_parts();
    assert_eq!(rt; node.objects(), objects);
    assert_eq!(rt; link.written(), written);
    Ok(())
}

#[test]
fn answers_are_cut_anywhere(rt: HostRuntime) -> Result<(), Fail> {
    let alloc = rt.alloc();
    let log = log_of(alloc, MORE_POINTS)?;
    let mut sends = Text::new(alloc);
    push_piece(&mut sends, &log, 16, 392, 100)?;
    let first = sends.len();
    push_piece(&mut sends, &log, 116, 392, 276)?;
    let wanted = (Phase::Published, 2, ASKS_TO_116);
    for cut in 1..sends.len() {
        let reads = [Move::Most(cut.min(first)), Move::Most(cut.abs_diff(first))];
        follow(&rt, alloc, sends.bytes(), (&reads, &[]), 1, wanted)?;
    }
    let mut bytes = Vec::new(alloc);
    for _ in 0..sends.len() {
        bytes.push(Move::Most(1))?;
    }
    follow(&rt, alloc, sends.bytes(), (&bytes, &bytes), 1, wanted)
}

#[test]
fn followers_end_as_their_links_do(rt: HostRuntime) -> Result<(), Fail> {
    let alloc = rt.alloc();
    let log = log_of(alloc, POINTS)?;
    let mut part = Text::new(alloc);
    push_piece(&mut part, &log, 16, 107, 91)?;
    let part = part.bytes();
    let all = [].as_slice();
    let later = [Move::Later, Move::Most(3), Move::Later, Move::Most(40)];
    let fails = [Move::Most(5), Move::Fails];
    let bad = Phase::Ended(FollowEnd::BadPart);
    let over = Phase::Ended(FollowEnd::Over);
    let read_fault = Phase::Ended(FollowEnd::ReadFault);
    let write_fault = Phase::Ended(FollowEnd::WriteFault);
    for (sends, reads, writes, wanted) in [
        // All is well.
        (part, all, all, (Phase::Published, 1, FIRST_ASK)),
        (part, &later, &later, (Phase::Published, 1, FIRST_ASK)),
        // The link ends before a part, and in the middle of one.
        (b"", all, all, (over, 0, FIRST_ASK)),
        (&part[..part.len().min(100)], all, all, (over, 0, FIRST_ASK)),
        // It fails.
        (part, &fails, all, (read_fault, 0, FIRST_ASK)),
        (part, all, &fails, (write_fault, 0, &FIRST_ASK[..5])),
        // No part, and no request.
        (b"*1\r\n$4\r\nPING\r\n", all, all, (bad, 0, FIRST_ASK)),
        (b"PART", all, all, (bad, 0, FIRST_ASK)),
        (FIRST_ASK, all, all, (bad, 0, FIRST_ASK)),
    ] {
        follow(&rt, alloc, sends, (reads, writes), 1, wanted)?;
    }
    Ok(())
}

#[test]
fn one_part_answers_an_ask(rt: HostRuntime) -> Result<(), Fail> {
    let alloc = rt.alloc();
    let log = log_of(alloc, POINTS)?;
    let mut parts = Text::new(alloc);
    push_piece(&mut parts, &log, 16, 107, 91)?;
    let first = parts.len();
    push_piece(&mut parts, &log, 107, 143, 36)?;
    let sends = parts.bytes();
    let apart = [Move::Most(first)];
    let bad = Phase::Ended(FollowEnd::BadPart);
    // Each answers its ask.
    let wanted = (Phase::Published, 0, ASKS_TO_107);
    follow(&rt, alloc, sends, (&apart, &[]), 2, wanted)?;
    // Both come at once.
    follow(&rt, alloc, sends, (&[], &[]), 2, (bad, 0, FIRST_ASK))?;
    // The first one comes twice.
    let mut twice = Text::new(alloc);
    push_piece(&mut twice, &log, 16, 107, 91)?;
    push_piece(&mut twice, &log, 16, 107, 91)?;
    let wanted = (bad, 1, ASKS_TO_107);
    follow(&rt, alloc, twice.bytes(), (&apart, &[]), 2, wanted)
}

#[test]
fn a_part_of_no_records_is_bad(rt: HostRuntime) -> Result<(), Fail> {
    let alloc = rt.alloc();
    let log = log_of(alloc, WORDS)?;
    let end = 16u64.saturating_add(log.len() as u64);
    let mut sends = Text::new(alloc);
    push_piece(&mut sends, &log, 16, end, log.len())?;
    let wanted = (Phase::Ended(FollowEnd::BadPart), 0, FIRST_ASK);
    follow(&rt, alloc, sends.bytes(), (&[], &[]), 1, wanted)
}
