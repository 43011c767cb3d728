//! Two loops serve their callers on one hall.

use crate::crossed_waits::{CrossedWait, OtherLoop};
use crate::halls::hall_over;
use crate::requests::push_line;
use crate::seated::Seated;
use byte_text::{NoMemory, Text};
use outside::{
    BytesSink, CallerScript, DoorScript, Move, Named, PlainDisk, ScriptedDoor, ScriptedLink,
    ScriptedWait, Visit,
};
use std::alloc::Global;
use std::test::Fail;
use world_model::HallSplit;

// What the callers of the first loop ask: one listens, one reads, and one listens who comes when the other loop has
// ended.
const LISTENS: [&str; 3] = [
    "SETCHAN f WITHIN k FENCE DETECT enter BOUNDS 0 0 5 5",
    "SET k b POINT 3 4",
    "SUBSCRIBE f",
];

const READS: [&str; 1] = ["GET k a"];

const LISTENS_LATE: [&str; 1] = ["WITHIN k FENCE DETECT enter BOUNDS 0 0 5 5"];

// What the callers of the other loop ask: one listens, and one reads what the first loop set, and sets.
const LISTENS_THERE: [&str; 1] = ["WITHIN k FENCE DETECT enter BOUNDS 0 0 5 5"];

const SETS_THERE: [&str; 2] = ["GET k b", "SET k a POINT 1 2"];

// The end of each message, which tells where the object was set.
const PLACE: &str = r#""object":{"type":"Point","coordinates":[2,1]}}"#;

// What each of them is told, part by part. A live fence tells the number of its link's session: 1 and 2 are those of
// the first loop's callers, 3 and 4 those of the other's, and 5 that of the session by which the other loop takes the
// channel away that its live fence left.
const LISTENER: [&str; 7] = [
    ":1\r\n",
    "+OK\r\n",
    "*3\r\n$9\r\nsubscribe\r\n$1\r\nf\r\n:1\r\n",
    "*3\r\n$7\r\nmessage\r\n$1\r\nf\r\n$110\r\n",
    r#"{"command":"set","detect":"enter","hook":"f","key":"k","id":"a","#,
    PLACE,
    "\r\n",
];

const READER: [&str; 1] = ["$36\r\n{\"type\":\"Point\",\"coordinates\":[2,1]}\r\n"];

const LATE_LISTENER: [&str; 2] = [":1\r\n", "*3\r\n$9\r\nsubscribe\r\n$6\r\nlive/6\r\n:1\r\n"];

const LISTENER_THERE: [&str; 6] = [
    ":1\r\n",
    "*3\r\n$9\r\nsubscribe\r\n$6\r\nlive/3\r\n:1\r\n",
    "$115\r\n",
    r#"{"command":"set","detect":"enter","hook":"live/3","key":"k","id":"a","#,
    PLACE,
    "\r\n",
];

const SETTER_THERE: [&str; 2] = [
    "$36\r\n{\"type\":\"Point\",\"coordinates\":[4,3]}\r\n",
    "+OK\r\n",
];

// A caller who asks so, and whose link is read so; behind that it is at its end.
fn caller(alloc: Global, lines: &[&str], reads: Vec<Move>) -> Result<Visit, NoMemory> {
    let mut text = Text::new(alloc);
    for line in lines {
        push_line(&mut text, line)?;
    }
    Ok(Visit::Comes(CallerScript {
        sends: text.bytes().to_vec(alloc)?,
        stays: false,
        reads,
        writes: Vec::new(alloc),
    }))
}

// A door of which nobody comes any more behind these.
fn door_of(alloc: Global, visits: Vec<Visit>) -> ScriptedDoor {
    let script = DoorScript {
        visits,
        stays: false,
        opens: true,
    };
    ScriptedDoor::new(alloc, script)
}

fn sink(alloc: Global) -> BytesSink {
    BytesSink::new(alloc, usize::MAX, Vec::new(alloc))
}

// The callers of the first loop. The one who listens is at the end of his link at the third look at it, the request of
// the one who reads comes with the second look at his link, and the last one comes when the door is named.
fn first_door(alloc: Global) -> Result<ScriptedDoor, NoMemory> {
    let once = vec![in alloc; Move::Most(usize::MAX), Move::Later]?;
    let second = vec![in alloc; Move::Later]?;
    let listens = caller(alloc, &LISTENS, once)?;
    let reads = caller(alloc, &READS, second)?;
    let late = caller(alloc, &LISTENS_LATE, Vec::new(alloc))?;
    let visits = vec![in alloc; listens, reads, Visit::Nobody, late]?;
    Ok(door_of(alloc, visits))
}

// Two waits of the first loop name nobody; in the second of them the other loop is served, and behind it who listens is
// looked at once more. The third names the door and both links, and those that follow name all.
fn first_wait(alloc: Global) -> Result<ScriptedWait, NoMemory> {
    let all = vec![in alloc; Named::Door, Named::Link(1), Named::Link(0)]?;
    let waits = vec![in alloc; Vec::new(alloc), Vec::new(alloc), all]?;
    ScriptedWait::new(alloc, waits)
}

// The other loop. Each of its waits names all.
fn other_loop(alloc: Global, seated: Seated<'_>) -> Result<OtherLoop<'_>, NoMemory> {
    let once = vec![in alloc; Move::Most(usize::MAX), Move::Later]?;
    let listens = caller(alloc, &LISTENS_THERE, once)?;
    let sets = caller(alloc, &SETS_THERE, Vec::new(alloc))?;
    let visits = vec![in alloc; listens, sets]?;
    let wait = ScriptedWait::new(alloc, Vec::new(alloc))?;
    let door = door_of(alloc, visits);
    Ok(OtherLoop::new(alloc, seated, door, wait, sink(alloc)))
}

// Whether a caller was written these parts, and nothing else.
fn is_told(
    alloc: Global,
    links: &[ScriptedLink],
    caller: u64,
    parts: &[&str],
) -> Result<bool, NoMemory> {
    let mut told = Text::new(alloc);
    for part in parts {
        told.push(part.as_bytes())?;
    }
    for link in links {
        if link.caller() == caller {
            return Ok(link.written() == told.bytes());
        }
    }
    Ok(false)
}

// Whether each caller of the first loop was told what is due.
fn first_are_told(alloc: Global, links: &[ScriptedLink]) -> Result<bool, NoMemory> {
    Ok(
        is_told(alloc, links, 0, &LISTENER)?
            && is_told(alloc, links, 1, &READER)?
            && is_told(alloc, links, 2, &LATE_LISTENER)?,
    )
}

// Whether each caller of the other loop was.
fn others_are_told(alloc: Global, links: &[ScriptedLink]) -> Result<bool, NoMemory> {
    Ok(is_told(alloc, links, 0, &LISTENER_THERE)? && is_told(alloc, links, 1, &SETTER_THERE)?)
}

#[test]
fn what_one_loop_sets_another_tells_and_reads(rt: HostRuntime) -> Result<(), Fail> {
    let alloc = rt.alloc();
    let (hall, mut seat) = hall_over(alloc, PlainDisk::new(alloc))?;
    let other = other_loop(alloc, Seated::new(&hall, hall.split(&mut seat)))?;
    let mut first = Seated::new(&hall, seat);
    let mut door = first_door(alloc)?;
    let mut lines = sink(alloc);
    let mut wait = CrossedWait::new(&rt, first_wait(alloc)?, 1, other);
    let status = first.serve(&rt, alloc, &mut lines, &mut door, &mut wait);
    assert_eq!(rt; status, 0);
    assert_eq!(rt; lines.written(), b"listening door\nserved 3\n".as_slice());
    assert!(rt; first_are_told(alloc, wait.shut_links())?);
    let other = &wait.other;
    assert_eq!(rt; other.status, Some(0));
    assert_eq!(rt;
        other.sink.written(),
        b"listening door\nserved 2\n".as_slice()
    );
    assert!(rt; others_are_told(alloc, other.wait.shut_links())?);
    // The seventh number took away the channel of the late listener.
    assert_eq!(rt; first.enter(&rt), Ok(8));
    Ok(())
}
