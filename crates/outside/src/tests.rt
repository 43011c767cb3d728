//! Links, a door and one that waits, as scripts have them.

use crate::{
    Caller, CallerScript, DoorScript, Failed, Got, Kinds, Move, Named, Port, ReadyDoor, ReadyLink,
    ScriptedDoor, ScriptedLink, ScriptedWait, Sent, Visit, WaitForLinks, Wake,
};
use std::alloc::{AllocError, Global};
use std::test::Fail;

// A caller who sends this, by such reads and writes.
fn script(
    alloc: Global,
    sends: &[u8],
    stays: bool,
    reads: &[Move],
    writes: &[Move],
) -> Result<CallerScript, AllocError> {
    Ok(CallerScript {
        sends: sends.to_vec(alloc)?,
        stays,
        reads: reads.to_vec(alloc)?,
        writes: writes.to_vec(alloc)?,
    })
}

// An address, with links of both kinds.
fn port(addr: &str) -> Port<'_> {
    Port {
        addr,
        kinds: Kinds::Both,
        origins: "",
    }
}

#[test]
fn a_read_moves_as_the_script_says(rt: HostRuntime) -> Result<(), Fail> {
    let alloc = rt.alloc();
    let moves = [Move::Most(2), Move::Later, Move::Fails, Move::Most(0)];
    for (stays, last) in [(false, Got::End), (true, Got::Later)] {
        let mut link = ScriptedLink::new(alloc, 0, script(alloc, b"abcdefgh", stays, &moves, &[])?);
        let mut into = [b'.'; 4];
        for (answer, after) in [
            (Ok(Got::Bytes(2)), *b"ab.."),
            (Ok(Got::Later), *b"ab.."),
            (Err(Failed), *b"ab.."),
            (Ok(Got::Later), *b"ab.."),
            (Ok(Got::Bytes(4)), *b"cdef"),
            (Ok(Got::Bytes(2)), *b"ghef"),
            (Ok(last), *b"ghef"),
            (Ok(last), *b"ghef"),
        ] {
            assert_eq!(rt; link.read(&mut into), answer);
            assert_eq!(rt; into, after);
        }
    }
    Ok(())
}

#[test]
fn a_write_moves_as_the_script_says(rt: HostRuntime) -> Result<(), Fail> {
    let alloc = rt.alloc();
    let moves = [Move::Most(1), Move::Later, Move::Most(0), Move::Fails];
    let mut link = ScriptedLink::new(alloc, 0, script(alloc, b"", true, &[], &moves)?);
    for (piece, answer, held) in [
        (b"abc", Ok(Sent::Bytes(1)), b"a".as_slice()),
        (b"xyz", Ok(Sent::Later), b"a".as_slice()),
        (b"xyz", Ok(Sent::Later), b"a".as_slice()),
        (b"xyz", Err(Failed), b"a".as_slice()),
        (b"bcd", Ok(Sent::Bytes(3)), b"abcd".as_slice()),
    ] {
        assert_eq!(rt; link.write(piece), answer);
        assert_eq!(rt; link.written(), held);
    }
    Ok(())
}

#[test]
fn callers_come_as_the_script_says(rt: HostRuntime) -> Result<(), Fail> {
    let alloc = rt.alloc();
    let visits = Vec::from_array(
        alloc,
        [
            Visit::Nobody,
            Visit::Comes(script(alloc, b"a", false, &[], &[])?),
            Visit::Fails,
            Visit::Comes(script(alloc, b"b", false, &[], &[])?),
        ],
    )?;
    let mut door = ScriptedDoor::new(
        alloc,
        DoorScript {
            visits,
            stays: false,
            opens: true,
        },
    );
    assert!(rt; door.listen(&port("127.0.0.1:9851")).is_ok());
    let mut callers = Vec::new(alloc);
    let mut seen = Vec::new(alloc);
    for _ in 0..5u32 {
        seen.push(match door.accept() {
            Ok(Caller::Came(link)) => {
                callers.push(link.caller())?;
                'c'
            }
            Ok(Caller::Later) => 'l',
            Ok(Caller::Over) => 'o',
            Err(Failed) => 'f',
        })?;
    }
    assert_eq!(rt; seen.as_slice(), ['l', 'c', 'f', 'c', 'o'].as_slice());
    assert_eq!(rt; callers.as_slice(), [0u64, 1].as_slice());
    Ok(())
}

#[test]
fn waits_name_whom_the_script_lists(rt: HostRuntime) -> Result<(), Fail> {
    let alloc = rt.alloc();
    let none = Vec::new(alloc);
    let wrong = Vec::from_array(alloc, [Named::Link(7), Named::Link(7), Named::Waker])?;
    let mut wait = ScriptedWait::new(alloc, Vec::from_array(alloc, [none, wrong])?)?;
    let mut door = ScriptedDoor::new(
        alloc,
        DoorScript {
            visits: Vec::new(alloc),
            stays: true,
            opens: false,
        },
    );
    let mut link = ScriptedLink::new(alloc, 0, script(alloc, b"", true, &[], &[])?);
    assert!(rt; door.listen(&port("here")).is_err());
    assert!(rt; wait.watch_door(&mut door).is_ok());
    assert!(rt; wait.watch(&mut link, 3).is_ok());
    for names in [
        [].as_slice(),
        [Named::Link(7), Named::Link(7), Named::Waker].as_slice(),
        [Named::Door, Named::Link(3)].as_slice(),
        [Named::Door, Named::Link(3)].as_slice(),
    ] {
        assert_eq!(rt; wait.wait(0), Ok(names.len()));
        for nth in 0..4 {
            assert_eq!(rt; wait.named(nth), names.get(nth).copied());
        }
    }
    assert!(rt; matches!(door.accept(), Ok(Caller::Later)));
    wait.waker()?.wake();
    assert_eq!(rt; wait.wakes(), 1);
    assert_eq!(rt; link.write(b"bye"), Ok(Sent::Bytes(3)));
    assert!(rt; wait.shut(link).is_ok());
    assert_eq!(rt; wait.shut_links().len(), 1);
    assert!(rt;
        wait.shut_links()
            .iter()
            .all(|link| link.written() == b"bye".as_slice())
    );
    Ok(())
}
