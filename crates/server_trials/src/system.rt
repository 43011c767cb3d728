//! The real things, over the loopback and in the current folder.

use outside::{
    Caller, Clock, Disk, Failed, Got, Kinds, MAX_MOMENT, Named, Port, ReadyDoor, ReadyLink, Sent,
    Side, Sink, Source, WaitForLinks, Wake,
};
use std::fs;
use std::io::{Read, Write};
use std::net::TcpStream;
use std::process::Abort;
use std::test::Fail;
use system_io::{FolderDisk, PollDoor, PollLink, PollWait, StdinSource, StdoutSink, WallClock};

// A door for links of these kinds at a port of this machine.
fn door_for(rt: &HostRuntime, addr: &str, kinds: Kinds) -> Result<PollDoor<HostRuntime>, Failed> {
    let mut door = PollDoor::new(*rt, rt.alloc());
    let port = Port {
        addr,
        kinds,
        origins: "http://map.example",
    };
    match door.listen(&port) {
        Ok(()) => Ok(door),
        Err(Failed) => Err(Failed),
    }
}

// One for plain links.
fn door_at(rt: &HostRuntime, addr: &str) -> Result<PollDoor<HostRuntime>, Failed> {
    door_for(rt, addr, Kinds::Plain)
}

// The link to the caller who waits at a door.
fn accepted(door: &mut PollDoor<HostRuntime>) -> Result<PollLink, Failed> {
    match door.accept() {
        Ok(Caller::Came(link)) => Ok(link),
        _ => Err(Failed),
    }
}

// A caller at the address of a door, and the door's end of the link to him.
fn call_at(
    rt: &HostRuntime,
    door: &mut PollDoor<HostRuntime>,
    addr: &str,
) -> Result<(TcpStream, PollLink), Fail> {
    let caller = TcpStream::connect(rt, addr)?;
    let link = accepted(door)?;
    Ok((caller, link))
}

#[test]
fn a_door_fails_where_it_cannot_listen(rt: HostRuntime) -> Result<(), Fail> {
    let mut door = PollDoor::new(rt, rt.alloc());
    assert!(rt; matches!(door.accept(), Err(Failed)));
    assert!(rt; door_at(&rt, "no address").is_err());
    Ok(())
}

#[test]
fn a_link_carries_bytes_both_ways_up_to_its_end(rt: HostRuntime) -> Result<(), Fail> {
    let addr = "127.0.0.1:39411";
    let mut door = door_at(&rt, addr)?;
    assert!(rt; matches!(door.accept(), Ok(Caller::Later)));
    let (mut caller, mut link) = call_at(&rt, &mut door, addr)?;
    let mut got = [b'.'; 2];
    assert_eq!(rt; link.read(&mut got), Ok(Got::Later));
    caller.write_all(b"ab")?;
    assert_eq!(rt; link.read(&mut got), Ok(Got::Bytes(2)));
    assert_eq!(rt; got, *b"ab");
    assert_eq!(rt; link.write(b"cd"), Ok(Sent::Bytes(2)));
    drop(link);
    assert_eq!(rt; caller.read(&mut got)?, 2);
    assert_eq!(rt; got, *b"cd");
    assert_eq!(rt; caller.read(&mut got)?, 0);
    Ok(())
}

// The fields of a request for a WebSocket, and the answer, by the example of RFC 6455, 1.3.
const UPGRADE: &[u8] = b"GET / HTTP/1.1\r\nHost: a\r\nConnection: Upgrade\r\nUpgrade: websocket\r\n\
    Sec-WebSocket-Version: 13\r\nSec-WebSocket-Key: dGhlIHNhbXBsZSBub25jZQ==\r\n";

const UPGRADED: &[u8] =
    b"HTTP/1.1 101 Switching Protocols\r\nUpgrade: websocket\r\nConnection: Upgrade\r\n\
    Sec-WebSocket-Accept: s3pPLMBiTxaQ9kYGzzhZRbK+xOo=\r\n\r\n";

// The rest of that request, and a masked binary message of one PING.
const ORIGIN_AND_PING: &[u8] = b"Origin: http://map.example\r\n\r\n\
    \x82\x8e\x00\x00\x00\x00*1\r\n$4\r\nPING\r\n";

// Looks at a door until somebody is let in, or for a while nobody is named.
fn let_in(
    door: &mut PollDoor<HostRuntime>,
    wait: &mut PollWait<HostRuntime>,
) -> Result<PollLink, Failed> {
    for _ in 0..100u32 {
        match door.accept() {
            Ok(Caller::Came(link)) => return Ok(link),
            Ok(Caller::Later) => {}
            _ => return Err(Failed),
        }
        if wait.wait(100) == Ok(0) {
            return Err(Failed);
        }
    }
    Err(Failed)
}

// Whether these bytes are the next that come to a caller.
fn comes(caller: &mut TcpStream, bytes: &[u8]) -> Result<bool, Fail> {
    let mut into = [0u8; 256];
    let room = bytes.len().min(into.len());
    caller.read_exact(&mut into[..room])?;
    Ok(into.starts_with(bytes))
}

// Whether a door does not let in a caller who says this, and answers him so.
fn is_answered(
    rt: &HostRuntime,
    door: &mut PollDoor<HostRuntime>,
    wait: &mut PollWait<HostRuntime>,
    addr: &str,
    says: &[&[u8]],
    answer: &[u8],
) -> Result<bool, Fail> {
    let mut caller = TcpStream::connect(rt, addr)?;
    for piece in says {
        caller.write_all(piece)?;
        if let_in(door, wait).is_ok() {
            return Ok(false);
        }
    }
    comes(&mut caller, answer)
}

// A watched door for links of these kinds at a port of this machine.
fn watched_for(
    rt: &HostRuntime,
    addr: &str,
    kinds: Kinds,
) -> Result<(PollDoor<HostRuntime>, PollWait<HostRuntime>), Fail> {
    let mut door = door_for(rt, addr, kinds)?;
    let mut wait = PollWait::new(*rt, rt.alloc())?;
    wait.watch_door(&mut door)?;
    Ok((door, wait))
}

#[test]
fn a_door_for_both_kinds_tells_them_apart(rt: HostRuntime) -> Result<(), Fail> {
    let addr = "127.0.0.1:39414";
    let (mut door, mut wait) = watched_for(&rt, addr, Kinds::Both)?;
    let silent = TcpStream::connect(&rt, addr)?;
    let mut plain = TcpStream::connect(&rt, addr)?;
    assert!(rt; let_in(&mut door, &mut wait).is_err());
    plain.write_all(b"*1")?;
    let mut link = let_in(&mut door, &mut wait)?;
    assert_eq!(rt; wait.watch(&mut link, 7), Ok(()));
    assert!(rt; is_named(&mut wait, Named::Link(7)));
    assert_eq!(rt; link.read(&mut [b'.'; 4]), Ok(Got::Bytes(2)));
    let strange = b"Origin: http://evil.example\r\n\r\n".as_slice();
    for (says, answer) in [
        (
            [b"GET / HTTP/1.1\r\n".as_slice(), b"\r\n"],
            b"HTTP/1.1 200 OK\r\n".as_slice(),
        ),
        (
            [b"GET /x HTTP/1.1\r\n", b"\r\n"],
            b"HTTP/1.1 404 Not Found\r\n",
        ),
        ([UPGRADE, strange], b"HTTP/1.1 403 Forbidden\r\n"),
    ] {
        assert!(rt; is_answered(&rt, &mut door, &mut wait, addr, says.as_slice(), answer)?);
    }
    drop(silent);
    Ok(())
}

#[test]
fn a_web_socket_is_a_link(rt: HostRuntime) -> Result<(), Fail> {
    let addr = "127.0.0.1:39415";
    let (mut door, mut wait) = watched_for(&rt, addr, Kinds::Web)?;
    let plain = [b"*1\r\n$4\r\nPING\r\n".as_slice()];
    let refusal = b"HTTP/1.1 400 Bad Request\r\n".as_slice();
    assert!(rt; is_answered(&rt, &mut door, &mut wait, addr, plain.as_slice(), refusal)?);
    let mut caller = TcpStream::connect(&rt, addr)?;
    caller.write_all(UPGRADE)?;
    assert!(rt; let_in(&mut door, &mut wait).is_err());
    caller.write_all(ORIGIN_AND_PING)?;
    let mut link = let_in(&mut door, &mut wait)?;
    assert!(rt; comes(&mut caller, UPGRADED)?);
    let mut into = [b'.'; 64];
    assert_eq!(rt; link.read(&mut into), Ok(Got::Bytes(14)));
    assert!(rt; into.starts_with(b"*1\r\n$4\r\nPING\r\n"));
    assert_eq!(rt; link.read(&mut into), Ok(Got::Later));
    assert_eq!(rt; link.write(b"+PONG\r\n:1\r\n"), Ok(Sent::Bytes(7)));
    assert!(rt; comes(&mut caller, b"\x82\x07+PONG\r\n")?);
    drop(link);
    assert!(rt; comes(&mut caller, b"\x88\x00")?);
    assert_eq!(rt; caller.read(&mut into)?, 0);
    Ok(())
}

// Writes pieces until the link takes no more for now. Whether it came to that.
fn is_filled(link: &mut PollLink) -> bool {
    let piece = [b'.'; 4_096];
    for _ in 0..100_000u32 {
        if let Ok(Sent::Later) = link.write(&piece) {
            return true;
        }
    }
    false
}

#[test]
fn a_write_to_a_caller_who_never_reads_waits_for_nobody(rt: HostRuntime) -> Result<(), Fail> {
    let addr = "127.0.0.1:39412";
    let mut door = door_at(&rt, addr)?;
    let (caller, mut link) = call_at(&rt, &mut door, addr)?;
    assert!(rt; is_filled(&mut link));
    drop(caller);
    Ok(())
}

// Waits until somebody is named, for ten seconds at most.
fn is_named(wait: &mut PollWait<HostRuntime>, name: Named) -> bool {
    for _ in 0..100u32 {
        let count = wait.wait(100).unwrap_or(0);
        if (0..count).any(|nth| wait.named(nth) == Some(name)) {
            return true;
        }
    }
    false
}

#[test]
fn a_wait_names_who_is_ready(rt: HostRuntime) -> Result<(), Fail> {
    let addr = "127.0.0.1:39413";
    let mut door = door_at(&rt, addr)?;
    let mut wait = PollWait::new(rt, rt.alloc())?;
    assert_eq!(rt; wait.watch_door(&mut door), Ok(()));
    let caller = TcpStream::connect(&rt, addr)?;
    assert!(rt; is_named(&mut wait, Named::Door));
    let mut link = accepted(&mut door)?;
    assert_eq!(rt; wait.watch(&mut link, 7), Ok(()));
    drop(caller);
    assert!(rt; is_named(&mut wait, Named::Link(7)));
    assert_eq!(rt; link.read(&mut [b'.'; 2]), Ok(Got::End));
    wait.waker()?.wake();
    assert!(rt; is_named(&mut wait, Named::Waker));
    Ok(())
}

#[test]
fn a_wall_clock_tells_milliseconds(rt: HostRuntime) {
    let now = WallClock::new(rt).twin().now();
    assert!(rt; now > 1_600_000_000_000 && now <= MAX_MOMENT);
}

// What stands behind a lock goes from thread to thread.
fn goes_to_threads<T: Send + Sync + 'static>(_thing: &T) {}

// Writes to a folder that is not there yet.
fn write_first(rt: &impl Abort, host: HostRuntime) -> Result<(), Fail> {
    let mut disk = FolderDisk::new(host);
    goes_to_threads(&disk);
    assert_eq!(rt; disk.len(Side::A), Ok(0));
    assert_eq!(rt; disk.write_at(Side::A, 3, b""), Ok(()));
    assert_eq!(rt; disk.write_at(Side::B, 2, b"vwxyz"), Ok(()));
    assert_eq!(rt; disk.write_at(Side::B, 3, b"W"), Ok(()));
    assert_eq!(rt; disk.cut(Side::B, 6), Ok(()));
    assert_eq!(rt; disk.cut(Side::B, 9), Ok(()));
    assert_eq!(rt; disk.sync(Side::B), Ok(()));
    Ok(())
}

// Reads what was written.
fn read_again(rt: &impl Abort, host: HostRuntime) -> Result<(), Fail> {
    let mut disk = FolderDisk::new(host);
    let mut into = [b'.'; 7];
    assert_eq!(rt; disk.read(Side::B, 1, &mut into), Ok(5));
    assert_eq!(rt; into, *b"\0vWxy..");
    assert_eq!(rt; disk.read(Side::B, 7, &mut into), Ok(0));
    assert_eq!(rt; (disk.len(Side::A), disk.len(Side::B)), (Ok(3), Ok(6)));
    Ok(())
}

// One disk at a time has the folder.
fn wait_for_the_lock(rt: &impl Abort, host: HostRuntime) -> Result<(), Fail> {
    let mut disk = FolderDisk::new(host);
    assert_eq!(rt; disk.len(Side::A), Ok(3));
    let mut other = FolderDisk::new(host);
    assert_eq!(rt; other.len(Side::A), Err(Failed));
    assert_eq!(rt; other.write_at(Side::A, 0, b"x"), Err(Failed));
    assert_eq!(rt; disk.len(Side::A), Ok(3));
    drop(disk);
    assert_eq!(rt; other.len(Side::A), Ok(3));
    Ok(())
}

// A side that is no file fails at each call.
fn fail_at_a_folder(rt: &impl Abort, host: HostRuntime) -> Result<(), Fail> {
    fs::remove_file(&host, "tile-data/b.log")?;
    fs::create_dir(&host, "tile-data/b.log")?;
    let mut disk = FolderDisk::new(host);
    let mut into = [b'.'; 7];
    assert_eq!(rt; disk.len(Side::B), Err(Failed));
    assert_eq!(rt; disk.read(Side::B, 0, &mut into), Err(Failed));
    assert_eq!(rt; disk.write_at(Side::B, 0, b"x"), Err(Failed));
    assert_eq!(rt; disk.cut(Side::B, 0), Err(Failed));
    assert_eq!(rt; disk.sync(Side::B), Err(Failed));
    Ok(())
}

#[test]
fn a_folder_keeps_a_disk(rt: HostRuntime) -> Result<(), Fail> {
    let _ = fs::remove_dir_all(&rt, "tile-data");
    write_first(&rt, rt)?;
    read_again(&rt, rt)?;
    wait_for_the_lock(&rt, rt)?;
    fail_at_a_folder(&rt, rt)?;
    Ok(fs::remove_dir_all(&rt, "tile-data")?)
}

// Makes the files of both sides.
fn folder_of(rt: &HostRuntime, a: &[u8], b: &[u8]) -> Result<(), Fail> {
    let _ = fs::remove_dir_all(rt, "tile-data");
    fs::create_dir(rt, "tile-data")?;
    fs::write(rt, "tile-data/a.log", a)?;
    Ok(fs::write(rt, "tile-data/b.log", b)?)
}

// What the first call of a disk over such files answers, and whether the files stay as they were.
fn first_call(rt: &HostRuntime, a: &[u8], b: &[u8]) -> Result<(Result<u64, Failed>, bool), Fail> {
    folder_of(rt, a, b)?;
    let mut disk = FolderDisk::new(*rt);
    let answer = disk.len(Side::A);
    let left = (
        fs::read(rt, "tile-data/a.log")?,
        fs::read(rt, "tile-data/b.log")?,
    );
    Ok((answer, left.0.as_slice() == a && left.1.as_slice() == b))
}

#[test]
fn a_log_whose_first_byte_rotted_is_left_alone(rt: HostRuntime) -> Result<(), Fail> {
    let shut = b"\0TFL\x01\0\0\0\0\0\0\0\0\0\0\x01\x01a";
    let open = b"\x01TFL\x01\0\0\0\0\0\0\0\0\0\0\x01\x01a";
    assert_eq!(rt; first_call(&rt, shut, b"")?, (Err(Failed), true));
    assert_eq!(rt; first_call(&rt, open, b"")?, (Ok(18), true));
    assert_eq!(rt; first_call(&rt, shut, b"\0")?, (Ok(18), true));
    assert_eq!(rt; first_call(&rt, &shut[..17], b"")?, (Ok(17), true));
    folder_of(&rt, shut, b"")?;
    let mut disk = FolderDisk::new(rt);
    assert_eq!(rt; disk.cut(Side::A, 17), Err(Failed));
    assert_eq!(rt; disk.sync(Side::A), Err(Failed));
    assert_eq!(rt;
        fs::read(&rt, "tile-data/a.log")?.as_slice(),
        shut.as_slice()
    );
    Ok(fs::remove_dir_all(&rt, "tile-data")?)
}

#[test]
fn a_source_gives_what_the_reader_has(rt: HostRuntime) -> Result<(), Fail> {
    let mut source = StdinSource::new(b"abc".as_slice());
    let mut into = [b'.'; 4];
    assert_eq!(rt; source.read(&mut into), Ok(3));
    assert_eq!(rt; into, *b"abc.");
    assert_eq!(rt; source.read(&mut into), Ok(0));
    Ok(())
}

#[test]
fn a_sink_fails_where_its_writer_takes_nothing(rt: HostRuntime) -> Result<(), Fail> {
    let mut room = [0u8; 3];
    let mut sink = StdoutSink::new(&mut room[..]);
    assert_eq!(rt; sink.write(b"abcd"), Ok(3));
    assert_eq!(rt; sink.write(b"d"), Err(Failed));
    assert_eq!(rt; sink.write(b""), Ok(0));
    Ok(())
}
