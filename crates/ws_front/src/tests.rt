//! Frames, links over conversations in memory, and a WebSocket over bytes.

use crate::{
    Answer, Greeting, Head, ListTalk, Listening, MAX_HEAD, Message, Said, Saying, Talk, TalkFault,
    Told, Upgrade, WebLink, WsTalk, answer_text, answer_to, frame_end, greet, is_allowed, own_page,
};
use byte_text::Text;
use outside::{Failed, Got, ReadyLink, Sent};
use std::alloc::Global;
use std::test::Fail;
use tungstenite::Duplex;

const PING: &[u8] = b"*1\r\n$4\r\nPING\r\n";

// The key that answers the one of RFC 6455, 1.3.
const ACCEPT: &[u8; 28] = b"s3pPLMBiTxaQ9kYGzzhZRbK+xOo=";

#[test]
fn a_frame_of_each_kind_is_cut_at_its_end(rt: HostRuntime) {
    for (bytes, end) in [
        (b"+OK\r\n+OK\r\n".as_slice(), Some(5)),
        (b"-ERR no such key\r\n".as_slice(), Some(18)),
        (b":-12\r\n:".as_slice(), Some(6)),
        (b":012\r\n".as_slice(), None),
        (b"$4\r\na\r\nb\r\n+".as_slice(), Some(10)),
        (b"$0\r\n\r\n$".as_slice(), Some(6)),
        (b"$-1\r\n$-1\r\n".as_slice(), Some(5)),
        (b"*-1\r\n*0\r\n".as_slice(), Some(5)),
        (b"*0\r\n:1\r\n".as_slice(), Some(4)),
        (
            b"*2\r\n*1\r\n:7\r\n*2\r\n$-1\r\n*0\r\n:8\r\n".as_slice(),
            Some(25),
        ),
        (b"*2\r\n:7\r\n".as_slice(), None),
        (b"+OK".as_slice(), None),
        (b"+a\nb\r\n".as_slice(), None),
        (b"$3\r\nab\r\n".as_slice(), None),
        (b"".as_slice(), None),
    ] {
        assert_eq!(rt; frame_end(bytes), end);
    }
}

// A message of these bytes.
fn binary(alloc: Global, bytes: &[u8]) -> Result<Listening, Fail> {
    Ok(Listening::Comes(Message::Binary(Text::of(alloc, bytes)?)))
}

// A link over a conversation in which these messages come.
fn link_of(alloc: Global, messages: &[&[u8]]) -> Result<WebLink<ListTalk>, Fail> {
    let mut listenings = Vec::new(alloc);
    for message in messages {
        listenings.push(binary(alloc, message)?)?;
    }
    Ok(WebLink::new(alloc, 7, ListTalk::new(alloc, listenings, Vec::new(alloc))))
}

#[test]
fn each_message_is_the_text_of_one_request(rt: HostRuntime) -> Result<(), Fail> {
    let alloc = rt.alloc();
    let both = b"*1\r\n$4\r\nPING\r\n*1\r\n$4\r\nPING\r\n".as_slice();
    for (messages, read) in [
        ([PING, PING].as_slice(), both),
        ([PING, b"*1\r\n"].as_slice(), PING),
        ([b"*1\r\n".as_slice(), PING].as_slice(), b"".as_slice()),
        ([both, PING].as_slice(), b"".as_slice()),
        ([b"PING\r\n".as_slice()].as_slice(), b"".as_slice()),
    ] {
        let mut link = link_of(alloc, messages)?;
        let mut into = [0u8; 64];
        if read.len() > 0 {
            assert_eq!(rt; link.read(&mut into), Ok(Got::Bytes(read.len())));
            assert!(rt; into.starts_with(read));
        }
        assert_eq!(rt; link.read(&mut into), Ok(Got::End));
        assert_eq!(rt; link.read(&mut into), Ok(Got::End));
    }
    Ok(())
}

#[test]
fn a_message_is_read_in_pieces_and_a_text_message_is_the_end(rt: HostRuntime) -> Result<(), Fail> {
    let alloc = rt.alloc();
    let listenings = Vec::from_array(
        alloc,
        [
            Listening::Quiet,
            Listening::Later,
            binary(alloc, PING)?,
            Listening::Fails,
            Listening::Comes(Message::Other),
            binary(alloc, PING)?,
        ],
    )?;
    let mut link = WebLink::new(alloc, 0, ListTalk::new(alloc, listenings, Vec::new(alloc)));
    let mut into = [0u8; 10];
    assert_eq!(rt; link.read(&mut into), Ok(Got::Later));
    assert_eq!(rt; link.read(&mut into), Ok(Got::Bytes(10)));
    assert_eq!(rt; into, *b"*1\r\n$4\r\nPI");
    assert_eq!(rt; link.read(&mut into), Ok(Got::Bytes(4)));
    assert!(rt; into.starts_with(b"NG\r\n"));
    assert_eq!(rt; link.read(&mut into), Err(Failed));
    assert_eq!(rt; link.read(&mut into), Ok(Got::End));
    Ok(())
}

#[test]
fn each_frame_is_said_as_one_message(rt: HostRuntime) -> Result<(), Fail> {
    let alloc = rt.alloc();
    let sayings = Vec::from_array(alloc, [Saying::Later, Saying::Whole, Saying::Fails])?;
    let mut link = WebLink::new(alloc, 0, ListTalk::new(alloc, Vec::new(alloc), sayings));
    assert_eq!(rt; link.write(b"+OK\r\n:1\r\n"), Ok(Sent::Later));
    assert_eq!(rt; link.write(b"+OK\r\n:1\r\n"), Ok(Sent::Bytes(5)));
    assert_eq!(rt; link.write(b":1\r\n"), Err(Failed));
    assert_eq!(rt; link.write(b":1\r\n"), Ok(Sent::Bytes(4)));
    assert_eq!(rt; link.write(b"no frame"), Err(Failed));
    let said = link.talk();
    assert_eq!(rt; said.said(), 2);
    assert_eq!(rt; said.said_at(0), b"+OK\r\n".as_slice());
    assert_eq!(rt; said.said_at(1), b":1\r\n".as_slice());
    Ok(())
}

#[test]
fn of_a_closed_link_no_more_is_read_than_was_heard(rt: HostRuntime) -> Result<(), Fail> {
    let alloc = rt.alloc();
    let mut link = link_of(alloc, &[PING, PING])?;
    let mut into = [0u8; 10];
    assert_eq!(rt; link.read(&mut into), Ok(Got::Bytes(10)));
    link.close();
    assert_eq!(rt; link.read(&mut into), Ok(Got::Bytes(4)));
    assert_eq!(rt; link.read(&mut into), Ok(Got::End));
    assert_eq!(rt; link.write(b"+OK\r\n"), Err(Failed));
    assert_eq!(rt; link.talk().said(), 0);
    Ok(())
}

// A WebSocket of a server to which these bytes come.
fn talk_over(alloc: Global, bytes: &'static [u8]) -> WsTalk<Duplex<&'static [u8], Vec<u8>>> {
    let stream = Duplex {
        reader: bytes,
        writer: Vec::new(alloc),
    };
    WsTalk::over(alloc, stream, Vec::new(alloc))
}

#[test]
fn a_masked_message_is_heard_and_a_frame_goes_out_unmasked(rt: HostRuntime) -> Result<(), Fail> {
    let alloc = rt.alloc();
    let mut talk = talk_over(alloc, b"\x82\x8e\x00\x00\x00\x00*1\r\n$4\r\nPING\r\n");
    let mut into = Text::new(alloc);
    assert_eq!(rt; talk.hear(&mut into), Ok(Said::Binary));
    assert_eq!(rt; into.bytes(), PING);
    assert_eq!(rt; talk.say(b"+PONG\r\n"), Ok(Told::Whole));
    let written = talk.socket.get_ref().writer.as_slice();
    assert_eq!(rt; written, b"\x82\x07\x2b\x50\x4f\x4e\x47\x0d\x0a".as_slice());
    Ok(())
}

#[test]
fn behind_a_close_frame_nothing_is_heard_or_said(rt: HostRuntime) -> Result<(), Fail> {
    let alloc = rt.alloc();
    let mut talk = talk_over(alloc, b"\x82\x8e\x00\x00\x00\x00*1\r\n$4\r\nPING\r\n");
    assert!(rt; talk.close().is_ok());
    assert_eq!(rt; talk.hear(&mut Text::new(alloc)), Ok(Said::Over));
    assert_eq!(rt; talk.say(b"+PONG\r\n"), Err(TalkFault::Failed));
    let written = talk.socket.get_ref().writer.as_slice();
    assert_eq!(rt; written, b"\x88\x00".as_slice());
    Ok(())
}

#[test]
fn what_is_no_binary_message_is_told_apart(rt: HostRuntime) -> Result<(), Fail> {
    let alloc = rt.alloc();
    for (bytes, said) in [
        (b"\x81\x82\x00\x00\x00\x00hi".as_slice(), Some(Said::Other)),
        (b"\x89\x80\x00\x00\x00\x00".as_slice(), Some(Said::Quiet)),
        (b"\x88\x80\x00\x00\x00\x00".as_slice(), Some(Said::Over)),
        // Without a mask, and longer than any request.
        (b"\x82\x02hi".as_slice(), None),
        (
            b"\x82\xff\x00\x00\x00\x00\x00\x20\xc0\x08\x00\x00\x00\x00".as_slice(),
            None,
        ),
    ] {
        let mut talk = talk_over(alloc, bytes);
        assert_eq!(rt; talk.hear(&mut Text::new(alloc)).ok(), said);
    }
    Ok(())
}

#[test]
fn strange_origins_are_refused(rt: HostRuntime) {
    let named = b"https://map.example,null,,http://a.example:8080".as_slice();
    for (own, origin, taken) in [
        (
            b"127.0.0.1:9851".as_slice(),
            b"http://127.0.0.1:9851".as_slice(),
            true,
        ),
        (
            b"127.0.0.1:9851".as_slice(),
            b"http://localhost:9851".as_slice(),
            true,
        ),
        (
            b"127.0.0.1:9851".as_slice(),
            b"https://map.example".as_slice(),
            true,
        ),
        (
            b"127.0.0.1:9851".as_slice(),
            b"http://a.example:8080".as_slice(),
            true,
        ),
        (
            b"127.0.0.1:9851".as_slice(),
            b"http://a.example".as_slice(),
            false,
        ),
        (
            b"127.0.0.1:9851".as_slice(),
            b"http://127.0.0.1:9852".as_slice(),
            false,
        ),
        (
            b"127.0.0.1:9851".as_slice(),
            b"http://127.0.0.1".as_slice(),
            false,
        ),
        (
            b"127.0.0.1:9851".as_slice(),
            b"http://localhost:985".as_slice(),
            false,
        ),
        (
            b"127.0.0.1:9851".as_slice(),
            b"http://localhost".as_slice(),
            false,
        ),
        (
            b"127.0.0.1:9851".as_slice(),
            b"https://127.0.0.1:9851".as_slice(),
            false,
        ),
        (
            b"127.0.0.1:9851".as_slice(),
            b"http://evil.example:9851".as_slice(),
            false,
        ),
        (b"127.0.0.1:9851".as_slice(), b"null".as_slice(), false),
        (b"127.0.0.1:9851".as_slice(), b"".as_slice(), false),
        (
            b"127.0.0.1:80".as_slice(),
            b"http://127.0.0.1".as_slice(),
            true,
        ),
        (
            b"127.0.0.1:80".as_slice(),
            b"http://localhost".as_slice(),
            true,
        ),
        (
            b"127.0.0.1:80".as_slice(),
            b"http://127.0.0.2".as_slice(),
            false,
        ),
        (
            b"127.0.0.1:8080".as_slice(),
            b"http://127.0.0.1".as_slice(),
            false,
        ),
    ] {
        assert_eq!(rt; is_allowed(Some(origin), own, named), taken);
    }
    assert!(rt; is_allowed(None, b"127.0.0.1:9851", named));
}

#[test]
fn heads_are_answered(rt: HostRuntime) {
    let own = b"127.0.0.1:9851".as_slice();
    let named = b"".as_slice();
    let strange = Some(b"http://evil.example".as_slice());
    for (is_get, path, origin, upgrade, answer) in [
        (true, b"/".as_slice(), None, Upgrade::None, Answer::Page),
        (
            true,
            b"/".as_slice(),
            None,
            Upgrade::WebSocket(*ACCEPT),
            Answer::WebSocket(*ACCEPT),
        ),
        (
            true,
            b"/".as_slice(),
            None,
            Upgrade::Wrong,
            Answer::BadRequest,
        ),
        (
            true,
            b"/".as_slice(),
            strange,
            Upgrade::WebSocket(*ACCEPT),
            Answer::Forbidden,
        ),
        (
            true,
            b"/".as_slice(),
            strange,
            Upgrade::None,
            Answer::Forbidden,
        ),
        (
            true,
            b"/x".as_slice(),
            None,
            Upgrade::None,
            Answer::NotFound,
        ),
        (
            false,
            b"/".as_slice(),
            None,
            Upgrade::None,
            Answer::BadRequest,
        ),
    ] {
        let head = Head {
            is_get,
            path,
            origin,
            upgrade,
        };
        assert_eq!(rt; answer_to(&head, own, named), answer);
    }
}

// The fields of a browser that asks for a WebSocket.
const UPGRADE: &[u8] = b"Host: a\r\nConnection: keep-alive, Upgrade\r\nUpgrade: WebSocket\r\n\
    Sec-WebSocket-Version: 13\r\nSec-WebSocket-Key: dGhlIHNhbXBsZSBub25jZQ==\r\n";

// What the first bytes of a link come to, which are these pieces, and how many these are.
fn greeted(alloc: Global, pieces: &[&[u8]]) -> Result<(Greeting, usize), Fail> {
    let mut bytes = Text::new(alloc);
    for piece in pieces {
        bytes.push(piece)?;
    }
    let greeting = greet(bytes.bytes(), b"127.0.0.1:9851", b"http://a.example");
    Ok((greeting, bytes.len()))
}

#[test]
fn first_bytes_are_read_as_a_head(rt: HostRuntime) -> Result<(), Fail> {
    let alloc = rt.alloc();
    let line = b"GET / HTTP/1.1\r\n".as_slice();
    let end = b"\r\n".as_slice();
    let own = b"Origin: http://127.0.0.1:9851\r\n".as_slice();
    for (pieces, answer) in [
        ([line, UPGRADE, own, end], Answer::WebSocket(*ACCEPT)),
        ([line, UPGRADE, b"", end], Answer::WebSocket(*ACCEPT)),
        ([line, b"Host: a\r\n", b"", end], Answer::Page),
        ([b"GET / HTTP/1.0\r\n", b"", b"", end], Answer::Page),
        (
            [b"GET / HTTP/1.0\r\n", UPGRADE, b"", end],
            Answer::BadRequest,
        ),
        (
            [b"GET /x HTTP/1.1\r\n", UPGRADE, b"", end],
            Answer::NotFound,
        ),
        ([b"HEAD / HTTP/1.1\r\n", b"", b"", end], Answer::BadRequest),
        (
            [line, UPGRADE, b"Origin: http://b.example\r\n", end],
            Answer::Forbidden,
        ),
        ([line, UPGRADE, b"Origin: null\r\n", end], Answer::Forbidden),
        ([line, own, own, end], Answer::BadRequest),
        ([line, b"Upgrade: h2c\r\n", b"", end], Answer::BadRequest),
        (
            [
                line,
                b"Upgrade: websocket\r\nConnection: upgrade\r\n",
                b"",
                end,
            ],
            Answer::BadRequest,
        ),
    ] {
        let (greeting, len) = greeted(alloc, pieces.as_slice())?;
        assert_eq!(rt; greeting, Greeting::Whole(answer, len));
    }
    Ok(())
}

#[test]
fn first_bytes_are_no_head(rt: HostRuntime) -> Result<(), Fail> {
    let alloc = rt.alloc();
    let long = [b'a'; MAX_HEAD];
    for (pieces, greeting) in [
        ([b"".as_slice(), b""], Greeting::Begun),
        ([b"GET / HTTP/1.1\r\nHost: a\r\n", b""], Greeting::Begun),
        (
            [b"GET / HTTP/1.1\r\nX: ", long.as_slice()],
            Greeting::Broken,
        ),
        ([b"GET / HTTP/2\r\n\r\n", b""], Greeting::Broken),
        ([b"\x16\x03\x01", b""], Greeting::Broken),
    ] {
        assert_eq!(rt; greeted(alloc, pieces.as_slice())?.0, greeting);
    }
    Ok(())
}

#[test]
fn an_answer_says_how_long_its_body_is(rt: HostRuntime) -> Result<(), Fail> {
    let alloc = rt.alloc();
    let text = answer_text(alloc, &Answer::WebSocket(*ACCEPT), own_page())?;
    assert_eq!(rt;
        text.bytes(),
        b"HTTP/1.1 101 Switching Protocols\r\nUpgrade: websocket\r\nConnection: Upgrade\r\n\
        Sec-WebSocket-Accept: s3pPLMBiTxaQ9kYGzzhZRbK+xOo=\r\n\r\n"
            .as_slice()
    );
    let text = answer_text(alloc, &Answer::Page, b"<p>")?;
    assert!(rt;
        text.bytes().starts_with(
            b"HTTP/1.1 200 OK\r\nContent-Type: text/html; charset=utf-8\r\nContent-Length: 3\r\n"
        )
    );
    assert!(rt; text.bytes().ends_with(b"\r\nConnection: close\r\n\r\n<p>"));
    Ok(())
}
