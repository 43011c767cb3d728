//! What a link is made of: a plain stream, or a WebSocket over one.

ghost use Rattle.std.specs.Prelude.{◌<◌, length};
ghost use Rattle.outside.specs.Links.{GotWithin, SentWithin};

use crate::streams::{hang_up, read_once, write_once};
use mio::net::TcpStream;
use outside::{Failed, Got, ReadyLink, Sent};
use std::io::ErrorKind;
use ws_front::{WebLink, WsTalk};

/// What a link is made of.
#[derive(Drop)]
pub(crate) enum Line {
    /// A stream on which requests and frames stand one behind another.
    Plain(TcpStream),
    /// A WebSocket.
    Web(WebLink<WsTalk<TcpStream>>),
}

// One read of a plain stream.
fn read_plain(stream: &TcpStream, into: &mut [u8]) -> Result<Got, Failed>
    requires { 0 < length into.old }
    ensures { GotWithin result (length into.new) }
{
    match read_once(stream, into) {
        Ok(0) => Ok(Got::End),
        Ok(count) => Ok(Got::Bytes(count)),
        Err(error) if error.kind() == ErrorKind::WouldBlock => Ok(Got::Later),
        Err(_) => Err(Failed),
    }
}

// One write to a plain stream. A caller who takes nothing of a piece, and does not say that he will later, has failed.
fn write_plain(stream: &TcpStream, piece: &[u8]) -> Result<Sent, Failed>
    requires { 0 < length piece.now }
    ensures { SentWithin result (length piece.now) }
{
    match write_once(stream, piece) {
        Ok(count) if count > 0 => Ok(Sent::Bytes(count)),
        Err(error) if error.kind() == ErrorKind::WouldBlock => Ok(Sent::Later),
        _ => Err(Failed),
    }
}

impl Line {
    /// The stream.
    pub(crate) fn stream(&self) -> &TcpStream {
        match self {
            Line::Plain(stream) => stream,
            Line::Web(link) => link.talk().stream(),
        }
    }

    /// Puts the next bytes that came into the front of `into`.
    pub(crate) fn read(&mut self, into: &mut [u8]) -> Result<Got, Failed>
        requires { 0 < length into.old }
        ensures { GotWithin result (length into.new) }
    {
        match self {
            Line::Plain(stream) => read_plain(stream, into),
            Line::Web(link) => link.read(into),
        }
    }

    /// Takes bytes from the front of `piece`.
    pub(crate) fn write(&mut self, piece: &[u8]) -> Result<Sent, Failed>
        requires { 0 < length piece.now }
        ensures { SentWithin result (length piece.now) }
    {
        match self {
            Line::Plain(stream) => write_plain(stream, piece),
            Line::Web(link) => link.write(piece),
        }
    }

    /// Ends it both ways.
    pub(crate) fn end(self) {
        let mut line = self;
        if let Line::Web(link) = &mut line {
            link.close();
        }
        hang_up(line.stream());
    }
}
