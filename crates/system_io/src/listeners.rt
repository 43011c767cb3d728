//! Streams that come to a listener, without waiting for them.

use crate::alive::keep_alive;
use mio::net::{TcpListener, TcpStream};
use std::io::{self, ErrorKind};
use std::net::{Net, ToSocketAddrs};

/// So many callers that are lost are passed over at one look.
pub(crate) const MOST_LOST: u32 = 1_024;

/// What the system answers where a descriptor is none of a socket that listens: EBADF, EINVAL, ENOTSOCK and EOPNOTSUPP
/// of Linux.
const NO_LISTENER: [i32; 4] = [9, 22, 88, 95];

/// What the system answers where it has no memory or descriptor for a caller, who waits on: ENOMEM, ENFILE, EMFILE and
/// ENOBUFS of Linux.
const NO_MEANS: [i32; 4] = [12, 23, 24, 105];

/// There is nothing that listens.
#[derive(Clone, Copy, Debug, PartialEq, Eq)]
pub(crate) struct NoListener;

/// What one look for a caller found.
#[derive(Drop)]
pub(crate) enum Found {
    Came(TcpStream),
    /// Nobody, so far as it is known.
    Nobody,
    /// One who went away.
    Lost,
    NoListener,
}

/// Listens at the first of the addresses at which it can.
pub(crate) fn listener_at<R: Net>(rt: &R, addr: &str) -> io::Result<TcpListener> {
    let mut last = io::Error::from(ErrorKind::InvalidInput);
    for addr in addr.to_socket_addrs(rt)? {
        match TcpListener::bind(rt, addr) {
            Ok(listener) => return Ok(listener),
            Err(error) => last = error,
        }
    }
    Err(last)
}

/// A stream that sends small pieces at once, and whose other end is asked after.
pub(crate) fn set_up(stream: TcpStream) -> io::Result<TcpStream> {
    stream.set_nodelay(true)?;
    keep_alive(&stream)?;
    Ok(stream)
}

/// Looks once for a caller.
pub(crate) fn look(listener: &TcpListener) -> Found {
    match listener.accept() {
        Ok((stream, _)) => match set_up(stream) {
            Ok(stream) => Found::Came(stream),
            Err(_) => Found::Lost,
        },
        Err(error) if error.kind() == ErrorKind::WouldBlock => Found::Nobody,
        Err(error) => match error.raw_os_error() {
            Some(code) if NO_MEANS.contains(&code) => Found::Nobody,
            Some(code) if NO_LISTENER.contains(&code) => Found::NoListener,
            _ => Found::Lost,
        },
    }
}

/// Looks for a caller, past those who went away.
pub(crate) fn look_past_lost(listener: &TcpListener) -> Result<Option<TcpStream>, NoListener> {
    for _ in 0..MOST_LOST {
        match look(listener) {
            Found::Came(stream) => return Ok(Some(stream)),
            Found::Nobody => return Ok(None),
            Found::Lost => {}
            Found::NoListener => return Err(NoListener),
        }
    }
    Ok(None)
}
