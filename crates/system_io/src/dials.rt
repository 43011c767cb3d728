//! Streams that a door opens itself: it calls whoever listens at its address.

use crate::listeners::{NoListener, set_up};
use mio::net::TcpStream;
use std::io::{self, ErrorKind};
use std::net::{self, Net, ToSocketAddrs};
use std::time::Duration;

/// So many seconds an address has to answer.
const PATIENCE: u64 = 10;

/// Whether there is an address by this name.
pub(crate) fn look_up<R: Net>(rt: &R, addr: &str) -> io::Result<()> {
    match addr.to_socket_addrs(rt)?.next() {
        Some(_) => Ok(()),
        None => Err(io::Error::from(ErrorKind::InvalidInput)),
    }
}

// Calls at the first of the addresses at which somebody answers.
fn call<R: Net<Stream = net::TcpStream>>(rt: &R, addr: &str) -> io::Result<TcpStream> {
    let mut last = io::Error::from(ErrorKind::InvalidInput);
    for addr in addr.to_socket_addrs(rt)? {
        match rt.connect_timeout(addr, Duration::from_secs(PATIENCE)) {
            Ok(stream) => {
                stream.set_nonblocking(true)?;
                return set_up(TcpStream::from_std(stream));
            }
            Err(error) => last = error,
        }
    }
    Err(last)
}

/// Calls at an address, which has to answer soon.
pub(crate) fn dial<R: Net<Stream = net::TcpStream>>(
    rt: &R,
    addr: &[u8],
) -> Result<TcpStream, NoListener> {
    let Ok(addr) = str::from_utf8(addr) else {
        return Err(NoListener);
    };
    match call(rt, addr) {
        Ok(stream) => Ok(stream),
        Err(_) => Err(NoListener),
    }
}
