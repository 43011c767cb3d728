//! Callers of whom nothing is heard: the system asks whether they are there still.

use libc::net as c;
use mio::net::TcpStream;
use std::io::{self, ErrorKind};
use std::os::fd::AsRawFd;

// The bytes of an option that is on.
const ON: [u8; 16] = [1, 0, 0, 0, 0, 0, 0, 0, 0, 0, 0, 0, 0, 0, 0, 0];

/// Has the system ask after a caller of whom nothing was heard for long. A link to one who is gone then fails.
pub(crate) fn keep_alive(stream: &TcpStream) -> io::Result<()> {
    let status = unsafe {
        c::setsockopt(stream.as_raw_fd(), c::SOL_SOCKET, c::SO_KEEPALIVE, &ON, 4)
    };
    if status < 0 {
        return Err(io::Error::from(ErrorKind::Other));
    }
    Ok(())
}
