//! Calls of a stream that are made again where they were interrupted.

ghost use Rattle.std.specs.Io.{ReadsAtMost, WritesAtMost};

use mio::net::TcpStream;
use std::io::{self, ErrorKind, Read, Write};
use std::net::Shutdown;

/// So many pieces of one who is not listened to any more are thrown away at most, and so many bytes are in each.
const PIECES: u32 = 16;

const PIECE: usize = 4_096;

/// One read.
pub(crate) fn read_once(stream: &TcpStream, into: &mut [u8]) -> io::Result<usize>
    ensures { ReadsAtMost result into.new }
{
    let mut stream = stream;
    for _ in 0..u64::MAX {
        match stream.read(into) {
            Err(error) if error.kind() == ErrorKind::Interrupted => {}
            answer => return answer,
        }
    }
    Err(io::Error::from(ErrorKind::Interrupted))
}

/// One write.
pub(crate) fn write_once(stream: &TcpStream, piece: &[u8]) -> io::Result<usize>
    ensures { WritesAtMost result piece.now }
{
    let mut stream = stream;
    for _ in 0..u64::MAX {
        match stream.write(piece) {
            Err(error) if error.kind() == ErrorKind::Interrupted => {}
            answer => return answer,
        }
    }
    Err(io::Error::from(ErrorKind::Interrupted))
}

/// Reads what is there and throws it away, up to a limit. Whether more may come.
pub(crate) fn throw_away(stream: &TcpStream) -> bool {
    let mut piece = [0; PIECE];
    for _ in 0..PIECES {
        match read_once(stream, &mut piece) {
            Ok(count) if count > 0 => {}
            Ok(_) => return false,
            Err(error) => return error.kind() == ErrorKind::WouldBlock,
        }
    }
    false
}

/// Says that nothing more comes, and throws away what the other one sent: a system that closes a socket with unread
/// bytes sends a reset, which may overtake what was written last.
pub(crate) fn hang_up(stream: &TcpStream) {
    // It fails where the other one has gone already.
    let _ = stream.shutdown(Shutdown::Write);
    let _ = throw_away(stream);
}
