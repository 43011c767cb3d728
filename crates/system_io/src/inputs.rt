//! Standard input, of which only the end is waited for.
//!
//! It may be shared with other processes, so it is not made one that never blocks: it is read where the system says that
//! something is there, and once each time. To watch it again tells what is left, also where nothing new comes.

use mio::unix::SourceFd;
use mio::{Interest, Registry, Token};
use std::io;

/// So many bytes are thrown away at once.
const PIECE: usize = 4_096;

/// What the system answers where it has no memory, or no room for one more that is watched: ENOMEM and ENOSPC of Linux.
const NO_MEANS: [i32; 2] = [libc::ENOMEM, libc::ENOSPC];

/// How far standard input can be waited for.
#[derive(Clone, Copy)]
pub(crate) enum Input {
    /// It is named when something is there.
    Waits,
    /// It can't be waited for, as a file or the null device, or it is closed.
    Still,
    /// The system has no means to watch it now.
    NoMeans,
}

/// Watches standard input from now on, under this token.
pub(crate) fn watch_input(registry: &Registry, token: Token) -> Input {
    let watched = registry.register(
        &mut SourceFd(&libc::STDIN_FILENO),
        token,
        Interest::READABLE,
    );
    match watched {
        Ok(()) => Input::Waits,
        Err(error) => match error.raw_os_error() {
            Some(code) if NO_MEANS.contains(&code) => Input::NoMeans,
            _ => Input::Still,
        },
    }
}

// Watches it again, so that what is left there is told.
fn watch_rest(registry: &Registry, token: Token) -> io::Result<()> {
    registry.reregister(
        &mut SourceFd(&libc::STDIN_FILENO),
        token,
        Interest::READABLE,
    )
}

// Reads once, and throws away what came. Whether that was the end: one that can't be read is at its end.
fn reads_end() -> bool {
    let mut piece = [0; PIECE];
    let count = libc::read(libc::STDIN_FILENO, &mut piece);
    if count < 0 {
        let code = os::errno();
        return code != libc::EAGAIN && code != libc::EINTR;
    }
    count == 0
}

/// Reads standard input once, where it was named, and watches the rest. Whether it is at its end.
pub(crate) fn look_at_input(registry: &Registry, token: Token) -> bool {
    reads_end() || watch_rest(registry, token).is_err()
}
