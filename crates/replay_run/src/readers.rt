//! The sessions that a script has entered, each with the reader of its requests.
//!
//! A feed holds any bytes: they go on with what the session's reader has unread, and what comes of them is said of the
//! whole stream. A reader stays until its session is closed, also behind `ended`; `gone` for a whole line comes only
//! where no reader has the number. A broken protocol makes one call like a request, also where it is answered `full` or
//! `gone`; the reader is dead all the same.

ghost use Rattle.std.specs.Prelude.{◌≡◌, ◌++◌, ◌∷◌, [], Some, OnOk, position};
ghost use Rattle.replay_run.specs.Readers.{is_of, without_reader};

use byte_text::NoMemory;
use resp_frames::Requests;
use std::alloc::Global;

/// A session, and what of its stream of requests is unread.
#[derive(Drop)]
pub(crate) struct Reader {
    pub(crate) session: u32,
    pub(crate) unread: Requests,
}

/// Where the session's reader stands.
pub(crate) fn position_of(readers: &[Reader], session: u32) -> Option<usize>
    ensures { result ≡ position (is_of session) readers.now }
{
    readers.iter().position(|reader| reader.session == session)
}

/// Adds the reader of a session, before the first byte.
pub(crate) fn add_reader(
    alloc: Global,
    readers: &mut Vec<Reader>,
    session: u32,
) -> Result<(), NoMemory>
    ensures { OnOk result
        (readers.new.items ≡ readers.old.items ++ record { session = session; unread = Some [] } ∷ []) }
{
    let reader = Reader {
        session,
        unread: Requests::new(alloc),
    };
    match readers.push(reader) {
        Ok(()) => Ok(()),
        Err(_) => Err(NoMemory),
    }
}

/// Drops the session's reader, where it has one.
pub(crate) fn drop_reader(readers: &mut Vec<Reader>, session: u32)
    ensures { readers.new.items ≡ without_reader session readers.old.items }
{
    if let Some(at) = position_of(readers.as_slice(), session) {
        readers.remove(at);
    }
}
