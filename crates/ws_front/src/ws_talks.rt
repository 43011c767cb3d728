//! A conversation over a WebSocket, whose stream answers that it would block.
//!
//! It tells nothing of what is heard and said. A frame is taken once all its bytes have left: one that has left in part
//! is to be offered again, and no other in its place. While bytes wait to leave nothing is heard, so no more than one
//! frame and one answer to a ping waits in memory, whatever a caller sends.

ghost use Rattle.std.specs.Prelude.{◌≡◌, ◌≤◌, ◌+◌, ◌*◌, List, ℕ, Some, None, true, false, OnOk};
ghost use Rattle.byte_text.specs.Requests.{max_request, max_words};
ghost use Rattle.outside.specs.Causes.{Rose};
ghost use Rattle.websocket.specs.Connection.{close_step};
ghost use Rattle.tungstenite.specs.Socket.{Writes};
ghost use Rattle.ws_front.specs.Talks.{Hears, Says, silent, closed};

use crate::talks::{Said, Talk, TalkFault, Told};
use byte_text::{MAX_REQUEST, MAX_WORDS, NoMemory, Text};
use std::alloc::Global;
use std::io::{ErrorKind, Read, Write};
use tungstenite::{Error, Message, NoMask, Role, WebSocket, WebSocketConfig};

/// The most bytes of a message: those of all words of a request, and the longest heads of the request and of each word.
pub const MAX_MESSAGE: usize = MAX_REQUEST + 12 * MAX_WORDS + 7;

/// So many bytes one read of the stream asks for. Each WebSocket keeps twice the room.
const READ_ROOM: usize = 16_384;

/// The limits of a WebSocket of the server. Frames without a mask are refused.
pub fn limits() -> WebSocketConfig
    ensures message { result.max_message_size ≡ Some (max_request + 12 * max_words + 7) }
    ensures frame { result.max_frame_size ≡ Some (max_request + 12 * max_words + 7) }
    ensures masks { result.accept_unmasked_frames ≡ false }
{
    WebSocketConfig::default()
        .read_buffer_size(READ_ROOM)
        .max_message_size(Some(MAX_MESSAGE))
        .max_frame_size(Some(MAX_MESSAGE))
}

/// A conversation over a WebSocket.
#[derive(Drop)]
pub struct WsTalk<S: Read + Write + Drop> {
    alloc: Global,
    pub(crate) socket: WebSocket<S, NoMask>,
    // The length of a frame that has left in part.
    begun: Option<usize>,
    // A message was lost for want of memory, so nothing more is heard.
    is_lost: bool,
    is_closed: bool,
    pub(crate) faults: u64,
}

impl<S: Read + Write + Drop> WsTalk<S> {
    /// The server's conversation over a stream whose opening handshake is done, of which these bytes were read behind
    /// the head.
    pub fn over(alloc: Global, stream: S, behind: Vec<u8>) -> WsTalk<S>
        ensures stream { result.socket.stream ≡ stream }
        ensures input { result.socket.input ≡ behind.items }
        ensures message { result.socket.conn.config.max_message_size ≡ Some (max_request + 12 * max_words + 7) }
        ensures frame { result.socket.conn.config.max_frame_size ≡ Some (max_request + 12 * max_words + 7) }
        ensures masks { result.socket.conn.config.accept_unmasked_frames ≡ false }
        ensures open { result.is_closed ≡ false }
        ensures faults { result.faults ≡ 0 }
    {
        let config = Some(limits());
        WsTalk {
            alloc,
            socket: WebSocket::from_partially_read(
                alloc,
                stream,
                NoMask,
                behind,
                Role::Server,
                config,
            ),
            begun: None,
            is_lost: false,
            is_closed: false,
            faults: 0,
        }
    }

    /// The stream.
    pub fn stream(&self) -> &S
        ensures { result.now ≡ self.now.socket.stream }
    {
        self.socket.get_ref()
    }

    // Counts a failure.
    fn fail(&mut self) -> TalkFault
        ensures fault { result ≡ TalkFault.Failed }
        ensures rose { Rose self.old.faults self.new.faults }
        ensures later { self.old.faults ≤ self.new.faults }
        ensures open { self.new.is_closed ≡ self.old.is_closed }
    {
        self.faults = self.faults.saturating_add(1);
        TalkFault::Failed
    }

    // Whether a frame of another length has left in part.
    fn has_begun_other(&self, len: usize) -> bool {
        match self.begun {
            Some(begun) => begun != len,
            None => false,
        }
    }

    // Puts the frame of a message behind what waits to leave, unless it has left in part, and sends what can leave.
    fn send(&mut self, bytes: &[u8]) -> Result<(), Error>
        ensures { silent self.new.is_closed self.new.faults ≡ silent self.old.is_closed self.old.faults }
    {
        if self.begun.is_some() {
            return self.socket.flush();
        }
        let message = Message::binary(self.alloc, bytes)?;
        self.socket.send(message)
    }

    // The next message, where nothing waits to leave.
    fn next(&mut self) -> Result<Message, Error>
        ensures { silent self.new.is_closed self.new.faults ≡ silent self.old.is_closed self.old.faults }
    {
        self.socket.flush()?;
        self.socket.read()
    }
}

// Whether an error says that the stream would block.
fn would_block(error: &Error) -> bool {
    match error {
        Error::Io(error) => error.kind() == ErrorKind::WouldBlock,
        _ => false,
    }
}

impl<S: Read + Write + Drop> WsTalk<S> {
    // A message came.
    fn take(&mut self, message: &Message, into: &mut Text) -> Result<Said, TalkFault>
        ensures { Hears (silent self.old.is_closed self.old.faults) (silent self.new.is_closed self.new.faults) into.old
            into.new result }
    {
        match message {
            Message::Binary(bytes) => {
                if into.push(bytes.as_slice()).is_err() {
                    self.is_lost = true;
                    return Err(TalkFault::Memory);
                }
                Ok(Said::Binary)
            }
            Message::Text(_) => Ok(Said::Other),
            Message::Ping(_) | Message::Pong(_) => Ok(Said::Quiet),
            Message::Close(_) => Ok(Said::Over),
        }
    }

    // No message came.
    fn miss(&mut self, error: &Error) -> Result<Said, TalkFault>
        ensures { (bytes : List ℕ) → Hears (silent self.old.is_closed self.old.faults)
            (silent self.new.is_closed self.new.faults) bytes bytes result }
    {
        match error {
            Error::ConnectionClosed => Ok(Said::Over),
            Error::OutOfMemory => Err(TalkFault::Memory),
            _ if would_block(error) => Ok(Said::Later),
            _ => Err(self.fail()),
        }
    }

    // A frame of so many bytes was not sent whole.
    fn hold(&mut self, error: &Error, len: usize) -> Result<Told, TalkFault>
        ensures { (bytes : List ℕ) → Says (silent self.old.is_closed self.old.faults)
            (silent self.new.is_closed self.new.faults) bytes result }
    {
        match error {
            Error::OutOfMemory => Err(TalkFault::Memory),
            _ if would_block(error) => {
                self.begun = Some(len);
                Ok(Told::Later)
            }
            _ => Err(self.fail()),
        }
    }
}

impl<S: Read + Write + Drop> Talk for WsTalk<S> {
    ghost use Rattle.std.specs.Prelude.{◌≡◌, true, Ok, Err};
    ghost use Rattle.ws_front.specs.Talks.{TalkState, Hears, Says, silent, closed};
    ghost use Rattle.ws_front.specs.declared.talks.Said.TheVariants.{Over};
    ghost use Rattle.ws_front.specs.declared.talks.TalkFault.TheVariants.{Failed};

    ghost shows = { λ talk. silent talk.is_closed talk.faults };

    /// A ping is answered by the WebSocket itself.
    fn hear(&mut self, into: &mut Text) -> Result<Said, TalkFault> {
        if self.is_closed {
            return Ok(Said::Over);
        }
        if self.is_lost {
            return Err(self.fail());
        }
        match self.next() {
            Ok(message) => self.take(&message, into),
            Err(error) => self.miss(&error),
        }
    }

    /// A frame that has left in part is to be offered again; another in its place is a failure.
    fn say(&mut self, bytes: &[u8]) -> Result<Told, TalkFault> {
        if self.is_closed || self.has_begun_other(bytes.len()) {
            return Err(self.fail());
        }
        match self.send(bytes) {
            Ok(()) => {
                self.begun = None;
                Ok(Told::Whole)
            }
            Err(error) => self.hold(&error, bytes.len()),
        }
    }

    /// A close frame waits to leave behind all that waits, and what the stream takes at once leaves.
    fn close(&mut self) -> Result<(), NoMemory>
        ensures closes { silent self.new.is_closed self.new.faults
            ≡ closed (silent self.old.is_closed self.old.faults) }
        ensures frame { OnOk result (Writes S.contents self.old.socket self.new.socket
            (close_step self.old.socket.conn None)) }
    {
        self.is_closed = true;
        match self.socket.close(None) {
            Ok(()) | Err(Error::Io(_)) => Ok(()),
            // A close frame without a code is refused for no other cause.
            Err(_) => Err(NoMemory),
        }
    }
}
