//! What frames come to.

ghost use Rattle.std.specs.Prelude.{◌≡◌, ◌+◌, [], ◌∷◌, length};
ghost use Rattle.world_data.specs.Frames.{frame_bytes};
ghost use Rattle.work_gen.specs.Frames.{message_count, messages_in, capped};

use world_model::Frames;

/// What begins the frame of a message that a pattern brought.
const MESSAGE: &[u8] = b"*4\r\n$8\r\npmessage\r\n";

/// Messages and bytes of frames. Each stops at the greatest `u64`.
#[derive(Clone, Copy, Debug, PartialEq, Eq)]
pub(crate) struct Tally {
    pub(crate) messages: u64,
    pub(crate) bytes: u64,
}

// One for a message, and nothing for another frame.
#[tactic(auto, unfolding(crate::specs::Frames::is_message))]
fn message_count(frame: &[u8]) -> u64
    ensures { result ≡ message_count frame.now }
{
    if frame.starts_with(MESSAGE) { 1 } else { 0 }
}

impl Tally {
    /// Of no frame.
    pub(crate) fn new() -> Tally
        ensures { result ≡ record { messages = 0; bytes = 0 } }
    {
        Tally {
            messages: 0,
            bytes: 0,
        }
    }

    // Of one frame.
    fn of_one(frame: &[u8]) -> Tally
        ensures messages { result.messages ≡ messages_in (frame.now ∷ []) }
        ensures bytes { result.bytes ≡ length frame.now }
    {
        Tally {
            messages: message_count(frame),
            bytes: frame.len() as u64,
        }
    }

    /// Of these frames.
    pub(crate) fn of(frames: &Frames) -> Tally
        ensures messages { result.messages ≡ capped (messages_in frames.now.list) }
        ensures bytes { result.bytes ≡ capped (frame_bytes frames.now.list) }
    {
        let mut tally = Tally::new();
        for i in 0..frames.len() {
            tally = tally.plus(Tally::of_one(frames.at(i)));
        }
        tally
    }

    /// The bytes alone.
    pub(crate) fn unheard(self) -> Tally
        ensures { result ≡ record { messages = 0; bytes = self.bytes } }
    {
        Tally {
            messages: 0,
            bytes: self.bytes,
        }
    }

    /// Both together.
    pub(crate) fn plus(self, other: Tally) -> Tally
        ensures messages { result.messages ≡ capped (self.messages + other.messages) }
        ensures bytes { result.bytes ≡ capped (self.bytes + other.bytes) }
    {
        Tally {
            messages: self.messages.saturating_add(other.messages),
            bytes: self.bytes.saturating_add(other.bytes),
        }
    }
}
