//! The limits of names and requests, each once: definitions cite them.

/// The most bytes of a name.
pub const MAX_NAME: usize = 255;

/// The most words of a request.
pub const MAX_WORDS: usize = 4_096;

/// The most bytes of a word.
pub const MAX_WORD: usize = 1_048_576;

/// The most bytes of all words of a request.
pub const MAX_REQUEST: usize = 2_097_152;
