//! What is wrong with bytes that go on as no request.

/// Why bytes go on as no request.
#[derive(Clone, Copy, Debug, PartialEq, Eq)]
pub enum RespFault {
    /// A byte stands in the place of `*` or `$`.
    BadType,
    /// A byte of a length is neither a digit that keeps it canonical nor, behind a digit, `\r`; or the number of words
    /// is 0.
    BadLength,
    /// A byte stands in the place of `\n` behind a length, or of `\r` or `\n` behind a word.
    BadEnd,
    /// A digit makes the number of words pass its limit.
    TooMany,
    /// A digit makes the length of a word, or of all words, pass its limit.
    TooLong,
}
