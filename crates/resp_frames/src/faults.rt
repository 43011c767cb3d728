//! Why a reader of requests was fed nothing.

use byte_text::RespFault;

/// Why a reader of requests was fed nothing.
#[derive(Clone, Copy, Debug, PartialEq, Eq)]
pub enum FeedFault {
    /// The bytes go on as no request; the reader is dead from now on.
    Broken(RespFault),
    /// The reader met such bytes before.
    Dead,
    /// Want of memory; no byte was taken.
    Memory,
}
