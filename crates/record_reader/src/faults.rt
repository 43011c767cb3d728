//! Why words give no change.

/// Why words gave no change.
#[derive(Clone, Copy, Debug, PartialEq, Eq)]
pub enum RecordFault {
    /// The words are the record of no change in any version.
    NotRecord,
    /// They are a record of a later version, and of none in this one.
    Version,
    /// Want of memory, whatever the words are.
    Memory,
}

/// Why words were not read as a record, whatever the version.
#[derive(Clone, Copy)]
pub(crate) enum ReadFault {
    /// The words are the record of no change.
    NotRecord,
    /// Want of memory, whatever the words are.
    Memory,
}
