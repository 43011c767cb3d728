//! How much of an object a record holds.

/// The most fields of an object whose record fits a request, with a deadline as without: `SET key id`, three words a
/// field, `AT deadline` and `OBJECT text` are 4,096 words then.
pub const MOST_FIELDS: usize = 1_363;
