//! That changes have records, as a law.

ghost use Rattle.record_reader.specs.Recorded.{ChangesAreRecorded};

/// The record of an object fits a request, whatever its deadline, and is read back as its put; so are those of deletions.
pub fn changes_are_recorded()
    ensures { ChangesAreRecorded }
{}
