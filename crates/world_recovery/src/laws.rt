//! Laws of batches of records. Each is the contract of a function that does nothing.

ghost use Rattle.std.specs.Prelude.{◌≡◌, ℕ, List, flat_map};
ghost use Rattle.std.specs.List.{AllByRecursion};
ghost use Rattle.byte_text.specs.Names.{Bytes};
ghost use Rattle.outside.specs.declared.sides.Side.{Side};
ghost use Rattle.outside.specs.Sides.{Sides};
ghost use Rattle.world_data.specs.declared.worlds.Change.{Change};
ghost use Rattle.log_sides.specs.Texts.{committed};
ghost use Rattle.journal.specs.Logs.{HoldsLog, HoldsEither};
ghost use Rattle.journal.specs.Openings.{AreWhole, IsDamaged};
ghost use Rattle.log_record.specs.Versions.{IsRecordedIn};
ghost use Rattle.log_record.specs.Folding.{folded};
ghost use Rattle.log_record.specs.Batches.{records_text};
ghost use Rattle.log_record.specs.Readings.{Damaged};
ghost use Rattle.log_record.specs.Recovery.{Recovers, RecoversEither};
ghost use Rattle.world_recovery.specs.Recorded.{changes_in, record_fault, world_in};
ghost use Rattle.world_recovery.specs.Records.{records};

/// Sides that hold batches of whole records of a version are recovered as the world of their changes, and sides that
/// hold those before a commit or those after it as one of the two worlds.
pub fn held_batches_are_recovered()
    ensures held { (version : ℕ) (batches : List Bytes) (s : Sides) → AreWhole (record_fault version) batches
        → HoldsLog version batches s
        → Recovers s (world_in version batches) }
    ensures either { (version : ℕ) (batches : List Bytes) (changes : List Change) (s : Sides)
        → AreWhole (record_fault version) batches
        → AllByRecursion (IsRecordedIn version) changes
        → HoldsEither version batches version (committed batches (records_text changes)) s
        → RecoversEither (world_in version batches) (folded (world_in version batches) changes) s }
{}

/// A commit of the records of some changes makes these changes of the committed world, and leaves whole batches.
pub fn commits_make_changes()
    ensures world { (version : ℕ) (batches : List Bytes) (changes : List Change)
        → AllByRecursion (IsRecordedIn version) changes
        → world_in version (committed batches (records_text changes)) ≡ folded (world_in version batches) changes }
    ensures whole { (version : ℕ) (batches : List Bytes) (changes : List Change)
        → AreWhole (record_fault version) batches
        → AllByRecursion (IsRecordedIn version) changes
        → AreWhole (record_fault version) (committed batches (records_text changes)) }
{}

/// Where a journal finds its sides damaged, by the records of changes, the definitions of the log have them damaged
/// there.
pub fn damage_is_damage()
    ensures { (s : Sides) (side : Side) (place : ℕ) → IsDamaged record_fault s side place → Damaged s side place }
{}

/// The records of sides that hold batches of whole records of a version are those of the batches, one behind another.
pub fn logs_are_their_records()
    ensures { (version : ℕ) (batches : List Bytes) (s : Sides) → AreWhole (record_fault version) batches
        → HoldsLog version batches s
        → records s ≡ flat_map (changes_in version) batches }
{}
