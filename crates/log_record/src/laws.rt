//! Laws of the log. Each is the contract of a function that does nothing.

ghost use Rattle.std.specs.Prelude.{◌≡◌, ◌≤◌, List, Some, Ok, true};
ghost use Rattle.outside.specs.Sides.{Sides};
ghost use Rattle.log_sides.specs.Texts.{newest};
ghost use Rattle.world_data.specs.declared.worlds.World.{World};
ghost use Rattle.byte_text.specs.Names.{Bytes};
ghost use Rattle.geo_text.specs.Texts.{shape_of};
ghost use Rattle.world_data.specs.Records.{record_reader, is_kept};
ghost use Rattle.world_data.specs.declared.objects.Object.{Object};
ghost use Rattle.world_data.specs.declared.worlds.Change.{Change};
ghost use Rattle.world_data.specs.declared.worlds.Change.TheVariants.{Put, Del, Drop, Flush, DelChan};
ghost use Rattle.log_record.specs.Words.{HasShape, SettingsAreNormal, change_of_words};
ghost use Rattle.log_record.specs.Versions.{least_version};
ghost use Rattle.log_record.specs.Recovery.{Recovers};
ghost use Rattle.log_record.specs.Copying.{PartsGrow};
ghost use Rattle.log_record.specs.Runs.{OpeningsKeepRunsSafe, TurnsKeepRunsSafe};
ghost use Rattle.log_record.specs.Laws.{EmptyIsFresh, FewerStaySafe, FramesStaySafe, LogsAreFound};
ghost use Rattle.log_record.specs.Laws.{OlderRecordsAreNewer, OpeningsStand};
ghost use Rattle.log_record.specs.Laws.{RecoveredIsWhole, SidesStand};
ghost use Rattle.log_record.specs.Laws.{StepsMakeTheirWrites, TurnsKeepSafe};

use outside::Disk;

/// An image is recovered as one world at most, and then it is not damaged; a disk without a log is fresh.
pub fn one_recovery()
    ensures one { (image : Sides) (v w : World) → Recovers image v → Recovers image w → v ≡ w }
    ensures whole { RecoveredIsWhole }
    ensures fresh { EmptyIsFresh }
{}

/// A step does the writes of its event, and those alone.
pub fn steps_make_their_writes()
    ensures { StepsMakeTheirWrites }
{}

/// All stands at an opening where all that a crash since then might have left is the opening's world.
pub fn openings_stand<D: Disk>()
    ensures { OpeningsStand D.images D.moment D.left_since }
{}

/// A call of a core that does to the disk what it owes keeps it safe, and the log with it.
pub fn turns_keep_safe<D: Disk>()
    ensures { TurnsKeepSafe D.images D.moment D.left_since }
{}

/// A disk that is safe by a mark of what acknowledges is safe by each that marks fewer entries, so also where frames
/// alone acknowledge.
pub fn fewer_stay_safe<D: Disk>()
    ensures fewer { FewerStaySafe D.left_since }
    ensures frames { FramesStaySafe D.left_since }
{}

/// A side with batches of records stands for the fold of their changes, beside one that is not open or older. What
/// stands behind its gate, and the gate where it is torn, changes nothing.
pub fn sides_stand()
    ensures stands { SidesStand }
    ensures found { LogsAreFound }
{}

/// Words that are a record are the record of the one change that they are read as, which is kept and sound.
pub fn records_are_sound()
    ensures { (words : List Bytes) (c : Change) → change_of_words words ≡ Some c
        → (record_reader c ≡ words) × (is_kept c ≡ true) × HasShape c }
{}

/// Whole records of a version are whole records of each later one, of the same changes: the least version that can say a
/// change is one from 1 to the newest.
pub fn older_records_are_newer()
    ensures records { OlderRecordsAreNewer }
    ensures known { (c : Change) → (1 ≤ least_version c) × (least_version c ≤ newest) }
{}

/// The same behind a run, and a run goes on with a history that opens with the world that the last one left behind.
pub fn runs_stay_safe<D: Disk>()
    ensures turns { TurnsKeepRunsSafe D.images D.moment D.left_since }
    ensures openings { OpeningsKeepRunsSafe D.images D.moment D.left_since }
{}

/// What is kept, and has its shape, is read back from its record. The normal words of a channel's setting spell it
/// again, without the seconds of EX, and where its area was an object's, they do with the object's text in its place.
pub fn records_are_read_back()
    ensures objects { (o : Object) → is_kept (Put o) ≡ true → shape_of o.text ≡ Ok o.shape
        → change_of_words (record_reader (Put o)) ≡ Some (Put o) }
    ensures dels { (key id : Bytes) → is_kept (Del key id) ≡ true
        → change_of_words (record_reader (Del key id)) ≡ Some (Del key id) }
    ensures drops { (key : Bytes) → is_kept (Drop key) ≡ true
        → change_of_words (record_reader (Drop key)) ≡ Some (Drop key) }
    ensures flush { change_of_words (record_reader Flush) ≡ Some Flush }
    ensures settings { SettingsAreNormal }
    ensures channels { (name : Bytes) → is_kept (DelChan name) ≡ true
        → change_of_words (record_reader (DelChan name)) ≡ Some (DelChan name) }
{}

/// The new side of a rewriting holds a part of the committed world, which each batch and each copy keeps, and which is
/// all of it in the end.
pub fn parts_grow()
    ensures { PartsGrow }
{}
