//! Laws of journals. Each is the contract of a function that does nothing.

ghost use Rattle.std.specs.Prelude.{◌≡◌, ℕ, true, List, Some};
ghost use Rattle.byte_text.specs.Names.{Bytes};
ghost use Rattle.outside.specs.Sides.{Sides};
ghost use Rattle.outside.specs.Crashes.{EachImage};
ghost use Rattle.journal.specs.Logs.{Grows, HasGrown, HoldsLog, HoldsOf};
ghost use Rattle.journal.specs.Journals.{Keeps};
ghost use Rattle.journal.specs.Openings.{opened_generation};

use crate::journals::Journal;
use append_log::logs_read_once;
use outside::Disk;

/// What a journal keeps of its disk, an opening would find there: the disk tells its contents, which hold the committed
/// batches in a log of the journal's generation, and so does whatever a crash may leave.
pub fn kept_logs_hold<D: Disk>(journal: &Journal<D>)
    ensures told { (batches copied : List Bytes) → Keeps D.crashes D.seen D.images journal.now batches copied
        → (s : Sides) × (D.seen journal.now.disk ≡ Some s) }
    ensures now { (batches copied : List Bytes) → Keeps D.crashes D.seen D.images journal.now batches copied
        → (s : Sides) → D.seen journal.now.disk ≡ Some s → HoldsLog journal.now.log.version batches s }
    ensures images { (batches copied : List Bytes) → Keeps D.crashes D.seen D.images journal.now batches copied
        → D.crashes journal.now.disk ≡ true
        → EachImage (D.images journal.now.disk)
        (HoldsOf journal.now.log.version journal.now.log.generation batches) }
    ensures generation { (batches copied : List Bytes) → Keeps D.crashes D.seen D.images journal.now batches copied
        → (s : Sides) → D.seen journal.now.disk ≡ Some s → opened_generation s ≡ journal.now.log.generation }
{
    // Naming the journal shows the proof its invariant.
    let _kept = journal;
}

/// The sides of a disk hold the batches of one log at most, of one version; whoever opens sides whose log grew from
/// earlier batches finds these grown.
pub fn logs_hold_once()
    ensures once { (v w : ℕ) (batches others : List Bytes) (s : Sides) → HoldsLog v batches s → HoldsLog w others s
        → (v ≡ w) × (batches ≡ others) }
    ensures grown { (v g : ℕ) (batches earlier : List Bytes) (s : Sides) → HoldsLog v batches s
        → HasGrown g earlier s → Grows g (opened_generation s) earlier batches }
{
    logs_read_once();
}
