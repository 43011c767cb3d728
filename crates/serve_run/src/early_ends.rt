//! Sessions that the server ends by itself: all of them once its end was asked for, and those that stood still for as
//! long as the terms allow.
//!
//! A session whose link takes and sends nothing is dismissed, so that what it asked before is answered; where frames
//! wait for a link that takes none, it is cut. A subscriber that only listens stands still while nothing is written to
//! it, so such a client has to send a PING now and then.

ghost use Rattle.std.specs.Prelude.{◌≡◌, ◌<◌, ℕ, Option, length};
ghost use Rattle.world_model.specs.Seats.{Knows};
ghost use Rattle.outside.specs.Waits.{WaitState};
ghost use Rattle.serve_run.specs.LoopStates.{KeepsEarly};
ghost use Rattle.serve_run.specs.Runs.{MayEnd};
ghost use Rattle.serve_run.specs.SessionSteps.{EndsEarly};

use crate::marks::{AllMarks, Early};
use crate::tables::Table;
use crate::terms::Terms;
use outside::{ReadyDoor, ReadyLink, WaitForLinks};
use session_run::Session;

// Ends the asking of a session, where that is to be.
fn dismiss_if<K: ReadyLink + Drop>(session: &mut Session<K>, is_due: bool)
    ensures { (told : Option ℕ) → (k : Knows) → EndsEarly told k session.old session.new }
{
    if is_due && session.may_be_dismissed() {
        session.dismiss();
    }
}

// Cuts the link of a session, where that is to be.
fn cut_if<K: ReadyLink + Drop>(session: &mut Session<K>, is_due: bool)
    ensures { (told : Option ℕ) → (k : Knows) → EndsEarly told k session.old session.new }
{
    if is_due && session.end_of_taking().is_none() {
        session.cut();
    }
}

// Ends a session as its marks say.
fn end_session<K: ReadyLink + Drop>(session: &mut Session<K>, early: Early)
    ensures { (told : Option ℕ) → (k : Knows) → EndsEarly told k session.old session.new }
{
    let waits = session.wants_to_write();
    dismiss_if(session, early.dismisses(waits));
    cut_if(session, early.cuts(waits));
}

// The same for the session of a place.
fn end_one<K: ReadyLink + Drop>(table: &mut Table<K>, place: usize, early: Early, terms: Terms)
    requires within { place < length table.old.items }
    ensures keeps { (told : Option ℕ) → (k : Knows) → (w : WaitState) → MayEnd terms w.over
        → KeepsEarly told terms k w table.old.items table.new.items }
    ensures length { length table.new.items ≡ length table.old.items }
{
    match &mut table[place] {
        Some(session) => end_session(session, early),
        None => {}
    }
}

// The same for each session.
fn end_all<K: ReadyLink + Drop>(table: &mut Table<K>, all: &AllMarks, terms: Terms)
    ensures keeps { (told : Option ℕ) → (k : Knows) → (w : WaitState) → MayEnd terms w.over
        → KeepsEarly told terms k w table.old.items table.new.items }
{
    for place in 0..table.len() {
        end_one(table, place, all.early(place), terms);
    }
}

/// Ends what the server ends by itself.
pub(crate) fn end_early<D: ReadyDoor, W: WaitForLinks<D>>(
    wait: &W,
    table: &mut Table<D::Link>,
    all: &mut AllMarks,
    terms: Terms,
)
where
    D::Link: Drop,
    ensures keeps { (told : Option ℕ) → (k : Knows)
        → KeepsEarly told terms k (W.shows wait.now) table.old.items table.new.items }
{
    if terms.until_end && wait.is_over() {
        all.end();
        end_all(table, all, terms);
    } else if terms.idle > 0 && all.is_look_due() {
        end_all(table, all, terms);
    }
}
