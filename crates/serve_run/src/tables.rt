//! The table of a loop's open sessions, and what a round does with all of them.

ghost use Rattle.std.specs.Prelude.{◌≡◌, ◌≤◌, ◌<◌, ◌++◌, ◌∷◌, ◌⊎◌, ℕ, Option, Some, None, Bool, true, false, List, [], length, IfSome, slice_set};
ghost use Rattle.std.specs.List.{slice_get};
ghost use Rattle.world_data.specs.Limits.{max_moment, take_frames};
ghost use Rattle.serve_run.specs.Tends.{IsTold};
ghost use Rattle.world_model.specs.Seats.{Knows};
ghost use Rattle.outside.specs.Doors.{DoorState};
ghost use Rattle.session_run.specs.Sessions.{SessionState, IsOver};
ghost use Rattle.serve_run.specs.declared.terms.Terms.{Terms};
ghost use Rattle.serve_run.specs.Feeds.{FedBy};
ghost use Rattle.serve_run.specs.LoopEnds.{ShutBy, end_behind};
ghost use Rattle.serve_run.specs.LoopStates.{Keeps, KeepsTable, FeedsTable, KeepsShutTo, NoneOpen, loop_state};

use crate::marks::AllMarks;
use crate::session_steps::{step_in, step_out};
use crate::tends::ServeEnd;
use crate::terms::Terms;
use crate::unfences::remove;
use outside::{ReadyDoor, ReadyLink, WaitForLinks};
use repl_stream::{FeedApi, PartBytes};
use session_run::Session;
use std::alloc::Global;
use std::mem;
use std::sync::Wait;
use world_model::{ChangedSessions, Frames, HallApi};

/// The open sessions of a loop, each at the place by whose number its link is named.
pub(crate) type Table<K> = Vec<Option<Session<K>>>;

// The first half of a round, for the session of a place.
fn one_in<H: FeedApi, K: ReadyLink + Drop, R: Wait>(
    rt: &R,
    hall: &H,
    seat: &mut H::Seat,
    moment: u64,
    table: &mut Table<K>,
    place: usize,
    all: &mut AllMarks,
    block: &mut [u8],
    part: &mut Option<PartBytes>,
    touched: ChangedSessions,
    terms: Terms,
) -> ChangedSessions
    requires seat { H.HallApi.is_of hall.now seat.old }
    requires moment { moment ≤ max_moment }
    requires some { 0 < length block.old }
    requires within { place < length table.old.items }
    ensures seat { H.HallApi.is_of hall.now seat.new }
    ensures keeps { (told : Option ℕ) → IsTold told moment
        → FeedsTable (FedBy (H.answers hall.now) terms) told terms
        (H.HallApi.knows seat.old) (H.HallApi.knows seat.new) table.old.items table.new.items }
    ensures length { length table.new.items ≡ length table.old.items }
    ensures block { length block.new ≡ length block.old }
{
    match &mut table[place] {
        Some(session) => step_in(
            rt, hall, seat, moment, session, place, all, block, part, touched, terms,
        ),
        None => touched,
    }
}

/// The first half of a round, for each session.
pub(crate) fn all_in<H: FeedApi, K: ReadyLink + Drop, R: Wait>(
    rt: &R,
    hall: &H,
    seat: &mut H::Seat,
    moment: u64,
    table: &mut Table<K>,
    all: &mut AllMarks,
    block: &mut [u8],
    part: &mut Option<PartBytes>,
    touched: ChangedSessions,
    terms: Terms,
) -> ChangedSessions
    requires seat { H.HallApi.is_of hall.now seat.old }
    requires moment { moment ≤ max_moment }
    requires some { 0 < length block.old }
    ensures seat { H.HallApi.is_of hall.now seat.new }
    ensures keeps { (told : Option ℕ) → IsTold told moment
        → FeedsTable (FedBy (H.answers hall.now) terms) told terms
        (H.HallApi.knows seat.old) (H.HallApi.knows seat.new) table.old.items table.new.items }
    ensures block { length block.new ≡ length block.old }
{
    let mut touched = touched;
    for place in 0..table.len() {
        touched = one_in(
            rt, hall, seat, moment, table, place, all, block, part, touched, terms,
        );
    }
    touched
}

// The second half of a round, for the session of a place.
fn one_out<H: HallApi, K: ReadyLink + Drop, R: Wait>(
    rt: &R,
    hall: &H,
    seat: &mut H::Seat,
    table: &mut Table<K>,
    place: usize,
    all: &mut AllMarks,
    frames: &mut Frames,
)
    requires seat { H.is_of hall.now seat.old }
    requires bare { frames.old.list ≡ [] }
    requires places { frames.old.places ≡ take_frames }
    requires within { place < length table.old.items }
    ensures seat { H.is_of hall.now seat.new }
    ensures bare { frames.new.list ≡ [] }
    ensures places { frames.new.places ≡ take_frames }
    ensures keeps { (told : Option ℕ) → (terms : Terms)
        → KeepsTable told terms (H.knows seat.old) (H.knows seat.new) table.old.items table.new.items }
    ensures length { length table.new.items ≡ length table.old.items }
{
    match &mut table[place] {
        Some(session) => step_out(rt, hall, seat, session, place, all, frames),
        None => {}
    }
}

/// The second half of a round, for each session.
pub(crate) fn all_out<H: HallApi, K: ReadyLink + Drop, R: Wait>(
    rt: &R,
    hall: &H,
    seat: &mut H::Seat,
    table: &mut Table<K>,
    all: &mut AllMarks,
    frames: &mut Frames,
)
    requires seat { H.is_of hall.now seat.old }
    requires bare { frames.old.list ≡ [] }
    requires places { frames.old.places ≡ take_frames }
    ensures seat { H.is_of hall.now seat.new }
    ensures bare { frames.new.list ≡ [] }
    ensures places { frames.new.places ≡ take_frames }
    ensures keeps { (told : Option ℕ) → (terms : Terms)
        → KeepsTable told terms (H.knows seat.old) (H.knows seat.new) table.old.items table.new.items }
{
    for place in 0..table.len() {
        one_out(rt, hall, seat, table, place, all, frames);
    }
}

// Takes the session of a place out of the table, where it is over.
fn take_over<K: ReadyLink + Drop>(table: &mut Table<K>, place: usize) -> Option<Session<K>>
    requires within { place < length table.old.items }
    ensures there { IfSome result (λ s. slice_get table.old.items place ≡ Some (Some s)) }
    ensures over { IfSome result (λ s. IsOver s) }
    ensures taken { IfSome result (λ s. table.new.items ≡ slice_set table.old.items place None) }
    ensures none { result ≡ None → table.new.items ≡ table.old.items }
    ensures length { length table.new.items ≡ length table.old.items }
{
    match &table[place] {
        Some(session) if session.is_over() => {}
        _ => return None,
    }
    mem::replace(&mut table[place], None)
}

// The end that a removal brings, or else want of memory where the one that waits could not tell the link.
fn end_behind(removed: Option<ServeEnd>, is_told: bool) -> Option<ServeEnd>
    ensures { result ≡ end_behind removed is_told }
{
    match removed {
        Some(end) => Some(end),
        None if is_told => None,
        None => Some(ServeEnd::Memory),
    }
}

// Removes the session of a place, where it is over, and shuts its link. The end that this brings, and the sessions that
// were touched.
fn shut_one<H: HallApi, D: ReadyDoor, W: WaitForLinks<D>, R: Wait>(
    rt: &R,
    alloc: Global,
    hall: &H,
    seat: &mut H::Seat,
    moment: u64,
    wait: &mut W,
    table: &mut Table<D::Link>,
    place: usize,
    all: &mut AllMarks,
    touched: ChangedSessions,
) -> (Option<ServeEnd>, ChangedSessions)
where
    D::Link: Drop,
    requires seat { H.is_of hall.now seat.old }
    requires moment { moment ≤ max_moment }
    requires within { place < length table.old.items }
    ensures seat { H.is_of hall.now seat.new }
    ensures keeps { (told : Option ℕ) → (terms : Terms) → IsTold told moment
        → KeepsShutTo told terms (H.knows seat.old) (H.knows seat.new)
        (W.shows wait.old) (W.shows wait.new) table.old.items table.new.items result.0 }
    ensures length { length table.new.items ≡ length table.old.items }
{
    match take_over(table, place) {
        Some(session) => {
            all.leave(session.number());
            let (removed, touched) = remove(rt, alloc, hall, seat, moment, &session, all, touched);
            let is_told = shut(wait, session.into_link());
            (end_behind(removed, is_told), touched)
        }
        None => (None, touched),
    }
}

/// Removes each session that is over, and shuts its link, up to an end that this brings. That end, and the sessions that
/// were touched.
pub(crate) fn shut_over<H: HallApi, D: ReadyDoor, W: WaitForLinks<D>, R: Wait>(
    rt: &R,
    alloc: Global,
    hall: &H,
    seat: &mut H::Seat,
    moment: u64,
    wait: &mut W,
    table: &mut Table<D::Link>,
    all: &mut AllMarks,
    touched: ChangedSessions,
) -> (Option<ServeEnd>, ChangedSessions)
where
    D::Link: Drop,
    requires seat { H.is_of hall.now seat.old }
    requires moment { moment ≤ max_moment }
    ensures seat { H.is_of hall.now seat.new }
    ensures keeps { (told : Option ℕ) → (terms : Terms) → IsTold told moment
        → KeepsShutTo told terms (H.knows seat.old) (H.knows seat.new)
        (W.shows wait.old) (W.shows wait.new) table.old.items table.new.items result.0 }
{
    let mut touched = touched;
    for place in 0..table.len() {
        let (end, back) = shut_one(
            rt, alloc, hall, seat, moment, wait, table, place, all, touched,
        );
        touched = back;
        if let Some(end) = end {
            return (Some(end), touched);
        }
    }
    (None, touched)
}

/// Whether no session is open.
pub(crate) fn none_open<K: ReadyLink + Drop>(table: &Table<K>) -> bool
    ensures { result ≡ true → NoneOpen table.now.items }
{
    for place in 0..table.len() {
        if table[place].is_some() {
            return false;
        }
    }
    true
}

/// A place for a session; none for want of memory.
pub(crate) fn free_place<K: ReadyLink + Drop>(table: &mut Table<K>) -> Option<usize>
    ensures free { IfSome result (λ i. slice_get table.new.items i ≡ Some None) }
    ensures same { (table.new.items ≡ table.old.items) ⊎ (table.new.items ≡ table.old.items ++ None ∷ []) }
    ensures none { result ≡ None → table.new.items ≡ table.old.items }
{
    for place in 0..table.len() {
        if table[place].is_none() {
            return Some(place);
        }
    }
    let place = table.len();
    match table.push(None) {
        Ok(()) => Some(place),
        Err(_) => None,
    }
}

/// Shuts a link. Whether the one that waits could tell it.
pub(crate) fn shut<D: ReadyDoor, W: WaitForLinks<D>>(wait: &mut W, link: D::Link) -> bool
    ensures { ShutBy (W.shows wait.old) (W.shows wait.new) result (D.Link.shows link) }
{
    wait.shut(link).is_ok()
}

// Shuts the link of the last session of a table, as the loop ends. Where it can't be told, the loop ends all the same.
fn shut_popped<D: ReadyDoor, W: WaitForLinks<D>>(wait: &mut W, place: Option<Session<D::Link>>)
where
    D::Link: Drop,
    ensures keeps { (told : Option ℕ) → (terms : Terms) → (k : Knows) → (d : DoorState) → (places : List (Option SessionState))
        → (joined starved : ℕ) → (is_over goes_on : Bool)
        → Keeps told terms (loop_state k d (W.shows wait.old) (places ++ place ∷ []) joined starved is_over goes_on)
        (loop_state k d (W.shows wait.new) places joined starved is_over false) }
    ensures faults { (W.shows wait.new).faults ≡ (W.shows wait.old).faults }
{
    if let Some(session) = place {
        shut(wait, session.into_link());
    }
}

/// Shuts the links of all sessions, wherever they are, as the loop ends.
pub(crate) fn shut_all<D: ReadyDoor, W: WaitForLinks<D>>(wait: &mut W, table: &mut Table<D::Link>)
where
    D::Link: Drop,
    ensures keeps { (told : Option ℕ) → (terms : Terms) → (k : Knows) → (d : DoorState) → (joined starved : ℕ) → (is_over goes_on : Bool)
        → Keeps told terms (loop_state k d (W.shows wait.old) table.old.items joined starved is_over goes_on)
        (loop_state k d (W.shows wait.new) table.new.items joined starved is_over false) }
    ensures none { table.new.items ≡ [] }
    ensures faults { (W.shows wait.new).faults ≡ (W.shows wait.old).faults }
{
    while let Some(place) = table.pop() {
        shut_popped(wait, place);
    }
}
