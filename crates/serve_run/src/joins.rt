//! Callers that come to a loop.

ghost use Rattle.std.specs.Prelude.{◌≡◌, ◌≤◌, ◌<◌, ◌+◌, ◌^◌, ◌-◌, ℕ, Option, Bool, true, false, None};
ghost use Rattle.outside.specs.Causes.{next_count};
ghost use Rattle.outside.specs.Doors.{DoorState};
ghost use Rattle.outside.specs.Links.{IsNew};
ghost use Rattle.serve_run.specs.LoopStates.{Keeps, loop_state};
ghost use Rattle.serve_run.specs.declared.terms.Terms.{Terms};
ghost use Rattle.serve_run.specs.LoopEnds.{HasPlace, IsPlaced, LoopTurn};

use crate::marks::AllMarks;
use crate::tables::{Table, free_place, shut};
use crate::tends::ServeEnd;
use crate::terms::Terms;
use outside::{Caller, Failed, ReadyDoor, ReadyLink, WaitForLinks};
use session_run::Session;
use std::alloc::Global;
use std::sync::Wait;
use world_model::HallApi;

/// What a loop counts.
#[derive(Clone, Copy, Debug, PartialEq, Eq)]
pub(crate) struct Counts {
    /// How many callers came.
    pub(crate) joined: u32,
    /// How many sessions were removed for want of memory.
    pub(crate) starved: u32,
    /// The door told that no caller will come.
    pub(crate) is_over: bool,
}

/// Why a session that was entered got no place.
#[derive(Clone, Copy, Debug, PartialEq, Eq)]
pub(crate) enum Unseated {
    /// There is no memory for it.
    Starved,
    /// Its link can't be watched.
    Unwatched,
}

// Callers that are let in behind one wait, at most: those who are served wait meanwhile.
const MOST_JOINED: u32 = 64;

// Finds a place for a link, and has it watched under the number of the place.
fn place_for<D: ReadyDoor, W: WaitForLinks<D>>(
    wait: &mut W,
    table: &mut Table<D::Link>,
    all: &mut AllMarks,
    link: &mut D::Link,
    session: u32,
) -> Result<usize, Unseated>
where
    D::Link: Drop,
    ensures link { D.Link.shows link.new ≡ D.Link.shows link.old }
    ensures place { HasPlace table.old.items table.new.items }
    ensures placed { IsPlaced table.new.items (W.shows wait.old) (W.shows wait.new) result }
{
    let Some(place) = free_place(table) else {
        return Err(Unseated::Starved);
    };
    let Ok(token) = u32::try_from(place) else {
        return Err(Unseated::Starved);
    };
    if all.add(place, session).is_err() {
        return Err(Unseated::Starved);
    }
    match wait.watch(link, token) {
        Ok(()) => Ok(place),
        Err(Failed) => Err(Unseated::Unwatched),
    }
}

// Enters a session for a link that came, and gives it a place; or shuts the link. Whether the loop can go on.
fn join<H: HallApi, D: ReadyDoor, W: WaitForLinks<D>, R: Wait>(
    rt: &R,
    alloc: Global,
    hall: &H,
    seat: &mut H::Seat,
    wait: &mut W,
    table: &mut Table<D::Link>,
    all: &mut AllMarks,
    counts: &mut Counts,
    link: D::Link,
) -> bool
where
    D::Link: Drop,
    requires seat { H.is_of hall.now seat.old }
    requires room { counts.old.joined < 2 ^ 32 - 1 }
    requires few { counts.old.starved ≤ counts.old.joined }
    ensures seat { H.is_of hall.now seat.new }
    ensures few { counts.new.starved ≤ counts.new.joined }
    ensures joined { counts.new.joined ≡ counts.old.joined + 1 }
    ensures over { counts.new.is_over ≡ counts.old.is_over }
    ensures keeps { (told : Option ℕ) → (terms : Terms) → (door : DoorState) → IsNew door.links (D.Link.shows link)
        → Keeps told terms (loop_state (H.knows seat.old) door (W.shows wait.old) table.old.items
        counts.old.joined counts.old.starved counts.old.is_over true)
        (loop_state (H.knows seat.new) (record door { links = next_count door.links }) (W.shows wait.new)
        table.new.items counts.new.joined counts.new.starved counts.new.is_over result) }
{
    counts.joined += 1;
    let mut link = link;
    let Ok(session) = hall.enter(rt, seat) else {
        return shut(wait, link);
    };
    match place_for(wait, table, all, &mut link, session) {
        Ok(place) => {
            table[place] = Some(Session::new(alloc, link, session));
            true
        }
        Err(Unseated::Starved) => {
            counts.starved += 1;
            hall.remove(rt, seat, session);
            shut(wait, link)
        }
        Err(Unseated::Unwatched) => {
            hall.remove(rt, seat, session);
            shut(wait, link)
        }
    }
}

// Looks for one caller. Whether there may be a further one, or the end that this brings.
fn let_one_in<H: HallApi, D: ReadyDoor, W: WaitForLinks<D>, R: Wait>(
    rt: &R,
    alloc: Global,
    hall: &H,
    seat: &mut H::Seat,
    door: &mut D,
    wait: &mut W,
    table: &mut Table<D::Link>,
    all: &mut AllMarks,
    counts: &mut Counts,
    terms: Terms,
) -> Option<ServeEnd>
where
    D::Link: Drop,
    requires seat { H.is_of hall.now seat.old }
    requires room { counts.old.joined < terms.limit }
    requires few { counts.old.starved ≤ counts.old.joined }
    ensures seat { H.is_of hall.now seat.new }
    ensures few { counts.new.starved ≤ counts.new.joined }
    ensures room { counts.new.joined ≤ terms.limit }
    ensures turn { (told : Option ℕ) → LoopTurn told terms
        (loop_state (H.knows seat.old) (D.shows door.old) (W.shows wait.old) table.old.items
        counts.old.joined counts.old.starved counts.old.is_over true)
        (loop_state (H.knows seat.new) (D.shows door.new) (W.shows wait.new) table.new.items
        counts.new.joined counts.new.starved counts.new.is_over true) result }
{
    match door.accept() {
        Err(Failed) => Some(ServeEnd::DoorFault),
        Ok(Caller::Later) => {
            all.may_accept = false;
            None
        }
        Ok(Caller::Over) => {
            counts.is_over = true;
            None
        }
        Ok(Caller::Came(link)) => {
            if join(rt, alloc, hall, seat, wait, table, all, counts, link) {
                None
            } else {
                Some(ServeEnd::Memory)
            }
        }
    }
}

/// Lets callers in as long as some come and are served, up to a number. The end that this brings.
pub(crate) fn let_in<H: HallApi, D: ReadyDoor, W: WaitForLinks<D>, R: Wait>(
    rt: &R,
    alloc: Global,
    hall: &H,
    seat: &mut H::Seat,
    door: &mut D,
    wait: &mut W,
    table: &mut Table<D::Link>,
    all: &mut AllMarks,
    counts: &mut Counts,
    terms: Terms,
) -> Option<ServeEnd>
where
    D::Link: Drop,
    requires seat { H.is_of hall.now seat.old }
    requires room { counts.old.joined ≤ terms.limit }
    requires few { counts.old.starved ≤ counts.old.joined }
    ensures seat { H.is_of hall.now seat.new }
    ensures few { counts.new.starved ≤ counts.new.joined }
    ensures room { counts.new.joined ≤ terms.limit }
    ensures turn { (told : Option ℕ) → LoopTurn told terms
        (loop_state (H.knows seat.old) (D.shows door.old) (W.shows wait.old) table.old.items
        counts.old.joined counts.old.starved counts.old.is_over true)
        (loop_state (H.knows seat.new) (D.shows door.new) (W.shows wait.new) table.new.items
        counts.new.joined counts.new.starved counts.new.is_over true) result }
{
    for _ in 0..MOST_JOINED {
        if counts.is_over || all.is_ending() || counts.joined >= terms.limit || !all.may_accept {
            return None;
        }
        let end = let_one_in(rt, alloc, hall, seat, door, wait, table, all, counts, terms);
        if let Some(end) = end {
            return Some(end);
        }
    }
    // There may be more, who are let in behind those that are served.
    all.is_busy = true;
    None
}
