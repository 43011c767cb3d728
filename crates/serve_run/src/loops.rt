//! The server in a loop over readiness: many sessions by one thread, and one commit a round.

ghost use Rattle.std.specs.Prelude.{◌≡◌, ◌≤◌, ◌<◌, ℕ, Option, Some, Bool, true, false, [], length, IfOk};
ghost use Rattle.world_data.specs.Limits.{max_moment, take_frames};
ghost use Rattle.world_model.specs.Seats.{Knows};
ghost use Rattle.outside.specs.Doors.{DoorState};
ghost use Rattle.outside.specs.Waits.{Waits};
ghost use Rattle.serve_run.specs.Tends.{IsTold};
ghost use Rattle.serve_run.specs.Feeds.{FedBy};
ghost use Rattle.serve_run.specs.Loops.{ServesReady, around};
ghost use Rattle.serve_run.specs.LoopStates.{Keeps, FeedsShutTo, loop_state};
ghost use Rattle.serve_run.specs.declared.terms.Terms.{Terms};
ghost use Rattle.serve_run.specs.LoopEnds.{FeedsTurn, TendsTable, IsLastOf};
ghost use Rattle.serve_run.specs.Pacing.{untended};

use crate::early_ends::end_early;
use crate::joins::{Counts, let_in};
use crate::marks::AllMarks;
use crate::paces::Pace;
use crate::shrinks::shrink_if_due;
use crate::tables::{Table, all_in, all_out, none_open, shut_all, shut_over};
use crate::tends::{ServeEnd, Served, tick_and_rewrite};
use crate::terms::Terms;
use byte_text::NoMemory;
use outside::{Clock, Failed, Named, ReadyDoor, ReadyLink, WaitForLinks};
use repl_stream::{FeedApi, PartBytes};
use std::alloc::Global;
use std::sync::Wait;
use world_model::{ChangedSessions, Frames, HallApi};

// So many bytes are read at once.
const BLOCK: usize = 65_536;

/// What a loop works with.
#[derive(Drop)]
struct Work {
    block: Vec<u8>,
    // The place for a part of the log, where followers are allowed.
    part: Option<PartBytes>,
    frames: Frames,
    // When the next tick is due.
    pace: Pace,
}

impl Work {
    fn new(alloc: Global, terms: Terms) -> Result<Work, NoMemory>
        ensures some { IfOk result (λ w. 0 < length w.block.items) }
        ensures bare { IfOk result (λ w. w.frames.list ≡ []) }
        ensures places { IfOk result (λ w. w.frames.places ≡ take_frames) }
        ensures pace { IfOk result (λ w. w.pace.tending ≡ untended) }
    {
        let Ok(block) = vec![in alloc; 0u8; BLOCK] else {
            return Err(NoMemory);
        };
        let part = if terms.followers > 0 {
            Some(PartBytes::new(alloc)?)
        } else {
            None
        };
        let frames = Frames::new(alloc)?;
        Ok(Work {
            block,
            part,
            frames,
            pace: Pace::new(),
        })
    }
}

// Waits until somebody may be ready, or until the next tick is due, and marks who was named.
fn look<D: ReadyDoor, W: WaitForLinks<D>>(
    wait: &mut W,
    all: &mut AllMarks,
    pace: &mut Pace,
) -> Result<(), Failed>
where
    D::Link: Drop,
    ensures waits { Waits (W.shows wait.old) (W.shows wait.new) result }
    ensures pace { pace.new.tending ≡ pace.old.tending }
{
    let count = wait.wait(all.patience(pace.patience()))?;
    pace.looked(count == 0 && !all.is_busy);
    all.looked(count);
    for nth in 0..count {
        match wait.named(nth) {
            Some(Named::Link(token)) => all.name(token as usize),
            Some(Named::Door) => all.may_accept = true,
            Some(Named::Waker | Named::End) => {}
            None => break,
        }
    }
    Ok(())
}

// Makes a Tick and the Rewrites behind it, where one is due, and asks that the log be rewritten, where it has grown. The
// end that this brings.
fn tend_if_due<H: HallApi, C: Clock, R: Wait>(
    rt: &R,
    alloc: Global,
    hall: &H,
    seat: &mut H::Seat,
    clock: &C,
    moment: u64,
    all: &mut AllMarks,
    pace: &mut Pace,
    terms: Terms,
    touched: ChangedSessions,
) -> (Option<ServeEnd>, ChangedSessions)
    requires seat { H.is_of hall.now seat.old }
    requires moment { moment ≤ max_moment }
    ensures seat { H.is_of hall.now seat.new }
    ensures tends { (told : Option ℕ) → IsTold told moment
        → TendsTable told terms pace.old.tending pace.new.tending (H.knows seat.old) (H.knows seat.new) result.0 }
{
    let is_due = pace.is_tick_due(moment);
    all.begin(moment, is_due);
    if !is_due {
        return (None, touched);
    }
    let steps = pace.steps();
    let (tended, touched) = tick_and_rewrite(rt, hall, seat, moment, steps, touched);
    all.touch(&touched);
    match tended {
        Ok(log) => {
            pace.tended(clock.now(), log);
            shrink_if_due(rt, alloc, hall, seat, moment, pace, terms, touched)
        }
        Err(end) => (pace.end_of(end, moment), touched),
    }
}

// What a round does for those who are served: the calls of all, and then the takes of all, so that one commit serves the
// round; and those who are through are removed, and their links shut. The end that this brings.
fn serve_all<H: FeedApi, D: ReadyDoor, W: WaitForLinks<D>, R: Wait>(
    rt: &R,
    alloc: Global,
    hall: &H,
    seat: &mut H::Seat,
    moment: u64,
    wait: &mut W,
    table: &mut Table<D::Link>,
    all: &mut AllMarks,
    work: &mut Work,
    touched: ChangedSessions,
    terms: Terms,
) -> (Option<ServeEnd>, ChangedSessions)
where
    D::Link: Drop,
    requires seat { H.HallApi.is_of hall.now seat.old }
    requires moment { moment ≤ max_moment }
    requires some { 0 < length work.old.block.items }
    requires bare { work.old.frames.list ≡ [] }
    requires places { work.old.frames.places ≡ take_frames }
    ensures seat { H.HallApi.is_of hall.now seat.new }
    ensures some { 0 < length work.new.block.items }
    ensures bare { work.new.frames.list ≡ [] }
    ensures places { work.new.frames.places ≡ take_frames }
    ensures pace { work.new.pace ≡ work.old.pace }
    ensures keeps { (told : Option ℕ) → IsTold told moment
        → FeedsShutTo (FedBy (H.answers hall.now) terms) told terms
        (H.HallApi.knows seat.old) (H.HallApi.knows seat.new)
        (W.shows wait.old) (W.shows wait.new) table.old.items table.new.items result.0 }
{
    let (block, part) = (&mut work.block, &mut work.part);
    let touched = all_in(
        rt, hall, seat, moment, table, all, block, part, touched, terms,
    );
    all_out(rt, hall, seat, table, all, &mut work.frames);
    shut_over(rt, alloc, hall, seat, moment, wait, table, all, touched)
}

// Whether no caller comes any more, so that the loop ends with the last link.
fn is_last<D: ReadyDoor, W: WaitForLinks<D>>(wait: &W, counts: &Counts, terms: Terms) -> bool
where
    D::Link: Drop,
    ensures { result ≡ true → IsLastOf terms (W.shows wait.now).over counts.now.joined counts.now.is_over }
{
    counts.is_over || counts.joined == terms.limit || (terms.until_end && wait.is_over())
}

// One round. The end that it brings.
fn round<H: FeedApi, D: ReadyDoor, C: Clock, W: WaitForLinks<D>, R: Wait>(
    rt: &R,
    alloc: Global,
    hall: &H,
    seat: &mut H::Seat,
    door: &mut D,
    clock: &C,
    wait: &mut W,
    table: &mut Table<D::Link>,
    all: &mut AllMarks,
    counts: &mut Counts,
    work: &mut Work,
    touched: ChangedSessions,
    terms: Terms,
) -> (Option<ServeEnd>, ChangedSessions)
where
    D::Link: Drop,
    requires seat { H.HallApi.is_of hall.now seat.old }
    requires some { 0 < length work.old.block.items }
    requires bare { work.old.frames.list ≡ [] }
    requires places { work.old.frames.places ≡ take_frames }
    requires room { counts.old.joined ≤ terms.limit }
    requires few { counts.old.starved ≤ counts.old.joined }
    ensures seat { H.HallApi.is_of hall.now seat.new }
    ensures some { 0 < length work.new.block.items }
    ensures bare { work.new.frames.list ≡ [] }
    ensures places { work.new.frames.places ≡ take_frames }
    ensures room { counts.new.joined ≤ terms.limit }
    ensures few { counts.new.starved ≤ counts.new.joined }
    ensures turn { FeedsTurn (FedBy (H.answers hall.now) terms) (C.told clock.now) terms
        work.old.pace.tending work.new.pace.tending
        (loop_state (H.HallApi.knows seat.old) (D.shows door.old) (W.shows wait.old) table.old.items
        counts.old.joined counts.old.starved counts.old.is_over true)
        (loop_state (H.HallApi.knows seat.new) (D.shows door.new) (W.shows wait.new) table.new.items
        counts.new.joined counts.new.starved counts.new.is_over true) result.0 }
{
    if let Err(Failed) = look(wait, all, &mut work.pace) {
        return (Some(ServeEnd::DoorFault), touched);
    }
    let moment = clock.now();
    let pace = &mut work.pace;
    let (tended, touched) = tend_if_due(
        rt, alloc, hall, seat, clock, moment, all, pace, terms, touched,
    );
    if let Some(end) = tended {
        return (Some(end), touched);
    }
    end_early(wait, table, all, terms);
    let came = let_in(rt, alloc, hall, seat, door, wait, table, all, counts, terms);
    if let Some(end) = came {
        return (Some(end), touched);
    }
    let (served, touched) = serve_all(
        rt, alloc, hall, seat, moment, wait, table, all, work, touched, terms,
    );
    if let Some(end) = served {
        return (Some(end), touched);
    }
    if is_last(wait, counts, terms) && none_open(table) {
        return (Some(ServeEnd::Done), touched);
    }
    (None, touched)
}

// Serves links up to an end, with what was made for it.
fn serve_with<H: FeedApi, D: ReadyDoor, C: Clock, W: WaitForLinks<D>, R: Wait>(
    rt: &R,
    alloc: Global,
    hall: &H,
    seat: &mut H::Seat,
    door: &mut D,
    clock: &C,
    wait: &mut W,
    table: &mut Table<D::Link>,
    counts: &mut Counts,
    work: &mut Work,
    touched: ChangedSessions,
    terms: Terms,
) -> ServeEnd
where
    D::Link: Drop,
    requires seat { H.HallApi.is_of hall.now seat.old }
    requires some { 0 < length work.old.block.items }
    requires bare { work.old.frames.list ≡ [] }
    requires places { work.old.frames.places ≡ take_frames }
    requires room { counts.old.joined ≤ terms.limit }
    requires few { counts.old.starved ≤ counts.old.joined }
    ensures seat { H.HallApi.is_of hall.now seat.new }
    ensures room { counts.new.joined ≤ terms.limit }
    ensures turn { FeedsTurn (FedBy (H.answers hall.now) terms) (C.told clock.now) terms
        work.old.pace.tending work.new.pace.tending
        (loop_state (H.HallApi.knows seat.old) (D.shows door.old) (W.shows wait.old) table.old.items
        counts.old.joined counts.old.starved counts.old.is_over true)
        (loop_state (H.HallApi.knows seat.new) (D.shows door.new) (W.shows wait.new) table.new.items
        counts.new.joined counts.new.starved counts.new.is_over true) (Some result) }
{
    let mut touched = touched;
    let mut all = AllMarks::new(alloc, terms);
    for _ in rt.forever() {
        let (end, back) = round(
            rt, alloc, hall, seat, door, clock, wait, table, &mut all, counts, work, touched, terms,
        );
        touched = back;
        if let Some(end) = end {
            return end;
        }
    }
    unreachable!()
}

// Serves links up to an end, with an empty table.
fn serve_up_to<H: FeedApi, D: ReadyDoor, C: Clock, W: WaitForLinks<D>, R: Wait>(
    rt: &R,
    alloc: Global,
    hall: &H,
    seat: &mut H::Seat,
    door: &mut D,
    clock: &C,
    wait: &mut W,
    table: &mut Table<D::Link>,
    counts: &mut Counts,
    terms: Terms,
) -> ServeEnd
where
    D::Link: Drop,
    requires seat { H.HallApi.is_of hall.now seat.old }
    requires room { counts.old.joined ≤ terms.limit }
    requires few { counts.old.starved ≤ counts.old.joined }
    ensures seat { H.HallApi.is_of hall.now seat.new }
    ensures room { counts.new.joined ≤ terms.limit }
    ensures turn { FeedsTurn (FedBy (H.answers hall.now) terms) (C.told clock.now) terms untended untended
        (loop_state (H.HallApi.knows seat.old) (D.shows door.old) (W.shows wait.old) table.old.items
        counts.old.joined counts.old.starved counts.old.is_over true)
        (loop_state (H.HallApi.knows seat.new) (D.shows door.new) (W.shows wait.new) table.new.items
        counts.new.joined counts.new.starved counts.new.is_over true) (Some result) }
{
    let Ok(touched) = ChangedSessions::new(alloc) else {
        return ServeEnd::Memory;
    };
    let Ok(mut work) = Work::new(alloc, terms) else {
        return ServeEnd::Memory;
    };
    serve_with(
        rt, alloc, hall, seat, door, clock, wait, table, counts, &mut work, touched, terms,
    )
}

// Shuts the links that are open as the loop ends. At its own end none is.
fn end_loop<D: ReadyDoor, W: WaitForLinks<D>>(
    wait: &mut W,
    table: &mut Table<D::Link>,
    end: ServeEnd,
)
where
    D::Link: Drop,
    ensures done { end ≡ ServeEnd.Done → W.shows wait.new ≡ W.shows wait.old }
    ensures rest { (end ≡ ServeEnd.Done → ⊥) → (told : Option ℕ) → (terms : Terms) → (k : Knows) → (d : DoorState) → (joined starved : ℕ)
        → (is_over goes_on : Bool)
        → Keeps told terms (loop_state k d (W.shows wait.old) table.old.items joined starved is_over goes_on)
        (loop_state k d (W.shows wait.new) [] joined starved is_over false) }
    ensures faults { (W.shows wait.new).faults ≡ (W.shows wait.old).faults }
{
    if let ServeEnd::Done = end {
        return;
    }
    shut_all(wait, table);
}

/// Serves links over readiness, as the terms ask, and shuts them all.
pub(crate) fn serve_loop<H: FeedApi, D: ReadyDoor, C: Clock, W: WaitForLinks<D>, R: Wait>(
    rt: &R,
    alloc: Global,
    hall: &H,
    seat: &mut H::Seat,
    door: &mut D,
    clock: &C,
    wait: &mut W,
    terms: Terms,
) -> Served
where
    D::Link: Drop,
    requires seat { H.HallApi.is_of hall.now seat.old }
    ensures seat { H.HallApi.is_of hall.now seat.new }
    ensures serves { ServesReady (C.told clock.now) (H.answers hall.now) terms
        (around (H.HallApi.knows seat.old) (D.shows door.old) (W.shows wait.old))
        (around (H.HallApi.knows seat.new) (D.shows door.new) (W.shows wait.new))
        result.joined result.starved result.end }
{
    let mut counts = Counts {
        joined: 0,
        starved: 0,
        is_over: false,
    };
    let mut table = Vec::new(alloc);
    let end = serve_up_to(
        rt,
        alloc,
        hall,
        seat,
        door,
        clock,
        wait,
        &mut table,
        &mut counts,
        terms,
    );
    end_loop(wait, &mut table, end);
    Served {
        joined: counts.joined,
        starved: counts.starved,
        end,
    }
}
