//! The steps of one session in a round of a loop.
//!
//! A round has two halves. In the first each session is read and its calls are made; in the second each is given what it
//! was made, and its link is written. So the first take of the second half commits for all calls of the first, and no
//! reply is written before.

ghost use Rattle.std.specs.Prelude.{◌≡◌, ◌≤◌, ◌<◌, ℕ, Option, [], length, true, IfSome};
ghost use Rattle.std.specs.List.{list_all};
ghost use Rattle.world_data.specs.Limits.{max_moment, take_frames};
ghost use Rattle.world_model.specs.Outcomes.{is_proper};
ghost use Rattle.world_model.specs.Seats.{Knows};
ghost use Rattle.session_run.specs.Sessions.{WantsTurn};
ghost use Rattle.serve_run.specs.Tends.{IsTold};
ghost use Rattle.serve_run.specs.Feeds.{FedBy};
ghost use Rattle.serve_run.specs.Steps.{asks_of};
ghost use Rattle.serve_run.specs.SessionSteps.{FeedsOn, StepsOn};

use crate::feeds::{ask_in, feed};
use crate::marks::{AllMarks, Marks};
use crate::terms::Terms;
use outside::{Got, ReadyLink, Sent};
use repl_stream::{Ask, FeedApi, PartBytes};
use session_run::Session;
use std::sync::Wait;
use world_data::TAKE;
use world_model::{Asked, AskedList, CallOutcome, ChangedSessions, Frames, HallApi, Taken};

// The turns of one session in a round. Each has at most 64 requests, so that their replies fill a session's queue in the
// hall and no more.
const MOST_TURNS: u32 = 16;

// The takes of one session in a round: as many as those replies need, and the one that finds no more.
const MOST_TAKES: u32 = 17;

// Reads a session once, where it may. A read that does not fill the block has most likely all that came, so the next one
// can wait.
fn read_once<K: ReadyLink + Drop>(session: &mut Session<K>, marks: &mut Marks, block: &mut [u8])
    requires some { 0 < length block.old }
    ensures steps { (told : Option ℕ) → (k : Knows) → StepsOn told k k session.old session.new }
    ensures block { length block.new ≡ length block.old }
{
    let room = block.len();
    if !marks.may_read || !session.wants_to_read() {
        return;
    }
    let got = session.on_readable(block);
    match got {
        Ok(Got::Bytes(count)) => {
            marks.is_filled = count == room;
            marks.is_moved = true;
        }
        _ => {
            marks.may_read = false;
            marks.is_filled = false;
        }
    }
}

// Whether the last of these requests ends the session: QUIT, or what is no request.
fn asks_to_end(asked: &AskedList) -> bool {
    match asked.len() {
        0 => false,
        count => match asked.at(count - 1) {
            Asked::Words(request) => {
                request.words() == 1 && request.word(0).eq_ignore_ascii_case(b"QUIT")
            }
            Asked::Broken(_) => true,
        },
    }
}

// Makes the calls of a session's requests, which are in hand. Whether each was answered Ok.
fn call<H: HallApi, K: ReadyLink + Drop, R: Wait>(
    rt: &R,
    hall: &H,
    seat: &mut H::Seat,
    moment: u64,
    session: &mut Session<K>,
    asked: AskedList,
    place: usize,
    all: &mut AllMarks,
    touched: ChangedSessions,
) -> (bool, ChangedSessions)
    requires seat { H.is_of hall.now seat.old }
    requires moment { moment ≤ max_moment }
    requires moved { session.old.asked ≡ [] }
    requires ready { WantsTurn (record session.old { asked = asked }) }
    requires few { length asked ≤ 64 }
    requires proper { list_all is_proper asked ≡ true }
    ensures seat { H.is_of hall.now seat.new }
    ensures steps { (told : Option ℕ) → IsTold told moment
        → StepsOn told (H.knows seat.old) (H.knows seat.new) (record session.old { asked = asked }) session.new }
{
    if asks_to_end(&asked) {
        all.expect_end(place);
    }
    let (answers, asked, touched) = hall.calls(rt, seat, session.number(), moment, asked, touched);
    session.on_answered(asked, answers);
    all.touch(&touched);
    (matches!(answers.end, CallOutcome::Ok), touched)
}

// The ask that these requests of a place's session are, where it may be answered out of the log.
fn follower_ask(asked: &AskedList, place: usize, all: &AllMarks, terms: Terms) -> Option<Ask>
    ensures ask { IfSome result (λ ask. asked.now ≡ asks_of ask) }
    ensures allowed { IfSome result (λ ask. 0 < terms.followers) }
{
    if !all.may_follow(place, terms) {
        return None;
    }
    ask_in(asked)
}

// Answers the requests of a session's turn: an ask of a follower out of the log, and what else there is by its calls.
// Whether each was answered Ok.
fn ask<H: FeedApi, K: ReadyLink + Drop, R: Wait>(
    rt: &R,
    hall: &H,
    seat: &mut H::Seat,
    moment: u64,
    session: &mut Session<K>,
    place: usize,
    all: &mut AllMarks,
    part: &mut Option<PartBytes>,
    touched: ChangedSessions,
    terms: Terms,
) -> (bool, ChangedSessions)
    requires seat { H.HallApi.is_of hall.now seat.old }
    requires moment { moment ≤ max_moment }
    requires ready { WantsTurn session.old }
    ensures seat { H.HallApi.is_of hall.now seat.new }
    ensures steps { (told : Option ℕ) → IsTold told moment
        → FeedsOn (FedBy (H.answers hall.now) terms) told (H.HallApi.knows seat.old) (H.HallApi.knows seat.new)
        session.old session.new }
{
    let asked = session.move_asked();
    let Some(ask) = follower_ask(&asked, place, all, terms) else {
        return call(rt, hall, seat, moment, session, asked, place, all, touched);
    };
    let Some(into) = part.take() else {
        return call(rt, hall, seat, moment, session, asked, place, all, touched);
    };
    all.follow(place);
    let (is_given, into) = feed(rt, hall, seat, session, asked, ask, into, terms);
    *part = Some(into);
    (is_given, touched)
}

// Answers the requests that wait, some turns of them, up to the first that is not answered Ok.
fn ask_all<H: FeedApi, K: ReadyLink + Drop, R: Wait>(
    rt: &R,
    hall: &H,
    seat: &mut H::Seat,
    moment: u64,
    session: &mut Session<K>,
    place: usize,
    all: &mut AllMarks,
    part: &mut Option<PartBytes>,
    touched: ChangedSessions,
    terms: Terms,
) -> ChangedSessions
    requires seat { H.HallApi.is_of hall.now seat.old }
    requires moment { moment ≤ max_moment }
    ensures seat { H.HallApi.is_of hall.now seat.new }
    ensures steps { (told : Option ℕ) → IsTold told moment
        → FeedsOn (FedBy (H.answers hall.now) terms) told (H.HallApi.knows seat.old) (H.HallApi.knows seat.new)
        session.old session.new }
{
    let mut touched = touched;
    for _ in 0..MOST_TURNS {
        if !session.wants_turn() {
            return touched;
        }
        let (goes_on, back) = ask(
            rt, hall, seat, moment, session, place, all, part, touched, terms,
        );
        touched = back;
        if !goes_on {
            return touched;
        }
    }
    touched
}

/// The first half of a round: what came is read, and what it asks is answered.
pub(crate) fn step_in<H: FeedApi, K: ReadyLink + Drop, R: Wait>(
    rt: &R,
    hall: &H,
    seat: &mut H::Seat,
    moment: u64,
    session: &mut Session<K>,
    place: usize,
    all: &mut AllMarks,
    block: &mut [u8],
    part: &mut Option<PartBytes>,
    touched: ChangedSessions,
    terms: Terms,
) -> ChangedSessions
    requires seat { H.HallApi.is_of hall.now seat.old }
    requires moment { moment ≤ max_moment }
    requires some { 0 < length block.old }
    ensures seat { H.HallApi.is_of hall.now seat.new }
    ensures steps { (told : Option ℕ) → IsTold told moment
        → FeedsOn (FedBy (H.answers hall.now) terms) told (H.HallApi.knows seat.old) (H.HallApi.knows seat.new)
        session.old session.new }
    ensures block { length block.new ≡ length block.old }
{
    let mut marks = all.at(place);
    read_once(session, &mut marks, block);
    if !session.wants_turn() {
        all.put(place, marks);
        return touched;
    }
    marks.is_due = true;
    all.put(place, marks);
    ask_all(
        rt, hall, seat, moment, session, place, all, part, touched, terms,
    )
}

// Takes a session's frames once, where there may be some.
fn take_once<H: HallApi, K: ReadyLink + Drop, R: Wait>(
    rt: &R,
    hall: &H,
    seat: &mut H::Seat,
    session: &mut Session<K>,
    marks: &mut Marks,
    frames: &mut Frames,
)
    requires seat { H.is_of hall.now seat.old }
    requires bare { frames.old.list ≡ [] }
    requires places { frames.old.places ≡ take_frames }
    ensures seat { H.is_of hall.now seat.new }
    ensures bare { frames.new.list ≡ [] }
    ensures places { frames.new.places ≡ take_frames }
    ensures steps { (told : Option ℕ)
        → StepsOn told (H.knows seat.old) (H.knows seat.new) session.old session.new }
{
    if !marks.is_due || !session.wants_take() {
        return;
    }
    let taken = hall.take(rt, seat, session.number(), frames);
    session.on_taken(taken, frames);
    frames.clear();
    note_taken(marks, taken);
}

// Whether a further take is worth while: behind as many frames as one take gives there may be more, and a session whose
// asking came to its end has most likely ended. Else there are no more frames, and whether the session has ended all the
// same, since its queue had no room, is looked for when there is time.
fn note_taken(marks: &mut Marks, taken: Taken) {
    marks.is_unsure = false;
    marks.is_due = match taken {
        Taken::Some(count) => {
            marks.is_moved = true;
            marks.is_unsure = count < TAKE;
            count >= TAKE || marks.may_end || marks.is_closed
        }
        _ => false,
    };
}

// Writes a session's link once, where it may.
fn write_once<K: ReadyLink + Drop>(session: &mut Session<K>, marks: &mut Marks)
    ensures steps { (told : Option ℕ) → (k : Knows) → StepsOn told k k session.old session.new }
{
    if !marks.may_write || !session.wants_to_write() {
        return;
    }
    let sent = session.on_writable();
    marks.may_write = matches!(sent, Ok(Sent::Bytes(_)));
    marks.is_moved = marks.is_moved || marks.may_write;
}

// Takes once and writes once.
fn give_once<H: HallApi, K: ReadyLink + Drop, R: Wait>(
    rt: &R,
    hall: &H,
    seat: &mut H::Seat,
    session: &mut Session<K>,
    marks: &mut Marks,
    frames: &mut Frames,
)
    requires seat { H.is_of hall.now seat.old }
    requires bare { frames.old.list ≡ [] }
    requires places { frames.old.places ≡ take_frames }
    ensures seat { H.is_of hall.now seat.new }
    ensures bare { frames.new.list ≡ [] }
    ensures places { frames.new.places ≡ take_frames }
    ensures steps { (told : Option ℕ)
        → StepsOn told (H.knows seat.old) (H.knows seat.new) session.old session.new }
{
    take_once(rt, hall, seat, session, marks, frames);
    write_once(session, marks);
}

// Takes and writes as long as there may be frames and the link takes them.
fn give_all<H: HallApi, K: ReadyLink + Drop, R: Wait>(
    rt: &R,
    hall: &H,
    seat: &mut H::Seat,
    session: &mut Session<K>,
    marks: &mut Marks,
    frames: &mut Frames,
)
    requires seat { H.is_of hall.now seat.old }
    requires bare { frames.old.list ≡ [] }
    requires places { frames.old.places ≡ take_frames }
    ensures seat { H.is_of hall.now seat.new }
    ensures bare { frames.new.list ≡ [] }
    ensures places { frames.new.places ≡ take_frames }
    ensures steps { (told : Option ℕ)
        → StepsOn told (H.knows seat.old) (H.knows seat.new) session.old session.new }
{
    for _ in 0..MOST_TAKES {
        give_once(rt, hall, seat, session, marks, frames);
        if !(marks.is_due && session.wants_take()) {
            return;
        }
    }
}

// Tells the hall to close the session, where its asking has ended and the hall was not told yet.
fn close_once<H: HallApi, K: ReadyLink + Drop, R: Wait>(
    rt: &R,
    hall: &H,
    seat: &mut H::Seat,
    session: &Session<K>,
    marks: &mut Marks,
)
    requires seat { H.is_of hall.now seat.old }
    ensures seat { H.is_of hall.now seat.new }
    ensures steps { (told : Option ℕ)
        → StepsOn told (H.knows seat.old) (H.knows seat.new) session.now session.now }
{
    if marks.is_closed || session.end_of_asking().is_none() {
        return;
    }
    hall.close(rt, seat, session.number());
    marks.is_closed = true;
    marks.is_due = true;
}

// Whether there is something to do for the session without a wait.
fn is_busy<K: ReadyLink>(session: &Session<K>, marks: Marks) -> bool {
    session.wants_turn()
        || (marks.is_due && session.wants_take())
        || (marks.may_write && session.wants_to_write())
        || (marks.is_filled && session.wants_to_read())
}

/// The second half of a round: the session is given its frames, and they are written. Where its end is to be expected, the
/// last take finds out, so that no further round is needed for that.
pub(crate) fn step_out<H: HallApi, K: ReadyLink + Drop, R: Wait>(
    rt: &R,
    hall: &H,
    seat: &mut H::Seat,
    session: &mut Session<K>,
    place: usize,
    all: &mut AllMarks,
    frames: &mut Frames,
)
    requires seat { H.is_of hall.now seat.old }
    requires bare { frames.old.list ≡ [] }
    requires places { frames.old.places ≡ take_frames }
    ensures seat { H.is_of hall.now seat.new }
    ensures bare { frames.new.list ≡ [] }
    ensures places { frames.new.places ≡ take_frames }
    ensures steps { (told : Option ℕ)
        → StepsOn told (H.knows seat.old) (H.knows seat.new) session.old session.new }
{
    let mut marks = all.at(place);
    close_once(rt, hall, seat, session, &mut marks);
    give_all(rt, hall, seat, session, &mut marks, frames);
    all.put(place, marks);
    if is_busy(session, marks) {
        all.is_busy = true;
    }
}
