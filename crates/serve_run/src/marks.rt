//! Who may be ready, and what is left to be done for whom.
//!
//! Nothing is claimed of it, as nothing is claimed of readiness: a mark that is lost is a caller who waits for ever, and
//! one that is too many costs a call that answers Later. So it stands beside the sessions and not in them.

ghost use Rattle.std.specs.Prelude.{◌≡◌, ◌<◌, true};

use crate::paces::GLANCE_MILLIS;
use crate::terms::Terms;
use byte_text::NoMemory;
use std::alloc::Global;
use std::collections::BTreeMap;
use world_model::ChangedSessions;

// So many milliseconds after the end was asked for, links are cut that are not through.
const END_MILLIS: u64 = 5_000;

// So long a link may take nothing of what waits for it, where there is an idle limit.
const WRITE_MILLIS: u64 = 10_000;

/// What is to be tried for a session.
#[derive(Clone, Copy, Debug, PartialEq, Eq)]
pub(crate) struct Marks {
    /// There may be bytes to read: the link was named, and has not answered Later since.
    pub(crate) may_read: bool,
    /// The last read filled the block, so there is more without a wait.
    pub(crate) is_filled: bool,
    /// The link may take bytes.
    pub(crate) may_write: bool,
    /// There may be frames to take.
    pub(crate) is_due: bool,
    /// The next call may be the session's last one, so that its end is looked for behind its frames.
    pub(crate) may_end: bool,
    /// All frames were taken, and whether the session has ended behind them was not looked for.
    pub(crate) is_unsure: bool,
    /// The hall was told to close the session.
    pub(crate) is_closed: bool,
    /// It is a follower: an ask of it was answered out of the log.
    is_follower: bool,
    /// Something was read of the link, or given to it.
    pub(crate) is_moved: bool,
    // When that was so last.
    since: u64,
}

impl Marks {
    // Of a session that came at a moment, all is tried.
    fn of_new(since: u64) -> Marks {
        Marks {
            may_read: true,
            is_filled: false,
            may_write: true,
            is_due: false,
            may_end: false,
            is_unsure: false,
            is_closed: false,
            is_follower: false,
            is_moved: false,
            since,
        }
    }

    // Of nobody, nothing is.
    fn none() -> Marks {
        Marks {
            may_read: false,
            is_filled: false,
            may_write: false,
            is_due: false,
            may_end: false,
            is_unsure: false,
            is_closed: false,
            is_follower: false,
            is_moved: false,
            since: 0,
        }
    }
}

/// Which end by the server a session has come to.
#[derive(Clone, Copy, Debug, PartialEq, Eq)]
pub(crate) struct Early {
    // The end of the server was asked for.
    is_ending: bool,
    // It stood still for as long as it may.
    is_idle: bool,
    // It is not waited for any more.
    is_late: bool,
}

impl Early {
    /// Whether its asking ends, where something waits to be written or not.
    pub(crate) fn dismisses(&self, waits: bool) -> bool {
        self.is_ending || (self.is_idle && !waits)
    }

    /// Whether its link is cut.
    pub(crate) fn cuts(&self, waits: bool) -> bool {
        self.is_late && (self.is_ending || waits)
    }
}

/// The marks of all places of a loop's table, and the places by session.
#[derive(Drop)]
pub(crate) struct AllMarks {
    by_place: Vec<Marks>,
    places: BTreeMap<u32, usize>,
    /// A caller may wait at the door.
    pub(crate) may_accept: bool,
    /// There is something to do without a wait.
    pub(crate) is_busy: bool,
    // Of some session it was not looked for whether it has ended.
    is_unsure: bool,
    // Milliseconds that a link may stand still; 0 for any number.
    idle: u64,
    // The moment of the round.
    now: u64,
    // Who stands still is looked for in this round.
    is_look_due: bool,
    // Since when the server is to end.
    ending: Option<u64>,
    // How many sessions are followers.
    followers: u32,
}

impl AllMarks {
    /// Of nobody; the door is looked at first.
    pub(crate) fn new(alloc: Global, terms: Terms) -> AllMarks {
        AllMarks {
            by_place: Vec::new(alloc),
            places: BTreeMap::new(alloc),
            may_accept: true,
            is_busy: false,
            is_unsure: false,
            idle: u64::from(terms.idle) * 1000,
            now: 0,
            is_look_due: false,
            ending: None,
            followers: 0,
        }
    }

    /// Milliseconds to wait for somebody to be ready, where so many are left until the next tick.
    pub(crate) fn patience(&self, to_tick: u32) -> u32 {
        if self.is_busy {
            0
        } else if self.is_unsure {
            GLANCE_MILLIS.min(to_tick)
        } else {
            to_tick
        }
    }

    /// So many were named by a wait. Where nobody was, there is time to look for sessions that have ended.
    pub(crate) fn looked(&mut self, count: usize) {
        if count == 0 {
            self.look_for_ends();
        }
        self.is_busy = false;
    }

    // Each session whose frames were all taken is taken from once more, which tells whether it has ended.
    fn look_for_ends(&mut self) {
        if !self.is_unsure {
            return;
        }
        self.is_unsure = false;
        for marks in &mut self.by_place {
            marks.is_due = marks.is_due || marks.is_unsure;
            marks.is_unsure = false;
        }
    }

    /// A round begins at a moment, with a tick or without. A door that had no means to let a caller in does not name him
    /// again, so it is looked at with each tick.
    pub(crate) fn begin(&mut self, moment: u64, is_tick_due: bool) {
        if is_tick_due {
            self.may_accept = true;
            self.look_for_ends();
        }
        self.now = moment;
        self.is_look_due = is_tick_due;
    }

    /// Whether it is to be looked who stands still. That is so once a tick.
    pub(crate) fn is_look_due(&self) -> bool {
        self.is_look_due
    }

    /// The end of the server was asked for.
    pub(crate) fn end(&mut self) {
        if self.ending.is_none() {
            self.ending = Some(self.now);
        }
    }

    /// Whether callers are let in no more.
    pub(crate) fn is_ending(&self) -> bool {
        self.ending.is_some()
    }

    /// Which end by the server the session of a place has come to.
    pub(crate) fn early(&self, place: usize) -> Early {
        let stood = self.now.saturating_sub(self.at(place).since);
        match self.ending {
            Some(since) => Early {
                is_ending: true,
                is_idle: true,
                is_late: self.now.saturating_sub(since) >= END_MILLIS,
            },
            None => Early {
                is_ending: false,
                is_idle: stood >= self.idle,
                is_late: stood >= WRITE_MILLIS,
            },
        }
    }

    /// A session came to a place.
    pub(crate) fn add(&mut self, place: usize, session: u32) -> Result<(), NoMemory> {
        if place < self.by_place.len() {
            self.by_place[place] = Marks::of_new(self.now);
        } else if self.by_place.push(Marks::of_new(self.now)).is_err() {
            return Err(NoMemory);
        }
        match self.places.insert(session, place) {
            Ok(_) => Ok(()),
            Err(_) => Err(NoMemory),
        }
    }

    /// A session is gone.
    pub(crate) fn leave(&mut self, session: u32) {
        if let Some(place) = self.places.remove(&session) {
            if place < self.by_place.len() && self.by_place[place].is_follower {
                self.by_place[place].is_follower = false;
                self.followers = self.followers.saturating_sub(1);
            }
        }
    }

    /// Whether an ask of a place's session may be answered out of the log: it is a follower, or may become one.
    pub(crate) fn may_follow(&self, place: usize, terms: Terms) -> bool
        ensures { result ≡ true → 0 < terms.followers }
    {
        terms.followers > 0 && (self.at(place).is_follower || self.followers < terms.followers)
    }

    /// The session of a place is a follower.
    pub(crate) fn follow(&mut self, place: usize) {
        if place < self.by_place.len() && !self.by_place[place].is_follower {
            self.by_place[place].is_follower = true;
            self.followers = self.followers.saturating_add(1);
        }
    }

    /// The marks of a place.
    pub(crate) fn at(&self, place: usize) -> Marks {
        match self.by_place.get(place) {
            Some(marks) => *marks,
            None => Marks::none(),
        }
    }

    /// The marks of a place are these.
    pub(crate) fn put(&mut self, place: usize, marks: Marks) {
        if place < self.by_place.len() {
            let since = if marks.is_moved {
                self.now
            } else {
                marks.since
            };
            self.is_unsure = self.is_unsure || marks.is_unsure;
            self.by_place[place] = Marks {
                is_moved: false,
                since,
                ..marks
            };
        }
    }

    /// The link of a place was named.
    pub(crate) fn name(&mut self, place: usize) {
        if place < self.by_place.len() {
            self.by_place[place].may_read = true;
            self.by_place[place].may_write = true;
        }
    }

    /// The next call of a place's session may be its last one.
    pub(crate) fn expect_end(&mut self, place: usize) {
        if place < self.by_place.len() {
            self.by_place[place].may_end = true;
        }
    }

    /// There may be frames for these sessions.
    pub(crate) fn touch(&mut self, touched: &ChangedSessions) {
        for i in 0..touched.len() {
            if let Some(place) = self.places.get(&touched.at(i)) {
                let place = *place;
                if place < self.by_place.len() {
                    self.by_place[place].is_due = true;
                }
            }
        }
    }
}
