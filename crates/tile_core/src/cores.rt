//! The core and its calls.

ghost use Rattle.std.specs.Prelude.{◌≡◌, ◌≢◌, true, ◌⊎◌, ◌≤◌, ◌+◌, ◌*◌, [], find, length, option_map, Decides, IfOk};
ghost use Rattle.std.specs.Prelude.{IfSome};
ghost use Rattle.std.specs.List.{AllByRecursion};
ghost use Rattle.world_data.specs.Limits.{max_moment, take_frames};
ghost use Rattle.world_data.specs.Sound.{IsSoundWorld};
ghost use Rattle.world_data.specs.Worlds.{empty_world, is_sorted_world};
ghost use Rattle.world_data.specs.declared.worlds.Change.TheVariants as change;
ghost use Rattle.world_model.specs.Histories.{Step, is_spent, opening_hall};
ghost use Rattle.world_model.specs.Outcomes.{enter_outcome, take_outcome, given_count, is_proper};
ghost use Rattle.world_model.specs.Halls.{NamesChanged, session_of};
ghost use Rattle.world_model.specs.declared.events.Event.TheVariants as event;
ghost use Rattle.world_model.specs.declared.events.Outcome.TheVariants as outcome;
ghost use Rattle.log_record.specs.Words.{IsRecorded};
ghost use Rattle.world_store.specs.Copies.{is_next_channel, is_next_object, name_in, place_in};
ghost use Rattle.tile_core.specs.Subscribers.{has_subscriptions};
ghost use Rattle.tile_core.specs.CoreStates.{CoreState};
ghost use Rattle.object_plans.specs.Kept.{most_kept};
ghost use Rattle.object_plans.specs.Moves.{IsAccepted};
ghost use Rattle.tile_core.specs.RecordSinks.{IsRecordedBy};
ghost use Rattle.tile_core.specs.Answered.{MayCall, MayTake, IsAnswered, AreSessions, StayNamed};

use crate::finish::{complete, let_go};
use crate::growths::{Ample, Growths};
use crate::ready::{Call, make_ready, make_tick_ready};
use crate::record_sinks::RecordSink;
use crate::sessions::{position_of, served};
use crate::spares::Spares;
use crate::stores::Store;
use crate::touching::{name_session, name_told};
use byte_text::{Name, NoMemory};
use session_table::{Session, place_staged, unstage};
use std::alloc::Global;
use std::marker::Model;
use world_data::{Channel, MAX_SESSIONS, MOST_DRAWN, MOST_LOGGED, Object};
use world_model::{Asked, CallOutcome, ChangedSessions, EnterFault, Frames, Taken};
use world_store::{StoredWorld, next_channel, next_object};

/// A world and the sessions that are served.
pub struct Core {
    alloc: Global,
    store: Store,
    clock: u64,
    logged: u64,
    drawn: u32,
    sessions: Vec<Session>,
    /// What was written for the last call, whose memory serves the next one.
    spares: Spares,
}

impl Drop for Core {
    fn drop(self) {
        let Core {
            alloc: _,
            store: _,
            clock: _,
            logged: _,
            drawn: _,
            sessions: _,
            spares: _,
        } = self;
    }
}

impl Model for Core {
    ghost use Rattle.tile_core.specs.CoreStates.{CoreState};
    ghost use Rattle.tile_core.specs.Stores.{hall_of, IsSound};

    ghost Value = { CoreState };

    ghost view = { λ c. record {
      hall = hall_of c.store c.clock c.logged c.drawn c.sessions.items;
      visited = c.store.steps.count;
    } };

    ghost invariant = { λ c. IsSound c.store c.clock c.drawn c.sessions.items };
}

impl Core {
    /// A core of an empty world, without sessions, at moment 0.
    pub fn new(alloc: Global) -> Core
        ensures { result.hall ≡ opening_hall empty_world 0 }
    {
        Core {
            alloc,
            store: Store::new(alloc),
            clock: 0,
            logged: 0,
            drawn: 0,
            sessions: Vec::new(alloc),
            spares: Spares::new(alloc),
        }
    }

    /// How many objects there are.
    pub fn objects(&self) -> u64
        ensures { result ≡ length self.now.hall.world.objects }
    {
        self.store.objects.len() as u64
    }

    /// How many channels there are.
    pub fn channels(&self) -> u64
        ensures { result ≡ length self.now.hall.world.channels }
    {
        self.store.hub.len() as u64
    }

    /// The moment that the clock shows.
    pub fn clock(&self) -> u64
        ensures { result ≡ self.now.hall.now }
    {
        self.clock
    }

    /// How many bytes of records there are in the log, also of changes that were undone by later ones.
    pub fn logged(&self) -> u64
        ensures { result ≡ self.now.hall.logged }
    {
        self.logged
    }

    /// How many nodes of trees were visited since the start, to find objects and channels, to put them and to take them
    /// out; it stops at the greatest u64.
    pub fn visited(&self) -> u64
        ensures { result ≡ self.now.visited }
    {
        self.store.steps.ledger().count()
    }

    /// Lets a session in and answers its number. It is refused where 512 sessions are present or 4,294,967,295 numbers
    /// were drawn. For want of memory the core is as before.
    pub fn enter(&mut self) -> Result<u32, EnterFault>
        ensures step { Step self.old.hall event.Enter (enter_outcome result) self.new.hall }
        ensures stopped { self.new.hall.stopped ≡ self.old.hall.stopped }
        ensures logged { self.new.hall.logged ≡ self.old.hall.logged }
    {
        if self.sessions.len() >= MAX_SESSIONS || self.drawn == MOST_DRAWN {
            return Err(EnterFault::TooMany);
        }
        let number = self.drawn + 1;
        let session = Session::new(self.alloc, number);
        if self.sessions.push(session).is_err() {
            return Err(EnterFault::Memory);
        }
        self.drawn = number;
        Ok(number)
    }

    /// Gives the first frames of a session, at most 64, into `into`. A session that is not served any more is removed
    /// by the first take that finds no frame. It takes no memory.
    pub fn take(&mut self, session: u32, into: &mut Frames) -> Taken
        requires { into.old ≡ record { list = []; places = take_frames } }
        ensures step { Step self.old.hall (event.Take session) (take_outcome result into.new.list) self.new.hall }
        ensures count { given_count result ≡ length into.new.list }
        ensures places { into.new.places ≡ take_frames }
        ensures stopped { self.new.hall.stopped ≡ self.old.hall.stopped }
        ensures logged { self.new.hall.logged ≡ self.old.hall.logged }
    {
        let Some(at) = position_of(self.sessions.as_slice(), session) else {
            return Taken::Ended;
        };
        if self.sessions[at].frames() > 0 {
            return Taken::Some(self.sessions[at].take_frames(into));
        }
        if self.sessions[at].is_live() {
            return Taken::Empty;
        }
        self.sessions.remove(at);
        Taken::Ended
    }

    /// Makes a call of a session at a moment: what is due then is deleted, what is asked is done, and its reply is put
    /// last in the session's queue; each session that listens is told of what changed. A session whose queue has no
    /// room for what comes for it is cut: it keeps the frames that it has, and is served no more. A broken protocol, as
    /// QUIT, lets the session end behind the reply. The records of all that it changes go to the ledger before anything
    /// is changed. For want of memory the core is as before. Each session that it changes is named in `touched`, beside
    /// those that are named there.
    pub fn call<L: RecordSink>(
        &mut self,
        session: u32,
        moment: u64,
        asked: &Asked,
        touched: &mut ChangedSessions,
        ledger: &mut L,
    ) -> CallOutcome
        requires moment { moment ≤ max_moment }
        requires proper { is_proper asked.now ≡ true }
        requires room { AreSessions touched.old self.old.hall }
        ensures step { Step self.old.hall (event.Call session moment asked.now)
            (outcome.Answered result) self.new.hall }
        ensures stopped { self.new.hall.stopped ≡ self.old.hall.stopped }
        ensures named { NamesChanged touched.new self.old.hall self.new.hall }
        ensures kept { StayNamed touched.old touched.new }
        ensures room { AreSessions touched.new self.new.hall }
        ensures logged { self.new.hall.logged ≤ self.old.hall.logged + 2 * most_kept }
        ensures done { MayCall self.old.hall session → (result ≡ CallOutcome.Ok) ⊎ (result ≡ CallOutcome.Memory) }
        ensures answered { result ≡ CallOutcome.Ok → IsAnswered self.old.hall self.new.hall moment session asked.now }
        ensures recorded { result ≡ CallOutcome.Ok
            → IsRecordedBy L.takes self.old.hall (event.Call session moment asked.now) ledger.old ledger.new }
        ensures unrecorded { result ≢ CallOutcome.Ok → (ledger.new ≡ ledger.old) ⊎ L.stays ledger.old ledger.new }
    {
        self.call_with(session, moment, asked, touched, ledger, &mut Ample)
    }

    /// The same, where memory may be refused before each step that may take it, which then ends as where memory is
    /// wanted: the core is as before.
    pub fn call_with<L: RecordSink, G: Growths>(
        &mut self,
        session: u32,
        moment: u64,
        asked: &Asked,
        touched: &mut ChangedSessions,
        ledger: &mut L,
        growths: &mut G,
    ) -> CallOutcome
        requires moment { moment ≤ max_moment }
        requires proper { is_proper asked.now ≡ true }
        requires room { AreSessions touched.old self.old.hall }
        ensures step { Step self.old.hall (event.Call session moment asked.now)
            (outcome.Answered result) self.new.hall }
        ensures stopped { self.new.hall.stopped ≡ self.old.hall.stopped }
        ensures named { NamesChanged touched.new self.old.hall self.new.hall }
        ensures kept { StayNamed touched.old touched.new }
        ensures room { AreSessions touched.new self.new.hall }
        ensures logged { self.new.hall.logged ≤ self.old.hall.logged + 2 * most_kept }
        ensures done { MayCall self.old.hall session → (result ≡ CallOutcome.Ok) ⊎ (result ≡ CallOutcome.Memory) }
        ensures answered { result ≡ CallOutcome.Ok → IsAnswered self.old.hall self.new.hall moment session asked.now }
        ensures recorded { result ≡ CallOutcome.Ok
            → IsRecordedBy L.takes self.old.hall (event.Call session moment asked.now) ledger.old ledger.new }
        ensures unrecorded { result ≢ CallOutcome.Ok → (ledger.new ≡ ledger.old) ⊎ L.stays ledger.old ledger.new }
    {
        if self.logged >= MOST_LOGGED {
            return CallOutcome::Spent;
        }
        let at = match served(self.sessions.as_slice(), session) {
            Ok(at) => at,
            Err(answer) => return answer,
        };
        let now = self.clock.max(moment);
        let ready = make_ready(
            self.alloc,
            &mut self.store,
            &mut self.sessions,
            Call { at, now, asked },
            &mut self.spares,
            ledger,
            growths,
        );
        let Ok(ready) = ready else {
            return CallOutcome::Memory;
        };
        name_told(touched, self.sessions.as_slice(), ready.is_told);
        name_session(touched, session);
        self.clock = now;
        self.logged += complete(
            &mut self.store,
            &mut self.sessions,
            at,
            ready,
            &mut self.spares.frame,
        );
        CallOutcome::Ok
    }

    /// Lets the clock go on to a moment, and deletes the objects and channels that are due then; each session that
    /// listens is told of the objects. The records of all these deletions go to the ledger before. For want of memory
    /// the core is as before. Each session that it changes is named, beside those that are named there.
    pub fn tick<L: RecordSink>(
        &mut self,
        moment: u64,
        touched: &mut ChangedSessions,
        ledger: &mut L,
    ) -> CallOutcome
        requires moment { moment ≤ max_moment }
        requires room { AreSessions touched.old self.old.hall }
        ensures step { Step self.old.hall (event.Tick moment) (outcome.Answered result) self.new.hall }
        ensures stopped { self.new.hall.stopped ≡ self.old.hall.stopped }
        ensures named { NamesChanged touched.new self.old.hall self.new.hall }
        ensures kept { StayNamed touched.old touched.new }
        ensures room { AreSessions touched.new self.new.hall }
        ensures logged { self.new.hall.logged ≤ self.old.hall.logged + most_kept }
        ensures recorded { result ≡ CallOutcome.Ok
            → IsRecordedBy L.takes self.old.hall (event.Tick moment) ledger.old ledger.new }
        ensures unrecorded { result ≢ CallOutcome.Ok → (ledger.new ≡ ledger.old) ⊎ L.stays ledger.old ledger.new }
    {
        self.tick_with(moment, touched, ledger, &mut Ample)
    }

    /// The same, where memory may be refused before each step that may take it.
    pub fn tick_with<L: RecordSink, G: Growths>(
        &mut self,
        moment: u64,
        touched: &mut ChangedSessions,
        ledger: &mut L,
        growths: &mut G,
    ) -> CallOutcome
        requires moment { moment ≤ max_moment }
        requires room { AreSessions touched.old self.old.hall }
        ensures step { Step self.old.hall (event.Tick moment) (outcome.Answered result) self.new.hall }
        ensures stopped { self.new.hall.stopped ≡ self.old.hall.stopped }
        ensures named { NamesChanged touched.new self.old.hall self.new.hall }
        ensures kept { StayNamed touched.old touched.new }
        ensures room { AreSessions touched.new self.new.hall }
        ensures logged { self.new.hall.logged ≤ self.old.hall.logged + most_kept }
        ensures recorded { result ≡ CallOutcome.Ok
            → IsRecordedBy L.takes self.old.hall (event.Tick moment) ledger.old ledger.new }
        ensures unrecorded { result ≢ CallOutcome.Ok → (ledger.new ≡ ledger.old) ⊎ L.stays ledger.old ledger.new }
    {
        if self.logged >= MOST_LOGGED {
            return CallOutcome::Spent;
        }
        let now = self.clock.max(moment);
        let ready = make_tick_ready(
            self.alloc,
            &mut self.store,
            &mut self.sessions,
            now,
            &mut self.spares.records,
            ledger,
            growths,
        );
        let Ok(ready) = ready else {
            unstage(&mut self.sessions);
            return CallOutcome::Memory;
        };
        name_told(touched, self.sessions.as_slice(), true);
        place_staged(&mut self.sessions);
        self.clock = now;
        self.logged += ready.gone.length;
        let_go(&mut self.store, ready.gone.held);
        CallOutcome::Ok
    }

    /// Lets a session end behind the frames that it has.
    pub fn close_session(&mut self, session: u32)
        ensures step { Step self.old.hall (event.Close session) outcome.Done self.new.hall }
        ensures stopped { self.new.hall.stopped ≡ self.old.hall.stopped }
        ensures logged { self.new.hall.logged ≡ self.old.hall.logged }
    {
        if let Some(at) = position_of(self.sessions.as_slice(), session) {
            self.sessions[at].close();
        }
    }

    /// Takes a session away with its frames.
    pub fn remove_session(&mut self, session: u32)
        ensures step { Step self.old.hall (event.Remove session) outcome.Done self.new.hall }
        ensures stopped { self.new.hall.stopped ≡ self.old.hall.stopped }
        ensures logged { self.new.hall.logged ≡ self.old.hall.logged }
    {
        if let Some(at) = position_of(self.sessions.as_slice(), session) {
            self.sessions.remove(at);
        }
    }

    /// A core over a stored world, without sessions, at moment 0; its log has so many bytes. The world may be heavier
    /// than commands may make it; there is no memory for one of more than 2^36 bytes of records.
    pub fn over(alloc: Global, world: StoredWorld, logged: u64) -> Result<Core, NoMemory>
        requires sound { IsSoundWorld world }
        requires recorded { AllByRecursion (λ c. IsRecorded (change.SetChan c)) world.channels }
        ensures { IfOk result (λ c. c.hall ≡ opening_hall world logged) }
    {
        Ok(Core {
            alloc,
            store: Store::over(world)?,
            clock: 0,
            logged,
            drawn: 0,
            sessions: Vec::new(alloc),
            spares: Spares::new(alloc),
        })
    }

    /// Whether the log is at its greatest length.
    pub fn is_spent(&self) -> bool
        ensures { result ≡ is_spent self.now.hall }
    {
        self.logged >= MOST_LOGGED
    }

    /// Whether a call of the session may be done: it is served and not full, and the log is not at its greatest length.
    pub fn may_call(&self, session: u32) -> bool
        ensures { Decides result (MayCall self.now.hall session) }
    {
        !self.is_spent() && served(self.sessions.as_slice(), session).is_ok()
    }

    /// Whether a take of the session gives frames.
    pub fn may_take(&self, session: u32) -> bool
        ensures { Decides result (MayTake self.now.hall session) }
    {
        match position_of(self.sessions.as_slice(), session) {
            Some(at) => self.sessions[at].frames() > 0,
            None => false,
        }
    }

    /// Whether the session holds a subscription.
    pub fn has_subscriptions(&self, session: u32) -> bool
        ensures { result ≡ has_subscriptions (session_of self.now.hall session) }
    {
        match position_of(self.sessions.as_slice(), session) {
            Some(at) => self.sessions[at].subscriptions().len() > 0,
            None => false,
        }
    }

    /// The first channel by name behind this one; the first of all where no name is given. It is read back from its
    /// record.
    pub fn next_channel(&self, after: Option<&Name>) -> Option<&Channel>
        ensures next { option_map (λ c. c.now) result
            ≡ find (is_next_channel (name_in after.entry)) self.now.hall.world.channels }
        ensures recorded { IfSome result (λ c. IsRecorded (change.SetChan c.now)) }
        ensures sorted { is_sorted_world self.now.hall.world ≡ true }
    {
        // What is counted stands in order.
        let _count = self.store.hub.len();
        next_channel(&self.store.hub, after)
    }

    /// The first object behind this key and this id; the first of all where none are given. Its text has its shape.
    pub fn next_object(&self, after: Option<(&Name, &Name)>) -> Option<&Object>
        ensures next { option_map (λ o. o.now) result
            ≡ find (is_next_object (place_in after.entry)) self.now.hall.world.objects }
        ensures accepted { IfSome result (λ o. IsAccepted o.now) }
        ensures sorted { is_sorted_world self.now.hall.world ≡ true }
    {
        // What is counted stands in order.
        let _count = self.store.hub.len();
        next_object(&self.store.objects, after)
    }
}
