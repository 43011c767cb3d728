//! The sessions that a call changed, so that their writers can be woken.

ghost use Rattle.std.specs.Prelude.{◌≡◌, ◌<◌, ◌≤◌, ◌==◌, ◌++◌, ◌∷◌, [], true, length, slice_get, Some, IfOk};
ghost use Rattle.std.specs.Prelude.{if◌then◌else◌};
ghost use Rattle.std.specs.List.{list_any};
ghost use Rattle.world_data.specs.Limits.{max_sessions};

use byte_text::NoMemory;
use std::alloc::Global;
use std::marker::Model;
use world_data::MAX_SESSIONS;

/// Numbers of sessions, with room for as many as may be present at once.
///
/// Whether a number is named is looked up by its rest, so naming takes no walk over those named before: one message
/// may be heard by all that are present. Sessions are numbered in turn, so two of one rest are seldom named together.
#[derive(Drop)]
pub struct ChangedSessions {
    list: Vec<u32>,
    // For each rest by MAX_SESSIONS: 0, or one more than the place in `list` of the number of that rest that was named
    // last.
    places: Vec<u32>,
}

impl Model for ChangedSessions {
    ghost use Rattle.std.specs.Prelude.{List, ℕ, ◌≡◌, length, ◌≤◌, vec_capacity};
    ghost use Rattle.world_data.specs.Limits.{max_sessions};
    ghost use Rattle.world_model.specs.Entries.{HaveEntries};

    ghost Value = { List ℕ };

    ghost view = { λ t. t.list.items };

    ghost invariant = { λ t. (length t.list.items ≤ max_sessions) × (max_sessions ≤ vec_capacity t.list)
        × (length t.places.items ≡ max_sessions) × HaveEntries t.places.items t.list.items };
}

impl ChangedSessions {
    /// None yet, and room for all that may be present.
    pub fn new(alloc: Global) -> Result<ChangedSessions, NoMemory>
        ensures { IfOk result (λ t. t ≡ []) }
    {
        let Ok(places) = vec![in alloc; 0; MAX_SESSIONS] else {
            return Err(NoMemory);
        };
        match Vec::with_capacity(alloc, MAX_SESSIONS) {
            Ok(list) => Ok(ChangedSessions { list, places }),
            Err(_) => Err(NoMemory),
        }
    }

    /// How many sessions are named.
    pub fn len(&self) -> usize
        ensures count { result ≡ length self.now }
        ensures room { length self.now ≤ max_sessions }
    {
        self.list.len()
    }

    /// The session at a place, counted from 0.
    pub fn at(&self, i: usize) -> u32
        requires { i < length self.now }
        ensures { slice_get self.now i ≡ Some result }
    {
        self.list[i]
    }

    /// Whether the session is named.
    pub fn names(&self, session: u32) -> bool
        ensures { result ≡ list_any (λ m. m == session) self.now }
    {
        let entry = self.places[session as usize % MAX_SESSIONS];
        if entry == 0 {
            return false;
        }
        // Another number of the same rest may have been named since.
        self.list.get(entry as usize - 1) == Some(&session) || self.list.contains(&session)
    }

    /// Names a session last, where it is not named yet. It takes no memory.
    pub fn add(&mut self, session: u32)
        requires { length self.old < max_sessions }
        ensures { self.new ≡ (if list_any (λ m. m == session) self.old then self.old else self.old ++ session ∷ []) }
    {
        if !self.names(session) {
            self.list.push_reserved(session);
            self.places[session as usize % MAX_SESSIONS] = self.list.len() as u32;
        }
    }

    /// Names none. The room stays.
    pub fn clear(&mut self)
        ensures { self.new ≡ [] }
    {
        forget(&mut self.places, &self.list);
        self.list.clear();
    }
}

// Writes 0 at the rests of those that are named, so that it costs what was named.
fn forget(places: &mut [u32], named: &[u32])
    requires { length places.old ≡ max_sessions }
    ensures { length places.new ≡ max_sessions }
{
    for session in named {
        places[*session as usize % MAX_SESSIONS] = 0;
    }
}
