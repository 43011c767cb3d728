//! The sessions that a call changes are named, so that they can be rung.

ghost use Rattle.std.specs.Prelude.{◌≡◌, ◌≤◌, ◌<◌, ◌++◌, ◌∷◌, [], false, length, if◌then◌else◌};
ghost use Rattle.world_data.specs.Limits.{max_sessions};
ghost use Rattle.session_table.specs.Fans.{AreBare};
ghost use Rattle.tile_core.specs.Answered.{AreNamed, AreRoomy, StayNamed, is_named};

use session_table::Session;
use world_data::MAX_SESSIONS;
use world_model::ChangedSessions;

/// Names a session, where it is not named yet and there is room.
pub(crate) fn name_session(touched: &mut ChangedSessions, session: u32)
    requires { is_named touched.old session ≡ false → length touched.old < max_sessions }
    ensures { touched.new ≡ (if is_named touched.old session then touched.old else touched.old ++ session ∷ []) }
{
    // Where there is no room left, it is named.
    if touched.len() < MAX_SESSIONS {
        touched.add(session);
    }
}

/// Names the sessions for which something is staged, beside those that are named. Where nobody is told no session is
/// looked at.
pub(crate) fn name_told(touched: &mut ChangedSessions, sessions: &[Session], is_told: bool)
    requires quiet { is_told ≡ false → AreBare sessions.now }
    requires few { length sessions.now ≤ max_sessions }
    requires room { AreRoomy touched.old sessions.now }
    ensures named { AreNamed touched.new sessions.now }
    ensures kept { StayNamed touched.old touched.new }
    ensures room { AreRoomy touched.new sessions.now }
{
    if !is_told {
        return;
    }
    for i in 0..sessions.len() {
        if sessions[i].is_told() {
            name_session(touched, sessions[i].number());
        }
    }
}
