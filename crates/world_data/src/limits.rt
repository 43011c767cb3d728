//! The limits of this profile, each once: code above uses them, and the definitions name them.

/// The greatest radius or reach, in units of the plane.
pub const MAX_METERS: u32 = 2_000_000_000;

/// The longest time to live, in seconds.
pub const MAX_SECONDS: u32 = 1_000_000_000;

/// The most fields of one object.
pub const MAX_FIELDS: usize = 256;

/// The most tests of one query or channel.
pub const MAX_TESTS: usize = 64;

/// The most values of one WHEREIN.
pub const MAX_VALUES: u32 = 256;

/// The greatest LIMIT of a query.
pub const MAX_LIMIT: u32 = 1_000_000;

/// The most objects of a world.
pub const MAX_OBJECTS: usize = 1_000_000;

/// The most channels of a world.
pub const MAX_CHANNELS: usize = 65_536;

/// The most bytes of the records of all objects and channels of a world.
pub const MAX_WEIGHT: u64 = 536_870_912;

/// The most sessions that are present at once.
pub const MAX_SESSIONS: usize = 512;

/// The greatest number that is given to a session.
pub const MOST_DRAWN: u32 = 4_294_967_295;

/// The most subscriptions of one session.
pub const MAX_SUBS: usize = 1024;

/// The most bytes of one reply frame.
pub const MAX_REPLY: usize = 4_194_304;

/// A session with so many frames waiting is served no request until it takes some.
pub const FULL_FRAMES: usize = 1024;

/// A session with so many bytes of frames waiting is served no request until it takes some.
pub const FULL_BYTES: u64 = 2_097_152;

/// The most frames of a session's queue.
pub const CAP_FRAMES: usize = 32_768;

/// The most bytes of the frames of a session's queue.
pub const CAP_BYTES: u64 = 6_291_456;

/// The most frames of one take.
pub const TAKE: usize = 64;

/// A hall whose log has so many bytes is spent.
pub const MOST_LOGGED: u64 = 1 << 60;

/// The greatest moment, in milliseconds since 1970.
pub const MAX_MOMENT: u64 = (1 << 53) - 1;
