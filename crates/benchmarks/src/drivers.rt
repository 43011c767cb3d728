//! A session whose requests are read, called and taken, one by one.

ghost use Rattle.std.specs.Prelude.{◌≡◌};

use byte_text::{NoMemory, Request};
use resp_frames::{Fed, Requests};
use std::alloc::Global;
use std::marker::Model;
use tile_core::{Core, NoRecords};
use world_model::{Asked, CallOutcome, ChangedSessions, Frames, Taken};

// The bytes that one read of a socket brings at most.
const PIECE: usize = 16384;

/// A core with one session, and what its calls and takes need.
pub(crate) struct Driver {
    core: Core,
    session: u32,
    reader: Requests,
    // Empty between two requests.
    frames: Frames,
    touched: ChangedSessions,
}

impl Drop for Driver {
    fn drop(self) {
        let Driver {
            core: _,
            session: _,
            reader: _,
            frames: _,
            touched: _,
        } = self;
    }
}

impl Model for Driver {
    ghost use Rattle.std.specs.Prelude.{◌≡◌, []};
    ghost use Rattle.world_data.specs.Limits.{take_frames};
    ghost use Rattle.world_model.specs.Halls.{Hall};

    ghost Value = { Hall };

    ghost view = { λ d. d.core.hall };

    ghost invariant = { λ d. d.frames ≡ record { list = []; places = take_frames } };
}

impl Driver {
    /// A driver over an empty world.
    pub(crate) fn new(alloc: Global) -> Result<Driver, NoMemory> {
        let frames = Frames::new(alloc)?;
        let touched = ChangedSessions::new(alloc)?;
        let mut core = Core::new(alloc);
        match core.enter() {
            Ok(session) => Ok(Driver {
                core,
                session,
                reader: Requests::new(alloc),
                frames,
                touched,
            }),
            Err(_) => {
                // By a call, so that the parts of a core are not proved to be dropped here.
                drop(core);
                Err(NoMemory)
            }
        }
    }

    // Makes a call of a request, and takes what it brings; whether it was answered.
    #[tactic(auto, using(crate::proofs::Proper::with_words))]
    fn answers(&mut self, request: Request) -> bool {
        if request.words() == 0 {
            return false;
        }
        self.touched.clear();
        let asked = Asked::Words(request);
        let called = self
            .core
            .call(self.session, 1, &asked, &mut self.touched, &mut NoRecords);
        let taken = self.core.take(self.session, &mut self.frames);
        self.frames.clear();
        matches!(called, CallOutcome::Ok) && matches!(taken, Taken::Some(_))
    }

    /// Feeds the texts again and again until so many requests were made; gives how many were answered.
    pub(crate) fn drive(&mut self, all: &[u8], count: u64) -> u64 {
        let mut rest = all;
        let mut made = 0u64;
        let mut answered = 0u64;
        for _ in 0..u64::MAX {
            if made >= count {
                break;
            }
            if rest.is_empty() {
                rest = all;
            }
            let piece = rest.get(..PIECE).unwrap_or(rest);
            let Ok(Fed { taken, request }) = self.reader.feed(piece) else {
                break;
            };
            rest = rest.get(taken..).unwrap_or(&[]);
            if let Some(request) = request {
                made = made.wrapping_add(1);
                if self.answers(request) {
                    answered = answered.wrapping_add(1);
                }
            }
        }
        answered
    }
}
