//! A reader of the requests of a stream, fed with pieces.
//!
//! `Requests` keeps nothing of a piece for which memory ran out: the piece can be fed again.

ghost use Rattle.std.specs.Prelude.{◌≡◌, ◌++◌, [], IfOk, IfErr, OnOk, OnErr, Some};
ghost use Rattle.byte_text.specs.Requests.{IsRequest, IsRequestText, request_text};
ghost use Rattle.resp_frames.specs.RequestReader.{IsFed, IsNotFed};

use crate::faults::FeedFault;
use crate::pieces::{Scan, read_piece};
use crate::request_places::Place;
use crate::request_words::words_of;
use crate::short_requests::short_request;
use byte_text::{NoMemory, Request, requests_are_read};
use std::alloc::Global;
use std::marker::Model;

/// What a piece gave.
#[derive(Drop)]
pub struct Fed {
    /// How many bytes of the piece were taken: up to the end of the request, or all.
    pub taken: usize,
    /// The request that ends within these bytes.
    pub request: Option<Request>,
}

/// Reads the requests of a stream from pieces in any cutting. It keeps the bytes since the last request, which begin
/// one; a fault leaves it dead for good.
pub struct Requests {
    alloc: Global,
    held: Vec<u8>,
    place: Option<Place>,
}

impl Drop for Requests {
    fn drop(self) {
        let Requests {
            alloc: _,
            held: _,
            place: _,
        } = self;
    }
}

impl Model for Requests {
    ghost use Rattle.std.specs.Prelude.{List, ℕ, Option};
    ghost use Rattle.resp_frames.specs.RequestReader.{held_of, IsReader};

    ghost Value = { Option (List ℕ) };

    ghost view = { λ r. held_of r.place r.held.items };

    ghost invariant = { λ r. IsReader r.place r.held.items };
}

impl Requests {
    /// A reader before the first byte.
    pub fn new(alloc: Global) -> Requests
        ensures { result ≡ Some [] }
    {
        Requests {
            alloc,
            held: Vec::new(alloc),
            place: Some(Place::Star),
        }
    }

    /// Takes bytes up to the end of the first request, or the whole piece where none ends in it. Broken comes at the
    /// first byte with which the bytes since the last request begin none, BadLength before TooMany and TooLong; every
    /// later call is then answered Dead. At Memory no byte was taken.
    pub fn feed(&mut self, piece: &[u8]) -> Result<Fed, FeedFault>
        ensures fed { IfOk result (λ f. IsFed self.old self.new piece.now f.taken f.request) }
        ensures fault { IfErr result (λ f. IsNotFed self.old self.new piece.now f) }
    {
        // The laws that this function's proof stands on.
        requests_are_read();
        if self.place.is_none() || !self.held.is_empty() {
            return self.go_on(piece);
        }
        match short_request(self.alloc, piece) {
            Ok(Some((request, taken))) => Ok(Fed {
                taken,
                request: Some(request),
            }),
            Ok(None) => self.go_on(piece),
            Err(NoMemory) => Err(FeedFault::Memory),
        }
    }

    // The same, byte by byte but for those of words.
    fn go_on(&mut self, piece: &[u8]) -> Result<Fed, FeedFault>
        ensures fed { IfOk result (λ f. IsFed self.old self.new piece.now f.taken f.request) }
        ensures fault { IfErr result (λ f. IsNotFed self.old self.new piece.now f) }
    {
        requests_are_read();
        let Some(place) = self.place else {
            return Err(FeedFault::Dead);
        };
        match read_piece(place, piece) {
            Scan::Goes(next) => {
                if self.held.extend_from_slice(piece).is_err() {
                    return Err(FeedFault::Memory);
                }
                self.place = Some(next);
                Ok(Fed {
                    taken: piece.len(),
                    request: None,
                })
            }
            Scan::Whole(taken) => match finish(self.alloc, &mut self.held, &piece[..taken]) {
                Ok(request) => {
                    self.place = Some(Place::Star);
                    Ok(Fed {
                        taken,
                        request: Some(request),
                    })
                }
                Err(NoMemory) => Err(FeedFault::Memory),
            },
            Scan::Fails(fault) => {
                self.place = None;
                Err(FeedFault::Broken(fault))
            }
        }
    }
}

// The most bytes of room that a reader keeps for the beginning of a request.
const KEPT_ROOM: usize = 65_536;

// No bytes; much room is given back.
fn clear(alloc: Global, held: &mut Vec<u8>)
    ensures { held.new.items ≡ [] }
{
    if held.capacity() > KEPT_ROOM {
        *held = Vec::new(alloc);
    } else {
        held.clear();
    }
}

// The request that these bytes end behind those held, of which none is held then. At want of memory they are as before.
fn finish(alloc: Global, held: &mut Vec<u8>, end: &[u8]) -> Result<Request, NoMemory>
    requires { IsRequestText (held.old.items ++ end.now) }
    ensures read { IfOk result (λ r. IsRequest r × (held.old.items ++ end.now ≡ request_text r)) }
    ensures ok { OnOk result (held.new.items ≡ []) }
    ensures err { OnErr result (held.new.items ≡ held.old.items) }
{
    let before = held.len();
    if before == 0 {
        return words_of(alloc, end);
    }
    held.extend_from_slice(end)?;
    match words_of(alloc, held.as_slice()) {
        Ok(request) => {
            clear(alloc, held);
            Ok(request)
        }
        Err(NoMemory) => {
            held.truncate(before);
            Err(NoMemory)
        }
    }
}
