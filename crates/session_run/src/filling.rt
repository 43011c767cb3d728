//! The requests of bytes, as many as one turn carries.

ghost use Rattle.std.specs.Prelude.{◌≡◌, ◌≤◌, ◌++◌, ◌∷◌, [], length, true, IfOk, IfErr};
ghost use Rattle.std.specs.List.{list_all};
ghost use Rattle.resp_frames.specs.RequestReader.{IsFed, IsNotFed};
ghost use Rattle.world_model.specs.Outcomes.{is_proper};
ghost use Rattle.session_run.specs.Feeds.{asked_behind};
ghost use Rattle.session_run.specs.Filling.{IsStep, IsFill, IsFilled};
ghost use Rattle.session_run.specs.Live.{becomes};
ghost use Rattle.world_model.specs.declared.events.Asked.TheVariants as asks_for;

use crate::ends::InEnd;
use crate::phases::Asking;
use crate::waiting_bytes::WaitingBytes;
use byte_text::{NoMemory, Request, requests_are_read, streams_read_once};
use live_fence::{LivePair, live_pair};
use resp_frames::{Fed, FeedFault, Requests};
use std::alloc::Global;
use world_model::{Asked, AskedList, MOST_ASKED};

// What comes of the first request, or fault, of some bytes.
#[derive(Clone, Copy, Debug, PartialEq, Eq)]
enum Step {
    /// What is asked in place of a request was put last, which ends with so many bytes.
    Next(usize),
    /// No request ends in the bytes.
    Dry,
    /// The end that a fault brings was put last.
    Broken,
    /// There was no memory for what is asked.
    Memory,
}

// How far the requests of some bytes were made.
#[derive(Clone, Copy, Debug, PartialEq, Eq)]
enum Fill {
    /// There is no room for two more in the turn, from so many bytes.
    Full(usize),
    /// No further request ends in the bytes.
    Dry,
    /// The last is the end that a fault brings.
    Broken,
    /// There may be more, for which there was no memory.
    Memory,
}

// Puts what is asked last; `false` for want of memory.
fn push(asked: &mut AskedList, ask: Asked) -> bool
    ensures { result ≡ true → asked.new ≡ asked.old ++ ask ∷ [] }
{
    asked.push(ask).is_ok()
}

// Puts both requests of a live search last; `false` for want of memory.
fn push_pair(asked: &mut AskedList, pair: LivePair) -> bool
    ensures { result ≡ true
        → asked.new ≡ asked.old ++ asks_for.Words pair.fence ∷ asks_for.Words pair.listen ∷ [] }
{
    let LivePair {
        fence,
        listen,
        end: _,
    } = pair;
    push(asked, Asked::Words(fence)) && push(asked, Asked::Words(listen))
}

// Puts last what is asked in place of a request; `false` for want of memory.
fn push_request(alloc: Global, number: u32, asked: &mut AskedList, request: Request) -> bool
    ensures { result ≡ true → asked.new ≡ asked.old ++ becomes number (asks_for.Words request) }
{
    match live_pair(alloc, &request, number) {
        Ok(None) => push(asked, Asked::Words(request)),
        Ok(Some(pair)) => push_pair(asked, pair),
        Err(NoMemory) => false,
    }
}

// Feeds the bytes to a reader that holds no whole request, and holds none then.
fn feed(reader: &mut Requests, bytes: &[u8]) -> Result<Fed, FeedFault>
    requires dry { asked_behind reader.old [] ≡ [] }
    ensures fed { IfOk result (λ f. IsFed reader.old reader.new bytes.now f.taken f.request) }
    ensures fault { IfErr result (λ f. IsNotFed reader.old reader.new bytes.now f) }
    ensures dry { asked_behind reader.new [] ≡ [] }
{
    streams_read_once();
    reader.feed(bytes)
}

// Reads the first request of the bytes, or their fault, and puts last what is asked in its place.
fn feed_next(
    alloc: Global,
    number: u32,
    reader: &mut Requests,
    bytes: &[u8],
    asked: &mut AskedList,
) -> Step
    requires dry { asked_behind reader.old [] ≡ [] }
    ensures step { IsStep number reader.old bytes.now reader.new asked.old asked.new result }
    ensures dry { asked_behind reader.new [] ≡ [] }
{
    // The laws that this function's proof stands on: what is read first is the stream's first request.
    streams_read_once();
    requests_are_read();
    match feed(reader, bytes) {
        Ok(fed) => {
            let Fed { taken, request } = fed;
            match request {
                Some(request) => {
                    if push_request(alloc, number, asked, request) {
                        Step::Next(taken)
                    } else {
                        Step::Memory
                    }
                }
                None => Step::Dry,
            }
        }
        Err(FeedFault::Broken(fault)) => {
            if push(asked, Asked::Broken(fault)) {
                Step::Broken
            } else {
                Step::Memory
            }
        }
        // Nothing is fed behind a fault, so a reader that is fed is not dead.
        Err(FeedFault::Dead | FeedFault::Memory) => Step::Memory,
    }
}

// Makes the requests of the bytes, and the end that their fault brings, as many as one turn carries: as one may become
// two, a request is read where there is room for two. For want of memory none is left.
fn collect(
    alloc: Global,
    number: u32,
    reader: &mut Requests,
    bytes: &[u8],
    asked: &mut AskedList,
) -> Fill
    requires dry { asked_behind reader.old [] ≡ [] }
    ensures fill { IsFill number reader.old bytes.now reader.new asked.new result }
    ensures dry { asked_behind reader.new [] ≡ [] }
    ensures few { length asked.new ≤ 64 }
    ensures proper { list_all is_proper asked.new ≡ true }
{
    asked.clear();
    let mut taken = 0;
    while asked.len() < MOST_ASKED - 1 {
        match feed_next(alloc, number, reader, &bytes[taken..], asked) {
            Step::Next(count) => taken += count,
            Step::Dry => return Fill::Dry,
            Step::Broken => return Fill::Broken,
            Step::Memory => {
                asked.clear();
                return Fill::Memory;
            }
        }
    }
    Fill::Full(taken)
}

/// Makes the requests of bytes that were read, as many as one turn carries, and keeps the rest.
pub(crate) fn fill_from(
    alloc: Global,
    number: u32,
    reader: &mut Requests,
    bytes: &[u8],
    rest: &mut WaitingBytes,
    asked: &mut AskedList,
) -> Asking
    requires dry { asked_behind reader.old [] ≡ [] }
    requires bare { rest.old ≡ [] }
    ensures filled { IsFilled number reader.old bytes.now reader.new rest.new asked.new result }
    ensures dry { asked_behind reader.new [] ≡ [] }
    ensures few { length asked.new ≤ 64 }
    ensures proper { list_all is_proper asked.new ≡ true }
{
    match collect(alloc, number, reader, bytes, asked) {
        Fill::Full(taken) => match rest.put(&bytes[taken..]) {
            Ok(()) => Asking::Open,
            Err(_) => Asking::Ended(InEnd::Memory),
        },
        Fill::Dry => Asking::Open,
        Fill::Broken => Asking::Breaking,
        Fill::Memory => Asking::Ended(InEnd::Memory),
    }
}

/// Makes the requests of the bytes that were kept, as many as one turn carries, and keeps the rest.
pub(crate) fn refill(
    alloc: Global,
    number: u32,
    reader: &mut Requests,
    rest: &mut WaitingBytes,
    asked: &mut AskedList,
) -> Asking
    requires dry { asked_behind reader.old [] ≡ [] }
    ensures filled { IsFilled number reader.old rest.old reader.new rest.new asked.new result }
    ensures dry { asked_behind reader.new [] ≡ [] }
    ensures few { length asked.new ≤ 64 }
    ensures proper { list_all is_proper asked.new ≡ true }
{
    match collect(alloc, number, reader, rest.bytes(), asked) {
        Fill::Full(taken) => {
            rest.pass(taken);
            Asking::Open
        }
        Fill::Dry => {
            rest.clear();
            Asking::Open
        }
        Fill::Broken => {
            rest.clear();
            Asking::Breaking
        }
        Fill::Memory => Asking::Ended(InEnd::Memory),
    }
}
