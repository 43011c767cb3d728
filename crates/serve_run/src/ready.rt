//! Serving in a loop over any hall: the door is opened, that is said, links are served, and what was done is said.

ghost use Rattle.std.specs.Prelude.{◌≡◌, ◌≤◌, ◌⊎◌};
ghost use Rattle.outside.specs.Causes.{Rose};
ghost use Rattle.outside.specs.Doors.{opened_at};
ghost use Rattle.world_model.specs.Histories.{IsLegal};
ghost use Rattle.serve_run.specs.Loops.{around};
ghost use Rattle.serve_run.specs.LoopServes.{ServesLoop};

use crate::ends::{DOOR_FAULT, OUT_OF_MEMORY, end};
use crate::loops::serve_loop;
use crate::serves::{finish, listening};
use crate::terms::Terms;
use crate::words::ServeWords;
use outside::{Clock, Failed, ReadyDoor, Sink, WaitForLinks, write_all};
use repl_stream::FeedApi;
use std::alloc::Global;
use std::sync::Wait;
use world_model::HallSplit;

// What the words ask of the loop.
fn terms_of(words: &ServeWords<'_>) -> Terms
    ensures { result ≡ record {
      limit = words.now.limit;
      idle = words.now.idle;
      shrink_at = words.now.shrink_at;
      followers = words.now.followers;
      until_end = words.now.until_end;
    } }
{
    Terms {
        limit: words.limit,
        idle: words.idle,
        shrink_at: words.shrink_at,
        followers: words.followers,
        until_end: words.until_end,
    }
}

/// Opens the door as the words ask for, serves callers in a loop over readiness up to the limit or an end, and answers
/// the status. Each link that came is shut at the end, and the one that waits shows each as it was then.
pub fn serve_ready<
    H: HallSplit + FeedApi,
    K: Sink,
    D: ReadyDoor,
    C: Clock,
    W: WaitForLinks<D>,
    R: Wait,
>(
    rt: &R,
    alloc: Global,
    hall: &H,
    seat: &mut H::Seat,
    asked: ServeWords<'_>,
    sink: &mut K,
    door: &mut D,
    clock: &C,
    wait: &mut W,
) -> u8
where
    D::Link: Drop,
    requires seat { H.HallApi.is_of hall.now seat.old }
    ensures serves { ServesLoop (C.told clock.now) (H.FeedApi.answers hall.now) (record {
      port = opened_at asked.entry.port;
      limit = asked.entry.limit;
      idle = asked.entry.idle;
      shrink_at = asked.entry.shrink_at;
      followers = asked.entry.followers;
      until_end = asked.entry.until_end;
    })
        (around (H.HallApi.knows seat.old) (D.shows door.old) (W.shows wait.old))
        (around (H.HallApi.knows seat.new) (D.shows door.new) (W.shows wait.new))
        (K.held sink.old) (K.held sink.new) result }
    ensures legal { IsLegal (H.HallApi.knows seat.new).opening (H.HallApi.knows seat.new).seen }
    ensures opening { (H.HallApi.knows seat.new).opening ≡ (H.HallApi.knows seat.old).opening }
    ensures seat { H.HallApi.is_of hall.now seat.new }
    ensures first { (H.HallApi.knows seat.new).first ≡ (H.HallApi.knows seat.old).first }
    ensures sink { K.faults sink.old ≤ K.faults sink.new }
    ensures door { (D.shows door.old).faults ≤ (D.shows door.new).faults }
    ensures wait { (W.shows wait.old).faults ≤ (W.shows wait.new).faults }
    ensures write { result ≡ 4 → Rose (K.faults sink.old) (K.faults sink.new) }
    ensures accept { result ≡ 8 → Rose (D.shows door.old).faults (D.shows door.new).faults
        ⊎ Rose (W.shows wait.old).faults (W.shows wait.new).faults }
    ensures unread { result ≡ 3 → ⊥ }
{
    // What the seat has seen is a legal history, also where no more is done.
    hall.seen(seat);
    let Ok(line) = listening(alloc, asked.port.addr) else {
        return end(sink, 7, OUT_OF_MEMORY);
    };
    if let Err(Failed) = door.listen(&asked.port) {
        return end(sink, 8, DOOR_FAULT);
    }
    if let Err(Failed) = wait.watch_door(door) {
        return end(sink, 8, DOOR_FAULT);
    }
    if asked.until_end {
        if let Err(Failed) = wait.watch_end() {
            return end(sink, 8, DOOR_FAULT);
        }
    }
    if let Err(Failed) = write_all(sink, line.bytes()) {
        return 4;
    }
    let terms = terms_of(&asked);
    let done = serve_loop(rt, alloc, hall, seat, door, clock, wait, terms);
    hall.seen(seat);
    finish(alloc, sink, done)
}
