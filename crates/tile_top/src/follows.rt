//! The command `follow`: a leader's log is followed over links that the door opens, and the lines of its worlds are
//! written.

ghost use Rattle.std.specs.Prelude.{◌≡◌, ◌≢◌, ◌⊎◌, ◌≤◌, ℕ, Bool, Option, Some, None, true, IfErr, IfSome, OnOk, OnErr};
ghost use Rattle.std.specs.Io.KnownBytes.{Appends};
ghost use Rattle.outside.specs.Causes.{Rose};
ghost use Rattle.outside.specs.Doors.{DoorFails};
ghost use Rattle.outside.specs.Writing.{AppendsPart};
ghost use Rattle.repl_node.specs.Following.{Followed, first_node};
ghost use Rattle.repl_node.specs.declared.nodes.LogPlace.{LogPlace};
ghost use Rattle.tile_top.specs.FollowWords.{follow_asked};
ghost use Rattle.tile_top.specs.Follows.{EndsAt, Follows, FollowsNext, FollowsUpTo, IsShutAt, NobodyBy, StopsBy, around};
ghost use Rattle.tile_top.specs.Follows.{is_told, news, opened_for, stop_of};
ghost use Rattle.tile_top.specs.Tellings.{IsVisited, KeepsTelling, LooksFor, LooksOnce};

use crate::checks::check_text;
use crate::follow_words::{FollowTerms, FollowWords};
use crate::halt_ends::READ_FAULT;
use crate::stops::Stop;
use outside::{Caller, Failed, Kinds, Port, ReadyDoor, Sink, WaitForLinks, write_all};
use repl_node::{FollowEnd, Follower, LogPlace, Node, Phase, follow_link, watch_link};
use serve_run::{DOOR_FAULT, OUT_OF_MEMORY, end};
use std::alloc::Global;
use std::sync::Wait;

const BAD_PART: &[u8] = b"bad part\n";

/// The number of the one link that is open.
const LINK: u32 = 0;

/// So many milliseconds behind a world the leader is asked again.
const PAUSE: u32 = 100;

/// So many milliseconds behind a link that was lost, or a look at which nobody came, the leader is called again.
const LONG_PAUSE: u32 = 1_000;

/// What is kept between two links: the node, and up to where the world goes that was told last.
#[derive(Drop)]
pub(crate) struct Copied {
    node: Node,
    told: Option<LogPlace>,
}

// The end of a link stops who follows once; who follows on and on calls again.
fn stop_of(watch: bool, end: FollowEnd) -> Stop
    ensures { result ≡ stop_of watch end }
{
    match end {
        FollowEnd::BadPart => Stop::BadPart,
        FollowEnd::Memory => Stop::OutOfMemory,
        _ if watch => Stop::Lost,
        FollowEnd::Over => Stop::BadPart,
        FollowEnd::ReadFault => Stop::ReadFault,
        FollowEnd::WriteFault => Stop::WriteFault,
    }
}

// Whether a world up to this place was told last.
fn is_told(told: Option<LogPlace>, place: LogPlace) -> bool
    ensures { result ≡ is_told told place }
{
    match told {
        Some(told) => told.generation == place.generation && told.place == place.place,
        None => false,
    }
}

// Writes the line of a node's published world, unless that was told last. Why not, where it was not written whole.
fn tell<K: Sink>(
    alloc: Global,
    sink: &mut K,
    node: &Node,
    told: Option<LogPlace>,
) -> Result<(), Stop>
    ensures ok { OnOk result (Appends (K.held sink.old) (K.held sink.new) (news told node.now)) }
    ensures part { OnErr result (AppendsPart (K.held sink.old) (K.held sink.new) (news told node.now)) }
    ensures why { IfErr result (λ stop. ((stop ≡ Stop.OutputFault) × Rose (K.faults sink.old) (K.faults sink.new))
        ⊎ (stop ≡ Stop.OutOfMemory)) }
    ensures later { K.faults sink.old ≤ K.faults sink.new }
{
    let published = node.published();
    if is_told(told, published) {
        return Ok(());
    }
    let line = check_text(alloc, node.objects(), node.channels(), published.generation);
    let Ok(line) = line else {
        return Err(Stop::OutOfMemory);
    };
    match write_all(sink, line.bytes()) {
        Ok(()) => Ok(()),
        Err(Failed) => Err(Stop::OutputFault),
    }
}

// What is done behind a world that was published: its line is written, and who follows on and on asks again in a while.
// Why not, where it does not.
fn tell_and_ask<K: Sink, L: ReadyDoor, W: WaitForLinks<L>>(
    alloc: Global,
    follower: &mut Follower<L::Link>,
    told: &mut Option<LogPlace>,
    sink: &mut K,
    wait: &mut W,
    terms: FollowTerms,
) -> Option<Stop>
    requires { follower.old.phase ≡ Phase.Published }
    ensures keeps { KeepsTelling result terms follower.old follower.new told.old told.new (K.held sink.old)
        (K.held sink.new) }
    ensures why { IfSome result (λ stop. StopsBy terms stop follower.new.phase (W.shows wait.new).over (W.shows wait.old).faults
        (W.shows wait.new).faults (K.faults sink.old) (K.faults sink.new)) }
    ensures shut { (W.shows wait.new).shut ≡ (W.shows wait.old).shut }
    ensures wait { (W.shows wait.old).faults ≤ (W.shows wait.new).faults }
    ensures sink { K.faults sink.old ≤ K.faults sink.new }
{
    let place = follower.node().published();
    if let Err(stop) = tell(alloc, sink, follower.node(), *told) {
        return Some(stop);
    }
    *told = Some(place);
    if !terms.watch {
        return Some(Stop::Done);
    }
    if let Err(Failed) = wait.wait(PAUSE) {
        return Some(Stop::DoorFault);
    }
    follower.ask_again();
    None
}

// Steps a follower up to a world, or the end of its link, and tells that. Why it goes on no more, where it does not.
fn follow_turn<K: Sink, L: ReadyDoor, W: WaitForLinks<L>, R: Wait>(
    rt: &R,
    alloc: Global,
    follower: &mut Follower<L::Link>,
    told: &mut Option<LogPlace>,
    sink: &mut K,
    wait: &mut W,
    terms: FollowTerms,
) -> Option<Stop>
    ensures keeps { KeepsTelling result terms follower.old follower.new told.old told.new (K.held sink.old)
        (K.held sink.new) }
    ensures why { IfSome result (λ stop. StopsBy terms stop follower.new.phase (W.shows wait.new).over (W.shows wait.old).faults
        (W.shows wait.new).faults (K.faults sink.old) (K.faults sink.new)) }
    ensures shut { (W.shows wait.new).shut ≡ (W.shows wait.old).shut }
    ensures wait { (W.shows wait.old).faults ≤ (W.shows wait.new).faults }
    ensures sink { K.faults sink.old ≤ K.faults sink.new }
{
    if let Err(Failed) = follow_link(rt, follower, wait, terms.until_end) {
        return Some(Stop::DoorFault);
    }
    match follower.phase() {
        // An end was asked for.
        Phase::Asking => Some(Stop::Done),
        Phase::Published => tell_and_ask(alloc, follower, told, sink, wait, terms),
        Phase::Ended(end) => Some(stop_of(terms.watch, end)),
    }
}

// Follows a link up to a stop.
fn follow_turns<K: Sink, L: ReadyDoor, W: WaitForLinks<L>, R: Wait>(
    rt: &R,
    alloc: Global,
    follower: &mut Follower<L::Link>,
    told: &mut Option<LogPlace>,
    sink: &mut K,
    wait: &mut W,
    terms: FollowTerms,
) -> Stop
    ensures keeps { KeepsTelling (Some result) terms follower.old follower.new told.old told.new (K.held sink.old)
        (K.held sink.new) }
    ensures why { StopsBy terms result follower.new.phase (W.shows wait.new).over (W.shows wait.old).faults
        (W.shows wait.new).faults (K.faults sink.old) (K.faults sink.new) }
    ensures shut { (W.shows wait.new).shut ≡ (W.shows wait.old).shut }
    ensures wait { (W.shows wait.old).faults ≤ (W.shows wait.new).faults }
    ensures sink { K.faults sink.old ≤ K.faults sink.new }
{
    for _ in rt.forever() {
        if let Some(stop) = follow_turn(rt, alloc, follower, told, sink, wait, terms) {
            return stop;
        }
    }
    unreachable!()
}

// Has the link named, and follows it up to a stop.
fn follow_named<K: Sink, L: ReadyDoor, W: WaitForLinks<L>, R: Wait>(
    rt: &R,
    alloc: Global,
    follower: &mut Follower<L::Link>,
    told: &mut Option<LogPlace>,
    sink: &mut K,
    wait: &mut W,
    terms: FollowTerms,
) -> Stop
    requires { follower.old.phase ≡ Phase.Published → ⊥ }
    ensures keeps { KeepsTelling (Some result) terms follower.old follower.new told.old told.new (K.held sink.old)
        (K.held sink.new) }
    ensures why { StopsBy terms result follower.new.phase (W.shows wait.new).over (W.shows wait.old).faults
        (W.shows wait.new).faults (K.faults sink.old) (K.faults sink.new) }
    ensures shut { (W.shows wait.new).shut ≡ (W.shows wait.old).shut }
    ensures wait { (W.shows wait.old).faults ≤ (W.shows wait.new).faults }
    ensures sink { K.faults sink.old ≤ K.faults sink.new }
{
    match watch_link(follower, wait, LINK) {
        Ok(()) => follow_turns(rt, alloc, follower, told, sink, wait, terms),
        Err(Failed) => Stop::DoorFault,
    }
}

// Shuts a link behind a stop. Behind one that was lost it waits a while.
fn shut<L: ReadyDoor, W: WaitForLinks<L>>(wait: &mut W, link: L::Link, stop: Stop) -> Stop
    ensures shut { IsShutAt result (W.shows wait.old).shut (W.shows wait.new).shut (L.Link.shows link) }
    ensures stop { (result ≡ stop) ⊎ ((result ≡ Stop.OutOfMemory) ⊎ ((stop ≡ Stop.Lost) × (result ≡ Stop.DoorFault)
        × Rose (W.shows wait.old).faults (W.shows wait.new).faults)) }
    ensures over { (stop ≡ Stop.Lost) ⊎ ((W.shows wait.new).over ≡ (W.shows wait.old).over) }
    ensures wait { (W.shows wait.old).faults ≤ (W.shows wait.new).faults }
{
    if wait.shut(link).is_err() {
        return Stop::OutOfMemory;
    }
    if stop != Stop::Lost {
        return stop;
    }
    match wait.wait(LONG_PAUSE) {
        Ok(_) => Stop::Lost,
        Err(Failed) => Stop::DoorFault,
    }
}

// Follows a link that came up to a stop, and shuts it.
fn follow_one<K: Sink, L: ReadyDoor, W: WaitForLinks<L>, R: Wait>(
    rt: &R,
    alloc: Global,
    link: L::Link,
    copied: Copied,
    sink: &mut K,
    wait: &mut W,
    terms: FollowTerms,
) -> (Stop, Copied)
where
    L::Link: Drop,
    ensures follows { IsVisited terms result.0 (L.Link.shows link) copied.node result.1.node copied.told result.1.told
        (W.shows wait.old) (W.shows wait.new) (K.held sink.old) (K.held sink.new) (K.faults sink.old) (K.faults sink.new) }
    ensures sink { K.faults sink.old ≤ K.faults sink.new }
    ensures wait { (W.shows wait.old).faults ≤ (W.shows wait.new).faults }
{
    let Copied { node, mut told } = copied;
    let mut follower = Follower::new(alloc, link, node);
    let stop = follow_named(rt, alloc, &mut follower, &mut told, sink, wait, terms);
    let (link, node) = follower.into_parts();
    (shut(wait, link, stop), Copied { node, told })
}

// Looks once for a link. None where it is to be looked again.
fn look<L: ReadyDoor>(door: &mut L, terms: FollowTerms) -> Result<Option<L::Link>, Stop>
    ensures looks { LooksOnce L.Link.shows (L.shows door.old) (L.shows door.new) result }
    ensures why { (waits waits_now : ℕ) (over : Bool)
        → IfErr result (λ stop. NobodyBy terms stop over (L.shows door.old) (L.shows door.new) waits waits_now) }
    ensures later { (L.shows door.old).faults ≤ (L.shows door.new).faults }
{
    match door.accept() {
        Ok(Caller::Came(link)) => Ok(Some(link)),
        Ok(Caller::Later) => Ok(None),
        Ok(Caller::Over) => Err(Stop::BadPart),
        Err(Failed) if terms.watch => Ok(None),
        Err(Failed) => Err(Stop::DoorFault),
    }
}

// Looks for a link until one comes, or up to a stop.
fn next_link<L: ReadyDoor, W: WaitForLinks<L>, R: Wait>(
    rt: &R,
    door: &mut L,
    wait: &mut W,
    terms: FollowTerms,
) -> Result<L::Link, Stop>
    ensures looks { LooksFor L.Link.shows (L.shows door.old) (L.shows door.new) result }
    ensures why { IfErr result (λ stop. NobodyBy terms stop (W.shows wait.new).over (L.shows door.old) (L.shows door.new)
        (W.shows wait.old).faults (W.shows wait.new).faults) }
    ensures door { (L.shows door.old).faults ≤ (L.shows door.new).faults }
    ensures shut { (W.shows wait.new).shut ≡ (W.shows wait.old).shut }
    ensures wait { (W.shows wait.old).faults ≤ (W.shows wait.new).faults }
{
    for _ in rt.forever() {
        if terms.until_end && wait.is_over() {
            return Err(Stop::Done);
        }
        match look(door, terms) {
            Ok(Some(link)) => return Ok(link),
            Ok(None) => {}
            Err(stop) => return Err(stop),
        }
        if let Err(Failed) = wait.wait(LONG_PAUSE) {
            return Err(Stop::DoorFault);
        }
    }
    unreachable!()
}

// Looks for the next link, and follows it up to a stop.
fn follow_next<K: Sink, L: ReadyDoor, W: WaitForLinks<L>, R: Wait>(
    rt: &R,
    alloc: Global,
    copied: Copied,
    sink: &mut K,
    door: &mut L,
    wait: &mut W,
    terms: FollowTerms,
) -> (Stop, Copied)
where
    L::Link: Drop,
    ensures follows { FollowsNext terms result.0
        (around copied.node copied.told (L.shows door.old) (W.shows wait.old) (K.held sink.old) (K.faults sink.old))
        (around result.1.node result.1.told (L.shows door.new) (W.shows wait.new) (K.held sink.new) (K.faults sink.new)) }
    ensures sink { K.faults sink.old ≤ K.faults sink.new }
    ensures door { (L.shows door.old).faults ≤ (L.shows door.new).faults }
    ensures wait { (W.shows wait.old).faults ≤ (W.shows wait.new).faults }
    ensures write { result.0 ≡ Stop.OutputFault → Rose (K.faults sink.old) (K.faults sink.new) }
    ensures accept { result.0 ≡ Stop.DoorFault → Rose (L.shows door.old).faults (L.shows door.new).faults
        ⊎ Rose (W.shows wait.old).faults (W.shows wait.new).faults }
{
    match next_link(rt, door, wait, terms) {
        Ok(link) => follow_one(rt, alloc, link, copied, sink, wait, terms),
        Err(stop) => (stop, copied),
    }
}

// Follows one link after another, up to a stop.
fn follow_all<K: Sink, L: ReadyDoor, W: WaitForLinks<L>, R: Wait>(
    rt: &R,
    alloc: Global,
    sink: &mut K,
    door: &mut L,
    wait: &mut W,
    terms: FollowTerms,
) -> Stop
where
    L::Link: Drop,
    ensures follows { (node : Followed) × (told : Option LogPlace) × FollowsUpTo terms result
        (around first_node None (L.shows door.old) (W.shows wait.old) (K.held sink.old) (K.faults sink.old))
        (around node told (L.shows door.new) (W.shows wait.new) (K.held sink.new) (K.faults sink.new)) }
    ensures sink { K.faults sink.old ≤ K.faults sink.new }
    ensures door { (L.shows door.old).faults ≤ (L.shows door.new).faults }
    ensures wait { (W.shows wait.old).faults ≤ (W.shows wait.new).faults }
    ensures write { result ≡ Stop.OutputFault → Rose (K.faults sink.old) (K.faults sink.new) }
    ensures accept { result ≡ Stop.DoorFault → Rose (L.shows door.old).faults (L.shows door.new).faults
        ⊎ Rose (W.shows wait.old).faults (W.shows wait.new).faults }
{
    let mut copied = Copied {
        node: Node::new(alloc),
        told: None,
    };
    for _ in rt.forever() {
        let (stop, next) = follow_next(rt, alloc, copied, sink, door, wait, terms);
        copied = next;
        if stop != Stop::Lost {
            return stop;
        }
    }
    unreachable!()
}

// Writes the last line of a stop, and answers the status.
fn end_stop<K: Sink>(sink: &mut K, stop: Stop) -> u8
    requires { stop ≢ Stop.Lost }
    ensures ended { EndsAt stop (K.held sink.old) (K.held sink.new) result }
    ensures sink { K.faults sink.old ≤ K.faults sink.new }
    ensures write { result ≡ 4 → (stop ≡ Stop.WriteFault) ⊎ ((stop ≡ Stop.OutputFault) ⊎ Rose (K.faults sink.old) (K.faults sink.new)) }
    ensures accept { result ≡ 8 → stop ≡ Stop.DoorFault }
    ensures undisked { result ≡ 5 → ⊥ }
{
    match stop {
        Stop::Done => 0,
        Stop::BadPart | Stop::Lost => end(sink, 10, BAD_PART),
        Stop::ReadFault => end(sink, 3, READ_FAULT),
        Stop::WriteFault | Stop::OutputFault => 4,
        Stop::DoorFault => end(sink, 8, DOOR_FAULT),
        Stop::OutOfMemory => end(sink, 7, OUT_OF_MEMORY),
    }
}

// Opens the door for links that it opens itself, and learns of an end that is asked for.
fn begin<L: ReadyDoor, W: WaitForLinks<L>>(
    door: &mut L,
    wait: &mut W,
    asked: FollowWords<'_>,
) -> Result<(), Failed>
    ensures ok { OnOk result ((L.shows door.new ≡ opened_for (follow_asked asked.entry) (L.shows door.old))
        × (W.shows wait.new ≡ W.shows wait.old)) }
    ensures err { OnErr result ((DoorFails (L.shows door.old) (L.shows door.new) × (W.shows wait.new ≡ W.shows wait.old))
        ⊎ ((L.shows door.new ≡ opened_for (follow_asked asked.entry) (L.shows door.old)) × (asked.entry.terms.until_end ≡ true)
        × Rose (W.shows wait.old).faults (W.shows wait.new).faults
        × (W.shows wait.new ≡ record (W.shows wait.old) { faults = (W.shows wait.new).faults }))) }
    ensures door { (L.shows door.old).faults ≤ (L.shows door.new).faults }
    ensures wait { (W.shows wait.old).faults ≤ (W.shows wait.new).faults }
{
    let port = Port {
        addr: asked.addr,
        kinds: Kinds::Dialed,
        origins: "",
    };
    door.listen(&port)?;
    if asked.terms.until_end {
        wait.watch_end()?;
    }
    Ok(())
}

/// Opens the door for links that it opens itself, follows the leader over them as the words ask for, and answers the
/// status.
pub(crate) fn follow<K: Sink, L: ReadyDoor, W: WaitForLinks<L>, R: Wait>(
    rt: &R,
    alloc: Global,
    asked: FollowWords<'_>,
    sink: &mut K,
    door: &mut L,
    wait: &mut W,
) -> u8
where
    L::Link: Drop,
    ensures follows { Follows (follow_asked asked.entry) (L.shows door.old) (L.shows door.new) (W.shows wait.old) (W.shows wait.new)
        (K.held sink.old) (K.held sink.new) (K.faults sink.old) (K.faults sink.new) result }
    ensures sink { K.faults sink.old ≤ K.faults sink.new }
    ensures door { (L.shows door.old).faults ≤ (L.shows door.new).faults }
    ensures wait { (W.shows wait.old).faults ≤ (W.shows wait.new).faults }
    ensures accept { result ≡ 8 → Rose (L.shows door.old).faults (L.shows door.new).faults
        ⊎ Rose (W.shows wait.old).faults (W.shows wait.new).faults }
    ensures undisked { result ≡ 5 → ⊥ }
{
    if let Err(Failed) = begin(door, wait, asked) {
        return end(sink, 8, DOOR_FAULT);
    }
    let stop = follow_all(rt, alloc, sink, door, wait, asked.terms);
    end_stop(sink, stop)
}
