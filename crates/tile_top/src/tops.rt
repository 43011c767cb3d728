//! The top call.

ghost use Rattle.std.specs.Prelude.{◌≡◌, ◌⊎◌, ◌↔◌, ◌≤◌, ◌∷◌, [], None, Some, true, is_some, IfSome, IsTrue, map};
ghost use Rattle.std.specs.Prelude.{option_map, string_bytes};
ghost use Rattle.outside.specs.Causes.{Rose};
ghost use Rattle.outside.specs.Sides.{Sides};
ghost use Rattle.serve_run.specs.Ends.{IsEnd, memory_line};
ghost use Rattle.serve_run.specs.Words.{serve_of};
ghost use Rattle.tile_top.specs.FollowWords.{follow_of};
ghost use Rattle.tile_top.specs.Follows.{Follows};
ghost use Rattle.tile_top.specs.Loads.{Loads};
ghost use Rattle.tile_top.specs.LoadWords.{load_of};
ghost use Rattle.replay_run.specs.Traces.{opens};
ghost use Rattle.replay_run.specs.Standing.{IsSafeFor};
ghost use Rattle.replay_run.specs.HandedBack.{HoldsWorld, IsBackAt};
ghost use Rattle.replay_run.specs.Checks.{IsLookedAt};
ghost use Rattle.shared_hall.specs.Cores.{tells};
ghost use Rattle.shared_hall.specs.Seats.{knows_of};
ghost use Rattle.tile_top.specs.Tops.{IsReplay, IsCheck, IsUsage, Replays};
ghost use Rattle.tile_top.specs.Backtests.{Backtests, IsBacktest, IsReadAlone};
ghost use Rattle.tile_top.specs.Checks.{Checks};
ghost use Rattle.tile_top.specs.Fronts.{Fronts, IsCounted, IsDue, IsLeft, IsRewritten};

use crate::asides::aside;
use crate::backtests::backtest_disk;
use crate::checks::check_disk;
use crate::replays::{Scripted, replay_script};
use crate::serves::serve_hall;
use byte_text::NoMemory;
use outside::{Clock, Disk, ReadyDoor, Sink, Source, WaitForLinks};
use serve_run::{OUT_OF_MEMORY, end, serve_words};
use shared_hall::HallSeat;
use std::alloc::Global;
use std::sync::Wait;
use std::thread::Threads;

/// How the program ended.
#[derive(Drop)]
pub struct Ended<D: Disk + Drop> {
    /// 0 done, 1 usage, 2 script fault, 3 read fault, 4 write fault, 5 disk fault, 6 damaged, 7 out of memory, 8 door
    /// fault, 9 log at its greatest length, 10 bad part, 11 bad fence.
    pub status: u8,
    /// The disk; none where a shared hall does not give it out.
    pub disk: Option<D>,
    /// The server's seat, where a shared hall was made.
    pub front: Option<HallSeat<D>>,
}

// Whether the words are this one alone.
fn is_alone(words: &[String], name: &str) -> bool
    ensures { IsTrue result ↔ (map string_bytes words.now ≡ name.now ∷ []) }
{
    match words {
        [word] => word.as_str() == name,
        _ => false,
    }
}

// An end at which no shared hall was made.
fn without_hall<D: Disk + Drop>(status: u8, disk: D) -> Ended<D>
    ensures status { result.status ≡ status }
    ensures disk { result.disk ≡ Some disk }
    ensures front { result.front ≡ None }
{
    Ended {
        status,
        disk: Some(disk),
        front: None,
    }
}

/// The end of a program that wants memory before it can call [`top`]: the last line of status 7 is written, or a
/// beginning of it at status 4.
pub fn out_of_memory<K: Sink, D: Disk + Drop>(sink: &mut K) -> Ended<D>
    ensures told { IsEnd (K.held sink.old) (K.held sink.new) 7 memory_line result.status }
    ensures later { K.faults sink.old ≤ K.faults sink.new }
    ensures cause { result.status ≡ 4 → Rose (K.faults sink.old) (K.faults sink.new) }
{
    Ended {
        status: end(sink, 7, OUT_OF_MEMORY),
        disk: None,
        front: None,
    }
}

/// Does what the words ask for, the words after the program's name: `replay` plays the script that the source gives on
/// the world of the disk, and writes its output to the sink. `check` opens the disk, and writes what it has. `serve
/// ADDR` opens the door at the address and serves callers in a loop on one hall of the disk's world, up to an end; `ws
/// ADDR` does so for WebSockets alone. `follow ADDR` calls the leader that listens at the address, follows its log in
/// memory up to a published world, and writes the line of that; with `--watch` it goes on and on. `load N SEED` drives
/// a core of its own with the generated workload of N commands, from 1 to 1,000,000, and writes its summary. `backtest`
/// reads from the source which fence is asked for, and writes what it would have raised over the changes of the disk's
/// log. Every other list of words is answered by a line on the usage and status 1. Nothing is read but with `replay`
/// and `backtest`, and the disk is left alone but with all of these but `load` and `follow`.
///
/// The words behind `serve`, `ws`, `load` and `follow` are what `clap` takes of them, and each number is canonical.
/// Options stand in any order, before or behind ADDR, each at most once: with `--sessions N`, from 1 to 1,000,000,000,
/// N callers are served at most; with `--idle SECONDS`, from 1 to 1,000,000,000, links that were idle for so long are
/// dismissed; with `--shrink-at PERCENT`, from 0 to 1,000,000, the log is rewritten when it has grown by so many per
/// cent, 100 where nothing is said, and never with 0; with `--until-stdin-ends` the end may be asked for, as the one
/// that waits tells; `--origin LIST` names the origins, with a comma between two, of pages that may open a WebSocket
/// beside the server's own; with `serve ADDR --ws` the door takes links of both kinds. Behind `follow ADDR` stand
/// `--watch`, and beside it alone `--until-stdin-ends`. Reading them takes memory: where that wants, the line of status
/// 7 is written, also where the words ask for nothing, and nothing else is done.
///
/// Where a disk is opened. It begins with the world that the disk is recovered as, where it tells what it holds; else
/// with some sound world. Status 6 comes exactly where its sides are damaged, and its line says where; 5 comes only
/// where a call of the disk failed; 7 stands for want of memory alone. The disk is handed back. Where it was not
/// opened, it is as the opening leaves it: where it tells what it holds, it reads as before, or as a log of the same
/// world where memory wanted behind the reading, unless it failed while its first side was made, or while a log of an
/// older version was rewritten, of which each crash leaves a log of the same world; where it tells crashes, no crash
/// leaves then what it might not have left before, but for a log without a batch where none had been begun, and one of
/// the same world where the log was of an older version.
///
/// With `replay`. Status 0: the source was read to its end, and the bytes written are the script's output. Status 2:
/// this line is the first that is none of a script, and the bytes written are the whole output of the lines before it
/// and then the status's line. At status 3 (reading failed), 5 (the disk failed), 6 (it was opened again, and is
/// damaged), 7 (want of memory) and 9 they are the whole output of the lines before the last one that was read, and
/// then the status's line. At 4 (writing failed) they are that output and a part of the last line's, or a beginning of
/// the line of the status that was due. At each status the hall is retired at last. Status 5 comes, too, where the log
/// failed at that retirement behind all lines.
///
/// Status 9 comes where a call or tick of the last line found the machine's log at its greatest length, 2^60 bytes, and
/// nowhere else; no line is done there.
///
/// Where the source does not tell its text, these clauses hold of some list of lines in place of the text's: what was
/// written is the output of a script all the same, and then the status's line.
///
/// Where the disk tells what it holds and what a crash may leave, all events that the script made are a run of legal
/// histories, one for each opening, with their outcomes, and the disk that is handed back is safe for it: whatever a
/// crash might have left since the first opening, at each moment of it, is recovered as the world after a beginning of
/// the run, which holds all that was acknowledged by then, that is all before the last frame that was given, and before
/// the last step of rewriting that was answered Ok. Where the hall's retirement was answered Ok, as at status 0,
/// whatever a crash leaves of the disk is the world after the whole run. Where the disk tells no crashes, it holds at
/// status 0 the world that the script left. At which moment of the disk each event ended, this does not say: the source
/// and the sink have no moments, so nothing that is seen from outside stands before or behind one. The clause on each
/// call of the core says it, by the disk's moment behind that call, and a body that put off its syncs is refused there.
///
/// With `check`. Status 0: the line of the disk's world was written, with the generation of the side in use of the disk
/// handed back, which holds that world; and that disk is safe for that world. At each status at which it was opened, at
/// no moment might a crash have left anything but what it might have left before, or a log of that world.
///
/// With `serve` and `ws`. All entries that the server's seat has seen are a legal history that opens with the disk's
/// world, and its own are those of the loop's steps, in their order: a tick and as many steps of rewriting as the loop
/// makes behind each; a tick, or a tick and steps, up to one that wanted memory; the entering of a session of the
/// server's own, which asks for AOFSHRINK, and its removal, or an entering for that which was refused; the entering of
/// a session for a caller; the calls of a session in one turn; a take of a session; its closing; its removal; then,
/// where a tick or a step of rewriting brought the end, a tick and the steps up to that one, or, where the answer to
/// AOFSHRINK brought it, the entering, the asking and the removal; and then the retirement. For AOFSHRINK the server
/// asks by itself only where PERCENT is not 0, the log is not being rewritten, and the last step told that it has 64
/// MiB at least and has grown by so many per cent of what the first step told, or the one that ended the last
/// rewriting; what a step tells is a hint of the hall. Want of memory in a tick or a step behind it brings the end only
/// where each tick for ten seconds wanted some, by the moments of the ticks. The door was opened as was asked for: at
/// that address, for those kinds of links, for pages of those origins; where it could not be, it is open as it was
/// before. Each caller who came bears the next number of the door, and is the caller of exactly one link. No link is
/// left open: the one that waits, where it tells which links were shut, tells these behind those before, each as it was
/// then, but for those for whose telling it had no memory. Of each link one of these holds. No session was entered for
/// it; or one was, and was removed at once, for want of memory or because the link could not be watched, which comes
/// only where the one that waits has failed; then the link is as it came. Or it was served as one session: the calls of
/// that session are those of the requests of the bytes that were read of the link, in order, each once but again while
/// it is answered Full, up to an end that is named; and what the link was written is what the takes of that session
/// gave, in order: all of it where the takes came to an end, and a first part of it where the link failed or was cut
/// early, where memory ran out, or where the loop ended first. That the server dismisses a link, that is ends its
/// asking by itself, or cuts it early comes only where there is an idle limit, or where the end may be asked for and
/// was.
///
/// Status 0: the door told its end, or N callers came, or the end may be asked for and was, and all links went on to
/// their own ends, or to those by which the server dismissed or cut them; the bytes written are the lines `listening
/// ADDR`, `served N`, and `starved M` where sessions were removed for want of memory. Status 8 comes only where the
/// door has failed or the one that waits has, 5 where a tick, a step of rewriting or AOFSHRINK found the hall stopped,
/// or the log failed at the retirement, 9 where one found the machine's log at its greatest length, 7 where memory
/// wanted, 4 where the sink failed. Where the disk tells what it holds and what a crash may leave, the disk that is
/// handed back is safe for all that the seat has seen. Where the retirement was not answered Stopped, as at status 0,
/// or is the only one that the seat has seen, the disk is handed back, and its count of faults is the one that the
/// history ends with; where it was answered Ok, whatever a crash leaves of it is the world of all of that, and an
/// opening finds there a log of the generation to which the history's rewritings lead, one more for each that came to
/// its end.
///
/// With `backtest`. Status 11 comes exactly where what the source had left is not the text of one request that reads as
/// a SETCHAN with an area given in its words, or a NEARBY with POINT; the disk is then left alone. Status 0: the source
/// was read to its end, and the bytes written are the report of that channel over the records of the disk's log, that
/// of one thread, however the work was cut; and whatever a crash leaves of the disk is what it reads as. Status 3 comes
/// only where the source failed, 5 where the disk failed, 6 where its sides are damaged, 7 stands for want of memory,
/// and 4 comes only where the sink failed, with a beginning of what was due. At each status the disk reads as before:
/// nothing is made of it, and no crash leaves then what it might not have left before.
///
/// With `follow`. The door is opened at that address for links that it opens itself. The links that came, each of the
/// next number of the door, were followed one after another by one node that had heard nothing at first: on each the
/// node took parts in order, each the answer to its ask, and was written no more than its asks. Each is shut, and the
/// one that waits, where it tells which links were shut, tells it, but for the last one at status 7. Behind each world
/// that is published its line is written, but where the world that was told last goes up to the same place of the log.
/// Once: one link is followed, up to the first world, and status 0 says that its line was written. Status 10 comes where
/// the door told that nobody comes, the link ended before that, or what came is no part that the node takes; 3 where a
/// read of the link failed and 4 where a write to it did, by its count of failures; 8 only where the door has failed or
/// the one that waits has. With `--watch` a link that ended or failed is lost, and the leader is called again, also
/// where a look failed; status 0 comes only where the end may be asked for and was, 10 as before but not for a link that
/// ended, 8 only where the door was not opened or the one that waits has failed, and there is no status 3. Status 7
/// stands for want of memory, 4 comes also where the sink failed, and then a beginning of the lines was written.
///
/// With `load`. Status 0: the bytes written are the four lines that N and SEED determine: what the sessions of the
/// workload are given by the steps of a machine that begins with the empty world, and the number of objects in the end.
/// At 7, which stands for want of memory alone, they are the status's line. 4 comes only where the sink failed, and
/// there is no other status.
pub fn top<
    S: Source,
    K: Sink,
    D: Disk + Drop,
    L: ReadyDoor,
    C: Clock,
    W: WaitForLinks<L>,
    R: Wait + Threads + Sync,
>(
    rt: &R,
    alloc: Global,
    words: &[String],
    source: &mut S,
    sink: &mut K,
    disk: D,
    door: &mut L,
    clock: &C,
    wait: &mut W,
) -> Ended<D>
where
    L::Link: Drop,
    ensures replay { IsReplay (map string_bytes words.now)
        → Replays (D.seen disk)
        (λ halt. IfSome result.disk (λ d. IsBackAt D.crashes D.seen D.images D.moment D.left_since disk d halt))
        (λ w. is_some (D.seen disk) ≡ true → IfSome result.disk (λ d. HoldsWorld (D.seen d) w))
        (λ w logged deeds. (s : Sides) → D.seen disk ≡ Some s → D.crashes disk ≡ true
        → IfSome result.disk (λ d. IsSafeFor D.images D.left_since d (opens w logged ∷ deeds)))
        (Rose (S.faults source.old) (S.faults source.new)) (S.left source.old) (S.left source.new) (K.held sink.old)
        (K.held sink.new) result.status }
    ensures check { IsCheck (map string_bytes words.now)
        → Checks (D.seen disk)
        (λ halt. IfSome result.disk (λ d. IsBackAt D.crashes D.seen D.images D.moment D.left_since disk d halt))
        (λ w logged generation answered. IfSome result.disk
        (λ d. IsLookedAt D.crashes D.seen D.images D.moment D.left_since disk d w logged generation answered))
        (K.held sink.old) (K.held sink.new) result.status }
    ensures backtest { IsBacktest (map string_bytes words.now)
        → Backtests (D.seen disk) (S.left source.old) (S.left source.new) (K.held sink.old) (K.held sink.new)
        result.status }
    ensures read_alone { IsBacktest (map string_bytes words.now)
        → IfSome result.disk
        (λ d. IsReadAlone D.crashes D.seen D.images D.moment D.left_since disk d result.status) }
    ensures serve { IfSome (serve_of (map string_bytes words.now)) (λ s. Fronts (tells D.crashes D.seen disk) (D.seen disk)
        (λ halt. IfSome result.disk (λ d. IsBackAt D.crashes D.seen D.images D.moment D.left_since disk d halt))
        (C.told clock.now) s
        (L.shows door.old) (L.shows door.new) (W.shows wait.old) (W.shows wait.new)
        (K.held sink.old) (K.held sink.new) result.status (option_map knows_of result.front)) }
    ensures safe { tells D.crashes D.seen disk ≡ true
        → IfSome result.front (λ last. IfSome result.disk (λ d. IsLeft D.seen D.images D.moment D.left_since disk d
        (knows_of last))) }
    ensures rewritten { tells D.crashes D.seen disk ≡ true
        → IfSome result.front (λ last. IfSome result.disk (λ d. IsRewritten D.seen disk d (knows_of last))) }
    ensures given { IfSome result.front (λ last. IsDue (knows_of last).seen → is_some result.disk ≡ true) }
    ensures counted { IfSome result.front
        (λ last. IfSome result.disk (λ d. IsCounted (D.faults disk) (D.faults d) (knows_of last))) }
    ensures load { IfSome (load_of (map string_bytes words.now))
        (λ w. Loads w (K.held sink.old) (K.held sink.new) result.status) }
    ensures follow { IfSome (follow_of (map string_bytes words.now))
        (λ f. Follows f (L.shows door.old) (L.shows door.new) (W.shows wait.old) (W.shows wait.new)
        (K.held sink.old) (K.held sink.new) (K.faults sink.old) (K.faults sink.new) result.status) }
    ensures usage { (IsReplay (map string_bytes words.now) → ⊥) → (IsCheck (map string_bytes words.now) → ⊥)
        → (IsBacktest (map string_bytes words.now) → ⊥) → serve_of (map string_bytes words.now) ≡ None
        → load_of (map string_bytes words.now) ≡ None → follow_of (map string_bytes words.now) ≡ None
        → IsUsage (map string_bytes words.now) (K.held sink.old) (K.held sink.new) result.status }
    ensures unread { (IsReplay (map string_bytes words.now) → ⊥) → (IsBacktest (map string_bytes words.now) → ⊥)
        → source.new ≡ source.old }
    ensures untouched { (IsReplay (map string_bytes words.now) → ⊥) → (IsCheck (map string_bytes words.now) → ⊥)
        → (IsBacktest (map string_bytes words.now) → ⊥) → serve_of (map string_bytes words.now) ≡ None → result.disk ≡ Some disk }
    ensures handed { result.front ≡ None → is_some result.disk ≡ true }
    ensures apart { serve_of (map string_bytes words.now) ≡ None → follow_of (map string_bytes words.now) ≡ None
        → (door.new ≡ door.old) × (wait.new ≡ wait.old) }
    ensures alone { serve_of (map string_bytes words.now) ≡ None → result.front ≡ None }
    ensures source { S.faults source.old ≤ S.faults source.new }
    ensures sink { K.faults sink.old ≤ K.faults sink.new }
    ensures door { (L.shows door.old).faults ≤ (L.shows door.new).faults }
    ensures wait { (W.shows wait.old).faults ≤ (W.shows wait.new).faults }
    ensures later { result.front ≡ None → IfSome result.disk (λ d. D.faults disk ≤ D.faults d) }
    ensures read { follow_of (map string_bytes words.now) ≡ None
        → result.status ≡ 3 → Rose (S.faults source.old) (S.faults source.new) }
    ensures write { follow_of (map string_bytes words.now) ≡ None
        → result.status ≡ 4 → Rose (K.faults sink.old) (K.faults sink.new) }
    ensures disk { result.front ≡ None → result.status ≡ 5
        → IfSome result.disk (λ d. Rose (D.faults disk) (D.faults d)) }
    ensures accept { result.status ≡ 8 → Rose (L.shows door.old).faults (L.shows door.new).faults
        ⊎ Rose (W.shows wait.old).faults (W.shows wait.new).faults }
{
    match serve_words(alloc, words) {
        Err(NoMemory) => without_hall(end(sink, 7, OUT_OF_MEMORY), disk),
        Ok(Some(asked)) => serve_hall(rt, alloc, asked, sink, disk, door, clock, wait),
        Ok(None) if is_alone(words, "replay") => {
            let scripted = replay_script(alloc, source, sink, disk);
            without_hall(scripted.status, scripted.disk)
        }
        Ok(None) if is_alone(words, "check") => {
            let scripted = check_disk(alloc, sink, disk);
            without_hall(scripted.status, scripted.disk)
        }
        Ok(None) if is_alone(words, "backtest") => {
            let scripted = backtest_disk(rt, alloc, source, sink, disk);
            without_hall(scripted.status, scripted.disk)
        }
        Ok(None) => without_hall(aside(rt, alloc, words, sink, door, wait), disk),
    }
}
