//! The play of a script, line by line: the output of a line is written before the next one is read.

ghost use Rattle.std.specs.Prelude.{◌≡◌, ◌≤◌, ◌<◌, ◌+◌, ◌++◌, ◌⊎◌, ◌≢◌, ◌∷◌, ℕ, Bool, List, [], true, false, Option};
ghost use Rattle.std.specs.Prelude.{Some, IfOk, IfErr, is_some};
ghost use Rattle.outside.specs.Causes.{Rose};
ghost use Rattle.outside.specs.Sides.{Sides};
ghost use Rattle.world_model.specs.Halls.{Hall};
ghost use Rattle.world_data.specs.declared.worlds.World.{World};
ghost use Rattle.journal.specs.declared.openings.OpenFault.TheVariants as fault_of;
ghost use Rattle.durable_core.specs.Logged.{hall_of, disk_of};
ghost use Rattle.replay_run.specs.TextLines.{max_script};
ghost use Rattle.replay_run.specs.Reads.{IsOneLine, IsFirstLine};
ghost use Rattle.replay_run.specs.TextLines.{TextLine};
ghost use Rattle.replay_run.specs.Traces.{Deed, opens};
ghost use Rattle.replay_run.specs.Scripts.{opening};
ghost use Rattle.replay_run.specs.Undone.{halt_at, IsUndone};
ghost use Rattle.replay_run.specs.HandedBack.{HoldsWorld, IsBackAt};
ghost use Rattle.replay_run.specs.Standing.{IsSafeFor, StandsBehind, StaysSafe, Logs};
ghost use Rattle.replay_run.specs.Players.{played};
ghost use Rattle.replay_run.specs.Plays.{OnTurn, OnPlay, OnLineDone, OnReplay, IsTold, end_of};

use crate::acts::Player;
use crate::ends::{ReplayEnd, Replayed};
use crate::halts::{Halt, halt_of};
use crate::outputs::reopened_text;
use crate::streams::{LineEnd, read_line};
use crate::turns::{Acted, Turn};
use journal::Unopened;
use outside::{Disk, Failed, Sink, Source, write_all};
use std::alloc::Global;
use world_model::CallOutcome;

// Does a line that was read, and writes its output.
fn do_line<K: Sink, D: Disk>(sink: &mut K, player: &mut Player<D>, line: &[u8]) -> Turn
    requires goes { (hall_of player.old.core).stopped ≡ false }
    ensures told { (deeds : List Deed)
        × ((told : Bool)
        → OnLineDone told result (K.held sink.old) (K.held sink.new) (played player.old)
        (played player.new) line.now deeds)
        × StaysSafe D.crashes D.seen D.images D.moment D.left_since D.faults player.old.core player.new.core deeds }
    ensures goes { (result ≡ Turn.Next) ⊎ (result ≡ Turn.Again) → (hall_of player.new.core).stopped ≡ false }
    ensures sink { K.faults sink.old ≤ K.faults sink.new }
    ensures write_cause { result ≡ Turn.WriteFault → Rose (K.faults sink.old) (K.faults sink.new) }
    ensures disk { D.faults (disk_of player.old.core) ≤ D.faults (disk_of player.new.core) }
    ensures disk_cause { result ≡ Turn.Halted Halt.DiskFault
        → Rose (D.faults (disk_of player.old.core)) (D.faults (disk_of player.new.core)) }
{
    match player.act(line) {
        Ok(Acted::Printed(out)) => match write_all(sink, out.bytes()) {
            Ok(()) => Turn::Next,
            Err(Failed) => Turn::WriteFault,
        },
        Ok(Acted::Reopen) => Turn::Again,
        Ok(Acted::Outside) => Turn::Script,
        Err(halt) => Turn::Halted(halt),
    }
}

// Reads the next line, does it, and writes its output.
fn next_line<S: Source, K: Sink, D: Disk>(
    source: &mut S,
    sink: &mut K,
    player: &mut Player<D>,
    line: &mut Vec<u8>,
    used: &mut u64,
) -> Turn
    requires most { used.old ≤ max_script }
    requires goes { (hall_of player.old.core).stopped ≡ false }
    ensures told { (deeds : List Deed)
        × ((told : Bool)
        → OnTurn told result (S.left source.old) (S.left source.new) (K.held sink.old) (K.held sink.new)
        (played player.old) (played player.new) used.old used.new deeds)
        × StaysSafe D.crashes D.seen D.images D.moment D.left_since D.faults player.old.core player.new.core deeds }
    ensures goes { (result ≡ Turn.Next) ⊎ (result ≡ Turn.Again) → (hall_of player.new.core).stopped ≡ false }
    ensures piece { IsOneLine (S.left source.old) (S.left source.new) }
    ensures most { used.new ≤ max_script }
    ensures some { (result ≡ Turn.Next) ⊎ (result ≡ Turn.Again) → used.old + 1 ≤ used.new }
    ensures source { S.faults source.old ≤ S.faults source.new }
    ensures sink { K.faults sink.old ≤ K.faults sink.new }
    ensures disk { D.faults (disk_of player.old.core) ≤ D.faults (disk_of player.new.core) }
    ensures read_cause { result ≡ Turn.ReadFault → Rose (S.faults source.old) (S.faults source.new) }
    ensures write_cause { result ≡ Turn.WriteFault → Rose (K.faults sink.old) (K.faults sink.new) }
    ensures disk_cause { result ≡ Turn.Halted Halt.DiskFault
        → Rose (D.faults (disk_of player.old.core)) (D.faults (disk_of player.new.core)) }
{
    match read_line(source, line, used) {
        LineEnd::Line => do_line(sink, player, line.as_slice()),
        LineEnd::End => Turn::End,
        LineEnd::TooLong => Turn::Script,
        LineEnd::ReadFault => Turn::ReadFault,
        LineEnd::Memory => Turn::Halted(Halt::Memory),
    }
}

// Writes the line of a disk that was opened again.
fn tell_again<K: Sink, D: Disk>(sink: &mut K, player: &Player<D>) -> Turn
    ensures told { IsTold result (K.held sink.old) (K.held sink.new) (hall_of player.now.core).world }
    ensures sink { K.faults sink.old ≤ K.faults sink.new }
    ensures write_cause { result ≡ Turn.WriteFault → Rose (K.faults sink.old) (K.faults sink.new) }
{
    let Ok(text) = reopened_text(player.alloc, player.core.objects(), player.core.channels()) else {
        return Turn::Halted(Halt::Memory);
    };
    match write_all(sink, text.bytes()) {
        Ok(()) => Turn::Next,
        Err(Failed) => Turn::WriteFault,
    }
}

// What came of one line, and of the player.
#[derive(Drop)]
pub(crate) struct Turned<D> {
    turn: Turn,
    player: Player<D>,
}

// Reads the next line, does it, and writes its output, also where it opens all again. Where the disk is not opened
// again, it is left.
fn one_turn<S: Source, K: Sink, D: Disk>(
    source: &mut S,
    sink: &mut K,
    player: Player<D>,
    line: &mut Vec<u8>,
    used: &mut u64,
) -> Result<Turned<D>, Unopened<D>>
    requires most { used.old ≤ max_script }
    requires goes { (hall_of player.core).stopped ≡ false }
    ensures told { IfOk result
        (λ r. (deeds : List Deed) × ((told : Bool) → (told ≡ true → Logs D.crashes D.seen D.images player.core)
        → OnTurn told r.turn (S.left source.old) (S.left source.new) (K.held sink.old) (K.held sink.new) (played player)
        (played r.player) used.old used.new deeds)
        × StaysSafe D.crashes D.seen D.images D.moment D.left_since D.faults player.core r.player.core deeds) }
    ensures done { IfOk result (λ r. r.turn ≢ Turn.Again) }
    ensures goes { IfOk result (λ r. r.turn ≡ Turn.Next → (hall_of r.player.core).stopped ≡ false) }
    ensures failed { IfErr result (λ u. (deeds : List Deed) × (last : Hall)
        × ((told : Bool) → (told ≡ true → Logs D.crashes D.seen D.images player.core)
        → (l : TextLine) × IsFirstLine (S.left source.old) (S.left source.new) l
        × IsUndone told (halt_at u.why) used.old (played player) l deeds last)
        × (last.stopped ≡ true) × (K.held sink.new ≡ K.held sink.old)
        × ((before : List Deed)
        → StandsBehind D.crashes D.seen D.images D.moment D.left_since D.faults player.core before
        → IsSafeFor D.images D.left_since u.disk (before ++ deeds))) }
    ensures piece { IsOneLine (S.left source.old) (S.left source.new) }
    ensures most { used.new ≤ max_script }
    ensures some { IfOk result (λ r. r.turn ≡ Turn.Next → used.old + 1 ≤ used.new) }
    ensures source { S.faults source.old ≤ S.faults source.new }
    ensures sink { K.faults sink.old ≤ K.faults sink.new }
    ensures disk { IfOk result (λ r. D.faults (disk_of player.core) ≤ D.faults (disk_of r.player.core)) }
    ensures read_cause { IfOk result (λ r. r.turn ≡ Turn.ReadFault → Rose (S.faults source.old) (S.faults source.new)) }
    ensures write_cause { IfOk result (λ r. r.turn ≡ Turn.WriteFault → Rose (K.faults sink.old) (K.faults sink.new)) }
    ensures disk_cause { IfOk result
        (λ r. r.turn ≡ Turn.Halted Halt.DiskFault
        → Rose (D.faults (disk_of player.core)) (D.faults (disk_of r.player.core))) }
    ensures left { IfErr result (λ u. D.faults (disk_of player.core) ≤ D.faults u.disk) }
    ensures opening_cause { IfErr result
        (λ u. u.why ≡ fault_of.Disk → Rose (D.faults (disk_of player.core)) (D.faults u.disk)) }
{
    let mut player = player;
    match next_line(source, sink, &mut player, line, used) {
        Turn::Again => match player.reopen() {
            Ok(player) => {
                let turn = tell_again(sink, &player);
                Ok(Turned { turn, player })
            }
            Err(unopened) => Err(unopened),
        },
        turn => Ok(Turned { turn, player }),
    }
}

// How a script ends with its last turn, at the line of this number, where its hall was retired with this answer.
fn end_of(turn: Turn, number: u64, answer: CallOutcome) -> ReplayEnd
    ensures { result ≡ end_of turn number answer }
{
    match turn {
        Turn::End if answer == CallOutcome::Ok => ReplayEnd::Done,
        Turn::End => ReplayEnd::Halted(Halt::DiskFault),
        Turn::Script => ReplayEnd::Script(number),
        Turn::ReadFault => ReplayEnd::ReadFault,
        Turn::WriteFault => ReplayEnd::WriteFault,
        Turn::Halted(halt) => ReplayEnd::Halted(halt),
        // These are no last turns.
        Turn::Next => ReplayEnd::Halted(Halt::Memory),
        Turn::Again => ReplayEnd::Halted(Halt::Memory),
    }
}

// Plays a script to its end or to the first line that can't be done, and retires the hall.
fn play<S: Source, K: Sink, D: Disk>(source: &mut S, sink: &mut K, first: Player<D>) -> Replayed<D>
    requires goes { (hall_of first.core).stopped ≡ false }
    ensures told { (told crashes : Bool) (seen : Option Sides) (past : List Deed)
        → (told ≡ true → Logs D.crashes D.seen D.images first.core)
        → ((s : Sides) → seen ≡ Some s → crashes ≡ true
        → StandsBehind D.crashes D.seen D.images D.moment D.left_since D.faults first.core past)
        → OnPlay told (played first) (λ w. told ≡ true → HoldsWorld (D.seen result.disk) w)
        (λ deeds. (s : Sides) → seen ≡ Some s → crashes ≡ true
        → IsSafeFor D.images D.left_since result.disk (past ++ deeds)) result.end (S.left source.old)
        (S.left source.new) (K.held sink.old) (K.held sink.new) }
    ensures source { S.faults source.old ≤ S.faults source.new }
    ensures sink { K.faults sink.old ≤ K.faults sink.new }
    ensures disk { D.faults (disk_of first.core) ≤ D.faults result.disk }
    ensures read_cause { result.end ≡ ReplayEnd.ReadFault → Rose (S.faults source.old) (S.faults source.new) }
    ensures write_cause { result.end ≡ ReplayEnd.WriteFault → Rose (K.faults sink.old) (K.faults sink.new) }
    ensures disk_cause { result.end ≡ ReplayEnd.Halted Halt.DiskFault
        → Rose (D.faults (disk_of first.core)) (D.faults result.disk) }
{
    let mut line = Vec::new(first.alloc);
    let mut player = first;
    let mut used = 0u64;
    let mut number = 1u64;
    loop {
        match one_turn(source, sink, player, &mut line, &mut used) {
            Ok(turned) => match turned.turn {
                Turn::Next => {
                    player = turned.player;
                    number += 1;
                }
                _ => {
                    let (answer, disk) = turned.player.retire();
                    let end = end_of(turned.turn, number, answer);
                    return Replayed { end, disk };
                }
            },
            Err(unopened) => {
                let end = ReplayEnd::Halted(halt_of(unopened.why));
                return Replayed {
                    end,
                    disk: unopened.disk,
                };
            }
        }
    }
}

/// Plays the script that the source gives on the world of a disk, and writes its output to the sink: the output of a
/// line before the next one is read. At the end the hall is retired, and the disk is handed back.
///
/// Where the disk tells what it holds, the script begins with the world that this is recovered as, and a disk that is
/// opened again has the world that was left. Where it tells crashes, too, the disk that is handed back is safe for all
/// that was made: whatever a crash might have left since the opening is recovered as the world after a beginning of it,
/// which holds all that was acknowledged by then. Where the hall was retired well, as it was where the script is done,
/// whatever a crash leaves is the world after all of it. Where the script is done, the disk holds the world that was
/// left.
///
/// A disk that is not opened is handed back as the opening leaves it: it reads as before, or as a log of the same world
/// where memory wanted behind the reading, unless it failed while its first side was made or while a log of an older
/// version was rewritten. No crash leaves then what it might not have left before, but for a log without a batch where
/// none had been begun, and one of the same world where the log was of an older version.
pub fn replay<S: Source, K: Sink, D: Disk>(
    alloc: Global,
    source: &mut S,
    sink: &mut K,
    disk: D,
) -> Replayed<D>
    ensures told { OnReplay (D.seen disk)
        (IsBackAt D.crashes D.seen D.images D.moment D.left_since disk result.disk)
        (λ w. is_some (D.seen disk) ≡ true → HoldsWorld (D.seen result.disk) w)
        (λ w logged deeds. (s : Sides) → D.seen disk ≡ Some s → D.crashes disk ≡ true
        → IsSafeFor D.images D.left_since result.disk (opens w logged ∷ deeds))
        result.end (S.left source.old) (S.left source.new) (K.held sink.old) (K.held sink.new) }
    ensures source { S.faults source.old ≤ S.faults source.new }
    ensures sink { K.faults sink.old ≤ K.faults sink.new }
    ensures disk { D.faults disk ≤ D.faults result.disk }
    ensures read_cause { result.end ≡ ReplayEnd.ReadFault → Rose (S.faults source.old) (S.faults source.new) }
    ensures write_cause { result.end ≡ ReplayEnd.WriteFault → Rose (K.faults sink.old) (K.faults sink.new) }
    ensures disk_cause { (result.end ≡ ReplayEnd.Halted Halt.DiskFault) ⊎
        (result.end ≡ ReplayEnd.Unopened Halt.DiskFault) → Rose (D.faults disk) (D.faults result.disk) }
{
    match Player::open(alloc, disk) {
        Ok(player) => play(source, sink, player),
        Err(unopened) => Replayed {
            end: ReplayEnd::Unopened(halt_of(unopened.why)),
            disk: unopened.disk,
        },
    }
}
