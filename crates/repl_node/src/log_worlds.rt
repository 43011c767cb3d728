//! Worlds that are folded on with a log, by the batches that stand behind its header.

ghost use Rattle.std.specs.Prelude.{Err, ◌≡◌, List, [], IfOk, IfSome, IfNone};
ghost use Rattle.byte_text.specs.Names.{Bytes};
ghost use Rattle.log_sides.specs.Texts.{newest};
ghost use Rattle.world_recovery.specs.Replayed.{StandsFor};
ghost use Rattle.repl_node.specs.LogTexts.{IsFirstLen, IsNoBatch, IsNoFrame, IsNoLog, IsTaken};
ghost use Rattle.repl_node.specs.LogWorlds.{HasAll, HasTaken};

use byte_text::NoMemory;
use journal::{Refusal, Replay};
use std::alloc::Global;
use world_recovery::WorldReplay;
use world_store::StoredWorld;

// The byte of a gate behind which a batch stands.
const OPEN_GATE: u8 = 1;

// The bytes of a batch's gate and its length.
const FRAME: usize = 9;

/// Why a part is not taken.
#[derive(Clone, Copy, Debug, PartialEq, Eq)]
pub enum HearFault {
    /// No log of whole records has such bytes there.
    NotRecords,
    Memory,
}

impl From<NoMemory> for HearFault {
    ghost use Rattle.std.specs.Prelude.{◌≡◌};
    ghost use Rattle.repl_node.specs.declared.log_worlds.HearFault.{HearFault};

    ghost from_gives = { λ _ f. f ≡ HearFault.Memory };

    fn from(_refused: NoMemory) -> HearFault {
        HearFault::Memory
    }
}

/// A world that is folded on with a log: it has the batches in the first bytes of it.
#[derive(Drop)]
pub(crate) struct LogWorld {
    pub(crate) replay: WorldReplay,
    // How many bytes of the log these batches have.
    pub(crate) at: usize,
}

impl LogWorld {
    /// The world of no batch, with which each log begins.
    pub(crate) fn new(alloc: Global) -> LogWorld
        ensures none { StandsFor result.replay newest [] [] }
        ensures at { result.at ≡ 0 }
    {
        LogWorld {
            replay: WorldReplay::new(alloc),
            at: 0,
        }
    }

    /// The world.
    pub(crate) fn world(&self) -> &StoredWorld
        ensures { result.now ≡ self.now.replay.world }
    {
        self.replay.world()
    }

    /// Takes the batches behind those that it has, up to the end of the log.
    pub(crate) fn fold_on(self, log: &[u8]) -> Result<LogWorld, HearFault>
        requires { HasTaken log.now self }
        ensures ok { IfOk result (HasAll log.now) }
        ensures refused { result ≡ Err HearFault.NotRecords → IsNoLog log.now }
    {
        let LogWorld { mut replay, mut at } = self;
        while at < log.len() {
            match take_batch(&mut replay, &log[at..]) {
                Ok(taken) => at += taken,
                Err(fault) => return Err(fault),
            }
        }
        Ok(LogWorld { replay, at })
    }
}

/// The world of a log up to its end: the second world folded on, or else a new one.
pub(crate) fn folded(
    alloc: Global,
    second: Option<LogWorld>,
    log: &[u8],
) -> Result<LogWorld, HearFault>
    requires { IfSome second (HasTaken log.now) }
    ensures ok { IfOk result (HasAll log.now) }
    ensures refused { result ≡ Err HearFault.NotRecords → IsNoLog log.now }
{
    match second {
        Some(world) => world.fold_on(log),
        None => LogWorld::new(alloc).fold_on(log),
    }
}

// How many bytes the batch at the front of some bytes has, where it stands there whole behind an open gate.
fn first_len(text: &[u8]) -> Option<usize>
    ensures some { IfSome result (IsFirstLen text.now) }
    ensures none { IfNone result (IsNoFrame text.now) }
{
    if text.len() < FRAME || text[0] != OPEN_GATE {
        return None;
    }
    let len = u64::from_be_bytes([
        text[1], text[2], text[3], text[4], text[5], text[6], text[7], text[8],
    ]);
    if len > (text.len() - FRAME) as u64 {
        return None;
    }
    Some(len as usize)
}

// Takes the batch at the front of some bytes, and answers how many bytes it has with its gate and its length.
fn take_batch(replay: &mut WorldReplay, text: &[u8]) -> Result<usize, HearFault>
    ensures took { (batches : List Bytes) → StandsFor replay.old newest batches []
        → IfOk result (λ n. IsTaken replay.new batches text.now n) }
    ensures refused { (batches : List Bytes) → StandsFor replay.old newest batches []
        → result ≡ Err HearFault.NotRecords → IsNoBatch text.now }
{
    let Some(len) = first_len(text) else {
        return Err(HearFault::NotRecords);
    };
    match replay.take(&text[FRAME..FRAME + len]) {
        Ok(()) => {}
        Err(Refusal::NoRecord(_)) => return Err(HearFault::NotRecords),
        Err(Refusal::Memory) => return Err(HearFault::Memory),
    }
    match replay.end() {
        Ok(()) => Ok(FRAME + len),
        Err(Refusal::NoRecord(_)) => Err(HearFault::NotRecords),
        Err(Refusal::Memory) => Err(HearFault::Memory),
    }
}
