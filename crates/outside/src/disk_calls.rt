//! The calls that a disk in memory remembers.

ghost use Rattle.std.specs.Prelude.{◌≡◌, ℕ, List, IfOk, OnOk, OnErr};
ghost use Rattle.std.specs.List.{list_any};

use crate::disk_contents::Contents;
use crate::sides::Side;
use std::alloc::{AllocError, Global};
use std::marker::Model;

/// Bytes that were written.
#[derive(Drop)]
pub(crate) struct Piece {
    bytes: Vec<u8>,
}

impl Model for Piece {
    ghost Value = { List ℕ };

    ghost view = { λ p. p.bytes.items };
}

impl Piece {
    pub(crate) fn of(alloc: Global, bytes: &[u8]) -> Result<Piece, AllocError>
        ensures { IfOk result (λ p. p ≡ bytes.now) }
    {
        let bytes = bytes.to_vec(alloc)?;
        Ok(Piece { bytes })
    }

    pub(crate) fn bytes(&self) -> &[u8]
        ensures { result.now ≡ self.now }
    {
        &self.bytes
    }
}

/// A call that a disk in memory remembers.
#[derive(Drop)]
pub(crate) enum Call {
    /// A length or bytes were asked for.
    Look,
    Write { side: Side, at: u64, piece: Piece },
    Cut { side: Side, len: u64 },
    Sync { side: Side },
}

impl Call {
    ghost use Rattle.outside.specs.DiskCalls.{done, with_ones, syncs, is_open};
    /// Does to the contents what the call does.
    pub(crate) fn apply(&self, contents: &mut Contents) -> Result<(), AllocError>
        ensures ok { OnOk result (contents.new ≡ done self.now contents.old) }
        ensures err { OnErr result (contents.new ≡ contents.old) }
    {
        match self {
            Call::Look | Call::Sync { .. } => Ok(()),
            Call::Write { side, at, piece } => {
                contents.write_at(*side, *at as usize, piece.bytes())
            }
            Call::Cut { side, len } => {
                contents.cut(*side, *len as usize);
                Ok(())
            }
        }
    }

    /// The same, with bytes 1 in the range of a write.
    pub(crate) fn apply_ones(
        &self,
        alloc: Global,
        contents: &mut Contents,
    ) -> Result<(), AllocError>
        ensures { OnOk result (contents.new ≡ done (with_ones self.now) contents.old) }
    {
        match self {
            Call::Write { side, at, piece } => {
                let ones = vec![in alloc; 1u8; piece.bytes().len()]?;
                contents.write_at(*side, *at as usize, &ones)
            }
            _ => self.apply(contents),
        }
    }

    /// It is a write or a cut of a side that no later call syncs.
    pub(crate) fn is_open(&self, later: &[Call]) -> bool
        ensures { result ≡ is_open self.now later.now }
    {
        match self {
            Call::Look | Call::Sync { .. } => false,
            Call::Write { side, .. } | Call::Cut { side, .. } => !Call::are_synced(later, *side),
        }
    }

    // One of the calls syncs the side.
    fn are_synced(calls: &[Call], side: Side) -> bool
        ensures { result ≡ list_any (syncs side) calls.now }
    {
        calls.iter().any(|call| call.syncs(side))
    }

    fn syncs(&self, side: Side) -> bool
        ensures { result ≡ syncs side self.now }
    {
        match (side, self) {
            (Side::A, Call::Sync { side: Side::A }) | (Side::B, Call::Sync { side: Side::B }) => {
                true
            }
            _ => false,
        }
    }
}
