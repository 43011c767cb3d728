//! A node that hears parts, and is compared with the leader's world wherever it publishes one.

use crate::faults::Fault;
use crate::leaders::Answer;
use crate::tallies::{Tally, count};
use byte_text::Text;
use repl_node::{HearFault, Heard, LogPlace, Node};
use repl_stream::{Ask, Part};
use std::alloc::Global;

// The first place behind a log's header.
const FIRST_PLACE: u64 = 16;

// A part that the node took.
#[derive(Drop)]
struct Piece {
    part: Part,
    bytes: Text,
}

/// A node, and the parts from which another one comes to the same.
#[derive(Drop)]
pub(crate) struct Hearer {
    alloc: Global,
    node: Node,
    pieces: Vec<Piece>,
}

// Whether a place is of a later log than another, or not in front of it in the same one.
fn is_no_earlier(place: LogPlace, other: LogPlace) -> bool {
    place.generation > other.generation
        || (place.generation == other.generation && place.place >= other.place)
}

impl Hearer {
    /// A node that has heard nothing.
    pub(crate) fn new(alloc: Global) -> Hearer {
        Hearer {
            alloc,
            node: Node::new(alloc),
            pieces: Vec::new(alloc),
        }
    }

    /// What the node asks for next.
    pub(crate) fn ask(&self) -> Ask {
        self.node.ask()
    }

    /// Up to where the published world goes.
    pub(crate) fn published(&self) -> LogPlace {
        self.node.published()
    }

    // Keeps a part that was taken. Behind a whole log in one part those before are of no use.
    fn keep(&mut self, answer: &Answer, heard: Heard) -> Result<(), Fault> {
        if heard == Heard::Published && answer.part.from == FIRST_PLACE {
            self.pieces = Vec::new(self.alloc);
        }
        let bytes = answer.bytes.copy()?;
        self.pieces.push(Piece {
            part: answer.part,
            bytes,
        })?;
        Ok(())
    }

    // What was published goes on from another place, and is what the leader showed.
    fn compare(&self, before: LogPlace, answer: &Answer, tally: &mut Tally) -> Result<(), Fault> {
        let published = self.node.published();
        count(&mut tally.published);
        tally.expect(answer.shown.is_of(&self.node)?);
        tally.expect(published.place == answer.part.end);
        tally.expect(published.generation == answer.part.generation);
        if published.generation > before.generation {
            count(&mut tally.logs);
        }
        Ok(())
    }

    /// Hears a part that a leader answered. Whether it was taken.
    pub(crate) fn hear(&mut self, answer: &Answer, tally: &mut Tally) -> Result<bool, Fault> {
        let before = self.node.published();
        count(&mut tally.heard);
        let heard = match self.node.hear(&answer.part, answer.bytes.bytes()) {
            Ok(heard) => heard,
            Err(HearFault::NotRecords) => {
                count(&mut tally.differences);
                return Ok(false);
            }
            Err(HearFault::Memory) => return Err(Fault::Memory),
        };
        tally.expect(is_no_earlier(self.node.published(), before));
        match heard {
            Heard::Old => {
                tally.expect(self.node.published() == before);
                return Ok(false);
            }
            Heard::More => {
                tally.expect(self.node.published() == before);
                count(&mut tally.cut);
            }
            Heard::Published => self.compare(before, answer, tally)?,
        }
        // At rest there is nothing to keep.
        if answer.bytes.len() > 0 || self.node.published() != before {
            self.keep(answer, heard)?;
        }
        Ok(true)
    }

    /// Another node that hears the parts which this one took, and so comes to the same place.
    pub(crate) fn heard_again(&self, tally: &mut Tally) -> Result<Hearer, Fault> {
        let mut other = Hearer::new(self.alloc);
        for piece in self.pieces.as_slice() {
            let heard = other.node.hear(&piece.part, piece.bytes.bytes());
            if heard == Err(HearFault::Memory) {
                return Err(Fault::Memory);
            }
            tally.expect(heard.is_ok());
            let bytes = piece.bytes.copy()?;
            other.pieces.push(Piece {
                part: piece.part,
                bytes,
            })?;
        }
        tally.expect(other.ask() == self.ask());
        tally.expect(other.published() == self.published());
        Ok(other)
    }
}
