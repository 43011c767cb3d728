//! The fence that a source asks for.

ghost use Rattle.std.specs.Prelude.{◌≡◌, ◌≤◌, None, true, IfOk, IfErr, IfSome};
ghost use Rattle.byte_text.specs.Globs.{is_sound_glob};
ghost use Rattle.fence_model.specs.Fences.{roams_over};
ghost use Rattle.outside.specs.Causes.{Rose};
ghost use Rattle.fence_backtest.specs.Requests.{IsAsked, IsPieceRead, IsReadWhole};

use crate::requests::fence_of;
use byte_text::{NoMemory, Text};
use outside::{Failed, Source};
use std::alloc::Global;
use world_data::Channel;

/// How many bytes are read at once.
const BLOCK: usize = 4096;

/// No request has more bytes: 2,097,152 of words, 12 more a word, and 7 more.
const MOST_BYTES: usize = 2_146_311;

/// Why it is not known which fence is asked for.
#[derive(Clone, Copy, Debug, PartialEq, Eq)]
pub enum AskFault {
    /// The source failed.
    Read,
    Memory,
}

/// The channel, without a deadline, that a source asks for, which is read to its end; none exactly where what it had
/// left is not the text of one request that reads as a SETCHAN with an area given in its words, or a NEARBY with POINT.
pub fn read_fence<S: Source>(alloc: Global, source: &mut S) -> Result<Option<Channel>, AskFault>
    ensures asked { IfOk result (IsAsked (S.left source.old) (S.left source.new)) }
    ensures sound { IfOk result
        (λ f. IfSome f (λ c. (is_sound_glob c.fence.glob ≡ true) × (roams_over c.fence.watch ≡ None))) }
    ensures later { S.faults source.old ≤ S.faults source.new }
    ensures cause { IfErr result (λ why. why ≡ AskFault.Read → Rose (S.faults source.old) (S.faults source.new)) }
{
    match read_text(alloc, source) {
        Ok(Some(text)) => match fence_of(alloc, text.bytes()) {
            Ok(found) => Ok(found),
            Err(NoMemory) => Err(AskFault::Memory),
        },
        Ok(None) => Ok(None),
        Err(why) => Err(why),
    }
}

// What a source has left, to its end; none where that is more than a request has.
fn read_text<S: Source>(alloc: Global, source: &mut S) -> Result<Option<Text>, AskFault>
    ensures read { IfOk result (IsReadWhole (S.left source.old) (S.left source.new)) }
    ensures later { S.faults source.old ≤ S.faults source.new }
    ensures cause { IfErr result (λ why. why ≡ AskFault.Read → Rose (S.faults source.old) (S.faults source.new)) }
{
    let mut text = Text::new(alloc);
    while text.len() <= MOST_BYTES {
        match read_piece(source, &mut text) {
            Ok(true) => return Ok(Some(text)),
            Ok(false) => {}
            Err(why) => return Err(why),
        }
    }
    Ok(None)
}

// Reads the next bytes of a source behind a text. Whether none were left.
fn read_piece<S: Source>(source: &mut S, text: &mut Text) -> Result<bool, AskFault>
    ensures read { IfOk result (IsPieceRead (S.left source.old) (S.left source.new) text.old text.new) }
    ensures later { S.faults source.old ≤ S.faults source.new }
    ensures cause { IfErr result (λ why. why ≡ AskFault.Read → Rose (S.faults source.old) (S.faults source.new)) }
{
    let mut block = [0u8; BLOCK];
    match source.read(&mut block) {
        Ok(count) => {
            if count == 0 {
                return Ok(true);
            }
            match text.push(&block[..count]) {
                Ok(()) => Ok(false),
                Err(NoMemory) => Err(AskFault::Memory),
            }
        }
        Err(Failed) => Err(AskFault::Read),
    }
}
