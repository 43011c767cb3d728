//! Channels, and confirmed subscriptions, as replies show them.

ghost use Rattle.std.specs.Prelude.{◌≡◌, ◌++◌, map, IfOk, OnOk};
ghost use Rattle.byte_text.specs.Replies.{array, bulk, IsFrame};
ghost use Rattle.world_model.specs.Replies.{channel_reply as channel_pieces, confirmation};
ghost use Rattle.reply_text.specs.Confirmations.{called_of};

use crate::drafts::Draft;
use byte_text::{Name, NoMemory, Reply, Request, lists_are_whole};
use std::alloc::Global;
use world_data::Channel;

/// A channel as CHANS shows it: its name, its key, and its normal words.
pub(crate) fn channel_reply(alloc: Global, channel: &Channel) -> Result<Reply, NoMemory>
    ensures value { IfOk result (λ reply. reply ≡ channel_pieces channel.now) }
    ensures frame { IfOk result IsFrame }
{
    lists_are_whole();
    let mut draft = Draft::new(alloc);
    draft.head(3)?;
    draft.bulk(channel.name.bytes())?;
    draft.bulk(channel.fence.key.bytes())?;
    push_words(&mut draft, &channel.words)?;
    Ok(draft.finish())
}

// Puts words last, as an array of bulk strings.
fn push_words(draft: &mut Draft, words: &Request) -> Result<(), NoMemory>
    ensures { OnOk result (draft.new ≡ draft.old ++ array (map bulk words.now)) }
{
    draft.head(words.words() as u32)?;
    for at in 0..words.words() {
        draft.bulk(words.word(at))?;
    }
    Ok(())
}

/// The confirmation of a subscription to a name or to a pattern: `subscribe` or `psubscribe`, the word, and how many
/// names and patterns the session then holds. A count beyond the integers of RESP2 has room in no memory.
pub fn confirmation_reply(
    alloc: Global,
    pattern: bool,
    word: &Name,
    count: u64,
) -> Result<Reply, NoMemory>
    ensures value { IfOk result
        (λ reply. reply ≡ confirmation (called_of pattern) (record { pattern = pattern; word = word.now }, count)) }
    ensures frame { IfOk result IsFrame }
{
    let mut draft = Draft::new(alloc);
    draft.head(3)?;
    draft.bulk(called(pattern))?;
    draft.bulk(word.bytes())?;
    draft.count(count)?;
    Ok(draft.finish())
}

// The word that a confirmation begins with.
fn called(pattern: bool) -> &'static [u8]
    ensures { result.now ≡ called_of pattern }
{
    if pattern { b"psubscribe" } else { b"subscribe" }
}
