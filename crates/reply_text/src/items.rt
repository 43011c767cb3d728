//! Items that become one array, each as the text of its frame from the first on.
//!
//! The replies of SCAN and KEYS are built as text, item by item, and no further than a reply may be long; the answer is
//! then `ERR reply too long`, as of the whole.

ghost use Rattle.std.specs.Prelude.{◌≡◌, ◌≢◌, ◌<◌, ◌≤◌, ◌+◌, ◌++◌, ◌∷◌, [], List, length, flat_map, IfOk, IfErr, OnOk};
ghost use Rattle.std.specs.Prelude.{OnErr};
ghost use Rattle.byte_text.specs.Replies.{array, bulk, number, frame_text, piece_text, IsFrame};
ghost use Rattle.byte_text.specs.declared.replies.Piece.{Piece};
ghost use Rattle.byte_text.specs.declared.replies.Piece.TheVariants as piece;
ghost use Rattle.world_data.specs.Limits.{max_reply};
ghost use Rattle.world_model.specs.Replies.{item_reply, channel_reply};

use crate::channels::channel_reply;
use crate::frames::ReplyFault;
use crate::objects::{item_reply, name_reply};
use crate::ready_frames::push_count;
use byte_text::{Name, NoMemory, Reply, Text, push_frame, push_u64};
use std::alloc::Global;
use std::marker::Model;
use world_data::{Channel, MAX_REPLY};
use world_model::{Object, Query, Shown};

/// The frames of items, one behind another, while the array of them is made. As texts they take no more memory than the
/// reply, and an item that the limit of a reply leaves no room for is refused at once.
pub struct ItemFrames {
    alloc: Global,
    text: Text,
    count: u32,
}

impl Drop for ItemFrames {
    fn drop(self) {
        let ItemFrames {
            alloc: _,
            text: _,
            count: _,
        } = self;
    }
}

impl Model for ItemFrames {
    ghost use Rattle.std.specs.Prelude.{◌≤◌, length};
    ghost use Rattle.world_data.specs.Limits.{max_reply};
    ghost use Rattle.reply_text.specs.Items.{Items};

    ghost Value = { Items };

    ghost view = { λ i. record { text = i.text; count = i.count } };

    // Each item has a byte at least, so there are no more items than a reply has bytes.
    ghost invariant = { λ i. (i.count ≤ length i.text) × (length i.text ≤ max_reply) };
}

impl ItemFrames {
    /// No item yet. What is pushed takes its memory from `alloc`.
    pub fn new(alloc: Global) -> ItemFrames
        ensures { result ≡ record { text = []; count = 0 } }
    {
        ItemFrames {
            alloc,
            text: Text::new(alloc),
            count: 0,
        }
    }

    /// Puts an object last, as an item of a search. TooLong where the items alone are longer than a reply may be. The
    /// items are as before then, and for want of memory.
    pub fn push_object(&mut self, query: &Query, object: &Object) -> Result<(), ReplyFault>
        requires shown { query.now.shown ≢ Shown.Count }
        ensures ok { OnOk result (self.new ≡ record {
          text = self.old.text ++ frame_text (item_reply query.now object.now);
          count = self.old.count + 1;
        }) }
        ensures short { OnOk result (length self.new.text ≤ max_reply) }
        ensures too_long { IfErr result (λ f. f ≡ ReplyFault.TooLong
            → max_reply < length (self.old.text ++ frame_text (item_reply query.now object.now))) }
        ensures err { OnErr result (self.new ≡ self.old) }
    {
        let item = item_reply(self.alloc, query, object)?;
        self.push(&item)
    }

    /// Puts a name last, as a bulk string. TooLong where the items alone are longer than a reply may be. The items are
    /// as before then, and for want of memory.
    pub fn push_name(&mut self, name: &Name) -> Result<(), ReplyFault>
        ensures ok { OnOk result
            (self.new ≡ record { text = self.old.text ++ frame_text (bulk name.now); count = self.old.count + 1 }) }
        ensures short { OnOk result (length self.new.text ≤ max_reply) }
        ensures too_long { IfErr result
            (λ f. f ≡ ReplyFault.TooLong → max_reply < length (self.old.text ++ frame_text (bulk name.now))) }
        ensures err { OnErr result (self.new ≡ self.old) }
    {
        let item = name_reply(self.alloc, name)?;
        self.push(&item)
    }

    /// Puts a channel last: its name, its key and its normal words. TooLong where the items alone are longer than a
    /// reply may be. The items are as before then, and for want of memory.
    pub fn push_channel(&mut self, channel: &Channel) -> Result<(), ReplyFault>
        ensures ok { OnOk result (self.new ≡ record {
          text = self.old.text ++ frame_text (channel_reply channel.now);
          count = self.old.count + 1;
        }) }
        ensures short { OnOk result (length self.new.text ≤ max_reply) }
        ensures too_long { IfErr result (λ f. f ≡ ReplyFault.TooLong
            → max_reply < length (self.old.text ++ frame_text (channel_reply channel.now))) }
        ensures err { OnErr result (self.new ≡ self.old) }
    {
        let item = channel_reply(self.alloc, channel)?;
        self.push(&item)
    }

    // Puts an item last.
    fn push(&mut self, item: &Reply) -> Result<(), ReplyFault>
        requires { IsFrame item.now }
        ensures ok { OnOk result
            (self.new ≡ record { text = self.old.text ++ frame_text item.now; count = self.old.count + 1 }) }
        ensures short { OnOk result (length self.new.text ≤ max_reply) }
        ensures too_long { IfErr result
            (λ f. f ≡ ReplyFault.TooLong → max_reply < length (self.old.text ++ frame_text item.now)) }
        ensures err { OnErr result (self.new ≡ self.old) }
    {
        push_within(&mut self.text, item)?;
        self.count += 1;
        Ok(())
    }

    /// The frame of the array of the items (RESP2). TooLong where it has more than [`MAX_REPLY`] bytes.
    pub fn array(self, alloc: Global) -> Result<Text, ReplyFault>
        ensures ok { IfOk result
            (λ frame. (items : List (List Piece)) → self.text ≡ frame_text (flat_map (λ r. r) items)
            → self.count ≡ length items → frame ≡ frame_text (array items)) }
        ensures short { IfOk result (λ frame. length frame ≤ max_reply) }
        ensures too_long { IfErr result (λ f. f ≡ ReplyFault.TooLong → (items : List (List Piece))
            → self.text ≡ frame_text (flat_map (λ r. r) items) → self.count ≡ length items
            → max_reply < length (frame_text (array items))) }
    {
        let mut head = Text::new(alloc);
        push_head(&mut head, self.count)?;
        joined(head, &self.text)
    }

    /// The frame of a page (RESP2): an array of where the next page begins, and of the array of the items. TooLong
    /// where it has more than [`MAX_REPLY`] bytes.
    pub fn page(self, alloc: Global, cursor: u64) -> Result<Text, ReplyFault>
        ensures ok { IfOk result
            (λ frame. (items : List (List Piece)) → self.text ≡ frame_text (flat_map (λ r. r) items)
            → self.count ≡ length items → frame ≡ frame_text (array (number cursor ∷ array items ∷ []))) }
        ensures short { IfOk result (λ frame. length frame ≤ max_reply) }
        ensures too_long { IfErr result (λ f. f ≡ ReplyFault.TooLong → (items : List (List Piece))
            → self.text ≡ frame_text (flat_map (λ r. r) items) → self.count ≡ length items
            → max_reply < length (frame_text (array (number cursor ∷ array items ∷ [])))) }
    {
        let mut head = Text::new(alloc);
        push_head(&mut head, 2)?;
        push_count(&mut head, cursor)?;
        push_head(&mut head, self.count)?;
        joined(head, &self.text)
    }
}

// Puts the frame of an item last, where the text is no longer then than a reply may be. Else the text is as before.
#[tactic(auto, using(crate::proofs::WholeReplies::longer))]
fn push_within(into: &mut Text, item: &Reply) -> Result<(), ReplyFault>
    requires { IsFrame item.now }
    ensures ok { OnOk result (into.new ≡ into.old ++ frame_text item.now) }
    ensures longer { OnOk result (length into.old < length into.new) }
    ensures short { OnOk result (length into.new ≤ max_reply) }
    ensures too_long { IfErr result
        (λ f. f ≡ ReplyFault.TooLong → max_reply < length (into.old ++ frame_text item.now)) }
    ensures err { OnErr result (into.new ≡ into.old) }
{
    let before = into.len();
    push_frame(into, item)?;
    if into.len() > MAX_REPLY {
        into.truncate(before);
        return Err(ReplyFault::TooLong);
    }
    Ok(())
}

// Puts the head of an array last.
fn push_head(into: &mut Text, items: u32) -> Result<(), NoMemory>
    ensures { OnOk result (into.new ≡ into.old ++ piece_text (piece.List items)) }
{
    into.push(b"*")?;
    push_u64(into, u64::from(items))?;
    into.push(b"\r\n")
}

// The head with the items behind it, where that is no longer than a reply may be.
fn joined(head: Text, items: &Text) -> Result<Text, ReplyFault>
    ensures ok { IfOk result (λ frame. frame ≡ head ++ items.now) }
    ensures short { IfOk result (λ frame. length frame ≤ max_reply) }
    ensures too_long { IfErr result (λ f. f ≡ ReplyFault.TooLong → max_reply < length (head ++ items.now)) }
{
    let mut frame = head;
    frame.push(items.bytes())?;
    if frame.len() > MAX_REPLY {
        return Err(ReplyFault::TooLong);
    }
    Ok(frame)
}
