//! Replies that become one array.

ghost use Rattle.std.specs.Prelude.{◌≡◌, ◌++◌, ◌∷◌, [], length, IfOk, OnOk, OnErr};
ghost use Rattle.std.specs.List.{AllByRecursion};
ghost use Rattle.byte_text.specs.Replies.{array, IsFrame};

use crate::drafts::Draft;
use byte_text::{NoMemory, Reply, lists_are_whole};
use std::alloc::Global;
use std::marker::Model;

/// Replies, in order.
#[derive(Drop)]
pub struct ReplyList {
    list: Vec<Reply>,
}

impl Model for ReplyList {
    ghost use Rattle.std.specs.Prelude.{List};
    ghost use Rattle.byte_text.specs.declared.replies.Piece.{Piece};

    ghost Value = { List (List Piece) };

    ghost view = { λ r. r.list.items };
}

impl ReplyList {
    /// No reply yet. What is pushed takes its memory from `alloc`.
    pub fn new(alloc: Global) -> ReplyList
        ensures { result ≡ [] }
    {
        ReplyList {
            list: Vec::new(alloc),
        }
    }

    /// How many replies there are.
    pub fn len(&self) -> usize
        ensures { result ≡ length self.now }
    {
        self.list.len()
    }

    /// Puts a reply last. For want of memory the replies are as before.
    pub fn push(&mut self, reply: Reply) -> Result<(), NoMemory>
        ensures ok { OnOk result (self.new ≡ self.old ++ reply ∷ []) }
        ensures err { OnErr result (self.new ≡ self.old) }
    {
        match self.list.push(reply) {
            Ok(()) => Ok(()),
            Err(_) => Err(NoMemory),
        }
    }

    /// The array of the replies (RESP2). More of them than a `u32` counts have room in no memory.
    pub fn array(self, alloc: Global) -> Result<Reply, NoMemory>
        ensures value { IfOk result (λ reply. reply ≡ array self) }
        ensures frame { AllByRecursion IsFrame self → IfOk result IsFrame }
    {
        lists_are_whole();
        self.joined(alloc)
    }

    fn joined(self, alloc: Global) -> Result<Reply, NoMemory>
        ensures { IfOk result (λ reply. reply ≡ array self) }
    {
        let Ok(count) = u32::try_from(self.list.len()) else {
            return Err(NoMemory);
        };
        let mut draft = Draft::new(alloc);
        draft.head(count)?;
        for reply in self.list {
            draft.append(reply)?;
        }
        Ok(draft.finish())
    }
}
