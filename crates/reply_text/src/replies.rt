//! Replies that are one number.

ghost use Rattle.std.specs.Prelude.{◌≡◌, IfOk};
ghost use Rattle.byte_text.specs.Replies.{IsFrame};
ghost use Rattle.world_model.specs.Replies.{integer_reply};

use crate::drafts::Draft;
use byte_text::{NoMemory, Piece, Reply};
use std::alloc::Global;

/// An integer.
pub fn number_reply(alloc: Global, n: i64) -> Result<Reply, NoMemory>
    ensures value { IfOk result (λ reply. reply ≡ integer_reply n) }
    ensures frame { IfOk result IsFrame }
{
    let mut draft = Draft::new(alloc);
    draft.piece(Piece::Number(n))?;
    Ok(draft.finish())
}
