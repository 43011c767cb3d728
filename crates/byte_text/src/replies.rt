//! Replies (RESP2): pieces, whole replies, and the texts of their frames.

ghost use Rattle.std.specs.Prelude.{◌≡◌, ℕ, List, ◌++◌, ◌∷◌, [], OnOk, OnErr, IfErr, length, take, slice_get, Some};
ghost use Rattle.std.specs.Prelude.{◌<◌, ◌+◌};
ghost use Rattle.std.specs.Fmt.{signed_decimal};
ghost use Rattle.std.specs.List.{AllByRecursion};
ghost use Rattle.byte_text.specs.Lines.{line};
ghost use Rattle.byte_text.specs.Replies.{piece_text, frame_text, IsFrame, IsInRange, AreReplies, IsWhole};
ghost use Rattle.byte_text.specs.declared.replies.Piece.TheVariants as piece;
ghost use Rattle.byte_text.specs.declared.replies.Piece.{Piece};

use crate::numbers::push_i64;
use crate::requests::{push_array_head, push_bulk};
use crate::texts::Text;
use memory::NoMemory;
use std::alloc::Global;
use std::marker::Model;

/// One piece of a reply (RESP2, "RESP protocol description").
#[derive(Drop)]
pub enum Piece {
    /// A simple string, `+text`.
    Status(Text),
    /// A simple error, `-text`.
    Fault(Text),
    /// An integer, `:n`.
    Number(i64),
    /// A bulk string.
    Bulk(Text),
    /// The null bulk string, `$-1`.
    NoBulk,
    /// The null array, `*-1`.
    NoList,
    /// The head of an array, whose so many replies follow it.
    List(u32),
}

/// A list of pieces: one reply where it is whole, a part of one while it is made.
#[derive(Drop)]
pub struct Reply {
    pieces: Vec<Piece>,
}

impl Model for Reply {
    ghost use Rattle.std.specs.Prelude.{List};
    ghost use Rattle.byte_text.specs.declared.replies.Piece.{Piece};

    ghost Value = { List Piece };

    ghost view = { λ r. r.pieces.items };
}

impl Reply {
    /// No piece.
    pub fn new(alloc: Global) -> Reply
        ensures { result ≡ [] }
    {
        Reply {
            pieces: Vec::new(alloc),
        }
    }

    /// Puts a piece last. For want of memory it comes back, and the pieces are as before.
    pub fn push(&mut self, piece: Piece) -> Result<(), Piece>
        ensures ok { OnOk result (self.new ≡ self.old ++ piece ∷ []) }
        ensures err { OnErr result (self.new ≡ self.old) }
        ensures back { IfErr result (λ p. p ≡ piece) }
    {
        match self.pieces.push(piece) {
            Ok(()) => Ok(()),
            Err(failed) => Err(failed.value),
        }
    }

    /// Puts the pieces of another reply last. For want of memory it comes back, and the pieces are as before.
    pub fn append(&mut self, other: Reply) -> Result<(), Reply>
        ensures ok { OnOk result (self.new ≡ self.old ++ other) }
        ensures err { OnErr result (self.new ≡ self.old) }
        ensures back { IfErr result (λ r. r ≡ other) }
    {
        let mut other = other;
        match self.pieces.append(&mut other.pieces) {
            Ok(()) => Ok(()),
            Err(_) => Err(other),
        }
    }

    /// How many pieces there are.
    pub fn len(&self) -> usize
        ensures { result ≡ length self.now }
    {
        self.pieces.len()
    }

    /// The piece at this place, counted from 0.
    pub fn at(&self, i: usize) -> &Piece
        requires { i < length self.now }
        ensures { slice_get self.now i ≡ Some result.now }
    {
        &self.pieces[i]
    }
}

#[tactic(auto, using(crate::specs::TextLaws::kept))]
fn push_text_line(into: &mut Text, mark: u8, text: &[u8]) -> Result<(), NoMemory>
    ensures ok { OnOk result (into.new ≡ into.old ++ line mark text.now) }
    ensures kept { take (length into.old) into.new ≡ into.old }
{
    into.push(&[mark])?;
    into.push(text)?;
    into.push(b"\r\n")
}

#[tactic(auto, using(crate::specs::TextLaws::kept))]
fn push_number_line(into: &mut Text, n: i64) -> Result<(), NoMemory>
    ensures ok { OnOk result (into.new ≡ into.old ++ line 58 (signed_decimal n)) }
    ensures kept { take (length into.old) into.new ≡ into.old }
{
    into.push(b":")?;
    push_i64(into, n)?;
    into.push(b"\r\n")
}

#[tactic(auto, using(crate::specs::TextLaws::kept))]
fn push_piece(into: &mut Text, piece: &Piece) -> Result<(), NoMemory>
    ensures ok { OnOk result (into.new ≡ into.old ++ piece_text piece.now) }
    ensures kept { take (length into.old) into.new ≡ into.old }
{
    match piece {
        Piece::Status(text) => push_text_line(into, b'+', text.bytes()),
        Piece::Fault(text) => push_text_line(into, b'-', text.bytes()),
        Piece::Number(n) => push_number_line(into, *n),
        Piece::Bulk(text) => push_bulk(into, text.bytes()),
        Piece::NoBulk => push_text_line(into, b'$', b"-1"),
        Piece::NoList => push_text_line(into, b'*', b"-1"),
        Piece::List(n) => push_array_head(into, *n),
    }
}

#[tactic(auto, using(crate::specs::TextLaws::kept))]
fn push_pieces(into: &mut Text, pieces: &[Piece]) -> Result<(), NoMemory>
    ensures ok { OnOk result (into.new ≡ into.old ++ frame_text pieces.now) }
    ensures kept { take (length into.old) into.new ≡ into.old }
{
    for piece in pieces {
        push_piece(into, piece)?;
    }
    Ok(())
}

/// Appends the text of a whole reply. At want of memory the text is as before.
pub fn push_frame(into: &mut Text, reply: &Reply) -> Result<(), NoMemory>
    requires { IsFrame reply.now }
    ensures ok { OnOk result (into.new ≡ into.old ++ frame_text reply.now) }
    ensures err { OnErr result (into.new ≡ into.old) }
{
    let before = into.len();
    let pushed = push_pieces(into, reply.pieces.as_slice());
    into.keep_if(pushed, before)
}

/// No frame's text is a proper prefix of another's, whatever is behind them, and each is the text of one reply alone.
pub fn frame_texts_differ()
    ensures { (a b : List Piece) (x y : List ℕ) → IsFrame a → IsFrame b
        → AllByRecursion IsInRange a → AllByRecursion IsInRange b
        → frame_text a ++ x ≡ frame_text b ++ y → (a ≡ b) × (x ≡ y) }
{}

/// Whole replies one behind another are what a list of that many holds.
pub fn lists_are_whole()
    ensures next { (m n : ℕ) (a b : List Piece) → AreReplies m a → AreReplies n b → AreReplies (m + n) (a ++ b) }
    ensures list { (n : ℕ) (a : List Piece) → AreReplies n a → IsWhole (piece.List n ∷ a) }
{}
