//! A reply while it is made, piece by piece.

ghost use Rattle.std.specs.Prelude.{◌≡◌, ◌++◌, ◌∷◌, [], OnOk};
ghost use Rattle.byte_text.specs.Replies.{bulk, number};
ghost use Rattle.byte_text.specs.declared.replies.Piece.TheVariants as piece;
ghost use Rattle.world_model.specs.Replies.{number_text, value_reply, point_reply, bounds_reply};

use byte_text::{NoMemory, Piece, Reply, Text, push_i64};
use planar_geom::{BBox, Pt};
use std::alloc::Global;
use std::marker::Model;
use world_data::Value;

/// The pieces of a reply so far, with the memory for more.
#[derive(Drop)]
pub(crate) struct Draft {
    alloc: Global,
    reply: Reply,
}

impl Model for Draft {
    ghost use Rattle.std.specs.Prelude.{List};
    ghost use Rattle.byte_text.specs.declared.replies.Piece.{Piece};

    ghost Value = { List Piece };

    ghost view = { λ d. d.reply };
}

impl Draft {
    /// No piece yet.
    pub(crate) fn new(alloc: Global) -> Draft
        ensures { result ≡ [] }
    {
        Draft {
            alloc,
            reply: Reply::new(alloc),
        }
    }

    /// The reply of the pieces.
    pub(crate) fn finish(self) -> Reply
        ensures { result ≡ self }
    {
        self.reply
    }

    /// Puts a piece last.
    pub(crate) fn piece(&mut self, piece: Piece) -> Result<(), NoMemory>
        ensures { OnOk result (self.new ≡ self.old ++ piece ∷ []) }
    {
        match self.reply.push(piece) {
            Ok(()) => Ok(()),
            Err(_) => Err(NoMemory),
        }
    }

    /// Puts the head of an array last.
    pub(crate) fn head(&mut self, items: u32) -> Result<(), NoMemory>
        ensures { OnOk result (self.new ≡ self.old ++ piece.List items ∷ []) }
    {
        self.piece(Piece::List(items))
    }

    /// Puts a bulk string last.
    pub(crate) fn bulk(&mut self, bytes: &[u8]) -> Result<(), NoMemory>
        ensures { OnOk result (self.new ≡ self.old ++ bulk bytes.now) }
    {
        let mut text = Text::new(self.alloc);
        text.push(bytes)?;
        self.piece(Piece::Bulk(text))
    }

    /// Puts a number last, as a bulk string.
    pub(crate) fn number(&mut self, n: i64) -> Result<(), NoMemory>
        ensures { OnOk result (self.new ≡ self.old ++ number_text n) }
    {
        let mut text = Text::new(self.alloc);
        push_i64(&mut text, n)?;
        self.piece(Piece::Bulk(text))
    }

    /// Puts the value of a field last, as a bulk string.
    pub(crate) fn value(&mut self, value: &Value) -> Result<(), NoMemory>
        ensures { OnOk result (self.new ≡ self.old ++ value_reply value.now) }
    {
        let mut text = Text::new(self.alloc);
        value.show(&mut text)?;
        self.piece(Piece::Bulk(text))
    }

    /// Puts a count last, as an integer. A count beyond the integers of RESP2 has room in no memory.
    pub(crate) fn count(&mut self, n: u64) -> Result<(), NoMemory>
        ensures { OnOk result (self.new ≡ self.old ++ number n) }
    {
        match i64::try_from(n) {
            Ok(n) => self.piece(Piece::Number(n)),
            Err(_) => Err(NoMemory),
        }
    }

    /// Puts the pieces of another reply last.
    pub(crate) fn append(&mut self, other: Reply) -> Result<(), NoMemory>
        ensures { OnOk result (self.new ≡ self.old ++ other) }
    {
        match self.reply.append(other) {
            Ok(()) => Ok(()),
            Err(_) => Err(NoMemory),
        }
    }

    /// Puts a point last: latitude, then longitude.
    pub(crate) fn point(&mut self, p: Pt) -> Result<(), NoMemory>
        ensures { OnOk result (self.new ≡ self.old ++ point_reply p) }
    {
        self.head(2)?;
        self.number(i64::from(p.y()))?;
        self.number(i64::from(p.x()))
    }

    /// Puts a box last: its least point, then its greatest.
    pub(crate) fn bounds(&mut self, b: BBox) -> Result<(), NoMemory>
        ensures { OnOk result (self.new ≡ self.old ++ bounds_reply b) }
    {
        self.head(2)?;
        self.point(b.min())?;
        self.point(b.max())
    }
}
