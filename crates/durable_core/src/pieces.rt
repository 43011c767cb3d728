//! The items of a world that a step of a rewriting copies.

ghost use Rattle.std.specs.Prelude.{◌≡◌, ◌<◌, ◌++◌, true, filter, map, IfOk};
ghost use Rattle.world_data.specs.Worlds.{is_sorted_world};
ghost use Rattle.world_store.specs.Copies.{is_next_channel, is_next_object, name_in, place_in};
ghost use Rattle.durable_core.specs.Pieces.{IsNextPiece, Took};
ghost use Rattle.durable_core.specs.Rewriting.{Item, items_left, last_of, of_channel, of_object};

use crate::rewritings::LastCopied;
use byte_text::{Name, NoMemory, Text};
use journal::{PIECE, Piece};
use std::alloc::Global;
use tile_core::{Core, push_channel, push_object};

/// The records of the items that come next, and the last one of them.
#[derive(Drop)]
pub(crate) struct NextPiece {
    pub(crate) piece: Piece,
    pub(crate) last: LastCopied,
}

// The same item, in memory of its own.
fn copy_of(alloc: Global, last: &LastCopied) -> Result<LastCopied, NoMemory>
    ensures { IfOk result (λ copy. copy ≡ last.now) }
{
    match last {
        LastCopied::Nothing => Ok(LastCopied::Nothing),
        LastCopied::Channel(name) => Ok(LastCopied::Channel(name.copy(alloc)?)),
        LastCopied::Object(key, id) => Ok(LastCopied::Object(key.copy(alloc)?, id.copy(alloc)?)),
    }
}

// Puts the record of the first channel behind a name last into the piece; of the first of all where no name is given.
fn copy_channel(
    alloc: Global,
    core: &Core,
    after: Option<&Name>,
    piece: &mut Piece,
) -> Result<Option<LastCopied>, NoMemory>
    requires { piece.old.items < 256 }
    ensures took { IfOk result
        (Took of_channel
        (filter (is_next_channel (name_in after.entry)) core.now.hall.world.channels) piece.old piece.new) }
    ensures sorted { is_sorted_world core.now.hall.world ≡ true }
{
    let Some(channel) = core.next_channel(after) else {
        return Ok(None);
    };
    let mut record = Text::new(alloc);
    push_channel(&mut record, channel)?;
    let last = LastCopied::Channel(channel.name.copy(alloc)?);
    piece.push(record.bytes())?;
    Ok(Some(last))
}

// Puts the record of the first object behind a key and an id last into the piece; of the first of all where none are
// given.
fn copy_object(
    alloc: Global,
    core: &Core,
    after: Option<(&Name, &Name)>,
    piece: &mut Piece,
) -> Result<Option<LastCopied>, NoMemory>
    requires { piece.old.items < 256 }
    ensures took { IfOk result
        (Took of_object
        (filter (is_next_object (place_in after.entry)) core.now.hall.world.objects) piece.old piece.new) }
    ensures sorted { is_sorted_world core.now.hall.world ≡ true }
{
    let Some(object) = core.next_object(after) else {
        return Ok(None);
    };
    let mut record = Text::new(alloc);
    push_object(&mut record, object)?;
    let last = LastCopied::Object(object.key.copy(alloc)?, object.id.copy(alloc)?);
    piece.push(record.bytes())?;
    Ok(Some(last))
}

// Puts the record of the first channel behind a name last into the piece, or, where there is none, that of the first
// object.
fn copy_behind(
    alloc: Global,
    core: &Core,
    after: Option<&Name>,
    piece: &mut Piece,
) -> Result<Option<LastCopied>, NoMemory>
    requires { piece.old.items < 256 }
    ensures took { IfOk result
        (Took (λ (item : Item). item)
        (map of_channel (filter (is_next_channel (name_in after.entry)) core.now.hall.world.channels)
        ++ map of_object (filter (λ o. true) core.now.hall.world.objects)) piece.old piece.new) }
    ensures sorted { is_sorted_world core.now.hall.world ≡ true }
{
    match copy_channel(alloc, core, after, piece)? {
        Some(copied) => Ok(Some(copied)),
        None => copy_object(alloc, core, None, piece),
    }
}

// Puts the record of the first item that is left behind another last into the piece, and says which one it was.
fn copy_next(
    alloc: Global,
    core: &Core,
    last: &LastCopied,
    piece: &mut Piece,
) -> Result<Option<LastCopied>, NoMemory>
    requires { piece.old.items < 256 }
    ensures took { IfOk result
        (Took (λ (item : Item). item) (items_left last.now core.now.hall.world) piece.old piece.new) }
    ensures sorted { is_sorted_world core.now.hall.world ≡ true }
{
    match last {
        LastCopied::Nothing => copy_behind(alloc, core, None, piece),
        LastCopied::Channel(name) => copy_behind(alloc, core, Some(name), piece),
        LastCopied::Object(key, id) => copy_object(alloc, core, Some((key, id)), piece),
    }
}

/// The records of the first items that are left behind another, as many as a piece may have.
pub(crate) fn next_piece(
    alloc: Global,
    core: &Core,
    from: &LastCopied,
) -> Result<NextPiece, NoMemory>
    ensures { IfOk result (IsNextPiece from.now core.now.hall.world) }
{
    let mut piece = Piece::new(alloc)?;
    let mut last = copy_of(alloc, from)?;
    for _ in 0..PIECE {
        match copy_next(alloc, core, &last, &mut piece)? {
            Some(copied) => last = copied,
            None => return Ok(NextPiece { piece, last }),
        }
    }
    Ok(NextPiece { piece, last })
}
