//! The record of a put: `SET key id`, the fields, the deadline, and `OBJECT text`.

ghost use Rattle.std.specs.Prelude.{◌≡◌, ◌∷◌, [], ◌++◌, true, false, codes, IfErr, OnOk};
ghost use Rattle.world_data.specs.Filters.{are_fields};
ghost use Rattle.record_reader.specs.Reading.{IsChangeOf, ReadsFields, ReadsText, IsPlaceOf};

use crate::faults::ReadFault;
use crate::record_reader::RecordReader;
use byte_text::{Name, NoMemory, Text};
use geojson_model::{ShapeFault, shape_of};
use ordered_lists::is_before;
use planar_geom::Shape;
use std::alloc::Global;
use world_data::{Change, Fields, Object, Value};

/// The put whose record goes on with the words that are left, behind `SET`.
pub(crate) fn put_of(reader: &mut RecordReader) -> Result<Change, ReadFault>
    ensures { IsChangeOf (codes "SET" ∷ reader.old) result }
{
    let key = reader.name()?;
    let id = reader.name()?;
    let fields = read_fields(reader)?;
    let deadline = reader.deadline()?;
    let (text, shape) = read_text(reader)?;
    Ok(Change::Put(Object {
        key,
        id,
        text,
        shape,
        fields,
        deadline,
    }))
}

// Reads all fields: `FIELD name value`, in byte order of the names, no name twice and no value 0.
fn read_fields(reader: &mut RecordReader) -> Result<Fields, ReadFault>
    ensures { ReadsFields reader.old reader.new result }
{
    let mut fields = Fields::new(reader.alloc());
    'each: while reader.takes(b"FIELD") {
        let field = reader.field()?;
        push_last(&mut fields, field)?;
    }
    Ok(fields)
}

// Puts a field last, if it may stand there.
fn push_last(fields: &mut Fields, field: (Name, Value)) -> Result<(), ReadFault>
    ensures ok { OnOk result (fields.new ≡ fields.old ++ field ∷ []) }
    ensures ordered { OnOk result (are_fields fields.new ≡ true) }
    ensures refused { IfErr result (λ why. why ≡ ReadFault.NotRecord → are_fields (fields.old ++ field ∷ []) ≡ false) }
{
    let (name, value) = field;
    if !may_be_last(fields, &name, &value) {
        return Err(ReadFault::NotRecord);
    }
    match fields.set(name, value) {
        Ok(()) => Ok(()),
        Err(NoMemory) => Err(ReadFault::Memory),
    }
}

// Whether a field of this name and value may stand behind all fields.
fn may_be_last(fields: &Fields, name: &Name, value: &Value) -> bool
    ensures { result ≡ are_fields (fields.now ++ (name.now, value.now) ∷ []) }
{
    if value.is_none() {
        return false;
    }
    let count = fields.len();
    if count == 0 {
        return true;
    }
    is_before(fields.name(count - 1), name)
}

// Reads the text and its shape, which end the record: `OBJECT text`.
fn read_text(reader: &mut RecordReader) -> Result<(Text, Shape), ReadFault>
    ensures { ReadsText reader.old result }
{
    if !reader.takes(b"OBJECT") {
        return Err(ReadFault::NotRecord);
    }
    let Some(word) = reader.last() else {
        return Err(ReadFault::NotRecord);
    };
    place_of(reader.alloc(), word)
}

// The text that the word is, and its shape.
fn place_of(alloc: Global, word: &[u8]) -> Result<(Text, Shape), ReadFault>
    ensures { IsPlaceOf word.now result }
{
    match shape_of(alloc, word) {
        Ok(shape) => match Text::of(alloc, word) {
            Ok(text) => Ok((text, shape)),
            Err(NoMemory) => Err(ReadFault::Memory),
        },
        Err(ShapeFault::Refused(_)) => Err(ReadFault::NotRecord),
        Err(ShapeFault::Memory) => Err(ReadFault::Memory),
    }
}
