//! The change whose record some words are.

ghost use Rattle.std.specs.Prelude.{◌≡◌, ◌∷◌, ℕ, Some, None, codes, IfOk, IfErr};
ghost use Rattle.byte_text.specs.Requests.{request_text};
ghost use Rattle.world_data.specs.Records.{record_writer};
ghost use Rattle.log_record.specs.Versions.{change_of_version};
ghost use Rattle.record_reader.specs.Reading.{IsChangeOf};
ghost use Rattle.record_reader.specs.Versions.{IsOfLater};

use crate::channels::setting_of;
use crate::faults::{ReadFault, RecordFault};
use crate::puts::put_of;
use crate::record_reader::RecordReader;
use crate::versions::said_in;
use byte_text::Request;
use std::alloc::Global;
use world_data::Change;

/// The change whose record the words are in a side of this version. NotRecord comes exactly where they are a record of
/// no version, and Version exactly where they are one of a later version and not of this one. The record that is written
/// of the change is the text of the words.
pub fn change_of(alloc: Global, words: &Request, version: u8) -> Result<Change, RecordFault>
    ensures ok { IfOk result (λ change. change_of_version version words.now ≡ Some change) }
    ensures written { IfOk result (λ change. record_writer change ≡ request_text words.now) }
    ensures none { IfErr result
        (λ why. why ≡ RecordFault.NotRecord → (v : ℕ) → change_of_version v words.now ≡ None) }
    ensures later { IfErr result (λ why. why ≡ RecordFault.Version → IsOfLater version words.now) }
{
    match read_record(alloc, words) {
        Ok(change) => said_in(change, version),
        Err(ReadFault::NotRecord) => Err(RecordFault::NotRecord),
        Err(ReadFault::Memory) => Err(RecordFault::Memory),
    }
}

// The change whose record the words are, by their first word.
fn read_record(alloc: Global, words: &Request) -> Result<Change, ReadFault>
    ensures { IsChangeOf words.now result }
{
    let mut reader = RecordReader::new(alloc, words);
    if reader.takes(b"SET") {
        return put_of(&mut reader);
    }
    if reader.takes(b"DEL") {
        return del_of(&mut reader);
    }
    if reader.takes(b"DROP") {
        return drop_of(&mut reader);
    }
    if reader.takes(b"FLUSHDB") {
        return flush_of(&reader);
    }
    if reader.takes(b"SETCHAN") {
        return setting_of(alloc, words, &mut reader);
    }
    if reader.takes(b"DELCHAN") {
        return delchan_of(&mut reader);
    }
    Err(ReadFault::NotRecord)
}

// `DEL key id`, behind the first word
fn del_of(reader: &mut RecordReader) -> Result<Change, ReadFault>
    ensures { IsChangeOf (codes "DEL" ∷ reader.old) result }
{
    let key = reader.name()?;
    let id = reader.name()?;
    reader.end()?;
    Ok(Change::Del(key, id))
}

// `DROP key`, behind the first word
fn drop_of(reader: &mut RecordReader) -> Result<Change, ReadFault>
    ensures { IsChangeOf (codes "DROP" ∷ reader.old) result }
{
    let key = reader.name()?;
    reader.end()?;
    Ok(Change::Drop(key))
}

// `FLUSHDB`, behind which no word stands
fn flush_of(reader: &RecordReader) -> Result<Change, ReadFault>
    ensures { IsChangeOf (codes "FLUSHDB" ∷ reader.now) result }
{
    reader.end()?;
    Ok(Change::Flush)
}

// `DELCHAN name`, behind the first word
fn delchan_of(reader: &mut RecordReader) -> Result<Change, ReadFault>
    ensures { IsChangeOf (codes "DELCHAN" ∷ reader.old) result }
{
    let name = reader.name()?;
    reader.end()?;
    Ok(Change::DelChan(name))
}
