//! SET.

ghost use Rattle.std.specs.Prelude.{◌≡◌, IfOk, IfErr};
ghost use Rattle.cmd_words.specs.Progress.{all_words, Follows, Answers, key_and_id};
ghost use Rattle.cmd_words.specs.Sets.{behind_set, set_of};

use crate::faults::CommandFault;
use crate::fields::fields_of;
use crate::object_places::read_place;
use crate::request_reader::Reader;
use crate::set_options::{SetOptions, read_options};
use byte_text::{Name, Text};
use planar_geom::Shape;
use std::alloc::Global;
use world_model::{Command, ObjectCommand, Only};

/// `key id`, the options, and a place.
pub(crate) fn set_command(reader: &mut Reader) -> Result<Command, CommandFault>
    ensures { Follows reader.old (key_and_id behind_set) → Answers (all_words reader.old) result }
{
    let (key, id) = reader.key_and_id()?;
    let options = read_options(reader)?;
    let (text, shape) = read_place(reader)?;
    reader.end()?;
    put_command(reader.alloc(), key, id, options, text, shape)
}

// The command that puts an object under a key and an id.
fn put_command(
    alloc: Global,
    key: Name,
    id: Name,
    options: SetOptions,
    text: Text,
    shape: Shape,
) -> Result<Command, CommandFault>
    ensures ok { IfOk result (λ c. c ≡ set_of (key, id) options (text, shape)) }
    ensures err { IfErr result (λ why. why ≡ CommandFault.Memory) }
{
    let SetOptions {
        fields,
        seconds,
        only,
    } = options;
    let (fields, cleared) = fields_of(alloc, fields)?;
    Ok(Command::Object(ObjectCommand::Set {
        key,
        id,
        fields,
        cleared,
        seconds,
        only: only.unwrap_or(Only::Any),
        text,
        shape,
    }))
}
