//! The commands on objects, each read from the words behind its name.

ghost use Rattle.std.specs.Prelude.{◌≡◌, ◌++◌, ◌∷◌, [], Ok, Err, IfOk, IfErr, OnOk};
ghost use Rattle.world_model.specs.Grammar.{done};
ghost use Rattle.world_model.specs.Kinds as kinds;
ghost use Rattle.world_model.specs.declared.commands.Command.TheVariants as command;
ghost use Rattle.world_model.specs.declared.object_commands.ObjectCommand.TheVariants as of_object;
ghost use Rattle.cmd_words.specs.CommandNames.{IsNamed, object_word};
ghost use Rattle.cmd_words.specs.NameLists.{some_names};
ghost use Rattle.cmd_words.specs.Progress.{all_words, Follows, Answers, a_form, a_name, get_options, key_and_id};
ghost use Rattle.cmd_words.specs.Progress.{name_of};
ghost use Rattle.cmd_words.specs.Sets.{fields_first, fset_of, ReadsFields};

use crate::command_names::ObjectName;
use crate::faults::CommandFault;
use crate::fields::fields_of;
use crate::name_lists::{NameKind, read_names};
use crate::request_reader::Reader;
use crate::sets::set_command;
use crate::word_kinds::read_name;
use byte_text::Name;
use world_model::{Command, ObjectCommand, Shown, Value};

/// Reads the words behind the name of a command on objects.
pub(crate) fn read_object(reader: &mut Reader, name: ObjectName) -> Result<Command, CommandFault>
    requires { IsNamed (object_word name) reader.old }
    ensures { Answers (all_words reader.old) result }
{
    match name {
        ObjectName::Set => set_command(reader),
        ObjectName::Get => get_command(reader),
        ObjectName::Del => del_command(reader),
        ObjectName::Pdel => pdel_command(reader),
        ObjectName::Drop => drop_command(reader),
        ObjectName::Fset => fset_command(reader),
        ObjectName::Fget => fget_command(reader),
        ObjectName::Expire => expire_command(reader),
        ObjectName::Persist => persist_command(reader),
        ObjectName::Ttl => ttl_command(reader),
        ObjectName::Keys => keys_command(reader),
        ObjectName::Bounds => bounds_command(reader),
        ObjectName::Stats => stats_command(reader),
        ObjectName::Flush => flush_command(reader),
        ObjectName::Shrink => shrink_command(reader),
    }
}

// `key id [WITHFIELDS] [OBJECT | POINT | BOUNDS]`
fn get_command(reader: &mut Reader) -> Result<Command, CommandFault>
    ensures { Follows reader.old (key_and_id get_options) → Answers (all_words reader.old) result }
{
    let (key, id) = reader.key_and_id()?;
    let with_fields = reader.takes(b"WITHFIELDS");
    let Some(shown) = reader.shown() else {
        reader.stop()?;
        return Ok(Command::Object(ObjectCommand::Get {
            key,
            id,
            with_fields,
            shown: Shown::Objects,
        }));
    };
    reader.end()?;
    Ok(Command::Object(ObjectCommand::Get {
        key,
        id,
        with_fields,
        shown,
    }))
}

// `key id`
fn del_command(reader: &mut Reader) -> Result<Command, CommandFault>
    ensures { Follows reader.old (key_and_id (λ k. done (command.Object (of_object.Del k.0 k.1))))
        → Answers (all_words reader.old) result }
{
    let (key, id) = reader.key_and_id()?;
    reader.end()?;
    Ok(Command::Object(ObjectCommand::Del { key, id }))
}

// `key pattern`
fn pdel_command(reader: &mut Reader) -> Result<Command, CommandFault>
    ensures { Follows reader.old
        (a_name (λ key. a_form kinds.glob (λ pattern. done (command.Object (of_object.Pdel key pattern)))))
        → Answers (all_words reader.old) result }
{
    let key = reader.name()?;
    let glob = reader.glob()?;
    reader.end()?;
    Ok(Command::Object(ObjectCommand::Pdel { key, glob }))
}

// `key`
fn drop_command(reader: &mut Reader) -> Result<Command, CommandFault>
    ensures { Follows reader.old (a_name (λ key. done (command.Object (of_object.Drop key))))
        → Answers (all_words reader.old) result }
{
    let key = reader.name()?;
    reader.end()?;
    Ok(Command::Object(ObjectCommand::Drop { key }))
}

// `key id (field value)+`
fn fset_command(reader: &mut Reader) -> Result<Command, CommandFault>
    ensures { Follows reader.old (key_and_id (λ k. fields_first (fset_of k))) → Answers (all_words reader.old) result }
{
    let (key, id) = reader.key_and_id()?;
    let given = read_fields(reader)?;
    let (fields, cleared) = fields_of(reader.alloc(), given)?;
    Ok(Command::Object(ObjectCommand::Fset {
        key,
        id,
        fields,
        cleared,
    }))
}

// `(field value)+` to the end of the words, as they are given.
fn read_fields(reader: &mut Reader) -> Result<Vec<(Name, Value)>, CommandFault>
    ensures ok { IfOk result (λ given. ReadsFields reader.old (Ok given.items)) }
    ensures err { IfErr result (λ why. ReadsFields reader.old (Err why)) }
{
    let mut given = Vec::new(reader.alloc());
    let first = reader.field()?;
    push_field(&mut given, first)?;
    'fields: while let Some(word) = reader.next() {
        let name = read_name(reader.alloc(), word)?;
        let value = reader.value()?;
        push_field(&mut given, (name, value))?;
    }
    Ok(given)
}

// Puts a field last.
fn push_field(given: &mut Vec<(Name, Value)>, field: (Name, Value)) -> Result<(), CommandFault>
    ensures ok { OnOk result (given.new.items ≡ given.old.items ++ field ∷ []) }
    ensures err { IfErr result (λ why. why ≡ CommandFault.Memory) }
{
    match given.push(field) {
        Ok(()) => Ok(()),
        Err(_) => Err(CommandFault::Memory),
    }
}

// `key id field`
fn fget_command(reader: &mut Reader) -> Result<Command, CommandFault>
    ensures { Follows reader.old
        (key_and_id (λ k. a_form kinds.name (λ field. done (command.Object (of_object.Fget k.0 k.1 field)))))
        → Answers (all_words reader.old) result }
{
    let (key, id) = reader.key_and_id()?;
    let field = reader.name()?;
    reader.end()?;
    Ok(Command::Object(ObjectCommand::Fget { key, id, field }))
}

// `key id seconds`
fn expire_command(reader: &mut Reader) -> Result<Command, CommandFault>
    ensures { Follows reader.old
        (key_and_id (λ k. a_form kinds.seconds (λ s. done (command.Object (of_object.Expire k.0 k.1 s)))))
        → Answers (all_words reader.old) result }
{
    let (key, id) = reader.key_and_id()?;
    let seconds = reader.seconds()?;
    reader.end()?;
    Ok(Command::Object(ObjectCommand::Expire { key, id, seconds }))
}

// `key id`
fn persist_command(reader: &mut Reader) -> Result<Command, CommandFault>
    ensures { Follows reader.old (key_and_id (λ k. done (command.Object (of_object.Persist k.0 k.1))))
        → Answers (all_words reader.old) result }
{
    let (key, id) = reader.key_and_id()?;
    reader.end()?;
    Ok(Command::Object(ObjectCommand::Persist { key, id }))
}

// `key id`
fn ttl_command(reader: &mut Reader) -> Result<Command, CommandFault>
    ensures { Follows reader.old (key_and_id (λ k. done (command.Object (of_object.Ttl k.0 k.1))))
        → Answers (all_words reader.old) result }
{
    let (key, id) = reader.key_and_id()?;
    reader.end()?;
    Ok(Command::Object(ObjectCommand::Ttl { key, id }))
}

// `pattern`
fn keys_command(reader: &mut Reader) -> Result<Command, CommandFault>
    ensures { Follows reader.old (a_form kinds.glob (λ pattern. done (command.Object (of_object.Keys pattern))))
        → Answers (all_words reader.old) result }
{
    let glob = reader.glob()?;
    reader.end()?;
    Ok(Command::Object(ObjectCommand::Keys { glob }))
}

// `key`
fn bounds_command(reader: &mut Reader) -> Result<Command, CommandFault>
    ensures { Follows reader.old (a_name (λ key. done (command.Object (of_object.Bounds key))))
        → Answers (all_words reader.old) result }
{
    let key = reader.name()?;
    reader.end()?;
    Ok(Command::Object(ObjectCommand::Bounds { key }))
}

// `key+`
fn stats_command(reader: &mut Reader) -> Result<Command, CommandFault>
    ensures { Follows reader.old (some_names name_of (λ keys. command.Object (of_object.Stats keys)))
        → Answers (all_words reader.old) result }
{
    let keys = read_names(reader, NameKind::Plain)?;
    Ok(Command::Object(ObjectCommand::Stats { keys }))
}

// no word
fn flush_command(reader: &Reader) -> Result<Command, CommandFault>
    ensures { Follows reader.now (done (command.Object of_object.Flush)) → Answers (all_words reader.now) result }
{
    reader.end()?;
    Ok(Command::Object(ObjectCommand::Flush))
}

// no word
fn shrink_command(reader: &Reader) -> Result<Command, CommandFault>
    ensures { Follows reader.now (done (command.Object of_object.Shrink)) → Answers (all_words reader.now) result }
{
    reader.end()?;
    Ok(Command::Object(ObjectCommand::Shrink))
}
