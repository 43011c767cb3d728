//! The record of a channel's setting: `SETCHAN name`, the deadline, and the normal words of its fence.

ghost use Rattle.std.specs.Prelude.{◌≡◌, ◌≤◌, ◌&&◌, ◌∷◌, codes, true, length, IfOk};
ghost use Rattle.byte_text.specs.Names.{is_name};
ghost use Rattle.log_record.specs.Words.{same_words};
ghost use Rattle.world_data.specs.Records.{is_kept_deadline};
ghost use Rattle.world_model.specs.declared.commands.Command.TheVariants as commands;
ghost use Rattle.world_model.specs.declared.channel_commands.ChannelCommand.TheVariants as of_channel;
ghost use Rattle.record_reader.specs.Reading.{IsChangeOf, IsSettingIn, IsSpelled, record_words, undated};
ghost use Rattle.record_reader.specs.Reading.{stands_in_words as is_in_words};

use crate::faults::ReadFault;
use crate::record_reader::{RecordReader, is_same};
use byte_text::{NoMemory, Request};
use cmd_words::{CommandFault, command_of};
use std::alloc::Global;
use world_data::{Change, Channel};
use world_model::{AreaWords, ChannelCommand, Command};

/// The setting of a channel whose record the words are, where the reader stands behind `SETCHAN`: what the words spell
/// as a command without the deadline, with that deadline, if its record has these words.
pub(crate) fn setting_of(
    alloc: Global,
    words: &Request,
    reader: &mut RecordReader,
) -> Result<Change, ReadFault>
    requires { words.now ≡ codes "SETCHAN" ∷ reader.old }
    ensures { IsChangeOf words.now result }
{
    let Some(name) = reader.next() else {
        return Err(ReadFault::NotRecord);
    };
    let deadline = reader.deadline()?;
    match deadline {
        None => setting_by(reader, words, name, None),
        Some(moment) => {
            let Ok(normal) = without_deadline(alloc, words) else {
                return Err(ReadFault::Memory);
            };
            setting_by(reader, &normal, name, Some(moment))
        }
    }
}

// The words but for the third and the fourth, which say a deadline.
fn without_deadline(alloc: Global, words: &Request) -> Result<Request, NoMemory>
    requires { 4 ≤ length words.now }
    ensures { IfOk result (λ normal. normal ≡ undated words.now) }
{
    let count = words.words();
    let mut normal = Request::new(alloc);
    normal.push(words.word(0))?;
    normal.push(words.word(1))?;
    for at in 4..count {
        normal.push(words.word(at))?;
    }
    Ok(normal)
}

// The setting that the normal words spell, with this deadline, if its record goes on with the name and the words that
// are left.
fn setting_by(
    reader: &mut RecordReader,
    normal: &Request,
    name: &[u8],
    deadline: Option<u64>,
) -> Result<Change, ReadFault>
    requires spelled { normal.now ≡ codes "SETCHAN" ∷ name.now ∷ reader.old }
    requires kept { is_kept_deadline deadline ≡ true }
    ensures { IsSpelled name.now deadline reader.old result }
{
    match command_of(reader.alloc(), normal) {
        Ok(command) => setting_in(reader, name, deadline, command),
        Err(CommandFault::Refused(_)) => Err(ReadFault::NotRecord),
        Err(CommandFault::Memory) => Err(ReadFault::Memory),
    }
}

// The setting that the command gives, with this deadline, if its record goes on with the name and the words that are
// left.
fn setting_in(
    reader: &mut RecordReader,
    name: &[u8],
    deadline: Option<u64>,
    command: Command,
) -> Result<Change, ReadFault>
    requires { is_kept_deadline deadline ≡ true }
    ensures { IsSettingIn (record_words name.now deadline reader.old) deadline command result }
{
    // What is no setting is dropped by a call, so that its parts are not proved to be dropped here.
    match command {
        Command::Channel(command) => channel_setting(reader, name, deadline, command),
        Command::Object(other) => {
            drop(other);
            Err(ReadFault::NotRecord)
        }
        Command::Search(other) => {
            drop(other);
            Err(ReadFault::NotRecord)
        }
        Command::Session(other) => {
            drop(other);
            Err(ReadFault::NotRecord)
        }
    }
}

// The setting that a command on channels gives, with this deadline, if its record goes on with the name and the words
// that are left.
fn channel_setting(
    reader: &mut RecordReader,
    name: &[u8],
    deadline: Option<u64>,
    command: ChannelCommand,
) -> Result<Change, ReadFault>
    requires { is_kept_deadline deadline ≡ true }
    ensures { IsSettingIn (record_words name.now deadline reader.old) deadline (commands.Channel command) result }
{
    let ChannelCommand::Setchan {
        mut channel,
        area,
        seconds: _,
    } = command
    else {
        return Err(ReadFault::NotRecord);
    };
    if !is_recorded(reader, name, &channel, &area) {
        drop(channel);
        return Err(ReadFault::NotRecord);
    }
    channel.deadline = deadline;
    Ok(Change::SetChan(channel))
}

// Whether the area stands in the command's words, and the name and the words that are left are the channel's.
fn is_recorded(
    reader: &mut RecordReader,
    name: &[u8],
    channel: &Channel,
    area: &Option<AreaWords>,
) -> bool
    ensures told { result ≡ is_in_words area.now
        && same_words (channel.now.name ∷ channel.now.words) (name.now ∷ reader.old) }
    ensures named { result ≡ true → is_name channel.now.name ≡ true }
{
    if !stands_in_words(area) {
        return false;
    }
    if !is_same(channel.name.bytes(), name) {
        return false;
    }
    reader.ends_with(&channel.words)
}

// Whether the area stands in the command's words, and is no object's.
fn stands_in_words(area: &Option<AreaWords>) -> bool
    ensures { result ≡ is_in_words area.now }
{
    match area {
        None => true,
        Some(AreaWords::Given(_)) => true,
        Some(AreaWords::Of(_, _)) => false,
    }
}
