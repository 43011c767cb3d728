//! The commands on channels, each read from the words behind its name.

ghost use Rattle.std.specs.Prelude.{◌≡◌};
ghost use Rattle.world_model.specs.Grammar.{done};
ghost use Rattle.world_model.specs.Kinds as kinds;
ghost use Rattle.world_model.specs.declared.commands.Command.TheVariants as command;
ghost use Rattle.world_model.specs.declared.channel_commands.ChannelCommand.TheVariants as of_channel;
ghost use Rattle.cmd_words.specs.CommandNames.{IsNamed, channel_word};
ghost use Rattle.cmd_words.specs.Progress.{all_words, Follows, Answers, a_form, a_name};

use crate::command_names::ChannelName;
use crate::faults::CommandFault;
use crate::request_reader::Reader;
use crate::setchans::setchan_command;
use world_model::{ChannelCommand, Command};

/// Reads the words behind the name of a command on channels.
pub(crate) fn read_channel(reader: &mut Reader, name: ChannelName) -> Result<Command, CommandFault>
    requires { IsNamed (channel_word name) reader.old }
    ensures { Answers (all_words reader.old) result }
{
    match name {
        ChannelName::Setchan => setchan_command(reader),
        ChannelName::Delchan => delchan_command(reader),
        ChannelName::Pdelchan => pdelchan_command(reader),
        ChannelName::Chans => chans_command(reader),
    }
}

// `name`
fn delchan_command(reader: &mut Reader) -> Result<Command, CommandFault>
    ensures { Follows reader.old (a_name (λ name. done (command.Channel (of_channel.Delchan name))))
        → Answers (all_words reader.old) result }
{
    let name = reader.name()?;
    reader.end()?;
    Ok(Command::Channel(ChannelCommand::Delchan { name }))
}

// `pattern`
fn pdelchan_command(reader: &mut Reader) -> Result<Command, CommandFault>
    ensures { Follows reader.old (a_form kinds.glob (λ pattern. done (command.Channel (of_channel.Pdelchan pattern))))
        → Answers (all_words reader.old) result }
{
    let glob = reader.glob()?;
    reader.end()?;
    Ok(Command::Channel(ChannelCommand::Pdelchan { glob }))
}

// `pattern`
fn chans_command(reader: &mut Reader) -> Result<Command, CommandFault>
    ensures { Follows reader.old (a_form kinds.glob (λ pattern. done (command.Channel (of_channel.Chans pattern))))
        → Answers (all_words reader.old) result }
{
    let glob = reader.glob()?;
    reader.end()?;
    Ok(Command::Channel(ChannelCommand::Chans { glob }))
}
