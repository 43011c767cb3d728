//! The commands on the session itself, each read from the words behind its name.

ghost use Rattle.std.specs.Prelude.{◌≡◌};
ghost use Rattle.world_model.specs.Grammar.{done};
ghost use Rattle.world_model.specs.declared.commands.Command.TheVariants as command;
ghost use Rattle.world_model.specs.declared.session_commands.SessionCommand.TheVariants as of_session;
ghost use Rattle.cmd_words.specs.CommandNames.{IsNamed, session_word};
ghost use Rattle.cmd_words.specs.NameLists.{some_names};
ghost use Rattle.cmd_words.specs.Progress.{all_words, Follows, Answers, name_of, glob_of};

use crate::command_names::SessionName;
use crate::faults::CommandFault;
use crate::name_lists::{NameKind, read_names};
use crate::request_reader::Reader;
use world_model::{Command, SessionCommand};

/// Reads the words behind the name of a command on the session itself.
pub(crate) fn read_session(reader: &mut Reader, name: SessionName) -> Result<Command, CommandFault>
    requires { IsNamed (session_word name) reader.old }
    ensures { Answers (all_words reader.old) result }
{
    match name {
        SessionName::Subscribe => subscribe_command(reader),
        SessionName::Psubscribe => psubscribe_command(reader),
        SessionName::Ping => ping_command(reader),
        SessionName::Quit => quit_command(reader),
    }
}

// `name+`
fn subscribe_command(reader: &mut Reader) -> Result<Command, CommandFault>
    ensures { Follows reader.old (some_names name_of (λ names. command.Session (of_session.Subscribe names)))
        → Answers (all_words reader.old) result }
{
    let names = read_names(reader, NameKind::Plain)?;
    Ok(Command::Session(SessionCommand::Subscribe { names }))
}

// `pattern+`
fn psubscribe_command(reader: &mut Reader) -> Result<Command, CommandFault>
    ensures { Follows reader.old (some_names glob_of (λ patterns. command.Session (of_session.Psubscribe patterns)))
        → Answers (all_words reader.old) result }
{
    let globs = read_names(reader, NameKind::Pattern)?;
    Ok(Command::Session(SessionCommand::Psubscribe { globs }))
}

// no word
fn ping_command(reader: &Reader) -> Result<Command, CommandFault>
    ensures { Follows reader.now (done (command.Session of_session.Ping)) → Answers (all_words reader.now) result }
{
    reader.end()?;
    Ok(Command::Session(SessionCommand::Ping))
}

// no word
fn quit_command(reader: &Reader) -> Result<Command, CommandFault>
    ensures { Follows reader.now (done (command.Session of_session.Quit)) → Answers (all_words reader.now) result }
{
    reader.end()?;
    Ok(Command::Session(SessionCommand::Quit))
}
