//! The commands, each read from the words behind its name.

ghost use Rattle.std.specs.Prelude.{◌≡◌, Ok, Err, IfOk, IfErr};
ghost use Rattle.world_model.specs.Commands.{reads};
ghost use Rattle.cmd_words.specs.CommandNames.{IsNamed, word_of};
ghost use Rattle.cmd_words.specs.Progress.{IfRefused, all_words, Answers};

use crate::channels::read_channel;
use crate::command_names::{CommandName, command_named};
use crate::faults::{CommandFault, unknown};
use crate::objects::read_object;
use crate::request_reader::Reader;
use crate::searches::read_search;
use crate::sessions::read_session;
use byte_text::Request;
use std::alloc::Global;
use world_model::{Command, WordFault};

/// The command that the words of a request ask for, or how they are refused.
pub fn command_of(alloc: Global, words: &Request) -> Result<Command, CommandFault>
    ensures ok { IfOk result (λ c. reads words.now ≡ Ok c) }
    ensures err { IfErr result (λ why. IfRefused why (λ fault. reads words.now ≡ Err fault)) }
{
    let mut reader = Reader::new(alloc, words);
    let Some(called) = reader.next() else {
        return Err(reader.wrong_count());
    };
    match command_named(called) {
        Some(name) => read_named(&mut reader, name),
        None => Err(unknown(alloc, called)),
    }
}

// Reads the words behind this name.
fn read_named(reader: &mut Reader, name: CommandName) -> Result<Command, CommandFault>
    requires { IsNamed (word_of name) reader.old }
    ensures { Answers (all_words reader.old) result }
{
    match name {
        CommandName::Object(name) => read_object(reader, name),
        CommandName::Search(name) => read_search(reader, name),
        CommandName::Channel(name) => read_channel(reader, name),
        CommandName::Session(name) => read_session(reader, name),
    }
}
