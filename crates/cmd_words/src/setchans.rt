//! SETCHAN: a channel, and its fence.

ghost use Rattle.std.specs.Prelude.{◌≡◌, IfOk, IfErr};
ghost use Rattle.byte_text.specs.Requests.{FitsRequest};
ghost use Rattle.cmd_words.specs.Progress.{all_words, Follows, Answers, ParsesAhead, a_name};
ghost use Rattle.cmd_words.specs.Channels.{is_near as is_near_kind, a_kind, TakesKind, channel_words, setchan_of};
ghost use Rattle.cmd_words.specs.Channels.{ReadsEx, behind_key, behind_setchan};

use crate::channel_words::channel_words;
use crate::faults::CommandFault;
use crate::fence_areas::{FenceArea, read_fence_area};
use crate::fence_options::{FenceOptions, read_options};
use crate::request_reader::Reader;
use byte_text::{Name, NoMemory, Request};
use std::alloc::Global;
use world_data::{Channel, Fence, Kind};
use world_model::{ChannelCommand, Command};

/// `name`, EX and seconds or neither, the kind, `key`, the options, and what is watched.
pub(crate) fn setchan_command(reader: &mut Reader) -> Result<Command, CommandFault>
    requires { Follows reader.old (a_name behind_setchan) }
    ensures { Answers (all_words reader.old) result }
{
    let name = reader.name()?;
    let seconds = read_seconds(reader)?;
    let kind = read_kind(reader)?;
    read_setting(reader, name, seconds, kind)
}

// Reads EX and the seconds behind it, where EX is next.
fn read_seconds(reader: &mut Reader) -> Result<Option<u32>, CommandFault>
    ensures { ReadsEx reader.old reader.new result }
{
    if reader.takes(b"EX") {
        let seconds = reader.seconds()?;
        Ok(Some(seconds))
    } else {
        Ok(None)
    }
}

// What stands behind the kind: `key`, the options, and what is watched.
fn read_setting(
    reader: &mut Reader,
    name: Name,
    seconds: Option<u32>,
    kind: Kind,
) -> Result<Command, CommandFault>
    requires { Follows reader.old (a_name (behind_key (record { name = name; after_ex = seconds }) kind)) }
    ensures { Answers (all_words reader.old) result }
{
    let key = reader.name()?;
    let options = read_options(reader, is_near(kind))?;
    let area = read_fence_area(reader, kind, &options)?;
    reader.end()?;
    match channel_words(reader.alloc(), reader.len(), kind, &key, &options, &area) {
        Ok(words) => Ok(setchan_of(name, seconds, kind, key, options, area, words)),
        Err(NoMemory) => Err(CommandFault::Memory),
    }
}

// Reads the word of a kind: WITHIN, INTERSECTS or NEARBY.
fn read_kind(reader: &mut Reader) -> Result<Kind, CommandFault>
    ensures { ParsesAhead a_kind reader.old reader.new result }
{
    match kind_next(reader) {
        Some(kind) => Ok(kind),
        None => Err(reader.refusal()),
    }
}

// Reads the word of a kind, where one is next.
fn kind_next(reader: &mut Reader) -> Option<Kind>
    ensures { TakesKind reader.old reader.new result }
{
    if reader.takes(b"WITHIN") {
        Some(Kind::Within)
    } else if reader.takes(b"INTERSECTS") {
        Some(Kind::Intersects)
    } else if reader.takes(b"NEARBY") {
        Some(Kind::Near)
    } else {
        None
    }
}

fn is_near(kind: Kind) -> bool
    ensures { result ≡ is_near_kind kind }
{
    matches!(kind, Kind::Near)
}

// The SETCHAN of a name with its seconds, a kind, a key, these options and what is watched, with the normal words.
fn setchan_of(
    name: Name,
    seconds: Option<u32>,
    kind: Kind,
    key: Name,
    options: FenceOptions,
    area: FenceArea,
    words: Request,
) -> Command
    ensures { words ≡ channel_words kind key options area
        → result ≡ setchan_of (record { name = name; after_ex = seconds }) kind key options area }
{
    let wanted = options.wanted();
    let (watch, from) = area.watch(kind, options.nodwell);
    let (glob, tests) = options.filters();
    let fence = Fence {
        key,
        glob,
        tests,
        wanted,
        watch,
    };
    Command::Channel(ChannelCommand::Setchan {
        channel: Channel {
            name,
            fence,
            words,
            deadline: None,
        },
        area: from,
        seconds,
    })
}
