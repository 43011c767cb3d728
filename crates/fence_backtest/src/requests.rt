//! The fence that is asked for, as the text of a request.

ghost use Rattle.std.specs.Prelude.{◌≡◌, ℕ, None, true, Option, Some, IfOk, IfSome, [], MatchOption, is_none};
ghost use Rattle.byte_text.specs.Globs.{is_sound_glob};
ghost use Rattle.byte_text.specs.Requests.{IsRequest};
ghost use Rattle.byte_text.specs.Streams.{found, request};
ghost use Rattle.fence_model.specs.Fences.{roams_over};
ghost use Rattle.log_record.specs.Words.{settled};
ghost use Rattle.fence_backtest.specs.Requests.{fence_in, fence_of_words, zone_of};
ghost use Rattle.record_reader.specs.Reading.{stands_in_words as is_in_words};
ghost use Rattle.world_model.specs.declared.channel_commands.ChannelCommand.TheVariants as of_channel;
ghost use Rattle.world_model.specs.declared.commands.Command.TheVariants as commands;

use byte_text::{NoMemory, Request};
use cmd_words::{CommandFault, command_of};
use resp_frames::{Fed, FeedFault, Requests};
use std::alloc::Global;
use world_data::{Channel, Watch};
use world_model::{AreaWords, ChannelCommand, Command, command_laws};

// The words of a text that is one request and nothing more.
fn words_of(alloc: Global, text: &[u8]) -> Result<Option<Request>, NoMemory>
    ensures { IfOk result (λ words. MatchOption words (fence_in text.now ≡ None)
        (λ w. request text.now ≡ found w [])) }
{
    let mut reader = Requests::new(alloc);
    match reader.feed(text) {
        Ok(
            Fed {
                taken,
                request: Some(words),
            },
        ) if taken == text.len() => Ok(Some(words)),
        Ok(fed) => {
            drop(fed);
            Ok(None)
        }
        Err(FeedFault::Memory) => Err(NoMemory),
        Err(FeedFault::Broken(_)) => Ok(None),
        Err(FeedFault::Dead) => Ok(None),
    }
}

// Whether the area stands in the words, or is that of a NEARBY.
fn stands_in_words(area: &Option<AreaWords>) -> bool
    ensures { result ≡ is_in_words area.now }
{
    match area {
        None => true,
        Some(AreaWords::Given(_)) => true,
        Some(AreaWords::Of(_, _)) => false,
    }
}

// Whether an area is watched.
fn is_zone(watch: &Watch) -> bool
    ensures { result ≡ is_none (roams_over watch.now) }
{
    match watch {
        Watch::Zone(_, _) => true,
        Watch::Roam(_, _, _, _) => false,
    }
}

// The channel that a command sets.
fn zone_in(command: Command) -> Option<Channel>
    ensures { result ≡ zone_of (settled None (Some command)) }
{
    match command {
        Command::Channel(command) => zone_set(command),
        Command::Object(other) => {
            drop(other);
            None
        }
        Command::Search(other) => {
            drop(other);
            None
        }
        Command::Session(other) => {
            drop(other);
            None
        }
    }
}

// The channel that a command on channels sets.
fn zone_set(command: ChannelCommand) -> Option<Channel>
    ensures { result ≡ zone_of (settled None (Some (commands.Channel command))) }
{
    let ChannelCommand::Setchan {
        channel,
        area,
        seconds: _,
    } = command
    else {
        return None;
    };
    zone_where(channel, &area)
}

// The channel without a deadline, where it watches an area that stands in the words.
fn zone_where(mut channel: Channel, area: &Option<AreaWords>) -> Option<Channel>
    ensures { (after_ex : Option ℕ)
        → result ≡ zone_of (settled None (Some (commands.Channel (of_channel.Setchan channel area.now after_ex)))) }
{
    if !stands_in_words(area) {
        drop(channel);
        return None;
    }
    if !is_zone(&channel.fence.watch) {
        drop(channel);
        return None;
    }
    channel.deadline = None;
    Some(channel)
}

// The channel of these words.
fn fence_of_request(alloc: Global, words: &Request) -> Result<Option<Channel>, NoMemory>
    ensures found { IfOk result (λ f. f ≡ fence_of_words words.now) }
    ensures sound { IfOk result
        (λ f. IfSome f (λ c. (is_sound_glob c.fence.glob ≡ true) × (roams_over c.fence.watch ≡ None))) }
{
    // What is spelled is sound.
    command_laws();
    match command_of(alloc, words) {
        Ok(command) => Ok(zone_in(command)),
        Err(CommandFault::Refused(_)) => Ok(None),
        Err(CommandFault::Memory) => Err(NoMemory),
    }
}

/// The channel that a text asks for, without a deadline, whatever its EX; none exactly where it is not the text of one
/// request that reads as a SETCHAN with an area given in its words, or a NEARBY with POINT.
pub fn fence_of(alloc: Global, text: &[u8]) -> Result<Option<Channel>, NoMemory>
    ensures found { IfOk result (λ f. f ≡ fence_in text.now) }
    ensures sound { IfOk result
        (λ f. IfSome f (λ c. (is_sound_glob c.fence.glob ≡ true) × (roams_over c.fence.watch ≡ None))) }
{
    match words_of(alloc, text) {
        Ok(Some(words)) => fence_of_request(alloc, &words),
        Ok(None) => Ok(None),
        Err(NoMemory) => Err(NoMemory),
    }
}
