//! The frames of messages, each made once for all that hear it.

ghost use Rattle.std.specs.Prelude.{◌≡◌, ◌<◌, ◌∷◌, [], true, IfOk, IfSome, OnOk, if◌then◌else◌};
ghost use Rattle.world_model.specs.Halls.{message_frame as frame_of_message, pattern_frame as frame_of_pattern};
ghost use Rattle.byte_text.specs.Globs as globs;
ghost use Rattle.world_model.specs.Halls.{pattern_meets};
ghost use Rattle.session_table.specs.Mail.{Stages};
ghost use Rattle.session_table.specs.Marks.{mark_of as mark_of_bytes, marks};
ghost use Rattle.session_table.specs.Sessions.{is_sound_sub};

use crate::Subscription;
use crate::mailboxes::Mailbox;
use crate::marks::mark_of;
use byte_text::{Name, NoMemory, Text, push_array_head, push_bulk};
use glob_match::glob_meets;
use ordered_lists::is_same;
use std::alloc::Global;
use std::marker::Model;

// More bytes than a frame has beside its names and its payload, but for the longest payloads.
const FRAMING: usize = 64;

// The text of a frame, still empty, whose names have so many bytes. Its room is taken at once, and not piece by piece.
fn roomy(alloc: Global, names: usize, payload: &Text) -> Result<Text, NoMemory>
    ensures { IfOk result (λ t. t ≡ []) }
{
    let room = payload.len().saturating_add(names).saturating_add(FRAMING);
    Text::with_room(alloc, room)
}

// The frame of a message to those that hold the channel's name.
fn message_frame(alloc: Global, name: &Name, payload: &Text) -> Result<Text, NoMemory>
    ensures { IfOk result (λ t. t ≡ frame_of_message (name.now, payload.now)) }
{
    let mut frame = roomy(alloc, name.bytes().len(), payload)?;
    push_array_head(&mut frame, 3)?;
    push_bulk(&mut frame, b"message")?;
    push_bulk(&mut frame, name.bytes())?;
    push_bulk(&mut frame, payload.bytes())?;
    Ok(frame)
}

// The frame of a message to those that hold a pattern that the channel's name meets.
fn pattern_frame(
    alloc: Global,
    pattern: &Name,
    name: &Name,
    payload: &Text,
) -> Result<Text, NoMemory>
    ensures { IfOk result (λ t. t ≡ frame_of_pattern pattern.now (name.now, payload.now)) }
{
    let names = pattern.bytes().len() + name.bytes().len();
    let mut frame = roomy(alloc, names, payload)?;
    push_array_head(&mut frame, 4)?;
    push_bulk(&mut frame, b"pmessage")?;
    push_bulk(&mut frame, pattern.bytes())?;
    push_bulk(&mut frame, name.bytes())?;
    push_bulk(&mut frame, payload.bytes())?;
    Ok(frame)
}

/// The frame for a pattern that the name of a message meets.
#[derive(Drop)]
pub(crate) struct PatternFrame {
    pattern: Name,
    frame: Text,
}

/// A message on its way to the sessions that hear it: a channel's name and a payload. A frame is made when the first
/// one hears it, and kept for the others: that for the name, and that for the pattern that was met last, since many
/// sessions hold the same one.
#[derive(Drop)]
pub(crate) struct Sending<'a> {
    alloc: Global,
    name: &'a Name,
    mark: usize,
    payload: &'a Text,
    for_name: Option<Text>,
    for_pattern: Option<PatternFrame>,
}

impl<'a> Model for Sending<'a> {
    ghost use Rattle.std.specs.Prelude.{◌≡◌};
    ghost use Rattle.fence_model.specs.Messages.{Message};
    ghost use Rattle.session_table.specs.Marks.{mark_of};
    ghost use Rattle.session_table.specs.Sendings.{IsForName, IsForPattern};

    ghost Value = { Message };

    ghost view = { λ s. (s.name.now, s.payload.now) };

    ghost invariant = { λ s. (s.mark ≡ mark_of s.name.now) × IsForName (s.name.now, s.payload.now) s.for_name
        × IsForPattern (s.name.now, s.payload.now) s.for_pattern };
}

impl<'a> Sending<'a> {
    /// A message that nobody has heard yet. It takes no memory; its frames take it from `alloc`.
    pub(crate) fn new(alloc: Global, name: &'a Name, payload: &'a Text) -> Sending<'a>
        ensures { result ≡ (name.now, payload.now) }
    {
        Sending {
            alloc,
            name,
            mark: mark_of(name),
            payload,
            for_name: None,
            for_pattern: None,
        }
    }

    /// The name of the channel.
    pub(crate) fn name(&self) -> &'a Name
        ensures { result.now ≡ self.now.0 }
    {
        self.name
    }

    /// The mark of the channel's name.
    pub(crate) fn mark(&self) -> usize
        ensures mark { result ≡ mark_of_bytes self.now.0 }
        ensures small { result < marks }
    {
        self.mark
    }

    /// Stages the frame for those that hold the name. For want of memory nothing is staged.
    pub(crate) fn stage_for_name(&mut self, mail: &mut Mailbox) -> Result<(), NoMemory>
        ensures message { self.new ≡ self.old }
        ensures frames { mail.new.frames ≡ mail.old.frames }
        ensures staged { OnOk result (Stages (frame_of_message self.old ∷ []) mail.old mail.new) }
    {
        if let Some(frame) = &self.for_name {
            return mail.stage(frame.bytes());
        }
        let frame = message_frame(self.alloc, self.name, self.payload)?;
        mail.stage(frame.bytes())?;
        self.for_name = Some(frame);
        Ok(())
    }

    // Stages the frame for those that hold a pattern that the name meets. For want of memory nothing is staged, or it is
    // not kept.
    fn stage_met(&mut self, pattern: &Name, mail: &mut Mailbox) -> Result<(), NoMemory>
        requires { globs.glob_meets pattern.now self.old.0 ≡ true }
        ensures message { self.new ≡ self.old }
        ensures frames { mail.new.frames ≡ mail.old.frames }
        ensures staged { OnOk result (Stages (frame_of_pattern pattern.now self.old ∷ []) mail.old mail.new) }
    {
        let frame = pattern_frame(self.alloc, pattern, self.name, self.payload)?;
        mail.stage(frame.bytes())?;
        let pattern = pattern.copy(self.alloc)?;
        self.for_pattern = Some(PatternFrame { pattern, frame });
        Ok(())
    }

    // The frame for this pattern, where it is the one that was met last.
    fn made_for(&self, pattern: &Name) -> Option<&Text>
        ensures { IfSome result (λ t. (globs.glob_meets pattern.now self.now.0 ≡ true)
            × (t.now ≡ frame_of_pattern pattern.now self.now)) }
    {
        match &self.for_pattern {
            Some(made) => {
                if is_same(&made.pattern, pattern) {
                    Some(&made.frame)
                } else {
                    None
                }
            }
            None => None,
        }
    }

    /// Stages the frame for those that hold a pattern, where it is one and the name meets it. For want of memory nothing
    /// is staged, or it is not kept.
    pub(crate) fn stage_for(
        &mut self,
        sub: &Subscription,
        mail: &mut Mailbox,
    ) -> Result<(), NoMemory>
        requires { is_sound_sub sub.now ≡ true }
        ensures message { self.new ≡ self.old }
        ensures frames { mail.new.frames ≡ mail.old.frames }
        ensures staged { OnOk result
            (Stages (if pattern_meets self.old.0 sub.now then frame_of_pattern sub.now.word self.old ∷ [] else [])
            mail.old mail.new) }
    {
        if !sub.is_pattern() {
            return Ok(());
        }
        if let Some(frame) = self.made_for(sub.word()) {
            return mail.stage(frame.bytes());
        }
        if !glob_meets(sub.word().bytes(), self.name.bytes()) {
            return Ok(());
        }
        self.stage_met(sub.word(), mail)
    }
}
