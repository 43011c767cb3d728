//! Requests of words.

ghost use Rattle.std.specs.Prelude.{◌≡◌, IfOk, true};
ghost use Rattle.world_model.specs.Outcomes.{is_proper};

use crate::faults::Fault;
use byte_text::{Text, push_array_head, push_bulk};
use resp_frames::Requests;
use std::alloc::Global;
use world_model::Asked;

fn push_request(text: &mut Text, words: &str) -> Result<(), Fault> {
    push_array_head(text, words.split(' ').count())?;
    for word in words.split(' ') {
        push_bulk(text, word.as_bytes())?;
    }
    Ok(())
}

/// What a session asks for by words between spaces.
pub(crate) fn asked_of(alloc: Global, words: &str) -> Result<Asked, Fault>
    ensures { IfOk result (λ a. is_proper a ≡ true) }
{
    let mut text = Text::new(alloc);
    push_request(&mut text, words)?;
    let Ok(fed) = Requests::new(alloc).feed(text.bytes()) else {
        return Err(Fault::Memory);
    };
    match fed.request {
        Some(words) if words.words() > 0 => Ok(Asked::Words(words)),
        _ => Err(Fault::Line),
    }
}
