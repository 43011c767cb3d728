//! Requests of lines, whose words stand between spaces. Each of these calls fails, too, where a line makes no request,
//! so that a test ends there.

ghost use Rattle.std.specs.Prelude.{◌≡◌, IfOk, length, true};
ghost use Rattle.std.specs.List.{list_all};
ghost use Rattle.world_model.specs.Outcomes.{is_proper};

use byte_text::{NoMemory, Text, push_array_head, push_bulk};
use resp_frames::Requests;
use std::alloc::Global;
use world_model::{Asked, AskedList};

/// Appends the array of a line's words. For want of memory some of it may stand there.
pub(crate) fn push_line(text: &mut Text, line: &str) -> Result<(), NoMemory> {
    push_array_head(text, line.split(' ').count())?;
    for word in line.split(' ') {
        push_bulk(text, word.as_bytes())?;
    }
    Ok(())
}

/// The request of a line.
pub(crate) fn asked(alloc: Global, line: &str) -> Result<Asked, NoMemory>
    ensures { IfOk result (λ a. is_proper a ≡ true) }
{
    let mut text = Text::new(alloc);
    push_line(&mut text, line)?;
    let Ok(fed) = Requests::new(alloc).feed(text.bytes()) else {
        return Err(NoMemory);
    };
    match fed.request {
        Some(words) if words.words() > 0 => Ok(Asked::Words(words)),
        _ => Err(NoMemory),
    }
}

/// The one request of a line.
pub(crate) fn asked_list(alloc: Global, line: &str) -> Result<AskedList, NoMemory>
    ensures one { IfOk result (λ list. length list ≡ 1) }
    ensures proper { IfOk result (λ list. list_all is_proper list ≡ true) }
{
    let mut list = AskedList::new(alloc);
    match list.push(asked(alloc, line)?) {
        Ok(()) => Ok(list),
        Err(_) => Err(NoMemory),
    }
}
