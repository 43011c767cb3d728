//! Laws of the texts of asks and parts. They are the contract of a function that does nothing.

ghost use Rattle.repl_stream.specs.Laws.{AsksAreRequests, PartsAreRequests, AsksAreApart, PartsAreApart, KindsAreApart};

use byte_text::{request_texts_differ, requests_are_read};

/// The text of an ask or a part is read as its words, whatever is behind it. None is a proper prefix of another, and
/// each is the text of one ask alone, or of one part with its bytes.
pub fn stream_laws()
    ensures asks { AsksAreRequests }
    ensures parts { PartsAreRequests }
    ensures ask { AsksAreApart }
    ensures part { PartsAreApart }
    ensures kind { KindsAreApart }
{
    requests_are_read();
    request_texts_differ();
}
