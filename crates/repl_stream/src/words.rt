//! The words of asks and parts.

ghost use Rattle.std.specs.Prelude.{◌≡◌, ◌<◌, ◌++◌, ℕ, true, length, decimal, Some, IfSome};
ghost use Rattle.std.specs.Prelude.{OnOk, OnErr};
ghost use Rattle.byte_text.specs.Lines.{bulk_text};
ghost use Rattle.repl_stream.specs.Texts.{HasName, IsNumberAt};

use byte_text::{NoMemory, Request, Text, push_bulk, read_u64};
use itoa::Buffer;

/// Whether a request has so many words, the first of them this name.
pub(crate) fn is_named(request: &Request, words: usize, name: &[u8]) -> bool
    requires { 0 < words }
    ensures made { result ≡ true → HasName words name.now request.now }
    ensures only { HasName words name.now request.now → result ≡ true }
{
    request.words() == words && request.word(0) == name
}

/// The number of which the word at a place is the text.
pub(crate) fn number_at(request: &Request, at: usize) -> Option<u64>
    requires { at < length request.now }
    ensures made { IfSome result (λ n. IsNumberAt request.now at n) }
    ensures only { (n : ℕ) → IsNumberAt request.now at n → result ≡ Some n }
{
    read_u64(request.word(at)).ok()
}

/// Appends the text of a number as a bulk string. At want of memory the text is as before.
pub(crate) fn push_number(into: &mut Text, n: u64) -> Result<(), NoMemory>
    ensures ok { OnOk result (into.new ≡ into.old ++ bulk_text (decimal n)) }
    ensures err { OnErr result (into.new ≡ into.old) }
{
    let mut buffer = Buffer::new();
    push_bulk(into, buffer.format(n).as_bytes())
}
