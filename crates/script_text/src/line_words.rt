//! The words of a line, which spaces part.

ghost use Rattle.std.specs.Prelude.{◌≡◌, ◌==◌, position};
ghost use Rattle.script_text.specs.Words.{words, word_and_rest};

fn first_space(bytes: &[u8]) -> Option<usize>
    ensures { result ≡ position (λ b. b == 32) bytes.now }
{
    bytes.iter().position(|b| *b == b' ')
}

// The first word, and the text behind the space that ends it.
pub(crate) fn split_word(bytes: &[u8]) -> (&[u8], Option<&[u8]>)
    ensures { words bytes.now ≡ word_and_rest result.0.now result.1 }
{
    match first_space(bytes) {
        None => (bytes, None),
        Some(at) => (&bytes[..at], Some(&bytes[at + 1..])),
    }
}
