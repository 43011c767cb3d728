//! Tables of cases and answers, a line each.

use byte_text::Text;
use std::alloc::Global;
use std::process::Abort;
use std::test::Fail;

/// What gives the cases of a table their answers.
pub(crate) trait Answers {
    /// The answer to a case, as a line of text.
    fn answer(alloc: Global, case: &str) -> Result<Text, Fail>;
}

// Whether bytes are written so, a carriage return as `<`, and a line feed as `>`.
fn is_written(bytes: &[u8], written: &[u8]) -> bool {
    if bytes.len() != written.len() {
        return false;
    }
    for (byte, sign) in bytes.iter().zip(written) {
        let is_so = match *sign {
            b'<' => *byte == b'\r',
            b'>' => *byte == b'\n',
            other => *byte == other,
        };
        if !is_so {
            return false;
        }
    }
    true
}

/// Each line of a table has a case, an arrow, and the answer to the case, in which `<` stands for a carriage return, and `>` for a line feed.
pub(crate) fn are_answered<A: Answers>(
    rt: &impl Abort,
    alloc: Global,
    table: &str,
) -> Result<(), Fail> {
    for line in table.trim().lines() {
        let Some((case, wanted)) = line.trim_start().split_once(" => ") else {
            return Err(Fail::from("a line without an arrow"));
        };
        let answer = A::answer(alloc, case)?;
        assert!(rt; is_written(answer.bytes(), wanted.as_bytes()), "at {case}");
    }
    Ok(())
}

/// The text of `yes` or `no`.
pub(crate) fn yes_or_no(alloc: Global, answer: bool) -> Result<Text, Fail> {
    let word = if answer { "yes" } else { "no" };
    Ok(Text::of(alloc, word.as_bytes())?)
}
