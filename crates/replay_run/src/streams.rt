//! Reading lines from a source.
//!
//! Lines are read byte by byte from a reader that reads ahead (`main` puts a `BufReader` under them): of what stands
//! behind the lines carried out at most one line was read. A line that passes a limit is a fault of that line. A last
//! line without a line feed is carried out; after a read fault a line that was not read whole is not.

ghost use Rattle.std.specs.Prelude.{◌≡◌, ◌+◌, ◌≤◌, ◌<◌, ℕ, List, [], ◌∷◌, length, Some, None, MatchResult, MatchOption};
ghost use Rattle.std.specs.Io.KnownBytes.{Consumes, Keeps, IsAtEnd};
ghost use Rattle.outside.specs.Causes.{HasCause, Rose};
ghost use Rattle.replay_run.specs.TextLines.{max_script};
ghost use Rattle.replay_run.specs.Reads.{IsOneLine, OnLine};

use outside::{Failed, Source};
use script_text::MAX_LINE;

/// The greatest number of bytes of a script.
const MAX_SCRIPT: u64 = 1 << 30;

/// How the reading of a line ended.
#[derive(Clone, Copy, Debug, PartialEq, Eq)]
pub(crate) enum LineEnd {
    /// A line was read.
    Line,
    /// No line is left.
    End,
    /// The line passes a limit.
    TooLong,
    ReadFault,
    Memory,
}

// The next byte; none where the source is at its end.
fn read_byte<S: Source>(source: &mut S) -> Result<Option<u8>, Failed>
    ensures byte { MatchResult result
        (λ o. MatchOption o (IsAtEnd (S.left source.new) × Keeps (S.left source.old) (S.left source.new))
        (λ b. Consumes (S.left source.old) (S.left source.new) (b ∷ [])))
        (λ _. Keeps (S.left source.old) (S.left source.new)) }
    ensures cause { HasCause (S.faults source.old) (S.faults source.new) result }
{
    let mut one = [0u8];
    if source.read(&mut one)? == 0 {
        Ok(None)
    } else {
        Ok(Some(one[0]))
    }
}

/// Reads the next line of a script, without its line feed, into `line`. `used` counts the bytes of the script that were
/// read.
pub(crate) fn read_line<S: Source>(source: &mut S, line: &mut Vec<u8>, used: &mut u64) -> LineEnd
    requires { used.old ≤ max_script }
    ensures told { OnLine result (S.left source.old) (S.left source.new) used.old used.new line.new.items }
    ensures piece { IsOneLine (S.left source.old) (S.left source.new) }
    ensures most { used.new ≤ max_script }
    ensures grows { used.old ≤ used.new }
    ensures some { result ≡ LineEnd.Line → used.old + 1 ≤ used.new }
    ensures later { S.faults source.old ≤ S.faults source.new }
    ensures cause { result ≡ LineEnd.ReadFault → Rose (S.faults source.old) (S.faults source.new) }
{
    line.clear();
    loop {
        let byte = match read_byte(source) {
            Ok(Some(byte)) => byte,
            Ok(None) if line.is_empty() => return LineEnd::End,
            Ok(None) => return LineEnd::Line,
            Err(Failed) => return LineEnd::ReadFault,
        };
        if *used >= MAX_SCRIPT {
            return LineEnd::TooLong;
        }
        *used += 1;
        if byte == b'\n' {
            return LineEnd::Line;
        }
        if line.len() >= MAX_LINE {
            return LineEnd::TooLong;
        }
        if line.push(byte).is_err() {
            return LineEnd::Memory;
        }
    }
}
