//! Where the next byte of a request stands, and what each byte there makes of it.

ghost use Rattle.std.specs.Prelude.{◌≡◌, ◌≤◌, ◌<◌, ◌==◌, if◌then◌else◌, IfSome};
ghost use Rattle.byte_text.specs.Requests.{max_word};
ghost use Rattle.byte_text.specs.Streams.{with_byte};
ghost use Rattle.resp_frames.specs.PlaceSteps as steps;

use byte_text::{MAX_REQUEST, MAX_WORD, MAX_WORDS, RespFault};

/// What may still come of a request, before one of its words.
#[derive(Clone, Copy, Debug, PartialEq, Eq)]
pub(crate) struct Ahead {
    /// How many words, the next one too.
    pub words: u32,
    /// How many bytes in them.
    pub bytes: u32,
}

/// Where the next byte of a request stands.
#[derive(Clone, Copy, Debug, PartialEq, Eq)]
pub(crate) enum Place {
    /// In the place of `*`.
    Star,
    /// In the number of words, behind these digits.
    Count(Option<u32>),
    /// In the place of the LF behind that number.
    CountEnd(u32),
    /// In the place of `$`.
    Dollar(Ahead),
    /// In the length of a word, behind these digits.
    Length(Ahead, Option<u32>),
    /// In the place of the LF behind that length.
    LengthEnd(Ahead, u32),
    /// In a word of this length, of which so many bytes are left, or in the place of the CR behind it.
    Word(Ahead, u32, u32),
    /// In the place of the LF behind the word.
    WordEnd(Ahead, u32),
}

/// What comes of one more byte.
#[derive(Clone, Copy, Debug, PartialEq, Eq)]
pub(crate) enum Next {
    Goes(Place),
    /// The byte is the last of a request.
    Whole,
    /// The byte is none of any request.
    Fails(RespFault),
}

// The number that one more digit makes, where it stays canonical.
fn digit_after(digits: Option<u32>, byte: u8) -> Option<u32>
    requires { IfSome digits (λ n. n ≤ max_word) }
    ensures { result ≡ with_byte digits byte }
{
    if !byte.is_ascii_digit() {
        return None;
    }
    let digit = (byte - b'0') as u32;
    match digits {
        None => Some(digit),
        Some(0) => None,
        Some(n) => Some(n * 10 + digit),
    }
}

fn count_digit(digits: Option<u32>) -> Next
    ensures { result ≡ steps.count_digit digits }
{
    match digits {
        None => Next::Fails(RespFault::BadLength),
        Some(0) => Next::Fails(RespFault::BadLength),
        Some(n) => {
            if n <= MAX_WORDS as u32 {
                Next::Goes(Place::Count(Some(n)))
            } else {
                Next::Fails(RespFault::TooMany)
            }
        }
    }
}

fn length_digit(ahead: Ahead, digits: Option<u32>) -> Next
    ensures { result ≡ steps.length_digit ahead digits }
{
    match digits {
        None => Next::Fails(RespFault::BadLength),
        Some(n) => {
            if n <= MAX_WORD as u32 && n <= ahead.bytes {
                Next::Goes(Place::Length(ahead, Some(n)))
            } else {
                Next::Fails(RespFault::TooLong)
            }
        }
    }
}

fn count_step(digits: Option<u32>, byte: u8) -> Next
    requires { IfSome digits (λ n. n ≤ max_word) }
    ensures { result ≡ steps.count_step digits byte }
{
    if byte == b'\r' {
        match digits {
            None => Next::Fails(RespFault::BadLength),
            Some(n) => Next::Goes(Place::CountEnd(n)),
        }
    } else {
        count_digit(digit_after(digits, byte))
    }
}

fn length_step(ahead: Ahead, digits: Option<u32>, byte: u8) -> Next
    requires { IfSome digits (λ n. n ≤ max_word) }
    ensures { result ≡ steps.length_step ahead digits byte }
{
    if byte == b'\r' {
        match digits {
            None => Next::Fails(RespFault::BadLength),
            Some(n) => Next::Goes(Place::LengthEnd(ahead, n)),
        }
    } else {
        length_digit(ahead, digit_after(digits, byte))
    }
}

fn word_step(ahead: Ahead, len: u32, left: u32, byte: u8) -> Next
    ensures { result ≡ steps.word_step ahead len left byte }
{
    if left > 0 {
        Next::Goes(Place::Word(ahead, len, left - 1))
    } else if byte == b'\r' {
        Next::Goes(Place::WordEnd(ahead, len))
    } else {
        Next::Fails(RespFault::BadEnd)
    }
}

fn word_end(ahead: Ahead, len: u32) -> Next
    requires { (0 < ahead.words) × (len ≤ ahead.bytes) }
    ensures { result ≡ steps.word_end ahead len }
{
    if ahead.words == 1 {
        Next::Whole
    } else {
        Next::Goes(Place::Dollar(Ahead {
            words: ahead.words - 1,
            bytes: ahead.bytes - len,
        }))
    }
}

// Goes on where the byte is the only one that may stand there.
fn only(byte: u8, wanted: u8, fault: RespFault, behind: Place) -> Next
    ensures { result ≡ (if byte == wanted then Next.Goes behind else Next.Fails fault) }
{
    if byte == wanted {
        Next::Goes(behind)
    } else {
        Next::Fails(fault)
    }
}

// What comes of a byte at a place.
pub(crate) fn step(place: Place, byte: u8) -> Next
    requires { steps.HasNumbers place }
    ensures { result ≡ steps.step place byte }
{
    match place {
        Place::Star => only(byte, b'*', RespFault::BadType, Place::Count(None)),
        Place::Count(digits) => count_step(digits, byte),
        Place::CountEnd(words) => {
            let bytes = MAX_REQUEST as u32;
            let ahead = Ahead { words, bytes };
            only(byte, b'\n', RespFault::BadEnd, Place::Dollar(ahead))
        }
        Place::Dollar(ahead) => only(byte, b'$', RespFault::BadType, Place::Length(ahead, None)),
        Place::Length(ahead, digits) => length_step(ahead, digits, byte),
        Place::LengthEnd(ahead, n) => only(
            byte,
            b'\n',
            RespFault::BadEnd,
            Place::Word(ahead, n, n),
        ),
        Place::Word(ahead, len, left) => word_step(ahead, len, left, byte),
        Place::WordEnd(ahead, len) => {
            if byte == b'\n' {
                word_end(ahead, len)
            } else {
                Next::Fails(RespFault::BadEnd)
            }
        }
    }
}
