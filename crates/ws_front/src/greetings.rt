//! The first bytes of a link that speaks HTTP: the head of its request, and what that is answered.

ghost use Rattle.std.specs.Prelude.{◌≡◌, length, take, All, option_map};
ghost use Rattle.std.specs.List.{count_by};
ghost use Rattle.httparse.specs.Spans.{IsHeaderWithin, IsRequestWithin, span_bytes};
ghost use Rattle.websocket.specs.Headers.{eq_ignore_case, fields_of, header_value};
ghost use Rattle.ws_front.specs.Greetings.{Asks, AnswersHead, Greets, has_name};

use crate::heads::{Answer, Head, Upgrade, answer_to};
use httparse::Status;
use httparse::spans::{EMPTY_HEADER_SPAN, HeaderSpan, RequestSpans, parse_request};
use websocket::handshake::server::check_request;

/// The most bytes of a head that is not whole.
pub const MAX_HEAD: usize = 65_536;

/// The most fields of a head.
const MAX_FIELDS: usize = 64;

/// What the first bytes of a link come to.
#[derive(Clone, Copy, Debug, PartialEq, Eq)]
pub enum Greeting {
    /// No head yet.
    Begun,
    /// A head of so many bytes, which is answered so.
    Whole(Answer, usize),
    /// No head, and none that is taken.
    Broken,
}

// Whether two texts are equal but for the case of letters.
fn eq_ignore_case(a: &[u8], b: &[u8]) -> bool
    ensures { result ≡ eq_ignore_case a.now b.now }
{
    a.eq_ignore_ascii_case(b)
}

// The value of the first field of this name.
fn first_value<'b>(buf: &'b [u8], fields: &[HeaderSpan], name: &[u8]) -> Option<&'b [u8]>
    requires { All (IsHeaderWithin (length buf.now)) fields.now }
    ensures { option_map (λ v. v.now) result ≡ header_value (fields_of buf.now fields.now) name.now }
{
    for field in fields {
        if eq_ignore_case(field.name.of(buf), name) {
            return Some(field.value.of(buf));
        }
    }
    None
}

// How many fields of this name there are.
fn count_of(buf: &[u8], fields: &[HeaderSpan], name: &[u8]) -> usize
    requires { All (IsHeaderWithin (length buf.now)) fields.now }
    ensures { result ≡ count_by (has_name name.now) (fields_of buf.now fields.now) }
{
    let mut count = 0;
    for field in fields {
        if eq_ignore_case(field.name.of(buf), name) {
            count += 1;
        }
    }
    count
}

// Whether a head asks for a WebSocket.
fn upgrade_of(buf: &[u8], request: &RequestSpans, fields: &[HeaderSpan]) -> Upgrade
    requires { IsRequestWithin buf.now fields.now request.now }
    ensures { Asks (span_bytes buf.now request.now.method) request.now.version
        (fields_of buf.now (take request.now.headers fields.now)) result }
{
    if first_value(buf, &fields[..request.headers], b"Upgrade").is_none() {
        return Upgrade::None;
    }
    match check_request(buf, request, fields) {
        Ok(key) => Upgrade::WebSocket(key),
        Err(_) => Upgrade::Wrong,
    }
}

// What a head is answered.
fn head_answer(
    buf: &[u8],
    request: &RequestSpans,
    fields: &[HeaderSpan],
    own: &[u8],
    named: &[u8],
) -> Answer
    requires { IsRequestWithin buf.now fields.now request.now }
    ensures { AnswersHead (span_bytes buf.now request.now.method) (span_bytes buf.now request.now.path)
        request.now.version (fields_of buf.now (take request.now.headers fields.now)) own.now named.now result }
{
    let written = &fields[..request.headers];
    if count_of(buf, written, b"Origin") > 1 {
        return Answer::BadRequest;
    }
    let head = Head {
        is_get: request.method.of(buf) == b"GET".as_slice(),
        path: request.path.of(buf),
        origin: first_value(buf, written, b"Origin"),
        upgrade: upgrade_of(buf, request, fields),
    };
    answer_to(&head, own, named)
}

/// What the first bytes of a link come to at a server that listens at the address `own`, and takes the origins that
/// were named with a comma between two. What the kit's parser reads is a head (RFC 9112): so its grammar says.
pub fn greet(bytes: &[u8], own: &[u8], named: &[u8]) -> Greeting
    ensures { Greets bytes.now own.now named.now result }
{
    let mut fields = [EMPTY_HEADER_SPAN; MAX_FIELDS];
    match parse_request(bytes, &mut fields) {
        Ok(Status::Complete(request)) => Greeting::Whole(
            head_answer(bytes, &request, &fields, own, named),
            request.len,
        ),
        Ok(Status::Partial) if bytes.len() < MAX_HEAD => Greeting::Begun,
        Ok(Status::Partial) | Err(_) => Greeting::Broken,
    }
}
