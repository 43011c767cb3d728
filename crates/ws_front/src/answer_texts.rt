//! The bytes of an answer to the head of an HTTP request (RFC 9112).

ghost use Rattle.std.specs.Prelude.{◌≡◌, IfOk};
ghost use Rattle.ws_front.specs.AnswerTexts.{accept_text, answer_text, whole_text};

use crate::heads::Answer;
use crate::page::PAGE;
use byte_text::{NoMemory, Text, push_u64};
use std::alloc::Global;

/// The server's own page.
pub fn own_page() -> &'static [u8]
    ensures { result.now ≡ PAGE.now }
{
    PAGE
}

// The answer that makes a link a WebSocket (RFC 6455, 4.2.2).
fn accept_text(alloc: Global, key: &[u8]) -> Result<Text, NoMemory>
    ensures { IfOk result (λ t. t ≡ accept_text key.now) }
{
    let mut text = Text::new(alloc);
    text.push(
        b"HTTP/1.1 101 Switching Protocols\r\nUpgrade: websocket\r\nConnection: Upgrade\r\n",
    )?;
    text.push(b"Sec-WebSocket-Accept: ")?;
    text.push(key)?;
    text.push(b"\r\n\r\n")?;
    Ok(text)
}

// An answer behind which the link ends. No other page may show it inside of itself.
fn whole_text(alloc: Global, status: &[u8], kind: &[u8], body: &[u8]) -> Result<Text, NoMemory>
    ensures { IfOk result (λ t. t ≡ whole_text status.now kind.now body.now) }
{
    let mut text = Text::new(alloc);
    text.push(b"HTTP/1.1 ")?;
    text.push(status)?;
    text.push(b"\r\nContent-Type: ")?;
    text.push(kind)?;
    text.push(b"; charset=utf-8\r\nContent-Length: ")?;
    push_u64(&mut text, body.len() as u64)?;
    text.push(b"\r\nCache-Control: no-cache\r\nX-Content-Type-Options: nosniff\r\n")?;
    text.push(b"X-Frame-Options: DENY\r\nSec-WebSocket-Version: 13\r\nConnection: close\r\n\r\n")?;
    text.push(body)?;
    Ok(text)
}

/// The bytes of an answer, by a server whose own page is this one.
pub fn answer_text(alloc: Global, answer: &Answer, page: &[u8]) -> Result<Text, NoMemory>
    ensures { IfOk result (λ t. t ≡ answer_text answer.now page.now) }
{
    match answer {
        Answer::WebSocket(key) => accept_text(alloc, key),
        Answer::Page => whole_text(alloc, b"200 OK", b"text/html", page),
        Answer::BadRequest => whole_text(
            alloc,
            b"400 Bad Request",
            b"text/plain",
            b"This is no request for the page or a WebSocket.\n",
        ),
        Answer::Forbidden => whole_text(
            alloc,
            b"403 Forbidden",
            b"text/plain",
            b"This origin was not named to the server.\n",
        ),
        Answer::NotFound => whole_text(
            alloc,
            b"404 Not Found",
            b"text/plain",
            b"There is one page, at /.\n",
        ),
    }
}
