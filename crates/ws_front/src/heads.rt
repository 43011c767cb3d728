//! What the head of an HTTP request is answered.

ghost use Rattle.std.specs.Prelude.{◌≡◌};
ghost use Rattle.ws_front.specs.Heads.{answer_of};
ghost use Rattle.ws_front.specs.Origins.{bytes_of};

use crate::origins::is_allowed;

/// Whether a head asks for a WebSocket (RFC 6455, "Reading the Client's Opening Handshake").
#[derive(Clone, Copy, Debug, PartialEq, Eq)]
pub enum Upgrade {
    /// It asks for none.
    None,
    /// It asks for one, and its key is answered by this one.
    WebSocket([u8; 28]),
    /// It asks for one, and not as it has to.
    Wrong,
}

/// What a head says that matters here.
#[derive(Clone, Copy)]
pub struct Head<'a> {
    /// Whether its method is GET.
    pub is_get: bool,
    /// What it asks for.
    pub path: &'a [u8],
    /// The origin that it names.
    pub origin: Option<&'a [u8]>,
    /// Whether it asks for a WebSocket.
    pub upgrade: Upgrade,
}

/// What a head is answered.
#[derive(Clone, Copy, Debug, PartialEq, Eq)]
pub enum Answer {
    /// 101, with this key: the link is a WebSocket from now on.
    WebSocket([u8; 28]),
    /// 200, and the page.
    Page,
    /// 400.
    BadRequest,
    /// 403.
    Forbidden,
    /// 404.
    NotFound,
}

/// What a head is answered by a server that listens at the address `own`, and takes the origins that were named with a
/// comma between two.
pub fn answer_to(head: &Head<'_>, own: &[u8], named: &[u8]) -> Answer
    ensures { result
        ≡ answer_of head.now.is_get head.now.path.now (bytes_of head.now.origin) head.now.upgrade own.now named.now }
{
    if !head.is_get {
        return Answer::BadRequest;
    }
    if !is_allowed(head.origin, own, named) {
        return Answer::Forbidden;
    }
    if head.path != b"/".as_slice() {
        return Answer::NotFound;
    }
    match head.upgrade {
        Upgrade::None => Answer::Page,
        Upgrade::WebSocket(key) => Answer::WebSocket(key),
        Upgrade::Wrong => Answer::BadRequest,
    }
}
