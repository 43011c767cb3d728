//! Who may speak to the server from a page.
//!
//! A browser lets each page open a WebSocket to any address, the machine's own among them, and names the page's origin
//! (RFC 6454) in the request. So a request that names one is taken only from the server's own page, or from one that
//! was named by whoever runs the server; programs name none. `null` is what a browser says of a page without an origin,
//! and many such pages are strangers: it is never taken.

ghost use Rattle.std.specs.Prelude.{◌≡◌};
ghost use Rattle.ws_front.specs.Origins.{bytes_of, is_allowed, is_bare, is_local, is_named, is_own};

/// The bytes before the address in the origin of the server's own page.
const SCHEME: &[u8] = b"http://";

/// The name by which a page of this machine is known, too.
const LOCAL: &[u8] = b"localhost";

/// How an address ends whose port an origin leaves out.
const COMMON_PORT: &[u8] = b":80";

// Whether an origin without its scheme is `localhost` with the port of this address.
fn is_local(host: &[u8], own: &[u8]) -> bool
    ensures { result ≡ is_local host.now own.now }
{
    if !host.starts_with(LOCAL) {
        return false;
    }
    let port = &host[LOCAL.len()..];
    port.starts_with(b":") && own.ends_with(port)
}

// Whether an origin without its scheme is one without a port, as browsers write it where the port is 80.
fn is_bare(host: &[u8], own: &[u8]) -> bool
    ensures { result ≡ is_bare host.now own.now }
{
    if !own.ends_with(COMMON_PORT) {
        return false;
    }
    let name = &own[..own.len() - COMMON_PORT.len()];
    host == name || host == LOCAL
}

// Whether an origin is that of the server's own page.
fn is_own(origin: &[u8], own: &[u8]) -> bool
    ensures { result ≡ is_own origin.now own.now }
{
    if !origin.starts_with(SCHEME) {
        return false;
    }
    let host = &origin[SCHEME.len()..];
    host == own || is_local(host, own) || is_bare(host, own)
}

// Whether an origin is one of those that were named, a comma between two.
fn is_named(origin: &[u8], named: &[u8]) -> bool
    ensures { result ≡ is_named origin.now named.now }
{
    let mut start = 0;
    for i in 0..named.len() {
        if named[i] == b',' {
            if origin == &named[start..i] {
                return true;
            }
            start = i + 1;
        }
    }
    origin == &named[start..]
}

/// Whether a request of this origin is taken, where the server listens at the address `own`, and those of other pages
/// were named with a comma between two. A request that names no origin is taken.
pub fn is_allowed(origin: Option<&[u8]>, own: &[u8], named: &[u8]) -> bool
    ensures { result ≡ is_allowed (bytes_of origin.entry) own.now named.now }
{
    match origin {
        None => true,
        Some(origin) => {
            !origin.is_empty()
                && origin != b"null".as_slice()
                && (is_own(origin, own) || is_named(origin, named))
        }
    }
}
