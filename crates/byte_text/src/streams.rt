//! Laws of streams of requests. Each is the contract of a function that does nothing.
//!
//! A stream of requests is defined by a grammar that computes. Its fault is what the grammar says at the first byte
//! that fits no request, so it does not depend on how the stream was cut.

ghost use Rattle.std.specs.Prelude.{◌≡◌, ℕ, List, ◌++◌, ◌∷◌};
ghost use Rattle.byte_text.specs.Names.{Bytes};
ghost use Rattle.byte_text.specs.Requests.{IsRequest, IsRequestText, request_text};
ghost use Rattle.byte_text.specs.Streams.{found, begun, broken, request, stream_of, fed, with_first, only_rest};
ghost use Rattle.byte_text.specs.Streams.{only_fault};
ghost use Rattle.byte_text.specs.declared.faults.RespFault.{RespFault};

/// What is read as a request is a request's text, and the other way round; bytes are the beginning of a request exactly
/// where they are read as one that has begun; and behind a fault nothing is read.
pub fn requests_are_read()
    ensures text { (words : List Bytes) (behind : Bytes) → IsRequest words
        → request (request_text words ++ behind) ≡ found words behind }
    ensures found { (bytes behind : Bytes) (words : List Bytes) → request bytes ≡ found words behind
        → IsRequest words × (bytes ≡ request_text words ++ behind) }
    ensures begun { (bytes : Bytes) → request bytes ≡ begun
        → (b : ℕ) × (more : Bytes) × IsRequestText (bytes ++ b ∷ more) }
    ensures beginning { (bytes more : Bytes) (b : ℕ) → IsRequestText (bytes ++ b ∷ more)
        → request bytes ≡ begun }
    ensures broken { (bytes more : Bytes) (fault : RespFault) → request bytes ≡ broken fault
        → request (bytes ++ more) ≡ broken fault }
{}

/// However the bytes of a stream are cut, its requests, its rest and its fault are the same; and they are those at its
/// front, and then those of the bytes behind it.
pub fn streams_read_once()
    ensures cut { (bytes more : Bytes) → stream_of (bytes ++ more) ≡ fed (stream_of bytes) more }
    ensures found { (bytes behind : Bytes) (words : List Bytes) → request bytes ≡ found words behind
        → stream_of bytes ≡ with_first words (stream_of behind) }
    ensures begun { (bytes : Bytes) → request bytes ≡ begun → stream_of bytes ≡ only_rest bytes }
    ensures broken { (bytes : Bytes) (fault : RespFault) → request bytes ≡ broken fault
        → stream_of bytes ≡ only_fault fault }
{}
