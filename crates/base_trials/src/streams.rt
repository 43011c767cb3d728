//! Sources and sinks in memory.

use outside::{BytesSink, BytesSource, Failed, Sink, Source};
use std::test::Fail;

#[test]
fn a_source_gives_pieces_and_fails_where_it_is_told(rt: HostRuntime) -> Result<(), Fail> {
    let alloc = rt.alloc();
    let mut source = BytesSource::new(b"abcde".to_vec(alloc)?, 2, [2u64].to_vec(alloc)?);
    let mut into = [b'.'; 4];
    for (count, after) in [
        (Ok(2), *b"ab.."),
        (Err(Failed), *b"ab.."),
        (Ok(2), *b"cd.."),
        (Ok(1), *b"ed.."),
        (Ok(0), *b"ed.."),
    ] {
        assert_eq!(rt; source.read(&mut into), count);
        assert_eq!(rt; into, after);
    }
    Ok(())
}

#[test]
fn a_sink_takes_pieces_and_fails_where_it_is_told(rt: HostRuntime) -> Result<(), Fail> {
    let alloc = rt.alloc();
    let mut sink = BytesSink::new(alloc, 2, [2u64].to_vec(alloc)?);
    for (piece, count, held) in [
        (b"abc", Ok(2), b"ab".as_slice()),
        (b"xyz", Err(Failed), b"ab".as_slice()),
        (b"cde", Ok(2), b"abcd".as_slice()),
    ] {
        assert_eq!(rt; sink.write(piece), count);
        assert_eq!(rt; sink.written(), held);
    }
    assert_eq!(rt; sink.write(b""), Ok(0));
    Ok(())
}
