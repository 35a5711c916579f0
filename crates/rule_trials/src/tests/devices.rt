//! Sources and sinks in memory that never fail.
use sol_base::Blob;
use sol_io::{NeverSink, NeverSource, ReadFault, WriteFault, read_all, write_all};
use std::alloc::Global;
use std::test::Fail;

/// More than two reads of `read_all` take.
const LONG: [u8; 160_000] = [7; 160_000];

/// All bytes of a source of these.
fn read(alloc: Global, bytes: &[u8], limit: usize) -> Result<Blob, ReadFault> {
    let mut source = NeverSource::new(Blob::from_slice(alloc, bytes)?);
    read_all(alloc, &mut source, limit)
}

/// How many bytes are read of a source of so many.
fn count_read(alloc: Global, len: usize, limit: usize) -> Result<usize, ReadFault> {
    Ok(read(alloc, LONG.get(..len).unwrap_or(&LONG), limit)?.len())
}

/// How many bytes there are, the limit, and what reading them returns.
const LIMITS: [(usize, usize, Result<usize, ReadFault>); 5] = [
    (0, 0, Ok(0)),
    (1, 0, Err(ReadFault::TooLong)),
    (160_000, 160_000, Ok(160_000)),
    (160_000, 159_999, Err(ReadFault::TooLong)),
    (160_000, 65_536, Err(ReadFault::TooLong)),
];

#[test]
fn reads_up_to_the_limit(rt: HostRuntime) {
    for (len, limit, answer) in &LIMITS {
        assert!(rt; count_read(rt.alloc(), *len, *limit) == *answer);
    }
}

/// Writes the pieces one after the other.
fn write_each(alloc: Global, sink: &mut NeverSink, pieces: &[&[u8]]) -> Result<(), WriteFault> {
    for piece in pieces {
        write_all(alloc, sink, piece)?;
    }
    Ok(())
}

/// Whether a sink that took these pieces, none, and one letter holds four letters.
fn holds_all(alloc: Global, piece: &[u8]) -> Result<bool, WriteFault> {
    let mut sink = NeverSink::new(alloc);
    write_each(alloc, &mut sink, &[piece, b"", b"d"])?;
    Ok(sink.held() == b"abcd".as_slice())
}

#[test]
fn what_was_written_is_kept(rt: HostRuntime) -> Result<(), Fail> {
    let piece = read(rt.alloc(), b"abc", 3)?;
    assert!(rt; holds_all(rt.alloc(), piece.as_slice()) == Ok(true));
    Ok(())
}
