//! Sources and sinks in memory, and all bytes of a source.
use clr_streams::{
    Failed, MemorySink, MemorySource, PlainSource, Sink, Source, Status, read_all, write_all,
};
use std::alloc::Global;
use std::process::Abort;
use std::test::Fail;

/// Reads into two bytes, and wants this count, or a fault, and that the bytes begin so.
fn expect_read<S: Source>(
    rt: &impl Abort,
    source: &mut S,
    want: Result<usize, Failed>,
    front: &[u8],
) {
    let mut into = [0; 2];
    assert_eq!(rt; source.read(&mut into), want);
    assert!(rt; into.starts_with(front));
}

/// Writes a piece, and wants this count, or a fault.
fn expect_written<K: Sink>(
    rt: &impl Abort,
    sink: &mut K,
    piece: &[u8],
    want: Result<usize, Failed>,
) {
    assert_eq!(rt; sink.write(piece), want);
}

#[test]
fn reads_by_pieces_and_fails_where_it_is_told_to(rt: HostRuntime) -> Result<(), Fail> {
    let alloc = rt.alloc();
    let bytes = Vec::from_slice(alloc, b"abcd")?;
    let mut source = MemorySource::new(bytes, 3, Vec::from_slice(alloc, &[2])?);
    expect_read(&rt, &mut source, Ok(2), b"ab");
    expect_read(&rt, &mut source, Err(Failed), b"");
    let mut into = [0; 9];
    assert_eq!(rt; source.read(&mut into), Ok(2));
    expect_read(&rt, &mut source, Ok(0), b"");
    Ok(())
}

#[test]
fn writes_by_pieces_into_its_room(rt: HostRuntime) -> Result<(), Fail> {
    let alloc = rt.alloc();
    let mut sink = MemorySink::new(alloc, 3, 2, Vec::from_slice(alloc, &[2])?)?;
    expect_written(&rt, &mut sink, b"abc", Ok(2));
    expect_written(&rt, &mut sink, b"c", Err(Failed));
    expect_written(&rt, &mut sink, b"cd", Ok(1));
    expect_written(&rt, &mut sink, b"d", Err(Failed));
    expect_written(&rt, &mut sink, b"", Ok(0));
    assert_eq!(rt; sink.bytes(), b"abc".as_slice());
    Ok(())
}

#[test]
fn writes_a_whole_text_or_its_front(rt: HostRuntime) -> Result<(), Fail> {
    let alloc = rt.alloc();
    let mut sink = MemorySink::new(alloc, 6, 2, Vec::new(alloc))?;
    assert_eq!(rt; write_all(&mut sink, b"abcde"), Ok(()));
    assert_eq!(rt; write_all(&mut sink, b"fgh"), Err(Failed));
    assert_eq!(rt; sink.bytes(), b"abcdef".as_slice());
    Ok(())
}

/// All bytes of a source of five, at most so many, or how that ended.
fn all_of_five(alloc: Global, limit: u8) -> Result<Result<Vec<u8>, Status>, Fail> {
    let mut source = PlainSource::new(Vec::from_slice(alloc, b"abcde")?);
    let mut buffer = [0; 2];
    Ok(read_all(alloc, &mut buffer, u64::from(limit), &mut source))
}

#[test]
fn reads_all_bytes_up_to_a_limit(rt: HostRuntime) -> Result<(), Fail> {
    let alloc = rt.alloc();
    for limit in [5, 6] {
        let whole = all_of_five(alloc, limit)?;
        assert!(rt; whole.is_ok_and(|bytes| bytes.as_slice() == b"abcde".as_slice()));
    }
    assert!(rt; all_of_five(alloc, 4)?.is_err_and(|fault| fault == Status::TooMuch));
    Ok(())
}
