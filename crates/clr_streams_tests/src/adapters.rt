//! The edge to std's readers and writers.
use clr_streams::{Failed, ReadAdapter, Sink, Source, WriteAdapter};
use std::io::{self, ErrorKind, Read, Write};
use std::test::Fail;

/// A reader and a writer that fail.
#[derive(Drop)]
struct Broken;

impl Read for Broken {
    fn read(&mut self, _into: &mut [u8]) -> io::Result<usize> {
        Err(ErrorKind::Other.into())
    }
}

impl Write for Broken {
    fn write(&mut self, _from: &[u8]) -> io::Result<usize> {
        Err(ErrorKind::Other.into())
    }

    fn flush(&mut self) -> io::Result<()> {
        Ok(())
    }
}

#[test]
fn adapts_a_reader(rt: HostRuntime) -> Result<(), Fail> {
    let mut source = ReadAdapter::new(b"abc".as_slice());
    let mut into = [0; 2];
    assert_eq!(rt; source.read(&mut into), Ok(2));
    assert_eq!(rt; into, [b'a', b'b']);
    assert_eq!(rt; source.read(&mut into), Ok(1));
    assert_eq!(rt; into, [b'c', b'b']);
    assert_eq!(rt; source.read(&mut into), Ok(0));
    assert_eq!(rt; ReadAdapter::new(Broken).read(&mut into), Err(Failed));
    let none: Option<&[u8]> = None;
    assert_eq!(rt; ReadAdapter::opened(none).read(&mut into), Err(Failed));
    Ok(())
}

#[test]
fn adapts_a_writer(rt: HostRuntime) -> Result<(), Fail> {
    let mut bytes = [0; 3];
    let mut sink = WriteAdapter::new(bytes.as_mut_slice());
    assert_eq!(rt; sink.write(b"abcd"), Ok(3));

    // a write that takes nothing, though there is something to take
    assert_eq!(rt; sink.write(b"d"), Err(Failed));
    assert_eq!(rt; sink.write(b""), Ok(0));
    assert_eq!(rt; WriteAdapter::new(Broken).write(b"a"), Err(Failed));
    Ok(())
}
