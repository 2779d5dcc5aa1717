//! Runs over std's readers and writers.
ghost use Rattle.std.specs.Prelude.{◌<◌};

use super::{EMPTY_HEAP, bytes_of, status_of};
use clr_run::{PlainSink, PlainSource, ReadAdapter, Status, WriteAdapter};
use std::io::{self, ErrorKind, Read, Write};
use std::test::Fail;

/// A reader and a writer that fail.
#[derive(Drop)]
struct Broken;

impl Read for Broken {
    fn read(&mut self, _into: &mut [u8]) -> io::Result<usize> {
        Err(ErrorKind::Other.into())
    }
}

impl Write for Broken {
    fn write(&mut self, _from: &[u8]) -> io::Result<usize> {
        Err(ErrorKind::Other.into())
    }

    fn flush(&mut self) -> io::Result<()> {
        Ok(())
    }
}

#[test]
fn ends_where_a_reader_fails(rt: HostRuntime) -> Result<(), Fail> {
    let mut source = ReadAdapter::new(Broken);
    let status = status_of(rt.alloc(), &["run"], &mut source, &mut PlainSink::new())?;
    assert_eq!(rt; status, Status::ReadFault);
    Ok(())
}

#[test]
fn ends_where_a_writer_fails(rt: HostRuntime) -> Result<(), Fail> {
    let alloc = rt.alloc();
    let mut source = PlainSource::new(bytes_of(alloc, b"dumpheap\n")?);
    let mut sink = WriteAdapter::new(Broken);
    let status = status_of(alloc, &["run"], &mut source, &mut sink)?;
    assert_eq!(rt; status, Status::WriteFault);
    Ok(())
}

#[test]
fn runs_from_a_reader_to_a_writer(rt: HostRuntime) -> Result<(), Fail> {
    let alloc = rt.alloc();
    let mut text = Vec::new(alloc);
    let mut source = ReadAdapter::new(b"dumpheap\n".as_slice());
    let mut sink = WriteAdapter::new(&mut text);
    let status = status_of(alloc, &["run"], &mut source, &mut sink)?;
    assert_eq!(rt; status, Status::Done);
    assert_eq!(rt; text.as_slice(), EMPTY_HEAP.as_bytes());
    Ok(())
}
