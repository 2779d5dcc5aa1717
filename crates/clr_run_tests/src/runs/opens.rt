//! Images that are opened, and scripts that are run from the state that one says.
ghost use Rattle.std.specs.Prelude.{◌<◌};

use super::images::built;
use super::{bytes_of, status_with, whole_outcome};
use clr_run::{MemorySink, MemorySource, Status};
use std::alloc::Global;
use std::test::Fail;

/// An image and a script: which read of each fails, and which write, counted from 1.
#[derive(Clone, Copy)]
struct Opening<'a> {
    image: &'a [u8],
    failing_image_read: u64,
    script: &'a str,
    failing_read: u64,
    failing_write: u64,
}

/// A source of these bytes, of which a read brings at most 10, and this one fails.
fn source_of(alloc: Global, bytes: &[u8], failing: u64) -> Result<MemorySource, Fail> {
    let fails = Vec::from_slice(alloc, &[failing])?;
    Ok(MemorySource::new(bytes_of(alloc, bytes)?, 10, fails))
}

/// How `open` ends, and what it wrote, at most 8 bytes at once.
fn opened(alloc: Global, opening: Opening<'_>) -> Result<(Status, Vec<u8>), Fail> {
    let mut image = source_of(alloc, opening.image, opening.failing_image_read)?;
    let mut source = source_of(alloc, opening.script.as_bytes(), opening.failing_read)?;
    let fails = Vec::from_slice(alloc, &[opening.failing_write])?;
    let mut sink = MemorySink::new(alloc, 1_000, 8, fails)?;
    let words = ["open", "--b0", "262144", "image"];
    let status = status_with(alloc, &words, &mut image, &mut source, &mut sink)?;
    let text = bytes_of(alloc, sink.bytes())?;
    Ok((status, text))
}

/// A script whose first object refers to its second one, which also has a handle.
const MADE: &str =
    "type N class r\nt1 new l0 N\nt1 new l1 N\nt1 set l0 0 l1\nt1 handle weak l1\nt1 null l1\n";

/// Lines that ask for its heap and change it.
const ASKED: &str =
    "gcroot 0000000010001018\ngchandles\nt1 null l0\nt1 collect 2 compacting\ndumpheap\n";

/// The replies to them.
const ANSWERED: &str = "root t1 l0\n0000000010001000 N\n0000000010001018 N\n\
    h0 weak 0000000010001018\nhandles 1\nok\ncollected 2 compact kept 0 freed 2\ntotal 0 bytes 0 free 0\n";

#[test]
fn goes_on_from_what_was_saved(rt: HostRuntime) -> Result<(), Fail> {
    let alloc = rt.alloc();
    let (_, image) = whole_outcome(alloc, "image", MADE.as_bytes())?;
    let opening = Opening {
        image: &image,
        failing_image_read: 0,
        script: ASKED,
        failing_read: 0,
        failing_write: 0,
    };
    let (status, text) = opened(alloc, opening)?;
    assert_eq!(rt; status, Status::Done);
    assert_eq!(rt; text.as_slice(), ANSWERED.as_bytes());
    Ok(())
}

#[test]
fn refuses_other_images_with_the_script_unread(rt: HostRuntime) -> Result<(), Fail> {
    let alloc = rt.alloc();
    let unfit = built(alloc, 16_773_121)?;
    let fit = built(alloc, 16_773_120)?;
    // the image, the write that fails, the status, and what stands written; the first read of the script fails
    let cases: [(&[u8], u64, Status, &str); 7] = [
        (b"", 0, Status::BadImage, "bad image at 0\n"),
        (b"CLRHEAP2", 0, Status::BadImage, "bad image at 8\n"),
        (b"CLRHEAP2", 1, Status::WriteFault, ""),
        (b"CLRHEAP2", 2, Status::WriteFault, "bad imag"),
        (&unfit, 0, Status::BadImage, "unfit image at 16\n"),
        (&unfit, 3, Status::WriteFault, "unfit image at 1"),
        (&fit, 0, Status::ReadFault, ""),
    ];
    for (image, failing_write, want, replies) in cases {
        let opening = Opening {
            image,
            failing_image_read: 0,
            script: "verifyheap\n",
            failing_read: 1,
            failing_write,
        };
        let (status, text) = opened(alloc, opening)?;
        assert_eq!(rt; status, want, "{replies}, failing {failing_write}");
        assert_eq!(rt;
            text.as_slice(),
            replies.as_bytes(),
            "failing {failing_write}"
        );
    }
    Ok(())
}

#[test]
fn ends_where_a_call_fails(rt: HostRuntime) -> Result<(), Fail> {
    let alloc = rt.alloc();
    let image = built(alloc, 85_000)?;
    // the read of the image, of the script and the write that fail, the status, and what stands written (907 reads bring
    // the image, and one more tells its end)
    let cases: [(u64, u64, u64, Status, &str); 10] = [
        (0, 0, 0, Status::Done, "clean\nclean\n"),
        (1, 0, 0, Status::ReadFault, ""),
        (900, 0, 0, Status::ReadFault, ""),
        (908, 0, 0, Status::ReadFault, ""),
        (909, 0, 0, Status::Done, "clean\nclean\n"),
        (0, 1, 0, Status::ReadFault, ""),
        // two reads bring the first line, and the fourth would have told the end
        (0, 3, 0, Status::ReadFault, "clean\n"),
        (0, 4, 0, Status::ReadFault, "clean\nclean\n"),
        (0, 0, 1, Status::WriteFault, ""),
        (0, 0, 2, Status::WriteFault, "clean\n"),
    ];
    for (failing_image_read, failing_read, failing_write, want, replies) in cases {
        let opening = Opening {
            image: &image,
            failing_image_read,
            script: "verifyheap\nverifyheap\n",
            failing_read,
            failing_write,
        };
        let (status, text) = opened(alloc, opening)?;
        assert_eq!(rt;
            status,
            want,
            "failing {failing_image_read}, {failing_read}, {failing_write}"
        );
        assert_eq!(rt;
            text.as_slice(),
            replies.as_bytes(),
            "failing {failing_image_read}, {failing_read}, {failing_write}"
        );
    }
    Ok(())
}
