//! Images, built word by word: looked at, damaged, and brought to the second version.
ghost use Rattle.std.specs.Prelude.{◌<◌};

use crate::trials::{Command, Trial, bytes_of, outcome_of, whole_outcome};
use clr_streams::Status;
use std::alloc::Global;
use std::process::Abort;
use std::test::Fail;

/// The words of two segments, behind their count. In one of them stands an object.
const SEGMENTS: [u64; 16] = [
    2,
    0x1000_0000,
    16_777_216,
    1,
    0x1000_1018,
    0x1000_1000,
    0x1000_1018,
    0,
    0x7ff0_0000_0040,
    0,
    0x1100_0000,
    16_777_216,
    2,
    0x1100_1000,
    0,
    0,
];

/// What is shown of them, up to the tables.
const SHOWN: &str = "segment 0000000010000000 ephemeral end 0000000010001018 reserved 16777216 \
gen1 0000000010001000 gen0 0000000010001018\n\
segment 0000000011000000 large end 0000000011001000 reserved 16777216\n\
reserved 33554432 limit 268435456\n\
0000000010001000 00007ff000000040 24 N\n\
total 1 bytes 24 free 0\n";

/// What is shown of tables in which nothing stands.
const NO_TABLES: &str = "handles 0\nentries 0 ready 0\n";

/// The words of a node in the ephemeral segment, of the large segment, and of a pinned one in which an array of three
/// bytes and a free item stand. The node names the array.
const PINNED_SEGMENTS: [u64; 29] = [
    3,
    0x1000_0000,
    16_777_216,
    1,
    0x1000_1018,
    0x1000_1000,
    0x1000_1000,
    0,
    0x7ff0_0000_0040,
    0x1200_1000,
    0x1100_0000,
    16_777_216,
    2,
    0x1100_1000,
    0,
    0,
    0x1200_0000,
    16_777_216,
    3,
    0x1200_1038,
    0,
    0,
    0,
    0x7ff0_0000_0080,
    3,
    0x0003_0201,
    0,
    0x7ff0_0000_0000,
    0,
];

/// What is shown of them.
const SHOWN_PINNED: &str =
    "segment 0000000010000000 ephemeral end 0000000010001018 reserved 16777216 \
gen1 0000000010001000 gen0 0000000010001000\n\
segment 0000000011000000 large end 0000000011001000 reserved 16777216\n\
segment 0000000012000000 pinned end 0000000012001038 reserved 16777216\n\
reserved 50331648 limit 268435456\n\
0000000010001000 00007ff000000040 24 N\n\
0000000012001000 00007ff000000080 32 B\n\
0000000012001020 00007ff000000000 24 Free\n\
total 2 bytes 56 free 24\n";

/// Puts words at the end, each with its lowest byte first.
fn put_words(bytes: &mut Vec<u8>, words: &[u64]) -> Result<(), Fail> {
    for word in words {
        bytes.extend_from_slice(&word.to_le_bytes())?;
    }
    Ok(())
}

/// The front of an image of either version, up to the count of types: the limit, and in the second version what large
/// objects are and that large segments are swept.
fn front(alloc: Global, first: bool) -> Result<Vec<u8>, Fail> {
    if first {
        let mut bytes = bytes_of(alloc, b"CLRHEAP1")?;
        put_words(&mut bytes, &[268_435_456])?;
        return Ok(bytes);
    }
    let mut bytes = bytes_of(alloc, b"CLRHEAP2")?;
    put_words(&mut bytes, &[268_435_456, 85_000, 0])?;
    Ok(bytes)
}

/// Puts locals, of which the first names the object at 0x10001000, and in the second version empty tables at the end.
fn put_back(bytes: &mut Vec<u8>, first: bool) -> Result<(), Fail> {
    put_words(bytes, &[0x1000_1000])?;
    put_words(bytes, &[0; 1023])?;
    if !first {
        put_words(bytes, &[0; 84])?;
    }
    Ok(())
}

/// The image of a heap with these two segments, in either version.
fn built(alloc: Global, first: bool) -> Result<Vec<u8>, Fail> {
    let mut bytes = front(alloc, first)?;
    put_words(&mut bytes, &[1, 1])?;
    bytes.push(b'N')?;
    put_words(&mut bytes, &[0, 0, 1])?;
    bytes.push(b'r')?;
    put_words(&mut bytes, &SEGMENTS)?;
    put_back(&mut bytes, first)?;
    Ok(bytes)
}

/// The image of a heap whose object is registered for its finaliser so many times.
fn built_registered(alloc: Global, count: u64) -> Result<Vec<u8>, Fail> {
    let mut bytes = front(alloc, false)?;
    put_words(&mut bytes, &[1, 1])?;
    bytes.push(b'N')?;
    put_words(&mut bytes, &[0, 1, 1])?;
    bytes.push(b'r')?;
    put_words(&mut bytes, &SEGMENTS)?;
    put_words(&mut bytes, &[0; 1_024])?;
    put_words(&mut bytes, &[0; 82])?;
    put_words(&mut bytes, &[count])?;
    for _ in 0..count {
        put_words(&mut bytes, &[0x1000_1000])?;
    }
    put_words(&mut bytes, &[0])?;
    Ok(bytes)
}

/// An image with a pinned segment. Only the second version may have one.
fn built_pinned(alloc: Global, first: bool) -> Result<Vec<u8>, Fail> {
    let mut bytes = front(alloc, first)?;
    put_words(&mut bytes, &[2, 1])?;
    bytes.push(b'N')?;
    put_words(&mut bytes, &[0, 0, 1])?;
    bytes.push(b'r')?;
    put_words(&mut bytes, &[1])?;
    bytes.push(b'B')?;
    put_words(&mut bytes, &[2, 0, 0])?;
    put_words(&mut bytes, &PINNED_SEGMENTS)?;
    put_back(&mut bytes, first)?;
    Ok(bytes)
}

/// The bytes with another word at an offset.
fn with_word(alloc: Global, bytes: &[u8], at: usize, word: u64) -> Result<Vec<u8>, Fail> {
    let (before, rest) = bytes.split_at_checked(at).ok_or("there is no such byte")?;
    let (_, behind) = rest.split_at_checked(8).ok_or("no word stands there")?;
    let mut other = bytes_of(alloc, before)?;
    put_words(&mut other, &[word])?;
    other.extend_from_slice(behind)?;
    Ok(other)
}

/// The first bytes.
fn cut(alloc: Global, bytes: &[u8], count: usize) -> Result<Vec<u8>, Fail> {
    let (before, _) = bytes
        .split_at_checked(count)
        .ok_or("there are fewer bytes")?;
    bytes_of(alloc, before)
}

/// The bytes with one more.
fn longer(alloc: Global, bytes: &[u8]) -> Result<Vec<u8>, Fail> {
    let mut other = bytes_of(alloc, bytes)?;
    other.push(0)?;
    Ok(other)
}

#[test]
fn shows_images(rt: HostRuntime) -> Result<(), Fail> {
    let alloc = rt.alloc();
    let cases = [
        (built(alloc, true)?, [SHOWN, "", "clean\n"]),
        (built(alloc, false)?, [SHOWN, NO_TABLES, "clean\n"]),
        (
            built_pinned(alloc, false)?,
            [SHOWN_PINNED, NO_TABLES, "clean\n"],
        ),
    ];
    for (image, shown) in &cases {
        let mut want = Vec::new(alloc);
        for part in shown {
            want.extend_from_slice(part.as_bytes())?;
        }
        let (status, text) = whole_outcome(alloc, Command::Inspect, image)?;
        assert_eq!(rt; status, Status::Done);
        assert_eq!(rt; text.as_slice(), want.as_slice());
    }
    Ok(())
}

/// What is shown of a heap whose object is registered 3,000 times.
fn shown_registered(alloc: Global) -> Result<Vec<u8>, Fail> {
    let mut text = bytes_of(alloc, SHOWN.as_bytes())?;
    text.extend_from_slice(b"handles 0\n")?;
    for _ in 0..3_000 {
        text.extend_from_slice(b"entry 0000000010001000 N\n")?;
    }
    text.extend_from_slice(b"entries 3000 ready 0\nclean\n")?;
    Ok(text)
}

// The text has 75,000 bytes and more, and goes through a buffer of 65,536. Where there is room for 70,000 the write of
// what the buffer holds at the end fails.
#[test]
fn shows_more_than_a_buffer_holds(rt: HostRuntime) -> Result<(), Fail> {
    let alloc = rt.alloc();
    let image = built_registered(alloc, 3_000)?;
    let want = shown_registered(alloc)?;
    for (room, status, written) in [
        (1_000_000, Status::Done, want.len()),
        (70_000, Status::WriteFault, 70_000),
        (60_000, Status::WriteFault, 60_000),
    ] {
        let trial = Trial {
            command: Command::Inspect,
            input: &image,
            read_piece: 1_000,
            failing_read: 0,
            write_piece: 700,
            failing_write: 0,
            room,
        };
        let (ended, text) = outcome_of(alloc, trial)?;
        assert_eq!(rt; ended, status);
        assert_eq!(rt; text.len(), written);
        assert!(rt; want.as_slice().starts_with(text.as_slice()));
    }
    Ok(())
}

#[test]
fn brings_images_to_the_second_version(rt: HostRuntime) -> Result<(), Fail> {
    let alloc = rt.alloc();
    let pinned = built_pinned(alloc, false)?;
    let second = built(alloc, false)?;
    for (image, want) in [
        (&built(alloc, true)?, &second),
        (&second, &second),
        (&pinned, &pinned),
    ] {
        let (status, migrated) = whole_outcome(alloc, Command::Migrate, image)?;
        assert_eq!(rt; status, Status::Done);
        assert!(rt; migrated.as_slice() == want.as_slice());
    }
    Ok(())
}

#[test]
fn names_the_first_fault(rt: HostRuntime) -> Result<(), Fail> {
    let alloc = rt.alloc();
    let first = built(alloc, true)?;
    let second = built(alloc, false)?;
    let pinned = built_pinned(alloc, false)?;
    let cases = [
        (Vec::new(alloc), "bad image at 0\n"),
        (bytes_of(alloc, b"CLRHEAP1")?, "bad image at 8\n"),
        (bytes_of(alloc, b"CLRHEAP2")?, "bad image at 8\n"),
        (cut(alloc, &first, 100)?, "bad image at 98\n"),
        (cut(alloc, &second, 100)?, "bad image at 98\n"),
        // a reference to no object's place
        (
            with_word(alloc, &first, 130, 0x1000_1008)?,
            "bad image at 130\n",
        ),
        (
            with_word(alloc, &second, 146, 0x1000_1008)?,
            "bad image at 146\n",
        ),
        (longer(alloc, &first)?, "bad image at 8378\n"),
        (longer(alloc, &second)?, "bad image at 9066\n"),
        // the base of a third segment is read from the first local, and lies in the second segment
        (with_word(alloc, &first, 58, 3)?, "bad image at 186\n"),
        (with_word(alloc, &second, 74, 3)?, "bad image at 202\n"),
        // a class in a pinned segment, and a pinned segment in the first version
        (
            with_word(alloc, &pinned, 291, 0x7ff0_0000_0040)?,
            "bad image at 291\n",
        ),
        (built_pinned(alloc, true)?, "bad image at 235\n"),
    ];
    for (bytes, want) in &cases {
        for command in [Command::Inspect, Command::Migrate] {
            let (status, text) = whole_outcome(alloc, command, bytes)?;
            assert_eq!(rt; status, Status::BadImage, "{command:?}, {want}");
            assert_eq!(rt; text.as_slice(), want.as_bytes(), "{command:?}");
        }
    }
    Ok(())
}

/// The read and the write that fail, the status, and how many bytes of the whole answer stand written.
type Failing = ((u64, u64), Status, usize);

/// Of an image that ten reads bring, and a text that takes four writes.
const OF_INSPECT: [Failing; 8] = [
    ((1, 0), Status::ReadFault, 0),
    ((6, 0), Status::ReadFault, 0),
    ((11, 0), Status::ReadFault, 0),
    ((12, 0), Status::Done, 319),
    ((0, 1), Status::WriteFault, 0),
    ((0, 2), Status::WriteFault, 100),
    ((0, 4), Status::WriteFault, 300),
    ((0, 5), Status::Done, 319),
];

/// Of the same image, and one that takes 13 writes.
const OF_MIGRATE: [Failing; 8] = [
    ((1, 0), Status::ReadFault, 0),
    ((6, 0), Status::ReadFault, 0),
    ((11, 0), Status::ReadFault, 0),
    ((12, 0), Status::Done, 9_066),
    ((0, 1), Status::WriteFault, 0),
    ((0, 2), Status::WriteFault, 700),
    ((0, 13), Status::WriteFault, 8_400),
    ((0, 14), Status::Done, 9_066),
];

/// Of a front of an image that one read brings, and the line of 16 bytes for it, which takes four writes.
const OF_NO_IMAGE: [Failing; 8] = [
    ((1, 0), Status::ReadFault, 0),
    ((2, 0), Status::ReadFault, 0),
    ((3, 0), Status::BadImage, 16),
    ((0, 1), Status::WriteFault, 0),
    ((0, 2), Status::WriteFault, 5),
    ((0, 3), Status::WriteFault, 10),
    ((0, 4), Status::WriteFault, 15),
    ((0, 5), Status::BadImage, 16),
];

/// Runs a command over an input once for each row, and wants what the row says. What stands written of an answer that
/// is cut off is its front.
fn expect_rows<'a>(
    rt: &impl Abort,
    alloc: Global,
    command: Command,
    input: &'a [u8],
    pieces: (usize, usize),
    rows: [Failing; 8],
) -> Result<(), Fail>
    requires read { 0 < pieces.0 }
    requires write { 0 < pieces.1 }
{
    let (_, whole) = whole_outcome(alloc, command, input)?;
    for (failing, want, written) in rows {
        let trial = Trial {
            command,
            input,
            read_piece: pieces.0,
            failing_read: failing.0,
            write_piece: pieces.1,
            failing_write: failing.1,
            room: 20_000,
        };
        let (status, text) = outcome_of(alloc, trial)?;
        assert_eq!(rt; status, want, "{command:?}, failing {failing:?}");
        assert_eq!(rt; text.len(), written, "{command:?}, failing {failing:?}");
        assert!(rt;
            whole.as_slice().starts_with(text.as_slice()),
            "{command:?}, failing {failing:?}"
        );
    }
    Ok(())
}

#[test]
fn ends_where_a_call_fails(rt: HostRuntime) -> Result<(), Fail> {
    let alloc = rt.alloc();
    let image = built(alloc, false)?;
    let part = cut(alloc, &image, 100)?;
    expect_rows(
        &rt,
        alloc,
        Command::Inspect,
        &image,
        (1_000, 100),
        OF_INSPECT,
    )?;
    expect_rows(
        &rt,
        alloc,
        Command::Migrate,
        &image,
        (1_000, 700),
        OF_MIGRATE,
    )?;
    expect_rows(&rt, alloc, Command::Inspect, &part, (100, 5), OF_NO_IMAGE)?;
    expect_rows(&rt, alloc, Command::Migrate, &part, (100, 5), OF_NO_IMAGE)
}
