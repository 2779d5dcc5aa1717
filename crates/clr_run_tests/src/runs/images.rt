//! Images that are made of a script. What one is compared with is built here, word by word.
ghost use Rattle.std.specs.Prelude.{◌<◌};

use super::{Trial, bytes_of, outcome_of, whole_outcome};
use clr_run::Status;
use std::alloc::Global;
use std::test::Fail;

/// One object, which a collection has made a generation older.
const SCRIPT: &str = "type N class r\nt1 new l0 N\nt1 collect 0 sweeping\n";

/// The words of its two segments, behind their count.
const SEGMENTS: [u64; 16] = [
    2,
    0x1000_0000,
    16_777_216,
    1,
    0x1000_1018,
    0x1000_1000,
    0x1000_1018,
    0,
    0x7ff0_0000_0040,
    0,
    0x1100_0000,
    16_777_216,
    2,
    0x1100_1000,
    0,
    0,
];

/// What is shown of an object with a finaliser and a handle, and of the free space behind it.
const SHOWN_TABLES: &str =
    "segment 0000000010000000 ephemeral end 0000000010003000 reserved 16777216 \
gen1 0000000010001000 gen0 0000000010001000\n\
segment 0000000011000000 large end 0000000011001000 reserved 16777216\n\
reserved 33554432 limit 268435456\n\
0000000010001000 00007ff000000040 24 F\n\
0000000010001018 00007ff000000000 8168 Free\n\
total 1 bytes 24 free 8168\n\
h0 strong 0000000010001000\nhandles 1\n\
entry 0000000010001000 F\nentries 1 ready 0\n\
clean\n";

/// Puts words at the end, each with its lowest byte first.
fn put_words(bytes: &mut Vec<u8>, words: &[u64]) -> Result<(), Fail> {
    for word in words {
        bytes.extend_from_slice(&word.to_le_bytes())?;
    }
    Ok(())
}

/// The image of the heap that the script leaves, where objects are large from so many bytes on: the limit, this size,
/// that large segments are swept, one type, the segments, locals of which the first names the object, and empty tables.
pub(super) fn built(alloc: Global, large: u64) -> Result<Vec<u8>, Fail> {
    let mut bytes = bytes_of(alloc, b"CLRHEAP2")?;
    put_words(&mut bytes, &[268_435_456, large, 0, 1, 1])?;
    bytes.push(b'N')?;
    put_words(&mut bytes, &[0, 0, 1])?;
    bytes.push(b'r')?;
    put_words(&mut bytes, &SEGMENTS)?;
    put_words(&mut bytes, &[0x1000_1000])?;
    put_words(&mut bytes, &[0; 1_107])?;
    Ok(bytes)
}

#[test]
fn saves_the_last_state(rt: HostRuntime) -> Result<(), Fail> {
    let (status, image) = whole_outcome(rt.alloc(), "image", SCRIPT.as_bytes())?;
    assert_eq!(rt; status, Status::Done);
    assert_eq!(rt; image.len(), 9_066);
    assert!(rt; image.as_slice() == built(rt.alloc(), 85_000)?.as_slice());
    Ok(())
}

#[test]
fn shows_and_migrates_what_it_saved(rt: HostRuntime) -> Result<(), Fail> {
    let alloc = rt.alloc();
    let script = "type F class n final\nt1 new l0 F\nt1 handle strong l0\n";
    let (_, image) = whole_outcome(alloc, "image", script.as_bytes())?;
    assert_eq!(rt; image.len(), 17_274);
    let (status, text) = whole_outcome(alloc, "inspect", &image)?;
    assert_eq!(rt; status, Status::Done);
    assert_eq!(rt; text.as_slice(), SHOWN_TABLES.as_bytes());
    let (status, migrated) = whole_outcome(alloc, "migrate", &image)?;
    assert_eq!(rt; status, Status::Done);
    assert!(rt; migrated.as_slice() == image.as_slice());
    Ok(())
}

/// The read and the write that fail, the status, and how many bytes of the whole image stand written, of a script that
/// five reads bring, and an image that takes 13 writes. The last read but one tells the end.
const ROWS: [((u64, u64), Status, usize); 8] = [
    ((1, 0), Status::ReadFault, 0),
    ((3, 0), Status::ReadFault, 0),
    ((6, 0), Status::ReadFault, 0),
    ((7, 0), Status::Done, 9_066),
    ((0, 1), Status::WriteFault, 0),
    ((0, 2), Status::WriteFault, 700),
    ((0, 13), Status::WriteFault, 8_400),
    ((0, 14), Status::Done, 9_066),
];

#[test]
fn ends_where_a_call_fails(rt: HostRuntime) -> Result<(), Fail> {
    let alloc = rt.alloc();
    let (_, whole) = whole_outcome(alloc, "image", SCRIPT.as_bytes())?;
    for (failing, want, written) in ROWS {
        let trial = Trial {
            command: "image",
            input: SCRIPT.as_bytes(),
            read_piece: 10,
            failing_read: failing.0,
            write_piece: 700,
            failing_write: failing.1,
            room: 20_000,
        };
        let (status, text) = outcome_of(alloc, trial)?;
        assert_eq!(rt; status, want, "failing {failing:?}");
        assert_eq!(rt; text.len(), written, "failing {failing:?}");
        assert!(rt;
            whole.as_slice().starts_with(text.as_slice()),
            "failing {failing:?}"
        );
    }
    Ok(())
}
