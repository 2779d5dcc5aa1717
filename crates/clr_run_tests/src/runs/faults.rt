//! How a command ends otherwise, and what stands written then.
ghost use Rattle.std.specs.Prelude.{None, ◌<◌};

use super::{EMPTY_HEAP, Trial, outcome_of, status_of};
use clr_run::{Failed, MemorySink, SCRIPT_LIMIT, Source, Status};
use std::test::Fail;

/// A line, and its front without the line feed.
const LINE: &str = "type N class r\n";

const FRONT: &str = "type N class r";

/// Its reply.
const REPLY: &str = "mt 00007ff000000040\n";

/// The line, and a second one.
const LINES: &str = "type N class r\nt1 new l0 N\n";

/// Their replies.
const REPLIES: &str = "mt 00007ff000000040\n0000000010001000\n";

#[test]
fn ends_where_a_call_fails(rt: HostRuntime) -> Result<(), Fail> {
    // the script, the bytes of a read and of a write, the read and the write that fail, the room for replies, the
    // status, and what stands written
    let cases: [(&str, (usize, usize), (u64, u64), usize, Status, &str); 18] = [
        (LINES, (10, 100), (1, 0), 100, Status::ReadFault, ""),
        (LINES, (10, 100), (2, 0), 100, Status::ReadFault, ""),
        (LINES, (10, 100), (3, 0), 100, Status::ReadFault, REPLY),
        // the read that would have told the end
        (LINES, (10, 100), (4, 0), 100, Status::ReadFault, REPLIES),
        (LINES, (1, 100), (0, 0), 100, Status::Done, REPLIES),
        (LINES, (7, 100), (0, 0), 100, Status::Done, REPLIES),
        (LINES, (10, 100), (0, 0), 100, Status::Done, REPLIES),
        (LINES, (27, 100), (0, 0), 100, Status::Done, REPLIES),
        // a line without a line feed is one where the end is told
        (FRONT, (14, 100), (2, 0), 100, Status::ReadFault, ""),
        (FRONT, (14, 100), (0, 0), 100, Status::Done, REPLY),
        (LINE, (15, 5), (0, 1), 100, Status::WriteFault, ""),
        (LINE, (15, 5), (0, 2), 100, Status::WriteFault, "mt 00"),
        (LINE, (15, 5), (0, 5), 100, Status::Done, REPLY),
        // the room is full
        (LINE, (15, 100), (0, 0), 0, Status::WriteFault, ""),
        (LINE, (15, 100), (0, 0), 5, Status::WriteFault, "mt 00"),
        (LINE, (15, 100), (0, 0), 20, Status::Done, REPLY),
        (LINES, (27, 100), (0, 0), 20, Status::WriteFault, REPLY),
        (LINES, (27, 100), (0, 0), 37, Status::Done, REPLIES),
    ];
    for (script, pieces, failing, room, want, replies) in cases {
        assert!(rt; pieces.0 > 0);
        assert!(rt; pieces.1 > 0);
        let trial = Trial {
            command: "run",
            input: script.as_bytes(),
            read_piece: pieces.0,
            failing_read: failing.0,
            write_piece: pieces.1,
            failing_write: failing.1,
            room,
        };
        let (status, text) = outcome_of(rt.alloc(), trial)?;
        assert_eq!(rt;
            status,
            want,
            "{script} by {pieces:?}, failing {failing:?}, room {room}"
        );
        assert_eq!(rt;
            text.as_slice(),
            replies.as_bytes(),
            "{script} by {pieces:?}, failing {failing:?}, room {room}"
        );
    }
    Ok(())
}

/// A line, and behind it blanks. It doesn't tell its bytes.
#[derive(Drop)]
struct LineThenBlanks<'a> {
    line: &'a [u8],
    blanks: u64,
}

impl Source for LineThenBlanks<'_> {
    ghost held = { λ _. None };

    ghost faults = { λ _. 0 };

    fn read(&mut self, into: &mut [u8]) -> Result<usize, Failed> {
        if !self.line.is_empty() {
            let count = self.line.len().min(into.len());
            into[..count].copy_from_slice(&self.line[..count]);
            self.line = &self.line[count..];
            return Ok(count);
        }
        let count = (into.len() as u64).min(self.blanks);
        self.blanks -= count;
        into.fill(b' ');
        Ok(count as usize)
    }
}

#[test]
fn stops_one_byte_past_the_limit(rt: HostRuntime) -> Result<(), Fail> {
    let alloc = rt.alloc();
    for (bytes, want, replies) in [
        (
            SCRIPT_LIMIT,
            Status::Done,
            "total 0 bytes 0 free 0\nrefused too-long\n",
        ),
        // the line that is begun at the limit is not run
        (SCRIPT_LIMIT + 1, Status::TooMuch, EMPTY_HEAP),
    ] {
        let mut source = LineThenBlanks {
            line: b"dumpheap\n",
            blanks: bytes - 9,
        };
        let mut sink = MemorySink::new(alloc, 100, 7, Vec::new(alloc))?;
        let status = status_of(alloc, &["run"], &mut source, &mut sink)?;
        assert_eq!(rt; status, want);
        assert_eq!(rt; sink.bytes(), replies.as_bytes());
        assert_eq!(rt; source.blanks, 0);
    }
    Ok(())
}
