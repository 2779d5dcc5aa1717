//! Arguments of the command line: which of them say a command, and what a generated script comes to.
ghost use Rattle.std.specs.Prelude.{◌<◌};

use super::status_of;
use clr_run::{MemorySink, PlainSource, Status};
use std::alloc::Global;
use std::test::Fail;

/// How the command of these arguments ends over an empty script, and what it writes.
fn ended(alloc: Global, texts: &[&str]) -> Result<(Status, Vec<u8>), Fail> {
    let mut source = PlainSource::new(Vec::new(alloc));
    let mut sink = MemorySink::new(alloc, 1_000, 1_000, Vec::new(alloc))?;
    let status = status_of(alloc, texts, &mut source, &mut sink)?;
    let text = Vec::from_slice(alloc, sink.bytes())?;
    Ok((status, text))
}

#[test]
fn ends_as_the_arguments_say(rt: HostRuntime) -> Result<(), Fail> {
    let cases: [(&[&str], Status); 24] = [
        (&[], Status::Usage),
        (&["images"], Status::Usage),
        (&["image", "x"], Status::Usage),
        (&["image", "--large", "84999"], Status::Usage),
        (&["image", "--b0", "1", "--b0", "2"], Status::Usage),
        (&["inspect", "x"], Status::Usage),
        (&["migrate", "x"], Status::Usage),
        (&["open"], Status::Usage),
        (&["open", "--b0", "5"], Status::Usage),
        (&["open", "x", "y"], Status::Usage),
        (&["open", "--limit", "1000000", "x"], Status::Usage),
        (&["open", "--compact", "101", "x"], Status::Usage),
        (&["run", "--help"], Status::Usage),
        (&["run", "--b0", "1", "--b0", "2"], Status::Usage),
        (&["run", "--compact", "101"], Status::Usage),
        (
            &["run", "--limit", "524287", "--segment", "262144"],
            Status::Usage,
        ),
        (&["run", "--large", "84999"], Status::Usage),
        (
            &["run", "--large", "258049", "--segment", "262144"],
            Status::Usage,
        ),
        (&["soak"], Status::Usage),
        (&["soak", "1", "0"], Status::Usage),
        (
            &["run", "--limit", "524288", "--segment", "262144"],
            Status::Done,
        ),
        (
            &["run", "--large", "258048", "--segment", "262144"],
            Status::Done,
        ),
        (&["run", "--large=100000"], Status::Done),
        (&["run", "--b0=0"], Status::Done),
    ];
    for (texts, want) in cases {
        let (status, text) = ended(rt.alloc(), texts)?;
        assert_eq!(rt; status, want, "at {texts:?}");
        assert!(rt; text.is_empty());
    }
    Ok(())
}

#[test]
fn sums_up_a_generated_script(rt: HostRuntime) -> Result<(), Fail> {
    let (status, text) = ended(rt.alloc(), &["soak", "1", "2"])?;
    assert_eq!(rt; status, Status::Done);
    let summary = "lines 5 refused 0\n00007ff000000040 2 80 Node\ntotal 2 bytes 80 free 0\nclean\n";
    assert!(rt; text.as_slice() == summary.as_bytes());
    Ok(())
}
