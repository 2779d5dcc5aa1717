use clr_handles::Kind;
use clr_model::{Collected, Refusal, Reply, Where};
use clr_script::{
    NewLine, copy_at, finalizer_at, get_at, handle_at, length_at, name_at, null_at, put_at,
    put_refusal, put_reply, read_line, read_new, read_quick, set_at, slot_at, suppress_at,
    take_thread, thread_at,
};
use std::test::Fail;

// Each form of line, and the command that it is. The name `N` is the byte 78, and `rn` the bytes 114 and 110.
const LINES: [(&str, &str); 51] = [
    (
        "type N class -",
        "Define { name: [78], shape: Class([]), finalizer: false }",
    ),
    (
        "type N class rn final",
        "Define { name: [78], shape: Class([114, 110]), finalizer: true }",
    ),
    (
        "type N refs",
        "Define { name: [78], shape: RefArray, finalizer: false }",
    ),
    (
        "type N bytes",
        "Define { name: [78], shape: ByteArray, finalizer: false }",
    ),
    (
        "type N structs rn",
        "Define { name: [78], shape: StructArray([114, 110]), finalizer: false }",
    ),
    (
        "t1 new l12 N",
        "New { t: 1, local: 12, name: [78], len: None }",
    ),
    (
        "t0 new l64 N 40",
        "New { t: 0, local: 64, name: [78], len: Some(40) }",
    ),
    ("t1 get l2 l3 4", "Get { t: 1, to: 2, from: 3, index: 4 }"),
    ("t1 set l2 3 l4", "Set { t: 1, into: 2, index: 3, from: 4 }"),
    (
        "t1 put l2 3 18446744073709551615",
        "Put { t: 1, into: 2, index: 3, value: 18446744073709551615 }",
    ),
    ("t1 read l2 3", "Read { t: 1, from: 2, index: 3 }"),
    ("t17 copy l2 l3", "Copy { t: 17, to: 2, from: 3 }"),
    ("t1 null l2", "Clear { t: 1, local: 2 }"),
    ("t1 suppress l2", "Suppress { t: 1, local: 2 }"),
    ("t1 reregister l2", "Reregister { t: 1, local: 2 }"),
    ("t1 collect 0", "Collect { t: 1, g: 0, how: Decide }"),
    (
        "t1 collect 1 compacting",
        "Collect { t: 1, g: 1, how: Compact }",
    ),
    (
        "t1 collect 2 sweeping",
        "Collect { t: 1, g: 2, how: Sweep }",
    ),
    ("t1 suspend", "Suspend { t: 1 }"),
    ("t1 resume", "Resume { t: 1 }"),
    (
        "t1 begin set l2 3 l4",
        "BeginSet { t: 1, into: 2, index: 3, from: 4 }",
    ),
    (
        "t1 begin new l2 N 3",
        "BeginNew { t: 1, local: 2, name: [78], len: Some(3) }",
    ),
    ("t1 step", "Step { t: 1 }"),
    (
        "t1 handle weaklong l2",
        "Handle { t: 1, kind: WeakLong, local: 2, second: None }",
    ),
    (
        "t1 handle dependent l2 l3",
        "Handle { t: 1, kind: Dependent, local: 2, second: Some(3) }",
    ),
    ("t1 fetch l2 h3", "Fetch { t: 1, to: 2, h: 3 }"),
    ("t1 second l2 h3", "Second { t: 1, to: 2, h: 3 }"),
    ("t1 free h2", "Free { t: 1, h: 2 }"),
    ("t1 finalizer l2", "Finalizer { t: 1, to: 2 }"),
    (
        "dumpheap",
        "DumpHeap { filter: Filter { mode: Full, life: Any, mt: None, name: None, min: 0, \
         max: 18446744073709551615, generation: None, segment: None } }",
    ),
    (
        "dumpheap -stat -live -type N -min 2 -max 3 -gen 1 -segment 00000000000000ff",
        "DumpHeap { filter: Filter { mode: Stat, life: Live, mt: None, name: Some([78]), min: 2, max: 3, \
         generation: Some(1), segment: Some(255) } }",
    ),
    (
        "dumpheap -short -dead -mt 00000000000000ff",
        "DumpHeap { filter: Filter { mode: Short, life: Dead, mt: Some(255), name: None, min: 0, \
         max: 18446744073709551615, generation: None, segment: None } }",
    ),
    ("dumpobj 00000000000000ff", "DumpObj { a: 255 }"),
    ("gcroot 00000000000000ff", "GcRoot { a: 255 }"),
    ("eeheap -gc", "EeHeap"),
    ("verifyheap", "VerifyHeap"),
    ("gchandles", "GcHandles"),
    ("finalizequeue", "FinalizeQueue"),
    ("gcwhere 00000000000000ff", "GcWhere { a: 255 }"),
    (
        "dumparray 00000000000000ff",
        "Look { look: DumpArray { start: None, length: None, a: 255 } }",
    ),
    (
        "dumparray -start 2 -length 3 00000000000000ff",
        "Look { look: DumpArray { start: Some(2), length: Some(3), a: 255 } }",
    ),
    (
        "dumpmt 00000000000000ff",
        "Look { look: DumpMt { mt: 255 } }",
    ),
    (
        "gcroot -all 00000000000000ff",
        "Look { look: GcRoots { a: 255 } }",
    ),
    (
        "pathto 00000000000000ff 00000000000000fe",
        "Look { look: PathTo { a: 255, b: 254 } }",
    ),
    (
        "retained 00000000000000ff",
        "Look { look: Retained { a: 255 } }",
    ),
    (
        "gcheapstat",
        "Look { look: GcHeapStat { unrooted: false } }",
    ),
    (
        "gcheapstat -inclUnrooted",
        "Look { look: GcHeapStat { unrooted: true } }",
    ),
    (
        "listnearobj 00000000000000ff",
        "Look { look: ListNearObj { a: 255 } }",
    ),
    ("ephrefs", "Look { look: EphRefs }"),
    ("gchandles -stat", "Look { look: HandleStat }"),
    (
        "gchandles -type weaklong",
        "Look { look: HandlesOf { kind: WeakLong } }",
    ),
];

#[test]
fn reads_each_form(rt: HostRuntime) -> Result<(), Fail> {
    for (line, wanted) in LINES {
        match read_line(line.as_bytes()) {
            Ok(command) => {
                let text = format!(in rt.alloc(); "{command:?}")?;
                assert_eq!(rt; text.as_str(), wanted);
            }
            Err(refusal) => assert!(rt; false, "{line}: {refusal:?}"),
        }
    }
    Ok(())
}

#[test]
fn refuses_other_lines(rt: HostRuntime) {
    for line in [
        "",
        " ",
        "t",
        "t1",
        "t1 ",
        " t1 null l2",
        "t1  null l2",
        "t1 null  l2",
        "t1 null l2 ",
        "t1 null l2 l3",
        "t1 null l02",
        "t01 null l2",
        "t1 null L2",
        "t1 null l18446744073709551616",
        "t1 new l2",
        "t1 new l2 9N",
        "t1 new l2 N +3",
        "t1 set l2 l3 4",
        "t1 collect 3",
        "t1 collect 0 both",
        "t1 handle strong l2 l3",
        "t1 handle dependent l2",
        "t1 begin get l2 l3 4",
        "t1 step step",
        "T1 null l2",
        "type N refs final",
        "type N class",
        "type N class rx",
        "type N class -r",
        "dumpheap -live -stat",
        "dumpheap -mt 00000000000000ff -type N",
        "dumpheap -max 3 -min 2",
        "dumpheap -min",
        "dumpobj 00000000000000FF",
        "dumpobj ff",
        "eeheap",
        "verifyheap -gc",
    ] {
        assert_eq!(rt;
            read_line(line.as_bytes()).err(),
            Some(Refusal::Syntax),
            "at {line:?}"
        );
        assert!(rt; read_quick(line.as_bytes()).is_none(), "at {line:?}");
    }
}

#[test]
fn reads_as_many_bytes_as_a_line_may_have(rt: HostRuntime) -> Result<(), Fail> {
    let mut line = Vec::from_slice(rt.alloc(), b"type N class ")?;
    line.resize(4096, b'r')?;
    assert!(rt; read_line(&line).is_ok());
    line.push(b'r')?;
    assert_eq!(rt; read_line(&line).err(), Some(Refusal::TooLong));
    Ok(())
}

// Lines that the quick reader is there for, and the command that each is.
const QUICK_LINES: [(&str, &str); 10] = [
    ("t1 collect 0", "Collect { t: 1, g: 0, how: Decide }"),
    (
        "t1 collect 1 compacting",
        "Collect { t: 1, g: 1, how: Compact }",
    ),
    (
        "t1 collect 2 sweeping",
        "Collect { t: 1, g: 2, how: Sweep }",
    ),
    (
        "t1 handle strong l2",
        "Handle { t: 1, kind: Strong, local: 2, second: None }",
    ),
    (
        "t1 handle pinned l2",
        "Handle { t: 1, kind: Pinned, local: 2, second: None }",
    ),
    (
        "t1 handle weak l2",
        "Handle { t: 1, kind: Weak, local: 2, second: None }",
    ),
    (
        "t1 handle weaklong l2",
        "Handle { t: 1, kind: WeakLong, local: 2, second: None }",
    ),
    (
        "t1 handle dependent l2 l3",
        "Handle { t: 1, kind: Dependent, local: 2, second: Some(3) }",
    ),
    ("t1 fetch l2 h3", "Fetch { t: 1, to: 2, h: 3 }"),
    ("t1 free h65535", "Free { t: 1, h: 65535 }"),
];

#[test]
fn reads_collections_and_handles_quickly(rt: HostRuntime) -> Result<(), Fail> {
    for (line, wanted) in QUICK_LINES {
        match read_quick(line.as_bytes()) {
            Some(command) => {
                let text = format!(in rt.alloc(); "{command:?}")?;
                assert_eq!(rt; text.as_str(), wanted);
            }
            None => assert!(rt; false, "{line}"),
        }
    }
    Ok(())
}

// A text that begins so, and has enough bytes for any reader at a place.
fn padded(front: &[u8]) -> [u8; 96] {
    let mut text = [b'x'; 96];
    for (to, from) in text.iter_mut().zip(front) {
        *to = *from;
    }
    text
}

#[test]
fn reads_frequent_lines_at_a_place(rt: HostRuntime) {
    assert!(rt; matches!(take_thread(b"t16 x"), Some((16, [b'x']))));
    assert!(rt; matches!(thread_at(b"t16 x"), Some((16, 4))));
    assert!(rt;
        matches!(
            get_at(&padded(b"l63 l10 1000000000000000000\n"), 0),
            Some((63, 10, 1_000_000_000_000_000_000, 28))
        )
    );
    assert!(rt; matches!(set_at(&padded(b"l2 3 l4\n"), 0), Some((2, 3, 4, 8))));
    assert!(rt;
        matches!(
            put_at(&padded(b"l2 0 9999999999999999999\n"), 0),
            Some((2, 0, 9_999_999_999_999_999_999, 25))
        )
    );
    assert!(rt; matches!(slot_at(&padded(b" l2 30\n"), 0), Some((2, 30, 7))));
    assert!(rt; matches!(copy_at(&padded(b" l2 l3\n"), 0), Some((2, 3, 7))));
    assert!(rt; matches!(null_at(&padded(b" l20\n"), 0), Some((20, 5))));
    assert!(rt; null_at(&padded(b" l20"), 0).is_none());
    assert!(rt; null_at(&padded(b" l20 \n"), 0).is_none());
    assert!(rt; copy_at(&padded(b" l02 l3\n"), 0).is_none());
}

#[test]
fn reads_handles_at_a_place(rt: HostRuntime) {
    assert!(rt; matches!(finalizer_at(&padded(b"lizer l61\n"), 0), Some((61, 10))));
    assert!(rt; finalizer_at(&padded(b"lizzr l61\n"), 0).is_none());
    assert!(rt; matches!(suppress_at(&padded(b"ress l3\n"), 0), Some((3, 8))));
    assert!(rt;
        matches!(
            handle_at(&padded(b"le weak l5\n"), 0),
            Some((Kind::Weak, 5, None, 11))
        )
    );
    assert!(rt;
        matches!(
            handle_at(&padded(b"le weaklong l5\n"), 0),
            Some((Kind::WeakLong, 5, None, 15))
        )
    );
    assert!(rt;
        matches!(
            handle_at(&padded(b"le dependent l27 l33\n"), 0),
            Some((Kind::Dependent, 27, Some(33), 21))
        )
    );
    assert!(rt; handle_at(&padded(b"le dependent l27\n"), 0).is_none());
    assert!(rt; handle_at(&padded(b"le strong l1 l2\n"), 0).is_none());
}

#[test]
fn reads_births_at_a_place(rt: HostRuntime) {
    assert!(rt;
        matches!(
            name_at(&padded(b" Node\n"), 0, b"Node"),
            Some(([b'N', b'o', b'd', b'e'], 5))
        )
    );
    assert!(rt; name_at(&padded(b" Nodes\n"), 0, b"Node").is_none());
    assert!(rt; name_at(&padded(b" N\n"), 0, b"M").is_none());
    assert!(rt; matches!(length_at(&padded(b" 40\n"), 0), Some((Some(40), 4))));
    assert!(rt; matches!(length_at(&padded(b"\n"), 0), Some((None, 1))));
    assert!(rt; length_at(&padded(b" 04\n"), 0).is_none());
}

#[test]
fn reads_births_from_the_front(rt: HostRuntime) {
    assert!(rt;
        matches!(
            read_new(b" l12 _9 40\nx"),
            Some(NewLine {
                local: 12,
                name: [b'_', b'9'],
                len: Some(40),
                rest: [b'x']
            })
        )
    );
    assert!(rt;
        matches!(
            read_new(b" l12 N\nx"),
            Some(NewLine {
                local: 12,
                name: [b'N'],
                len: None,
                rest: [b'x']
            })
        )
    );
}

#[test]
fn reads_quickly_what_is_read(rt: HostRuntime) -> Result<(), Fail> {
    for (line, wanted) in LINES {
        if let Some(command) = read_quick(line.as_bytes()) {
            let text = format!(in rt.alloc(); "{command:?}")?;
            assert_eq!(rt; text.as_str(), wanted);
        }
    }
    Ok(())
}

#[test]
fn shows_replies_and_refusals(rt: HostRuntime) {
    let mut line = [b'x'; 256];
    for (reply, wanted) in [
        (Reply::Done, "ok\n"),
        (Reply::Place(0), "null\n"),
        (Reply::Place(0x1000_1018), "0000000010001018\n"),
        (Reply::Number(10_203), "10203\n"),
        (Reply::Mt(0x7ff0_0000_0040), "mt 00007ff000000040\n"),
        (Reply::HandleNumber(7), "h7\n"),
        (
            Reply::Collected(Collected {
                generation: 1,
                compacted: true,
                fitted: false,
                background: false,
                kept: 2,
                freed: 3,
                promoted1: 4,
                promoted2: 5,
            }),
            "collected 1 compact kept 2 freed 3\n",
        ),
        (
            Reply::Collected(Collected {
                generation: 1,
                compacted: true,
                fitted: true,
                background: false,
                kept: 2,
                freed: 3,
                promoted1: 4,
                promoted2: 5,
            }),
            "collected 1 fit kept 2 freed 3\n",
        ),
        (Reply::Clean, "clean\n"),
    ] {
        let len = put_reply(&reply, &mut line);
        assert_eq!(rt; &line[..len], wanted.as_bytes());
    }
    let found = Where {
        generation: 2,
        kind: 1,
        base: 0x1000_1000,
        size: 24,
    };
    let len = put_reply(&Reply::Where(found), &mut line);
    assert_eq!(rt;
        &line[..len],
        b"gen 2 ephemeral 0000000010001000 size 24\n".as_slice()
    );
    for (refusal, wanted) in [
        (Refusal::TooLong, "refused too-long\n"),
        (Refusal::Blocked(3), "refused blocked 3\n"),
        (Refusal::NoMemory, "refused nomem\n"),
    ] {
        let len = put_refusal(&refusal, &mut line);
        assert_eq!(rt; &line[..len], wanted.as_bytes());
    }
}
