//! Lines that show the heap, with their replies. More scripts stand in `tests` at the top.
use super::expect_replies;
use std::alloc::Global;
use std::process::Abort;
use std::test::Fail;

/// A node that names another, which a handle holds, a free item between them, and an array that nothing reaches.
const MADE: &str = "type Node class rr final\ntype Bytes bytes\n\
    t1 new l0 Node\nt1 new l1 Bytes 16\nt1 new l2 Node\nt1 new l3 Bytes 0\n\
    t1 set l0 1 l2\nt1 handle strong l2\nt1 null l1\nt1 null l2\nt1 collect 2 sweeping\nt1 null l3\n";

/// The replies to these lines.
const ANSWERED: &str = "mt 00007ff000000040\nmt 00007ff000000080\n\
    0000000010001000\n0000000010001020\n0000000010001048\n0000000010001068\n\
    ok\nh0\nok\nok\ncollected 2 sweep kept 3 freed 1\nok\n";

/// Shows the heap by each of these lines, and wants the replies beside them.
fn expect_shown(rt: &impl Abort, alloc: Global, looks: &[(&str, &str)]) -> Result<(), Fail> {
    let mut script = Vec::from_slice(alloc, MADE.as_bytes())?;
    let mut replies = Vec::from_slice(alloc, ANSWERED.as_bytes())?;
    for (line, reply) in looks {
        script.extend_from_slice(line.as_bytes())?;
        script.push(b'\n')?;
        replies.extend_from_slice(reply.as_bytes())?;
    }
    expect_replies(rt, alloc, script.as_slice(), replies.as_slice())
}

#[test]
fn lists_what_the_options_ask_for(rt: HostRuntime) -> Result<(), Fail> {
    let looks = [
        (
            "dumpheap",
            "0000000010001000 00007ff000000040 32 Node\n0000000010001020 00007ff000000000 40 Free\n\
            0000000010001048 00007ff000000040 32 Node\n0000000010001068 00007ff000000080 24 Bytes\n\
            total 3 bytes 88 free 40\n",
        ),
        (
            "dumpheap -stat",
            "00007ff000000000 1 40 Free\n00007ff000000040 2 64 Node\n00007ff000000080 1 24 Bytes\n\
            total 3 bytes 88 free 40\n",
        ),
        (
            "dumpheap -short",
            "0000000010001000\n0000000010001020\n0000000010001048\n0000000010001068\n",
        ),
        (
            "dumpheap -short -live",
            "0000000010001000\n0000000010001048\n",
        ),
        ("dumpheap -short -dead", "0000000010001068\n"),
        ("dumpheap -short -mt 00007ff000000080", "0000000010001068\n"),
        ("dumpheap -short -type Free", "0000000010001020\n"),
        ("dumpheap -short -min 33", "0000000010001020\n"),
        ("dumpheap -short -max 31", "0000000010001068\n"),
        ("dumpheap -short -live -type Bytes", "none\n"),
        ("dumpheap -type Other", "refused unknown-type\n"),
        ("dumpheap -mt 00007ff0000000c0", "refused unknown-type\n"),
        ("dumpheap -stat -stat", "refused syntax\n"),
        ("dumpheap -min 1 -min 1", "refused syntax\n"),
    ];
    expect_shown(&rt, rt.alloc(), &looks)
}

#[test]
fn shows_objects_and_what_names_them(rt: HostRuntime) -> Result<(), Fail> {
    let looks = [
        (
            "dumpobj 0000000010001000",
            "object 0000000010001000 Node size 32 gen 1\nslot 0 ref null\nslot 1 ref 0000000010001048\n",
        ),
        (
            "dumpobj 0000000010001068",
            "object 0000000010001068 Bytes size 24 gen 1 length 0\n",
        ),
        ("dumpobj 0000000010001020", "refused no-object\n"),
        (
            "gcroot 0000000010001000",
            "root t1 l0\n0000000010001000 Node\n",
        ),
        (
            "gcroot 0000000010001048",
            "root h0\n0000000010001048 Node\n",
        ),
        ("gcroot 0000000010001068", "none\n"),
        ("gcroot 0000000010001020", "refused no-object\n"),
        (
            "gcwhere 0000000010001068",
            "gen 1 ephemeral 0000000010000000 size 24\n",
        ),
        ("gcwhere 0000000010001069", "refused no-object\n"),
        (
            "eeheap -gc",
            "segment 0000000010000000 ephemeral end 0000000010001080 reserved 16777216 \
            gen1 0000000010001000 gen0 0000000010001080\n\
            segment 0000000011000000 large end 0000000011001000 reserved 16777216\n\
            reserved 33554432 limit 268435456\n",
        ),
        ("gchandles", "h0 strong 0000000010001048\nhandles 1\n"),
        (
            "finalizequeue",
            "entry 0000000010001000 Node\nentry 0000000010001048 Node\nentries 2 ready 0\n",
        ),
        ("verifyheap", "clean\n"),
    ];
    expect_shown(&rt, rt.alloc(), &looks)
}
