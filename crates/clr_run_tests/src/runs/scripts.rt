//! Scripts and their replies.
use super::{EMPTY_HEAP, expect_replies};
use std::test::Fail;

#[test]
fn answers_each_line(rt: HostRuntime) -> Result<(), Fail> {
    let cases = [
        // an empty script has no line
        ("", ""),
        (
            "type Node class rr\nt1 new l0 Node\ndumpheap\n",
            "mt 00007ff000000040\n0000000010001000\n0000000010001000 00007ff000000040 32 Node\n\
            total 1 bytes 32 free 0\n",
        ),
        ("dumpheap\n", EMPTY_HEAP),
        ("\n\n", "refused syntax\nrefused syntax\n"),
        // no type is defined yet
        ("t1 new l0 Node", "refused unknown-type\n"),
    ];
    for (script, replies) in cases {
        expect_replies(&rt, rt.alloc(), script.as_bytes(), replies.as_bytes())?;
    }
    Ok(())
}

#[test]
fn an_allocation_collects(rt: HostRuntime) -> Result<(), Fail> {
    let script = "type byte[] bytes\n\
        t1 new l0 byte[] 64488\nt1 new l0 byte[] 64488\nt1 new l0 byte[] 64488\nt1 new l0 byte[] 64488\n\
        t1 new l0 byte[] 64488\ndumpheap\n";
    // four of them are within the budget of 262,144 bytes; of these the last one stays, and goes down
    let replies = "mt 00007ff000000040\n\
        0000000010001000\n0000000010010c00\n0000000010020800\n0000000010030400\n\
        0000000010010c00\n\
        0000000010001000 00007ff000000040 64512 byte[]\n0000000010010c00 00007ff000000040 64512 byte[]\n\
        total 2 bytes 129024 free 0\n";
    expect_replies(&rt, rt.alloc(), script.as_bytes(), replies.as_bytes())
}
