//! Limits of words, of lines and of the table of types, with their replies. More scripts stand in `tests` at the top.
use super::expect_replies;
use std::test::Fail;

#[test]
fn limits_words_and_lines(rt: HostRuntime) -> Result<(), Fail> {
    let alloc = rt.alloc();
    for (front, byte, count, behind, reply) in [
        ("type N class ", b'r', 256, "", "mt 00007ff000000040\n"),
        ("type N class ", b'r', 257, "", "refused bad-shape\n"),
        ("type N structs ", b'n', 64, "", "mt 00007ff000000040\n"),
        ("type N structs ", b'n', 65, "", "refused bad-shape\n"),
        ("type ", b'N', 128, " refs", "mt 00007ff000000040\n"),
        ("type ", b'N', 129, " refs", "refused syntax\n"),
        // a line of 4,096 bytes is read, and one of 4,097 is not
        ("type N class ", b'r', 4083, "", "refused bad-shape\n"),
        ("type N class ", b'r', 4084, "", "refused too-long\n"),
        ("", b'x', 4096, "", "refused syntax\n"),
        ("", b'x', 5000, "", "refused too-long\n"),
    ] {
        let mut script = Vec::from_slice(alloc, front.as_bytes())?;
        for _ in 0..count {
            script.push(byte)?;
        }
        script.extend_from_slice(behind.as_bytes())?;
        expect_replies(&rt, alloc, script.as_slice(), reply.as_bytes())?;
    }
    Ok(())
}

#[test]
fn defines_a_thousand_types(rt: HostRuntime) -> Result<(), Fail> {
    let alloc = rt.alloc();
    let mut script = Vec::new(alloc);
    let mut replies = Vec::new(alloc);
    for i in 1..1001u64 {
        let line = format!(in alloc; "type T{i} bytes\n")?;
        script.extend_from_slice(line.as_bytes())?;
        let reply = format!(in alloc; "mt {:016x}\n", 0x7ff0_0000_0000 + 64 * i)?;
        replies.extend_from_slice(reply.as_bytes())?;
    }
    script.extend_from_slice(
        b"type T1 bytes\ntype U structs -\ntype U bytes\nt1 new l0 T1000 1\n",
    )?;
    replies.extend_from_slice(
        b"refused duplicate-type\nrefused bad-shape\nrefused too-many-types\n0000000010001000\n",
    )?;
    expect_replies(&rt, alloc, script.as_slice(), replies.as_slice())
}
