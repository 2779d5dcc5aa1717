// Scripts that are made of drawn numbers.
use clr_script::Made;
use std::process::Abort;
use std::test::Fail;

// The lines of a script are to be these.
fn makes(rt: &impl Abort, seed: u32, n: u32, lines: &[&str]) {
    let mut made = Made::new(seed, n);
    let mut text = [0; 64];
    for line in lines {
        let end = made.next_line(&mut text);
        assert_eq!(rt; &text[..end], line.as_bytes());
    }
    assert_eq!(rt; made.next_line(&mut text), 0);
}

#[test]
fn a_seed_makes_its_script(rt: HostRuntime) {
    makes(
        &rt,
        1,
        2,
        &[
            "type Node class rrn",
            "type byte[] bytes",
            "type File class rn final",
            "t2 new l6 Node",
            "t1 new l6 Node",
        ],
    );
    makes(
        &rt,
        50,
        7,
        &[
            "type Node class rrn",
            "type byte[] bytes",
            "type File class rn final",
            "t1 new l1 byte[] 359",
            "t2 set l3 0 l3",
            "t2 null l1",
            "t1 collect 0",
            "t2 set l6 0 l2",
            "t3 new l6 Node",
            "t1 new l4 File",
        ],
    );
}
