// Numbers as text and back, rounding, units and steps.
ghost use Rattle.std.specs.Prelude.{◌≡◌, ◌+◌, ◌<◌};

use clr_nums::{Grid, NumFault, Steps, put_dec, put_hex16, read_dec, read_hex, round8};
use std::marker::Brand;
use std::sync::ledger::{Blank, Ledger};

#[test]
fn reads_decimal_numbers(rt: HostRuntime) {
    for (text, want) in [
        ("0", Ok(0)),
        ("7", Ok(7)),
        ("10203", Ok(10_203)),
        ("18446744073709551615", Ok(u64::MAX)),
        ("18446744073709551616", Err(NumFault::TooLarge)),
        ("99999999999999999999999", Err(NumFault::TooLarge)),
        ("", Err(NumFault::NotNumber)),
        ("00", Err(NumFault::NotNumber)),
        ("01", Err(NumFault::NotNumber)),
        ("12a", Err(NumFault::NotNumber)),
        ("+1", Err(NumFault::NotNumber)),
        ("-1", Err(NumFault::NotNumber)),
        (" 1", Err(NumFault::NotNumber)),
    ] {
        assert_eq!(rt; read_dec(text.as_bytes()), want, "at {text:?}");
    }
}

#[test]
fn reads_hexadecimal_numbers(rt: HostRuntime) {
    for (text, want) in [
        ("0000000000000000", Some(0)),
        ("0000000010001018", Some(0x1000_1018)),
        ("0123456789abcdef", Some(0x0123_4567_89ab_cdef)),
        ("ffffffffffffffff", Some(u64::MAX)),
        ("", None),
        ("000000001000101", None),
        ("00000000010001018", None),
        ("0123456789ABCDEF", None),
        ("000000000000000g", None),
        ("0x00000010001018", None),
    ] {
        assert_eq!(rt; read_hex(text.as_bytes()), want, "at {text:?}");
    }
}

#[test]
fn writes_numbers(rt: HostRuntime) {
    for (v, want) in [
        (0, "0"),
        (9, "9"),
        (10, "10"),
        (10_203, "10203"),
        (u64::MAX, "18446744073709551615"),
    ] {
        let mut into = [b'.'; 20];
        let count = put_dec(v, &mut into);
        assert_eq!(rt; &into[..count], want.as_bytes(), "at {v}");
        assert!(rt; into[count..].iter().all(|byte| *byte == b'.'), "at {v}");
    }
    for (v, want) in [
        (0, "0000000000000000"),
        (0x1000_1018, "0000000010001018"),
        (0x0123_4567_89ab_cdef, "0123456789abcdef"),
        (u64::MAX, "ffffffffffffffff"),
    ] {
        let mut into = [b'.'; 16];
        put_hex16(v, &mut into);
        assert_eq!(rt; into.as_slice(), want.as_bytes(), "at {v}");
    }
}

#[test]
fn rounds_and_counts_units(rt: HostRuntime) {
    for (n, want) in [
        (0, Some(0)),
        (1, Some(8)),
        (8, Some(8)),
        (9, Some(16)),
        (u64::MAX - 7, Some(u64::MAX - 7)),
        (u64::MAX - 6, None),
        (u64::MAX, None),
    ] {
        assert_eq!(rt; round8(n), want, "at {n}");
    }
    assert_eq!(rt; Grid::<2048>::index(4095), 1);
    assert_eq!(rt; Grid::<2048>::index(4096), 2);
    assert_eq!(rt; Grid::<2048>::first(3), 6144);
    for (lo, hi, want) in [
        (0, 1, (0, 1)),
        (2047, 2049, (0, 2)),
        (2048, 4096, (1, 2)),
        (2048, 4097, (1, 3)),
    ] {
        assert_eq!(rt; Grid::<2048>::cover(lo, hi), want, "at {lo}, {hi}");
    }
}

// As many steps as asked for, and their count is proved.
fn take_steps<L: Ledger>(times: u8, steps: &mut Steps<L>)
    ensures { steps.new ≡ steps.old + times }
{
    for _step in 0..times {
        steps.tick();
    }
}

fn take_three<L: Ledger>(blank: Blank)
    requires name { blank.name ≡ L.name }
    requires parts { blank.parts ≡ L.parts }
    requires some { 0 < blank.parts }
{
    let mut steps = Steps::<L>::new(blank);
    take_steps(3, &mut steps);
}

#[test]
fn counts_steps(rt: HostRuntime) {
    take_three::<Brand>(Blank::new(1));
    assert_eq!(rt; size_of::<Steps<Brand>>(), 0);
}
