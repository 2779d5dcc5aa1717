// The bounds of options.
use clr_options::Options;
use std::test::Fail;

// One option that is another than the default.
#[derive(Clone, Copy)]
enum Change {
    Limit(u64),
    Segment(u64),
    B0(u64),
    B1(u64),
    B2(u64),
    Bl(u64),
    Compact(u64),
    Large(u64),
}

// What a runtime is made with where one option is another one.
fn changed(change: Change) -> Options {
    let options = Options::defaults();
    match change {
        Change::Limit(limit) => Options { limit, ..options },
        Change::Segment(segment) => Options { segment, ..options },
        Change::B0(b0) => Options { b0, ..options },
        Change::B1(b1) => Options { b1, ..options },
        Change::B2(b2) => Options { b2, ..options },
        Change::Bl(bl) => Options { bl, ..options },
        Change::Compact(compact) => Options { compact, ..options },
        Change::Large(large) => Options { large, ..options },
    }
}

#[test]
fn options_within_their_bounds_are_lawful(rt: HostRuntime) -> Result<(), Fail> {
    let rows = [
        // whole pages, from 256 KiB to 64 MiB
        (Change::Segment(262_144), true),
        (Change::Segment(258_048), false),
        (Change::Segment(262_145), false),
        (Change::Segment(67_108_864), true),
        (Change::Segment(67_112_960), false),
        // two segments, up to 1 GiB
        (Change::Limit(33_554_432), true),
        (Change::Limit(33_554_431), false),
        (Change::Limit(1_073_741_824), true),
        (Change::Limit(1_073_741_825), false),
        // up to 1 GiB
        (Change::B0(1_073_741_824), true),
        (Change::B0(1_073_741_825), false),
        (Change::B1(1_073_741_825), false),
        (Change::B2(1_073_741_825), false),
        (Change::Bl(1_073_741_825), false),
        // a percentage
        (Change::Compact(100), true),
        (Change::Compact(101), false),
        // from 85,000 bytes to a page less than a segment
        (Change::Large(85_000), true),
        (Change::Large(84_999), false),
        (Change::Large(16_773_120), true),
        (Change::Large(16_773_121), false),
    ];
    for (change, lawful) in rows {
        assert_eq!(rt; changed(change).is_lawful(), lawful);
    }
    Ok(())
}
