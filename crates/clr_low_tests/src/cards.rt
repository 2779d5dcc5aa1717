// Cards that are set and cleared, and the stretches of set ones.
ghost use Rattle.std.specs.Prelude.{◌≡◌, ◌/◌, true, IfOk};
ghost use Rattle.clr_covers.specs.Covers.{HasAll, is_covered, spans};

use clr_cards::Cards;
use std::alloc::Global;
use std::process::Abort;
use std::test::Fail;

// Cards of three segments, of which the tests use the one from 0x1000_0000 up to 0x1004_0000.
fn three_segments(alloc: Global) -> Result<Cards, Fail>
    ensures { IfOk result (λ c. HasAll c 131072 131200) }
{
    let mut cards = Cards::new(alloc);
    cards.add(0x1000_0000, 0x4_0000)?;
    cards.add(0x2000_0000, 0x1000)?;
    cards.add(0x0800_0000, 0x10_0000)?;
    Ok(cards)
}

// Sets the cards of these addresses, or clears them.
fn put_each(rt: &impl Abort, cards: &mut Cards, set: bool, addresses: &[u64])
    requires { HasAll cards.old 131072 131200 }
    ensures { HasAll cards.new 131072 131200 }
{
    for &a in addresses {
        assert!(rt; 0x1000_0000 <= a && a < 0x1004_0000);
        put(cards, set, a);
        expect_card(rt, cards, set, a);
    }
}

fn put(cards: &mut Cards, set: bool, a: u64)
    requires { is_covered cards.old (a / 2048) ≡ true }
    ensures { spans cards.new ≡ spans cards.old }
{
    if set {
        cards.set(a);
    } else {
        cards.clear(a);
    }
}

// Looks at the card of an address by a right guess of its cover, a wrong one and one that no cover has.
fn expect_card(rt: &impl Abort, cards: &Cards, set: bool, a: u64)
    requires { is_covered cards.now (a / 2048) ≡ true }
{
    let found = [
        cards.is_set(a),
        cards.is_set_near(2, a),
        cards.is_set_near(9, a),
    ];
    assert_eq!(rt; found, [set; 3], "at {a}");
}

fn expect_runs(rt: &impl Abort, cards: &Cards, lo: u64, hi: u64, want: &[(u64, u64)])
    requires { HasAll cards.now 131072 131200 }
{
    assert!(rt; 0x1000_0000 <= lo && hi <= 0x1004_0000);
    let mut count = 0;
    for run in cards.runs(lo, hi) {
        assert!(rt; count < want.len());
        assert_eq!(rt; run, want[count]);
        count += 1;
    }
    assert_eq!(rt; count, want.len(), "at {lo}");
}

#[test]
fn stretches_of_set_cards(rt: HostRuntime) -> Result<(), Fail> {
    let mut cards = three_segments(rt.alloc())?;
    expect_runs(&rt, &cards, 0x1000_1000, 0x1004_0000, &[]);
    put_each(
        &rt,
        &mut cards,
        true,
        &[
            0x1000_1800,
            0x1000_2fff,
            0x1000_3000,
            0x1002_0000,
            0x1003_ffff,
            0x1000_1fff,
        ],
    );
    for (lo, hi, want) in [
        (0x1000_1000, 0x1000_1000, &[][..]),
        (0x1000_1000, 0x1000_1800, &[]),
        (0x1000_1000, 0x1000_1801, &[(0x1000_1800, 0x1000_1801)]),
        (0x1000_1900, 0x1000_1988, &[(0x1000_1900, 0x1000_1988)]),
        (0x1000_2000, 0x1000_2800, &[]),
        (
            0x1000_1000,
            0x1004_0000,
            &[
                (0x1000_1800, 0x1000_2000),
                (0x1000_2800, 0x1000_3800),
                (0x1002_0000, 0x1002_0800),
                (0x1003_f800, 0x1004_0000),
            ],
        ),
        (
            0x1000_2ff8,
            0x1003_fff8,
            &[
                (0x1000_2ff8, 0x1000_3800),
                (0x1002_0000, 0x1002_0800),
                (0x1003_f800, 0x1003_fff8),
            ],
        ),
    ] {
        expect_runs(&rt, &cards, lo, hi, want);
    }
    put_each(
        &rt,
        &mut cards,
        false,
        &[0x1000_2800, 0x1002_07ff, 0x1000_1000],
    );
    for (lo, hi, want) in [
        (0x1000_2000, 0x1003_0000, &[(0x1000_3000, 0x1000_3800)][..]),
        (0x1000_1000, 0x1000_2000, &[(0x1000_1800, 0x1000_2000)]),
    ] {
        expect_runs(&rt, &cards, lo, hi, want);
    }
    Ok(())
}

#[test]
fn a_cover_ends(rt: HostRuntime) -> Result<(), Fail> {
    let mut cards = Cards::new(rt.alloc());
    cards.add(0x1000_0000, 0x4_0000)?;
    assert_eq!(rt; cards.covers(), 1);
    cards.remove(0x1000_0000);
    assert_eq!(rt; cards.covers(), 0);
    cards.add(0x1000_0000, 0x1000)?;
    Ok(())
}
