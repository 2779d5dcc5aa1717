// A queue of two entries, and what the heap reads as with it.
ghost use Rattle.std.specs.Prelude.{◌≡◌, ℕ, ◌+◌, ◌<◌, ◌≤◌, ◌^◌, [], ◌∷◌, length, IfOk};
ghost use Rattle.clr_heap_tests.specs.Samples.{sample_entries};

use clr_heap::Heap;
use clr_pinq::{PinEntry, PinQueue, Saved};
use std::alloc::Global;
use std::process::Abort;
use std::test::Fail;

// A plug with words saved before it and at its end, and one with words saved at its end.
fn two_entries(alloc: Global) -> Result<PinQueue, Fail>
    ensures { IfOk result (λ q. q.entries ≡ sample_entries) }
{
    let mut queue = PinQueue::new(alloc)?;
    queue.reserve(2)?;
    queue.push(PinEntry {
        start: 0x1000_1100,
        end: 0x1000_1180,
        pre: Some(Saved {
            at: 0x1000_10e0,
            w0: 11,
            w1: 12,
            w2: 13,
        }),
        post: Some(Saved {
            at: 0x1000_1160,
            w0: 21,
            w1: 22,
            w2: 23,
        }),
    });
    queue.push(PinEntry {
        start: 0x1000_1200,
        end: 0x1000_1300,
        pre: None,
        post: Some(Saved {
            at: 0x1000_12e0,
            w0: 31,
            w1: 32,
            w2: 33,
        }),
    });
    Ok(queue)
}

// The logical word and the heap's own word at an address of the first segment.
fn both_words(rt: &impl Abort, queue: &PinQueue, heap: &Heap, a: u64) -> (u64, u64) {
    assert!(rt; heap.segments() > 0);
    let segment = heap.info(0);
    assert!(rt; segment.base <= a);
    assert!(rt; a < segment.base + segment.reserved);
    assert!(rt; a % 8 == 0);
    (queue.logical_word(heap, 0, a), heap.word(a))
}

// Writes the logical word at an address of the first segment.
fn write(rt: &impl Abort, queue: &mut PinQueue, heap: &mut Heap, a: u64, v: u64) {
    assert!(rt; heap.segments() > 0);
    let segment = heap.info(0);
    assert!(rt; segment.base <= a);
    assert!(rt; a < segment.base + segment.reserved);
    assert!(rt; a % 8 == 0);
    queue.set_logical_word(heap, 0, a, v);
}

// Puts the sample's words back.
fn put_samples_back(rt: &impl Abort, queue: &mut PinQueue, heap: &mut Heap)
    requires { queue.old.entries ≡ sample_entries }
{
    assert!(rt; heap.segments() > 0);
    let segment = heap.info(0);
    assert!(rt; segment.base <= 0x1000_1000);
    assert!(rt; 0x1000_2000 <= segment.base + segment.reserved);
    queue.put_back(heap);
}

fn expect_words(rt: &impl Abort, queue: &PinQueue, heap: &Heap, cases: &[(u64, u64, u64)]) {
    for &(a, logical, own) in cases {
        assert_eq!(rt; both_words(rt, queue, heap, a), (logical, own), "at {a}");
    }
}

#[test]
fn saved_words_are_read(rt: HostRuntime) -> Result<(), Fail> {
    let mut heap = Heap::new(rt.alloc(), 262_144, 1_048_576)?;
    let mut queue = two_entries(rt.alloc())?;
    write(&rt, &mut queue, &mut heap, 0x1000_10e8, 99);
    write(&rt, &mut queue, &mut heap, 0x1000_10f8, 7);
    write(&rt, &mut queue, &mut heap, 0x1000_1f00, 8);
    let cases = [
        (0x1000_10d8, 0, 0),
        (0x1000_10e0, 11, 0),
        (0x1000_10e8, 99, 0),
        (0x1000_10f0, 13, 0),
        (0x1000_10f8, 7, 7),
        (0x1000_1158, 0, 0),
        (0x1000_1160, 21, 0),
        (0x1000_1170, 23, 0),
        (0x1000_1178, 0, 0),
        (0x1000_12e0, 31, 0),
        (0x1000_12f0, 33, 0),
        (0x1000_1f00, 8, 8),
    ];
    expect_words(&rt, &queue, &heap, &cases);
    assert_eq!(rt; queue.len(), 2);
    for (a, want) in [
        (0x1000_1000, 0x1000_10e0),
        (0x1000_10e4, 0x1000_10e8),
        (0x1000_10f1, 0x1000_1160),
        (0x1000_1178, 0x1000_12e0),
        (0x1000_12f0, 0x1000_12f0),
        (0x1000_12f8, u64::MAX),
    ] {
        assert_eq!(rt; queue.next_saved(0, a), want, "from {a}");
    }
    queue.clear();
    expect_words(&rt, &queue, &heap, &[(0x1000_10e8, 0, 0)]);
    Ok(())
}

#[test]
fn saved_words_are_put_back(rt: HostRuntime) -> Result<(), Fail> {
    let mut heap = Heap::new(rt.alloc(), 262_144, 1_048_576)?;
    let mut queue = two_entries(rt.alloc())?;
    put_samples_back(&rt, &mut queue, &mut heap);
    let cases = [
        (0x1000_10e0, 11, 11),
        (0x1000_10e8, 12, 12),
        (0x1000_1170, 23, 23),
        (0x1000_1178, 0, 0),
        (0x1000_12f0, 33, 33),
    ];
    expect_words(&rt, &queue, &heap, &cases);
    assert_eq!(rt; queue.len(), 0);
    Ok(())
}
