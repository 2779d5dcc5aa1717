// Queues that are filled, judged, moved, taken from and restored.
use clr_final::{Finals, Verdict};
use std::process::Abort;
use std::test::Fail;

// Adds an entry for each place.
fn register_each(rt: &impl Abort, finals: &mut Finals, places: &[u64]) {
    for &place in places {
        assert!(rt; finals.reserve(1).is_ok());
        finals.register(place);
    }
}

// What the queue is to hold.
fn holds(rt: &impl Abort, finals: &Finals, entries: &[u64], ready: &[u64]) {
    assert_eq!(rt; finals.entries(), entries);
    assert_eq!(rt; finals.ready(), ready);
}

// Odd tens are alive, of the others those of four hundred and more are woken.
fn judge(place: u64) -> Verdict {
    if place / 10 % 2 == 1 {
        Verdict::Alive
    } else if place >= 400 {
        Verdict::Woken
    } else {
        Verdict::Dropped
    }
}

fn judge_all(finals: &mut Finals) {
    finals.dead(|place| judge(place));
}

fn judge_from(finals: &mut Finals, low: u64) {
    finals.dead_from(low, |place| judge(place));
}

fn move_all(finals: &mut Finals) {
    finals.relocate(|place| u64::wrapping_add(place, 1));
}

fn move_from(finals: &mut Finals, low: u64) {
    finals.relocate_from(low, |place| u64::wrapping_add(place, 1));
}

#[test]
fn entries_are_judged(rt: HostRuntime) -> Result<(), Fail> {
    let mut finals = Finals::new(rt.alloc());
    register_each(&rt, &mut finals, &[410, 420, 130, 140, 450, 460, 460]);
    judge_from(&mut finals, 450);
    holds(&rt, &finals, &[410, 420, 130, 140, 450], &[460, 460]);
    judge_all(&mut finals);
    holds(&rt, &finals, &[410, 130, 450], &[460, 460, 420]);
    move_all(&mut finals);
    holds(&rt, &finals, &[411, 131, 451], &[461, 461, 421]);
    assert_eq!(rt; finals.next(), Some(461));
    move_from(&mut finals, 440);
    holds(&rt, &finals, &[411, 131, 452], &[462, 421]);
    assert_eq!(rt; finals.next(), Some(462));
    assert_eq!(rt; finals.next(), Some(421));
    assert_eq!(rt; finals.next(), None);
    holds(&rt, &finals, &[411, 131, 452], &[]);
    Ok(())
}

// Entries by rising place, of which every second is alive.
fn register_many(rt: &impl Abort, finals: &mut Finals) {
    for i in 0..1000u64 {
        assert!(rt; finals.reserve(1).is_ok());
        finals.register(u64::wrapping_mul(i, 10));
    }
}

// Takes all that is ready, by rising place.
fn take_all(rt: &impl Abort, finals: &mut Finals) -> usize {
    let mut last = 0;
    let mut count = 0usize;
    for _ in 0..2000 {
        let Some(place) = finals.next() else {
            break;
        };
        assert!(rt; last < place && place % 20 == 0);
        last = place;
        count = usize::wrapping_add(count, 1);
        assert!(rt; finals.reserve(1).is_ok());
    }
    count
}

#[test]
fn many_entries_are_settled(rt: HostRuntime) -> Result<(), Fail> {
    let mut finals = Finals::new(rt.alloc());
    register_many(&rt, &mut finals);
    assert_eq!(rt; finals.settled(10_000), 0);
    judge_from(&mut finals, 10_000);
    assert_eq!(rt; finals.settled(10_000), 960);
    assert_eq!(rt; finals.settled(5_000), 448);
    judge_from(&mut finals, 400);
    assert_eq!(rt; finals.entries().len(), 520);
    assert_eq!(rt; finals.settled(10_000), 512);
    assert_eq!(rt; take_all(&rt, &mut finals), 480);
    assert_eq!(rt; finals.next(), None);
    Ok(())
}

#[test]
fn a_queue_is_restored(rt: HostRuntime) -> Result<(), Fail> {
    let mut finals = Finals::new(rt.alloc());
    assert!(rt; finals.entries().is_empty() && finals.ready().is_empty());
    restore_three(&rt, &mut finals);
    assert_eq!(rt; finals.next(), Some(30));
    Ok(())
}

// Restores an empty queue.
fn restore_three(rt: &impl Abort, finals: &mut Finals) {
    assert!(rt; finals.entries().len() == 0 && finals.ready().len() == 0);
    assert!(rt; finals.restore(&[10, 20], &[30]).is_ok());
    holds(rt, finals, &[10, 20], &[30]);
}
