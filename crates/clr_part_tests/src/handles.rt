// Tables that are filled, cleared, moved, gone over and restored.
use clr_handles::{CreateFault, Handle, Handles, Kind, NoHandle};
use std::process::Abort;
use std::test::Fail;

// A handle of this kind that names these places.
fn handle(kind: Kind, target: u64, second: u64) -> Handle {
    Handle {
        kind,
        target,
        second,
    }
}

// One handle for each case, numbered from 0 on.
fn create_each(rt: &impl Abort, handles: &mut Handles, cases: &[(Kind, u64, u64)]) {
    let mut want = 0;
    for &(kind, target, second) in cases {
        assert_eq!(rt; handles.create(kind, target, second), Ok(want));
        want = u64::wrapping_add(want, 1);
    }
}

// What the first numbers are to name.
fn names_each(rt: &impl Abort, handles: &Handles, cases: &[(u64, u64)]) {
    let mut h = 0;
    for &(target, second) in cases {
        let found = handles.get(h).map(|row| (row.target, row.second));
        assert_eq!(rt; found, Some((target, second)), "of handle {h}");
        h = u64::wrapping_add(h, 1);
    }
    assert!(rt; handles.get(h).is_none());
}

// One handle of each kind for two places, and null ones.
fn of_each_kind(rt: &impl Abort, handles: &mut Handles) {
    create_each(
        rt,
        handles,
        &[
            (Kind::Strong, 16, 0),
            (Kind::Pinned, 24, 0),
            (Kind::Weak, 16, 0),
            (Kind::Weak, 24, 0),
            (Kind::WeakLong, 16, 0),
            (Kind::WeakLong, 24, 0),
            (Kind::Dependent, 16, 24),
            (Kind::Dependent, 24, 16),
            (Kind::Weak, 0, 0),
            (Kind::Dependent, 32, 0),
        ],
    );
}

// Clears what isn't at 16.
fn clear_all(handles: &mut Handles) {
    handles.clear_short(|place| place == 16);
    handles.clear_long(|place| place == 16);
    handles.clear_dependent(|place| place == 16);
}

// Clears what is neither below 25 nor at 40.
fn clear_from(handles: &mut Handles) {
    handles.clear_short_from(25, |place| place == 40);
    handles.clear_long_from(25, |place| place == 40);
    handles.clear_dependent_from(25, |place| place == 40);
}

fn move_all(handles: &mut Handles) {
    handles.relocate(|place| u64::wrapping_add(place, 8));
}

fn move_from(handles: &mut Handles, low: u64) {
    handles.relocate_from(low, |place| u64::wrapping_sub(place, 8));
}

#[test]
fn numbers_are_given_out(rt: HostRuntime) -> Result<(), Fail> {
    let mut handles = Handles::new(rt.alloc());
    of_each_kind(&rt, &mut handles);
    assert_eq!(rt; handles.pinned_count(), 1);
    assert_eq!(rt; handles.free(1), Ok(handle(Kind::Pinned, 24, 0)));
    assert_eq!(rt; handles.free(1), Err(NoHandle));
    assert_eq!(rt; handles.pinned_count(), 0);
    assert_eq!(rt; handles.create(Kind::Strong, 8, 0), Ok(1));
    assert_eq!(rt; handles.get(65_536), None);
    Ok(())
}

#[test]
fn handles_are_cleared(rt: HostRuntime) -> Result<(), Fail> {
    let mut handles = Handles::new(rt.alloc());
    of_each_kind(&rt, &mut handles);
    clear_from(&mut handles);
    names_each(
        &rt,
        &handles,
        &[
            (16, 0),
            (24, 0),
            (16, 0),
            (24, 0),
            (16, 0),
            (24, 0),
            (16, 24),
            (24, 16),
            (0, 0),
            (0, 0),
        ],
    );
    clear_all(&mut handles);
    names_each(
        &rt,
        &handles,
        &[
            (16, 0),
            (24, 0),
            (16, 0),
            (0, 0),
            (16, 0),
            (0, 0),
            (16, 24),
            (0, 0),
            (0, 0),
            (0, 0),
        ],
    );
    Ok(())
}

#[test]
fn handles_follow(rt: HostRuntime) -> Result<(), Fail> {
    let mut handles = Handles::new(rt.alloc());
    of_each_kind(&rt, &mut handles);
    move_all(&mut handles);
    move_from(&mut handles, 32);
    names_each(
        &rt,
        &handles,
        &[
            (24, 0),
            (24, 0),
            (24, 0),
            (24, 0),
            (24, 0),
            (24, 0),
            (24, 24),
            (24, 24),
            (0, 0),
            (32, 0),
        ],
    );
    move_from(&mut handles, 33);
    assert_eq!(rt;
        handles.next_from(0, 25),
        Some((9, handle(Kind::Dependent, 32, 0)))
    );
    assert_eq!(rt;
        handles.next_from(8, 0),
        Some((8, handle(Kind::Weak, 0, 0)))
    );
    assert_eq!(rt; handles.next_from(0, 33), None);
    assert_eq!(rt;
        handles.previous_below(10, 24),
        Some((9, handle(Kind::Dependent, 32, 0)))
    );
    Ok(())
}

// Which numbers are found from a number on, and below it.
fn finds_each(rt: &impl Abort, handles: &Handles, cases: &[(u64, u64, Option<u64>, Option<u64>)]) {
    for &(h, low, next, previous) in cases {
        let from = handles.next_from(h, low).map(|found| found.0);
        assert_eq!(rt; from, next, "from {h} on, at {low} and above");
        let below = handles.previous_below(h, low).map(|found| found.0);
        assert_eq!(rt; below, previous, "below {h}, at {low} and above");
    }
}

#[test]
fn handles_are_found(rt: HostRuntime) -> Result<(), Fail> {
    let mut handles = Handles::new(rt.alloc());
    for &(h, target) in &[(3, 40), (64, 0), (70, 24), (200, 16), (65_535, 8)] {
        restore_one(&rt, &mut handles, h, target);
    }
    finds_each(
        &rt,
        &handles,
        &[
            (0, 0, Some(3), None),
            (3, 0, Some(3), None),
            (4, 0, Some(64), Some(3)),
            (65, 0, Some(70), Some(64)),
            (70, 24, Some(70), Some(3)),
            (71, 24, None, Some(70)),
            (128, 0, Some(200), Some(70)),
            (65_535, 0, Some(65_535), Some(200)),
            (65_536, 0, None, Some(65_535)),
            (u64::MAX, 8, None, Some(65_535)),
            (u64::MAX, 9, None, Some(200)),
            (u64::MAX, 25, None, Some(3)),
            (0, 25, Some(3), None),
            (0, 41, None, None),
            (u64::MAX, 41, None, None),
        ],
    );
    Ok(())
}

// As many handles as there are numbers, each for its own place.
fn fill(rt: &impl Abort, handles: &mut Handles) {
    for h in 0..65_536u64 {
        assert_eq!(rt; handles.create(Kind::Strong, h, 0), Ok(h));
    }
}

// Goes down over all numbers of a full table.
fn walk_down(rt: &impl Abort, handles: &Handles) {
    let mut before = 65_536;
    for _ in 0..65_536 {
        let found = handles.previous_below(before, 0).map(|found| found.0);
        assert_eq!(rt; found, Some(u64::wrapping_sub(before, 1)));
        before = u64::wrapping_sub(before, 1);
    }
    assert_eq!(rt; handles.previous_below(before, 0), None);
}

#[test]
fn a_table_is_full(rt: HostRuntime) -> Result<(), Fail> {
    let mut handles = Handles::new(rt.alloc());
    fill(&rt, &mut handles);
    assert_eq!(rt;
        handles.create(Kind::Weak, 8, 0),
        Err(CreateFault::TooManyHandles)
    );
    assert_eq!(rt;
        handles.next_from(0, 65_000),
        Some((65_000, handle(Kind::Strong, 65_000, 0)))
    );
    walk_down(&rt, &handles);
    assert_eq!(rt; handles.free(77), Ok(handle(Kind::Strong, 77, 0)));
    assert_eq!(rt; handles.create(Kind::Weak, 8, 0), Ok(77));
    assert_eq!(rt;
        handles.create(Kind::Weak, 8, 0),
        Err(CreateFault::TooManyHandles)
    );
    Ok(())
}

// Restores a handle that isn't there.
fn restore_one(rt: &impl Abort, handles: &mut Handles, h: u64, target: u64) {
    assert!(rt; h < 65_536 && handles.get(h).is_none());
    assert_eq!(rt; handles.restore(h, handle(Kind::Pinned, target, 0)), Ok(()));
    assert_eq!(rt; handles.get(h), Some(handle(Kind::Pinned, target, 0)));
}

#[test]
fn handles_are_restored(rt: HostRuntime) -> Result<(), Fail> {
    let mut handles = Handles::new(rt.alloc());
    for &h in &[3, 70, 65_535, 2, 0] {
        restore_one(&rt, &mut handles, h, h);
    }
    assert_eq!(rt; handles.pinned_count(), 5);
    for _ in 0..200 {
        let h = handles.create(Kind::Weak, 8, 0).unwrap_or(0);
        assert!(rt; h < 65_536);
    }
    for &h in &[3, 70, 65_535, 2, 0] {
        assert_eq!(rt; handles.get(h), Some(handle(Kind::Pinned, h, 0)));
        assert_eq!(rt; handles.free(h), Ok(handle(Kind::Pinned, h, 0)));
    }
    assert_eq!(rt; handles.pinned_count(), 0);
    restore_one(&rt, &mut handles, 70, 70);
    Ok(())
}
