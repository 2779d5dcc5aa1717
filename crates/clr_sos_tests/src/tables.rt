// A small heap, and what is answered for handles, queues and what threads have begun beside it.
ghost use Rattle.std.specs.Prelude.{◌≡◌};
ghost use Rattle.clr_heap.specs.View.{no_rests};

use crate::faults::{LIMIT, put_items, sample_types};
use clr_bricks::Bricks;
use clr_final::Finals;
use clr_handles::Handles;
use clr_heap::Heap;
use clr_sos::{State, Step, View, verifyheap, verifyheap_at_once, verifyheap_with_room};
use clr_types::{Handle, Kind, TypeId, Types};
use std::alloc::Global;
use std::process::Abort;
use std::test::Fail;

// The addresses of a pair, of bytes, of a free item of 32 bytes in generation 0, and of an object whose type has a
// finalizer.
const PAIR: u64 = 0x1000_1000;

const BYTES: u64 = 0x1000_1020;

const FREE_ITEM: u64 = 0x1000_1040;

const GONE: u64 = 0x1000_1060;

// What refers to objects beside heap and locals.
#[derive(Clone, Copy)]
struct Tables<'a> {
    handles: &'a [Handle],
    entries: &'a [u64],
    ready: &'a [u64],
    steps: &'a [Step],
    holder: Option<u64>,
}

// Nothing refers to an object.
const NONE: Tables<'static> = Tables {
    handles: &[],
    entries: &[],
    ready: &[],
    steps: &[],
    holder: None,
};

// A handle of this kind.
const fn handle(kind: Kind, target: u64, second: u64) -> Handle {
    Handle {
        kind,
        target,
        second,
    }
}

// An object of this type that is begun.
const fn begun(type_id: u32, len: u64, local: u64, front: u64) -> Step {
    Step::Begun {
        type_id: TypeId(type_id),
        len,
        local,
        front,
    }
}

// What is answered for the heap of items and these tables. However much room there is, it is to be the same.
fn verified<'a>(
    rt: &impl Abort,
    alloc: Global,
    heap: &'a Heap,
    types: &'a Types,
    tables: Tables<'a>,
) -> Result<Result<(), u64>, Fail>
    requires { heap.now.rests ≡ no_rests }
{
    let bricks = Bricks::new(alloc);
    let mut handles = Handles::new(alloc);
    for row in tables.handles {
        let _ = handles.create(row.kind, row.target, row.second)?;
    }
    let mut finals = Finals::new(alloc);
    finals.restore(tables.entries, tables.ready)?;
    let locals = [0, PAIR];
    let state = State {
        view: View {
            types,
            heap,
            bricks: &bricks,
            handles: &handles,
            finals: &finals,
            locals: &locals,
            limit: LIMIT,
            large: 85_000,
        },
        steps: tables.steps,
        holder: tables.holder,
    };
    let answer = verifyheap(&state);
    let mut room = [7];
    assert!(rt; verifyheap_with_room(&state, &mut room) == answer);
    assert!(rt; verifyheap_at_once(alloc, &state) == answer);
    Ok(answer)
}

// What is answered for the heap of items and these tables.
fn answer(rt: &impl Abort, alloc: Global, tables: Tables<'_>) -> Result<Result<(), u64>, Fail> {
    let types = sample_types(alloc)?;
    let mut heap = Heap::new(alloc, 262_144, LIMIT)?;
    put_items(rt, &mut heap);
    heap.set_boundaries(BYTES, BYTES);
    verified(rt, alloc, &heap, &types, tables)
}

// For each of these tables the fault is told that no address names.
fn are_faults(rt: &impl Abort, alloc: Global, rows: &[Tables<'_>]) -> Result<(), Fail> {
    for (i, &tables) in rows.iter().enumerate() {
        assert_eq!(rt; answer(rt, alloc, tables)?, Err(0), "row {i}");
    }
    Ok(())
}

#[test]
fn lawful_tables_have_no_fault(rt: HostRuntime) -> Result<(), Fail> {
    let handles = [
        handle(Kind::Strong, GONE, 0),
        handle(Kind::Dependent, PAIR, BYTES),
        handle(Kind::Dependent, PAIR, 0),
        handle(Kind::Weak, 0, 0),
    ];
    let steps = [
        Step::Idle,
        Step::Store {
            object: PAIR,
            slot: 0,
        },
        begun(2, 8, 63, FREE_ITEM),
    ];
    let tables = Tables {
        handles: &handles,
        entries: &[GONE],
        ready: &[GONE, GONE],
        steps: &steps,
        holder: Some(16),
    };
    assert_eq!(&rt; answer(&rt, rt.alloc(), tables)?, Ok(()));
    assert_eq!(&rt; answer(&rt, rt.alloc(), NONE)?, Ok(()));
    Ok(())
}

#[test]
fn faults_of_handles_are_found(rt: HostRuntime) -> Result<(), Fail> {
    for row in [
        // a free item, the middle of an object, and no second that names one
        handle(Kind::Weak, FREE_ITEM, 0),
        handle(Kind::Pinned, PAIR + 8, 0),
        handle(Kind::Dependent, PAIR, FREE_ITEM),
        // seconds of a strong handle, and of one whose target is null
        handle(Kind::Strong, PAIR, BYTES),
        handle(Kind::Dependent, 0, BYTES),
    ] {
        let handles = [handle(Kind::Strong, PAIR, 0), row];
        let tables = Tables {
            handles: &handles,
            ..NONE
        };
        assert_eq!(&rt; answer(&rt, rt.alloc(), tables)?, Err(0));
    }
    Ok(())
}

#[test]
fn faults_of_queues_are_found(rt: HostRuntime) -> Result<(), Fail> {
    // an object whose type has no finalizer, null, and a free item
    for place in [PAIR, 0, FREE_ITEM] {
        let queue = [GONE, place];
        let entries = Tables {
            entries: &queue,
            ..NONE
        };
        let ready = Tables {
            ready: &queue,
            ..NONE
        };
        are_faults(&rt, rt.alloc(), &[entries, ready])?;
    }
    Ok(())
}

#[test]
fn faults_of_steps_are_found(rt: HostRuntime) -> Result<(), Fail> {
    for step in [
        // a number's slot, one behind all slots, and a free item
        Step::Store {
            object: PAIR,
            slot: 1,
        },
        Step::Store {
            object: PAIR,
            slot: 2,
        },
        Step::Store {
            object: FREE_ITEM,
            slot: 0,
        },
        // free space, an unknown type, a class with a length, and a local too many
        begun(0, 8, 0, FREE_ITEM),
        begun(4, 8, 0, FREE_ITEM),
        begun(1, 1, 0, FREE_ITEM),
        begun(2, 8, 64, FREE_ITEM),
        // more bytes than there are, and fewer, where no free item fits behind them
        begun(2, 9, 0, FREE_ITEM),
        begun(2, 0, 0, FREE_ITEM),
        // the front of an object, and the middle of a free item
        begun(2, 8, 0, BYTES),
        begun(2, 8, 0, FREE_ITEM + 8),
        // more than any heap has
        begun(2, 0x1_0000_0000, 0, FREE_ITEM),
    ] {
        let steps = [Step::Idle, step];
        let tables = Tables {
            steps: &steps,
            ..NONE
        };
        assert_eq!(&rt; answer(&rt, rt.alloc(), tables)?, Err(0));
    }
    let one = begun(2, 8, 0, FREE_ITEM);
    let twice = Tables {
        steps: &[one, one],
        ..NONE
    };
    let nobody = Tables {
        holder: Some(0),
        ..NONE
    };
    let past = Tables {
        holder: Some(17),
        ..NONE
    };
    are_faults(&rt, rt.alloc(), &[twice, nobody, past])
}
