// Types that are defined, and what a table of them tells.
use clr_types::{DefineFault, Shape, TypeId, Types};
use std::alloc::Global;
use std::process::Abort;
use std::test::Fail;

const FREE: TypeId = TypeId(0);

const CLASS: TypeId = TypeId(1);

const REFERENCES: TypeId = TypeId(2);

const BYTES: TypeId = TypeId(3);

const STRUCTS: TypeId = TypeId(4);

// Defines a type. It promises nothing, so that what `define` ensures doesn't stand in the goals of each test.
fn define(
    types: &mut Types,
    name: &[u8],
    shape: Shape,
    finalizer: bool,
) -> Result<TypeId, DefineFault> {
    types.define(name, shape, finalizer)
}

// Defines the types that the tests look at.
fn define_some(types: &mut Types) -> Result<(), DefineFault> {
    let _ = define(types, b"Node", Shape::Class(b"rrnr"), true)?;
    let _ = define(types, b"Nodes", Shape::RefArray, false)?;
    let _ = define(types, b"Text", Shape::ByteArray, false)?;
    let _ = define(types, b"Pairs", Shape::StructArray(b"nr"), false)?;
    Ok(())
}

fn some_types(rt: &impl Abort, alloc: Global) -> Result<Types, Fail> {
    let mut types = Types::new(alloc)?;
    assert!(rt; define_some(&mut types).is_ok());
    Ok(types)
}

// What the definition of each of these types is to answer.
fn define_each(
    rt: &impl Abort,
    types: &mut Types,
    cases: &[(&[u8], Shape, bool, Result<TypeId, DefineFault>)],
) {
    for &(name, shape, finalizer, wanted) in cases {
        assert_eq!(rt; define(types, name, shape, finalizer), wanted);
    }
}

// A pattern of so many references.
fn pattern(alloc: Global, slots: usize) -> Result<Vec<u8>, Fail> {
    Ok(vec![in alloc; b'r'; slots]?)
}

#[test]
fn define_answers(rt: HostRuntime) -> Result<(), Fail> {
    let class = pattern(rt.alloc(), 257)?;
    let structs = pattern(rt.alloc(), 65)?;
    let mut types = some_types(&rt, rt.alloc())?;
    let cases = [
        (
            b"Node".as_slice(),
            Shape::Class(b"x"),
            false,
            Err(DefineFault::Duplicate),
        ),
        (
            b"Free".as_slice(),
            Shape::RefArray,
            false,
            Err(DefineFault::Duplicate),
        ),
        (
            b"Odd".as_slice(),
            Shape::Class(b"rx"),
            false,
            Err(DefineFault::BadShape),
        ),
        (
            b"Odd".as_slice(),
            Shape::StructArray(b""),
            false,
            Err(DefineFault::BadShape),
        ),
        (
            b"Odd".as_slice(),
            Shape::ByteArray,
            true,
            Err(DefineFault::BadShape),
        ),
        (b"Empty".as_slice(), Shape::Class(b""), false, Ok(TypeId(5))),
    ];
    define_each(&rt, &mut types, &cases);
    refuse_wide(&rt, &mut types, &class, &structs);
    Ok(())
}

// A class of 257 slots is refused, and an array of structs of 65.
fn refuse_wide(rt: &impl Abort, types: &mut Types, class: &[u8], structs: &[u8]) {
    assert_eq!(rt;
        define(types, b"Wide", Shape::Class(class), false),
        Err(DefineFault::BadShape)
    );
    assert_eq!(rt;
        define(types, b"Wide", Shape::StructArray(structs), false),
        Err(DefineFault::BadShape)
    );
}

// Defines a thousand types, by two bytes as the name of each.
fn fill(rt: &impl Abort, types: &mut Types) {
    for i in 1..1001u32 {
        let name = [(i / 100) as u8, (i % 100) as u8];
        assert_eq!(rt; define(types, &name, Shape::RefArray, false), Ok(TypeId(i)));
    }
}

#[test]
fn a_thousand_types(rt: HostRuntime) -> Result<(), Fail> {
    let mut types = Types::new(rt.alloc())?;
    fill(&rt, &mut types);
    assert_eq!(rt;
        define(&mut types, b"Last", Shape::RefArray, false),
        Err(DefineFault::TooManyTypes)
    );
    assert_eq!(rt; types.count(), 1001);
    Ok(())
}

// The size of an object of a type and a length.
fn size(types: &Types, t: TypeId, len: u64) -> Option<u64> {
    if t.0 < types.count() {
        types.size_of(t, len)
    } else {
        None
    }
}

fn expect_sizes(rt: &impl Abort, types: &Types, cases: &[(TypeId, u64, Option<u64>)]) {
    for &(t, len, wanted) in cases {
        assert_eq!(rt; size(types, t, len), wanted, "of {len}");
    }
}

#[test]
fn sizes(rt: HostRuntime) -> Result<(), Fail> {
    let types = some_types(&rt, rt.alloc())?;
    let cases = [
        (CLASS, 7, Some(48)),
        (REFERENCES, 0, Some(24)),
        (REFERENCES, 3, Some(48)),
        (BYTES, 1, Some(32)),
        (BYTES, 9, Some(40)),
        (BYTES, 1_073_741_800, Some(1_073_741_824)),
        (BYTES, 1_073_741_801, None),
        (STRUCTS, 3, Some(72)),
        (STRUCTS, u64::MAX, None),
        (FREE, 16, Some(40)),
    ];
    expect_sizes(&rt, &types, &cases);
    Ok(())
}

// The offsets of references, by the runs and by the slots.
fn offsets(
    alloc: Global,
    types: &Types,
    t: TypeId,
    len: u64,
) -> Result<(Vec<u64>, Vec<u64>), Fail> {
    let mut by_runs = Vec::new(alloc);
    let mut by_slots = Vec::new(alloc);
    if t.0 < types.count() && types.size_of(t, len).is_some() {
        for offset in types.slots(t, len) {
            by_runs.push(offset)?;
        }
        for i in 0..types.slot_count(t, len) {
            let slot = types.slot(t, len, i);
            if slot.reference {
                by_slots.push(slot.offset)?;
            }
        }
    }
    Ok((by_runs, by_slots))
}

fn expect_offsets(
    rt: &impl Abort,
    alloc: Global,
    types: &Types,
    cases: &[(TypeId, u64, &[u64])],
) -> Result<(), Fail> {
    for &(t, len, wanted) in cases {
        let (by_runs, by_slots) = offsets(alloc, types, t, len)?;
        assert_eq!(rt; by_runs.as_slice(), wanted);
        assert_eq!(rt; by_slots.as_slice(), wanted);
    }
    Ok(())
}

#[test]
fn references(rt: HostRuntime) -> Result<(), Fail> {
    let types = some_types(&rt, rt.alloc())?;
    let cases = [
        (CLASS, 0, [8, 16, 32].as_slice()),
        (REFERENCES, 2, [16, 24].as_slice()),
        (REFERENCES, 0, [].as_slice()),
        (BYTES, 20, [].as_slice()),
        (STRUCTS, 3, [24, 40, 56].as_slice()),
        (STRUCTS, 0, [].as_slice()),
    ];
    expect_offsets(&rt, rt.alloc(), &types, &cases)
}

// The runs of the references of a type are to be these, each by its start and by its length less the size.
fn expect_series(rt: &impl Abort, types: &Types, t: TypeId, wanted: &[(u64, i64)]) {
    assert!(rt; t.0 < types.count());
    let series = types.series(t);
    assert_eq!(rt; series.len(), wanted.len());
    for (run, &(start, run_less_size)) in series.iter().zip(wanted) {
        assert!(rt; run.start == start && run.run_less_size == run_less_size);
    }
}

#[test]
fn runs(rt: HostRuntime) -> Result<(), Fail> {
    let types = some_types(&rt, rt.alloc())?;
    expect_series(&rt, &types, CLASS, &[(8, -32), (32, -40)]);
    expect_series(&rt, &types, REFERENCES, &[(16, -24)]);
    expect_series(&rt, &types, STRUCTS, &[(24, -32)]);
    expect_series(&rt, &types, BYTES, &[]);
    Ok(())
}

// The run of the references of an object, by its offset and its count.
fn reference_run(types: &Types, t: TypeId, len: u64) -> Option<(u64, u64)> {
    if t.0 < types.count() {
        let run = types.reference_run(t, len)?;
        Some((run.offset, run.count))
    } else {
        None
    }
}

fn expect_runs(rt: &impl Abort, types: &Types, cases: &[(TypeId, u64, Option<(u64, u64)>)]) {
    for &(t, len, wanted) in cases {
        assert_eq!(rt; reference_run(types, t, len), wanted, "of {len}");
    }
}

#[test]
fn references_in_one_run(rt: HostRuntime) -> Result<(), Fail> {
    let mut types = some_types(&rt, rt.alloc())?;
    define_each(
        &rt,
        &mut types,
        &[
            (
                b"Pair".as_slice(),
                Shape::Class(b"nrr"),
                false,
                Ok(TypeId(5)),
            ),
            (
                b"Plain".as_slice(),
                Shape::Class(b"n"),
                false,
                Ok(TypeId(6)),
            ),
        ],
    );
    let cases = [
        (TypeId(5), 0, Some((16, 2))),
        (TypeId(6), 0, None),
        (CLASS, 0, None),
        (REFERENCES, 3, Some((16, 3))),
        (REFERENCES, 0, Some((16, 0))),
        (BYTES, 8, None),
        (STRUCTS, 3, None),
    ];
    expect_runs(&rt, &types, &cases);
    Ok(())
}

// What a name and a method table word find are to be these.
fn expect_found(rt: &impl Abort, types: &Types, cases: &[(&[u8], u64, Option<TypeId>)]) {
    for &(name, word, wanted) in cases {
        assert_eq!(rt; types.by_name(name), wanted, "at {word}");
        assert_eq!(rt; types.by_mt(word), wanted, "at {word}");
    }
}

// The name of a type, and its method table word, which finds it.
fn expect_name(rt: &impl Abort, types: &Types, t: TypeId, name: &[u8], word: u64) {
    assert!(rt; t.0 < types.count());
    assert_eq!(rt; types.name(t), name);
    assert_eq!(rt; types.mt(t), word);
}

// Whether a type has a finaliser, and whether its objects have a length.
fn expect_flags(rt: &impl Abort, types: &Types, t: TypeId, finalizer: bool, has_length: bool) {
    assert!(rt; t.0 < types.count());
    assert_eq!(rt; types.finalizer(t), finalizer);
    assert_eq!(rt; types.has_length(t), has_length);
}

#[test]
fn names_and_words(rt: HostRuntime) -> Result<(), Fail> {
    let types = some_types(&rt, rt.alloc())?;
    let cases = [
        (b"Free".as_slice(), 0x7ff0_0000_0000, Some(FREE)),
        (b"Node".as_slice(), 0x7ff0_0000_0040, Some(CLASS)),
        (b"Pairs".as_slice(), 0x7ff0_0000_0100, Some(STRUCTS)),
        (b"None".as_slice(), 0x7ff0_0000_0140, None),
        (b"".as_slice(), 0x7ff0_0000_0020, None),
        (b"Nodes ".as_slice(), 0x7fef_ffff_ffc0, None),
        (b"node".as_slice(), 0, None),
    ];
    expect_found(&rt, &types, &cases);
    expect_name(&rt, &types, FREE, b"Free", 0x7ff0_0000_0000);
    expect_name(&rt, &types, CLASS, b"Node", 0x7ff0_0000_0040);
    expect_name(&rt, &types, STRUCTS, b"Pairs", 0x7ff0_0000_0100);
    expect_flags(&rt, &types, FREE, false, true);
    expect_flags(&rt, &types, CLASS, true, false);
    expect_flags(&rt, &types, STRUCTS, false, true);
    Ok(())
}

// The shape of a class, and the type of each word.
fn expect_class(rt: &impl Abort, types: &Types, t: TypeId, wanted: bool) {
    assert!(rt; t.0 < types.count());
    assert_eq!(rt; matches!(types.shape(t), Shape::Class(b"rrnr")), wanted);
    assert_eq!(rt; types.of_mt(types.mt(t)), t);
}

#[test]
fn shapes(rt: HostRuntime) -> Result<(), Fail> {
    let types = some_types(&rt, rt.alloc())?;
    expect_class(&rt, &types, FREE, false);
    expect_class(&rt, &types, CLASS, true);
    expect_class(&rt, &types, STRUCTS, false);
    Ok(())
}
