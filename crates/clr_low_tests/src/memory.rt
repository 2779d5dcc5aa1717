// Memories that are written, and the words that they hold then.
ghost use Rattle.std.specs.Prelude.{IsTrue};
ghost use Rattle.clr_mem.specs.Words.{Holds};

use clr_mem::{Mem, NoMemory};
use std::process::Abort;
use std::test::Fail;

// One call of a method that writes, with its addresses and its values.
#[derive(Clone, Copy)]
enum Write {
    Word(u64, u64),
    Byte(u64, u8),
    Slide(u64, u64, u64),
    Carry(u64, u64, u64),
    Zero(u64, u64),
}

// Whether the `n` bytes from `a` on are whole words of the memory.
fn is_inside(mem: &Mem, a: u64, n: u64) -> bool
    ensures { IsTrue result → Holds mem.now a n }
{
    let end = mem.base() + mem.len();
    a % 8 == 0 && n % 8 == 0 && mem.base() <= a && a <= end && n <= end - a
}

fn apply(rt: &impl Abort, mem: &mut Mem, other: &Mem, write: Write) {
    match write {
        Write::Word(a, v) => {
            assert!(rt; is_inside(mem, a, 8));
            mem.set_word(a, v);
        }
        Write::Byte(a, v) => {
            assert!(rt; is_inside(mem, a - a % 8, 8));
            mem.set_byte(a, v);
        }
        Write::Slide(from, to, len) => {
            assert!(rt; is_inside(mem, from, len) && is_inside(mem, to, len) && to <= from);
            mem.slide(from, to, len);
        }
        Write::Carry(to, from, len) => {
            assert!(rt; is_inside(mem, to, len) && is_inside(other, from, len));
            mem.carry(to, other, from, len);
        }
        Write::Zero(a, len) => {
            assert!(rt; is_inside(mem, a, len));
            mem.zero(a, len);
        }
    }
}

// The words at these four addresses.
fn words_at(rt: &impl Abort, mem: &Mem, places: [u64; 4]) -> [u64; 4] {
    places.map(|a| {
        assert!(rt; is_inside(mem, a, 8));
        mem.word(a)
    })
}

// Makes each write of the table, and looks at four words after it.
fn check_writes(
    rt: &impl Abort,
    mem: &mut Mem,
    other: &Mem,
    places: [u64; 4],
    rows: &[(Write, [u64; 4])],
) {
    for (i, (write, words)) in rows.iter().enumerate() {
        apply(rt, mem, other, *write);
        assert_eq!(rt; words_at(rt, mem, places), *words, "after row {i}");
    }
}

// Writes 7, 8 and 9 to the words from 0x2000 on.
fn number_words(rt: &impl Abort, mem: &mut Mem, other: &Mem) {
    for i in 0..3 {
        apply(rt, mem, other, Write::Word(0x2000 + 8 * i, 7 + i));
    }
}

// Writes at the front of a memory from 0x1000 on, with words of another one from 0x2000 on.
fn check_front(rt: &impl Abort, mut mem: Mem, mut other: Mem) {
    number_words(rt, &mut other, &mem);
    assert!(rt; !mem.is_empty());
    let places = [0x1000, 0x1008, 0x1010, 0x1018];
    assert_eq!(rt; words_at(rt, &mem, places), [0, 0, 0, 0], "a new memory");
    let rows = [
        (
            Write::Word(0x1008, 0x1122_3344_5566_7788),
            [0, 0x1122_3344_5566_7788, 0, 0],
        ),
        (Write::Byte(0x100f, 0xaa), [0, 0xaa22_3344_5566_7788, 0, 0]),
        (Write::Byte(0x1010, 5), [0, 0xaa22_3344_5566_7788, 5, 0]),
        (Write::Byte(0x1011, 1), [0, 0xaa22_3344_5566_7788, 261, 0]),
        (Write::Word(0x1018, 3), [0, 0xaa22_3344_5566_7788, 261, 3]),
        (
            Write::Slide(0x1008, 0x1000, 24),
            [0xaa22_3344_5566_7788, 261, 3, 3],
        ),
        (Write::Zero(0x1008, 8), [0xaa22_3344_5566_7788, 0, 3, 3]),
        (
            Write::Carry(0x1010, 0x2008, 16),
            [0xaa22_3344_5566_7788, 0, 8, 9],
        ),
        (Write::Zero(0x1020, 0), [0xaa22_3344_5566_7788, 0, 8, 9]),
    ];
    check_writes(rt, &mut mem, &other, places, &rows);
}

#[test]
fn each_write_leaves_these_words(rt: HostRuntime) -> Result<(), Fail> {
    let mem = Mem::new(rt.alloc(), 0x1000, 32)?;
    let other = Mem::new(rt.alloc(), 0x2000, 24)?;
    check_front(&rt, mem, other);
    Ok(())
}

#[test]
fn each_write_to_a_sparse_memory_leaves_these_words(rt: HostRuntime) -> Result<(), Fail> {
    let mem = Mem::sparse(rt.alloc(), 0x1000, 0x1000)?;
    let other = Mem::sparse(rt.alloc(), 0x2000, 0x1000)?;
    check_front(&rt, mem, other);
    Ok(())
}

// Memories of several pages, and of several steps in which bytes are stored, so that their backs are never written.
fn check_unwritten(rt: &impl Abort, mut mem: Mem, mut other: Mem) {
    apply(rt, &mut other, &mem, Write::Word(0x4fff8, 8));
    let places = [0x1008, 0x10ff8, 0x11000, 0x30ff8];
    assert_eq!(rt; words_at(rt, &mem, places), [0, 0, 0, 0], "a new memory");
    let rows = [
        (Write::Zero(0x1000, 0x30000), [0, 0, 0, 0]),
        (Write::Slide(0x20ff8, 0x10ff8, 0x10000), [0, 0, 0, 0]),
        (Write::Word(0x1008, 5), [5, 0, 0, 0]),
        (Write::Byte(0x11001, 1), [5, 0, 256, 0]),
        (Write::Slide(0x21000, 0x1008, 8), [0, 0, 256, 0]),
        (Write::Word(0x20ff8, 4), [0, 0, 256, 0]),
        (Write::Slide(0x20ff8, 0x10ff8, 16), [0, 4, 0, 0]),
        (Write::Word(0x11000, 3), [0, 4, 3, 0]),
        (Write::Carry(0x10ff8, 0x4fff8, 16), [0, 8, 0, 0]),
        (Write::Carry(0x30ff8, 0x50000, 8), [0, 8, 0, 0]),
        (Write::Carry(0x30ff8, 0x4fff8, 8), [0, 8, 0, 8]),
        (Write::Zero(0x10ff8, 0x20008), [0, 0, 0, 0]),
    ];
    check_writes(rt, &mut mem, &other, places, &rows);
}

#[test]
fn what_was_never_written_reads_as_zero(rt: HostRuntime) -> Result<(), Fail> {
    let mem = Mem::new(rt.alloc(), 0x1000, 0x30000)?;
    let other = Mem::new(rt.alloc(), 0x40000, 0x20000)?;
    check_unwritten(&rt, mem, other);
    let mem = Mem::sparse(rt.alloc(), 0x1000, 0x30000)?;
    let other = Mem::sparse(rt.alloc(), 0x40000, 0x20000)?;
    check_unwritten(&rt, mem, other);
    Ok(())
}

#[test]
fn words_go_between_sparse_memories_and_others(rt: HostRuntime) -> Result<(), Fail> {
    let mem = Mem::sparse(rt.alloc(), 0x1000, 0x30000)?;
    let other = Mem::new(rt.alloc(), 0x40000, 0x20000)?;
    check_unwritten(&rt, mem, other);
    let mem = Mem::new(rt.alloc(), 0x1000, 0x30000)?;
    let other = Mem::sparse(rt.alloc(), 0x40000, 0x20000)?;
    check_unwritten(&rt, mem, other);
    Ok(())
}

fn byte_at(rt: &impl Abort, mem: &Mem, a: u64) -> u8 {
    assert!(rt; is_inside(mem, a - a % 8, 8));
    mem.byte(a)
}

fn check_bytes(rt: &impl Abort, mut mem: Mem, other: Mem) {
    apply(
        rt,
        &mut mem,
        &other,
        Write::Word(0x1000, 0xaa22_3344_5566_7788),
    );
    let places = [
        0x1000u64, 0x1001, 0x1002, 0x1003, 0x1006, 0x1007, 0x1008, 0x20fff,
    ];
    assert_eq!(rt;
        places.map(|a| byte_at(rt, &mem, a)),
        [0x88, 0x77, 0x66, 0x55, 0x22, 0xaa, 0, 0]
    );
}

#[test]
fn bytes_are_lowest_first(rt: HostRuntime) -> Result<(), Fail> {
    let mem = Mem::new(rt.alloc(), 0x1000, 0x20000)?;
    check_bytes(&rt, mem, Mem::new(rt.alloc(), 8, 0)?);
    let mem = Mem::sparse(rt.alloc(), 0x1000, 0x20000)?;
    check_bytes(&rt, mem, Mem::sparse(rt.alloc(), 8, 0)?);
    Ok(())
}

#[test]
fn a_memory_is_refused_or_empty(rt: HostRuntime) -> Result<(), Fail> {
    assert_eq!(rt; Mem::new(rt.alloc(), 0, 1 << 62).err(), Some(NoMemory));
    assert_eq!(rt; Mem::sparse(rt.alloc(), 0, 1 << 62).err(), Some(NoMemory));
    assert!(rt; Mem::new(rt.alloc(), 8, 0)?.is_empty());
    assert!(rt; Mem::sparse(rt.alloc(), 8, 0)?.is_empty());
    Ok(())
}
