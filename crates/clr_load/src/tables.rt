//! The tables of an image: who holds all others, what threads have begun, the handles and the queues.
ghost use Rattle.std.specs.Prelude.{◌≡◌, ◌-◌, ◌≤◌, [], length, slice_get};
ghost use Rattle.clr_types.specs.HandleCode as codes;
ghost use Rattle.clr_fields.specs.Fields.{field, times};
ghost use Rattle.clr_fields.specs.Finds.{Finds, FindsAs, FindsThat};
ghost use Rattle.clr_format.specs.TableFields as fields;
ghost use Rattle.clr_format.specs.TableFields.{all_handles, all_steps, begun_fields, handle_fields, idle_fields};
ghost use Rattle.clr_format.specs.TableFields.{is_number, is_second, more_handles, more_places, more_steps};
ghost use Rattle.clr_format.specs.TableFields.{queue_fields, step_fields, store_fields, tables_fields};
ghost use Rattle.clr_load.specs.ReadTables.{tables_of};

use clr_fields::{LoadFault, Reader};
use clr_format::{Head, Step};
use clr_types::{Handle, Kind, TypeId, Types};
use std::alloc::Global;

/// How many threads there are.
const THREADS: u64 = 16;

/// The tables of an image, the handles with their numbers, by rising number.
#[derive(Drop)]
pub struct Tables {
    pub holder: Option<u32>,
    pub steps: Vec<Step>,
    pub handles: Vec<(u64, Handle)>,
    pub entries: Vec<u64>,
    pub ready: Vec<u64>,
}

// ---- what threads have begun

#[tactic(auto, unfolding(clr_format::specs::TableFields::idle_fields))]
fn read_idle(reader: &mut Reader<'_>) -> Result<Step, LoadFault>
    ensures { Finds idle_fields reader.old reader.new result }
{
    reader.zero()?;
    reader.zero()?;
    reader.zero()?;
    reader.zero()?;
    Ok(Step::Idle)
}

#[tactic(auto, unfolding(clr_format::specs::TableFields::store_fields))]
fn read_store(reader: &mut Reader<'_>) -> Result<Step, LoadFault>
    ensures { Finds store_fields reader.old reader.new result }
{
    let object = reader.word()?;
    let slot = reader.word()?;
    reader.zero()?;
    reader.zero()?;
    Ok(Step::Store { object, slot })
}

// Whether an object of this type and length may be begun: it is no large one, and a class has no length.
fn is_new_length(types: &Types, large: u64, t: TypeId, len: u64) -> bool
    requires known { t.0 ≤ length types.now }
    requires small { large ≤ 67104768 }
    ensures { result ≡ fields.is_new_length types.now large t.0 len }
{
    if len != 0 && !types.has_length(t) {
        return false;
    }
    match types.size_of(t, len) {
        Some(size) => size < large,
        None => false,
    }
}

// The length of an object that is begun.
fn read_new_length(
    reader: &mut Reader<'_>,
    types: &Types,
    large: u64,
    t: TypeId,
) -> Result<u64, LoadFault>
    requires known { t.0 ≤ length types.now }
    requires small { large ≤ 67104768 }
    ensures { Finds (field (fields.is_new_length types.now large t.0)) reader.old reader.new result }
{
    let at = reader.at();
    let len = reader.word()?;
    if is_new_length(types, large, t, len) {
        Ok(len)
    } else {
        Err(LoadFault::At(at as u64))
    }
}

#[tactic(auto, unfolding(clr_format::specs::TableFields::begun_fields))]
fn read_begun(reader: &mut Reader<'_>, head: &Head, types: &Types) -> Result<Step, LoadFault>
    requires { head.now.large ≤ 67104768 }
    ensures { Finds (begun_fields head.now types.now) reader.old reader.new result }
{
    let count = u64::from(types.count()) - 1;
    let t = reader.from_to(1, count)?;
    let type_id = TypeId(t as u32);
    let len = read_new_length(reader, types, head.large, type_id)?;
    let local = reader.up_to(63)?;
    let front = reader.word()?;
    Ok(Step::Begun {
        type_id,
        len,
        local,
        front,
    })
}

// What one thread has begun.
#[tactic(auto, unfolding(clr_format::specs::TableFields::step_fields))]
fn read_step(reader: &mut Reader<'_>, head: &Head, types: &Types) -> Result<Step, LoadFault>
    requires { head.now.large ≤ 67104768 }
    ensures { Finds (step_fields head.now types.now) reader.old reader.new result }
{
    match reader.up_to(2)? {
        0 => read_idle(reader),
        1 => read_store(reader),
        _ => read_begun(reader, head, types),
    }
}

#[tactic(auto, unfolding(clr_format::specs::TableFields::more_steps))]
fn add_step(
    reader: &mut Reader<'_>,
    head: &Head,
    types: &Types,
    steps: &mut Vec<Step>,
) -> Result<(), LoadFault>
    requires { head.now.large ≤ 67104768 }
    ensures { FindsThat (more_steps head.now types.now steps.old.items) reader.old reader.new result steps.new.items }
{
    let step = read_step(reader, head, types)?;
    steps.push(step)?;
    Ok(())
}

// What all threads have begun.
fn read_steps(
    reader: &mut Reader<'_>,
    head: &Head,
    types: &Types,
    steps: &mut Vec<Step>,
) -> Result<(), LoadFault>
    requires { head.now.large ≤ 67104768 }
    ensures { FindsThat (times 16 (more_steps head.now types.now) steps.old.items) reader.old reader.new result
        steps.new.items }
{
    for _turn in 0..THREADS {
        add_step(reader, head, types, steps)?;
    }
    Ok(())
}

// ---- handles and queues

// The kind of this number.
fn kind_with(number: u64) -> Kind
    requires { number ≤ 4 }
    ensures { result ≡ codes.kind_of_number number }
{
    match number {
        0 => Kind::Strong,
        1 => Kind::Pinned,
        2 => Kind::Weak,
        3 => Kind::WeakLong,
        _ => Kind::Dependent,
    }
}

// Whether a number is above that of the last handle.
fn is_above(handles: &Vec<(u64, Handle)>, number: u64) -> bool
    ensures { result ≡ fields.is_above (slice_get handles.now.items (length handles.now.items - 1)) number }
{
    match handles.last() {
        None => true,
        Some(last) => last.0 < number,
    }
}

// The number of a handle: below 65,536, and above that of the handle before.
fn read_number(reader: &mut Reader<'_>, handles: &Vec<(u64, Handle)>) -> Result<u64, LoadFault>
    ensures { Finds (field (is_number handles.now.items)) reader.old reader.new result }
{
    let at = reader.at();
    let number = reader.word()?;
    if is_above(handles, number) && number < 65536 {
        Ok(number)
    } else {
        Err(LoadFault::At(at as u64))
    }
}

// The second of a handle.
fn read_second(reader: &mut Reader<'_>, kind: u64, target: u64) -> Result<u64, LoadFault>
    requires { kind ≤ 4 }
    ensures { Finds (field (is_second kind target)) reader.old reader.new result }
{
    let at = reader.at();
    let second = reader.word()?;
    if second == 0 || (kind_with(kind).is_dependent() && target != 0) {
        Ok(second)
    } else {
        Err(LoadFault::At(at as u64))
    }
}

#[tactic(auto, unfolding(clr_format::specs::TableFields::handle_fields))]
fn read_handle(
    reader: &mut Reader<'_>,
    handles: &Vec<(u64, Handle)>,
) -> Result<(u64, Handle), LoadFault>
    ensures { Finds (handle_fields handles.now.items) reader.old reader.new result }
{
    let number = read_number(reader, handles)?;
    let kind = reader.up_to(4)?;
    let target = reader.word()?;
    let second = read_second(reader, kind, target)?;
    let handle = Handle {
        kind: kind_with(kind),
        target,
        second,
    };
    Ok((number, handle))
}

#[tactic(auto, unfolding(clr_format::specs::TableFields::more_handles))]
fn add_handle(reader: &mut Reader<'_>, handles: &mut Vec<(u64, Handle)>) -> Result<(), LoadFault>
    ensures { FindsThat (more_handles handles.old.items) reader.old reader.new result handles.new.items }
{
    let handle = read_handle(reader, handles)?;
    handles.push(handle)?;
    Ok(())
}

fn read_so_many_handles(
    reader: &mut Reader<'_>,
    handles: &mut Vec<(u64, Handle)>,
    n: u64,
) -> Result<(), LoadFault>
    ensures { FindsThat (times n more_handles handles.old.items) reader.old reader.new result handles.new.items }
{
    for _turn in 0..n {
        add_handle(reader, handles)?;
    }
    Ok(())
}

#[tactic(auto, unfolding(clr_format::specs::TableFields::all_handles))]
fn read_handles(reader: &mut Reader<'_>, handles: &mut Vec<(u64, Handle)>) -> Result<(), LoadFault>
    requires { handles.old.items ≡ [] }
    ensures { FindsThat all_handles reader.old reader.new result handles.new.items }
{
    let n = reader.up_to(65536)?;
    read_so_many_handles(reader, handles, n)
}

#[tactic(auto, unfolding(clr_format::specs::TableFields::more_places))]
fn add_place(reader: &mut Reader<'_>, places: &mut Vec<u64>) -> Result<(), LoadFault>
    ensures { FindsThat (more_places places.old.items) reader.old reader.new result places.new.items }
{
    let place = reader.word()?;
    places.push(place)?;
    Ok(())
}

fn read_places(reader: &mut Reader<'_>, places: &mut Vec<u64>, n: u64) -> Result<(), LoadFault>
    ensures { FindsThat (times n more_places places.old.items) reader.old reader.new result places.new.items }
{
    for _turn in 0..n {
        add_place(reader, places)?;
    }
    Ok(())
}

#[tactic(auto, unfolding(clr_format::specs::TableFields::queue_fields))]
fn read_queue(alloc: Global, reader: &mut Reader<'_>) -> Result<Vec<u64>, LoadFault>
    ensures { FindsAs (λ v. v.items) queue_fields reader.old reader.new result }
{
    let n = reader.word()?;
    let mut places = Vec::new(alloc);
    read_places(reader, &mut places, n)?;
    Ok(places)
}

// ---- all tables

/// The tables of an image of the second version.
#[tactic(auto, unfolding(clr_format::specs::TableFields::tables_fields))]
pub fn read_tables(
    alloc: Global,
    reader: &mut Reader<'_>,
    head: &Head,
    types: &Types,
) -> Result<Tables, LoadFault>
    requires { head.now.large ≤ 67104768 }
    ensures { FindsAs tables_of (tables_fields head.now types.now) reader.old reader.new result }
{
    let holder = reader.up_to(16)?;
    let mut steps = Vec::new(alloc);
    read_steps(reader, head, types, &mut steps)?;
    let mut handles = Vec::new(alloc);
    read_handles(reader, &mut handles)?;
    let entries = read_queue(alloc, reader)?;
    let ready = read_queue(alloc, reader)?;
    Ok(Tables {
        holder: holder_with(holder),
        steps,
        handles,
        entries,
        ready,
    })
}

// The thread of this number, and none where it is 0.
fn holder_with(thread: u64) -> Option<u32>
    requires { thread ≤ 16 }
    ensures { result ≡ fields.thread_or_none thread }
{
    if thread == 0 {
        None
    } else {
        Some(thread as u32)
    }
}
