// How lines of items end. Those of items of one type and one size differ in their places alone, so an end is kept, and
// is put behind the next place at once.
ghost use Rattle.std.specs.Prelude.{◌≡◌, ◌<◌, ◌≤◌, ◌++◌, length, List, OnOk, take, true};
ghost use Rattle.clr_types.specs.Types.{TypeRow};
ghost use Rattle.clr_model.specs.Sos.{item_line};
ghost use Rattle.clr_sos.specs.LineEnds.{AreLineEnds, IsLineEnd};

use crate::listing_lines::put_item;
use crate::text::put_address;
use clr_types::{Item, TypeId, Types};
use std::alloc::AllocError;

/// How the lines of items of one type and one size end, behind their places. Without bytes nothing is kept.
#[derive(Clone, Copy)]
pub(crate) struct LineEnd {
    type_id: TypeId,
    size: u64,
    bytes: [u8; 64],
    count: usize,
}

/// Room for eight ends, of which none is kept yet.
pub(crate) fn no_ends() -> [LineEnd; 8]
    ensures { (rows : List TypeRow) → AreLineEnds rows result }
{
    let none = LineEnd {
        type_id: TypeId(0),
        size: 0,
        bytes: [0; 64],
        count: 0,
    };
    [none; 8]
}

/// Puts the line of an item at the end, at once where the end of one like it is kept.
#[inline(always)]
pub(crate) fn put_line(
    text: &mut Vec<u8>,
    types: &Types,
    item: &Item,
    ends: &mut [LineEnd],
) -> Result<(), AllocError>
    requires known { item.now.type_id.0 ≤ length types.now }
    requires ends { AreLineEnds types.now ends.old }
    ensures text { OnOk result (text.new.items ≡ text.old.items ++ item_line types.now item.now) }
    ensures ends { AreLineEnds types.now ends.new }
{
    let end = &mut ends[(item.type_id.0 % 8) as usize];
    put_by(text, types, item, end)
}

// Puts the line of an item at the end, by the end of a line that may be that of the item.
#[inline(always)]
fn put_by(
    text: &mut Vec<u8>,
    types: &Types,
    item: &Item,
    end: &mut LineEnd,
) -> Result<(), AllocError>
    requires known { item.now.type_id.0 ≤ length types.now }
    requires end { IsLineEnd types.now end.old }
    ensures text { OnOk result (text.new.items ≡ text.old.items ++ item_line types.now item.now) }
    ensures end { IsLineEnd types.now end.new }
{
    if !end.is_of(item) {
        put_new(text, types, item, end)?;
        return Ok(());
    }
    put_address(text, item.place)?;
    end.put(text)?;
    Ok(())
}

// Puts the line of an item at the end, and keeps how it ends.
#[inline(never)]
fn put_new(
    text: &mut Vec<u8>,
    types: &Types,
    item: &Item,
    end: &mut LineEnd,
) -> Result<(), AllocError>
    requires known { item.now.type_id.0 ≤ length types.now }
    requires end { IsLineEnd types.now end.old }
    ensures text { OnOk result (text.new.items ≡ text.old.items ++ item_line types.now item.now) }
    ensures end { IsLineEnd types.now end.new }
{
    let start = text.len();
    put_item(text, types, item)?;
    *end = end_of(item, &text[start + 16..]);
    Ok(())
}

// What is kept of an item whose line ends so: no bytes where there are too many.
fn end_of(item: &Item, bytes: &[u8]) -> LineEnd
    ensures type_id { result.type_id.0 ≡ item.now.type_id.0 }
    ensures size { result.size ≡ item.now.size }
    ensures within { result.count ≤ 64 }
    ensures bytes { 0 < result.count → take result.count result.bytes ≡ bytes.now }
{
    let mut kept = [0; 64];
    let count = copy_front(&mut kept, bytes);
    LineEnd {
        type_id: item.type_id,
        size: item.size,
        bytes: kept,
        count,
    }
}

// Copies bytes to the front, and gives their count: 0 where there is no room for all.
fn copy_front(into: &mut [u8; 64], bytes: &[u8]) -> usize
    ensures within { result ≤ 64 }
    ensures copied { 0 < result → take result into.new ≡ bytes.now }
{
    let count = bytes.len();
    if count > 64 {
        return 0;
    }
    into[..count].copy_from_slice(bytes);
    count
}

impl LineEnd {
    // Whether this is kept of an item like that one.
    #[inline(always)]
    fn is_of(&self, item: &Item) -> bool
        ensures kept { result ≡ true → 0 < self.now.count }
        ensures type_id { result ≡ true → item.now.type_id.0 ≡ self.now.type_id.0 }
        ensures size { result ≡ true → item.now.size ≡ self.now.size }
    {
        self.count > 0 && self.type_id.0 == item.type_id.0 && self.size == item.size
    }

    // Puts it at the end of a text: all bytes first, as many as always, and then those behind it go.
    #[inline(always)]
    fn put(&self, text: &mut Vec<u8>) -> Result<(), AllocError>
        requires { self.now.count ≤ 64 }
        ensures { OnOk result (text.new.items ≡ text.old.items ++ take self.now.count self.now.bytes) }
    {
        let before = text.len();
        text.extend_from_slice(&self.bytes)?;
        text.truncate(before + self.count);
        Ok(())
    }
}
