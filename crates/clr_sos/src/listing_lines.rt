// A listing of the heap with a line for each item.
ghost use Rattle.std.specs.Prelude.{◌≡◌, ℕ, ◌+◌, ◌<◌, ◌≤◌, ◌^◌, ◌++◌, Bool, filter, length, OnOk, []};
ghost use Rattle.clr_model.specs.declared.Mode.TheVariants.{Full, Short};
ghost use Rattle.clr_model.specs.Sos.{dump_by_mode, item_line};
ghost use Rattle.clr_sos.specs.Dumping.{AreListed, counted, totals_line};
ghost use Rattle.clr_sos.specs.Wants.{AnswersFor, is_wanted, MayAskOf};

use crate::heap_items::HeapItems;
use crate::line_ends::{no_ends, put_line};
use crate::text::{put_address, put_head, put_word_number};
use crate::wanted::Wanted;
use clr_types::{Item, Types};
use std::alloc::AllocError;

/// What the items of a listing come to: how many objects, their bytes, and the bytes of free items.
#[derive(Clone, Copy)]
pub(crate) struct Totals {
    pub(crate) objects: u64,
    pub(crate) bytes: u64,
    pub(crate) free: u64,
}

impl Totals {
    /// Counts an item.
    pub(crate) fn count(&mut self, item: &Item)
        requires objects { self.old.objects + 1 < 2 ^ 64 }
        requires bytes { self.old.bytes + item.now.size < 2 ^ 64 }
        requires free { self.old.free + item.now.size < 2 ^ 64 }
        ensures { self.new ≡ counted self.old item.now }
    {
        if item.type_id.0 == 0 {
            self.free += item.size;
        } else {
            self.objects += 1;
            self.bytes += item.size;
        }
    }
}

/// Puts a line for each item that is shown at the end, and the line of the totals.
pub(crate) fn put_lines<F: Fn(u64) -> bool>(
    text: &mut Vec<u8>,
    types: &Types,
    items: HeapItems<'_>,
    wanted: &Wanted,
    live: &F,
) -> Result<(), AllocError>
    requires listed { AreListed types.now items }
    requires ask { MayAskOf (λ place. F.pre live.now place) items }
    ensures { OnOk result
        ((test : ℕ → Bool) → AnswersFor (λ place answer. F.post live.now place answer) test items.entry
        → text.new.items ≡ text.old.items
        ++ dump_by_mode Full types.now (filter (is_wanted wanted.now test) items.entry)) }
{
    let mut totals = Totals {
        objects: 0,
        bytes: 0,
        free: 0,
    };
    let mut ends = no_ends();
    for item in items {
        if !wanted.shows(&item, live) {
            continue;
        }
        put_line(text, types, &item, &mut ends)?;
        totals.count(&item);
    }
    put_totals(text, totals)?;
    Ok(())
}

/// Puts the line of the place of each item that is shown at the end, and `none` where none is.
pub(crate) fn put_places<F: Fn(u64) -> bool>(
    text: &mut Vec<u8>,
    items: HeapItems<'_>,
    wanted: &Wanted,
    live: &F,
) -> Result<(), AllocError>
    requires ask { MayAskOf (λ place. F.pre live.now place) items }
    ensures { OnOk result
        ((test : ℕ → Bool) → AnswersFor (λ place answer. F.post live.now place answer) test items.entry
        → text.new.items ≡ text.old.items
        ++ dump_by_mode Short [] (filter (is_wanted wanted.now test) items.entry)) }
{
    let mut found = false;
    for item in items {
        if !wanted.shows(&item, live) {
            continue;
        }
        found = true;
        put_address(text, item.place)?;
        text.extend_from_slice(b"\n")?;
    }
    if found {
        return Ok(());
    }
    text.extend_from_slice(b"none\n")?;
    Ok(())
}

/// Puts the line of the totals at the end.
pub(crate) fn put_totals(text: &mut Vec<u8>, totals: Totals) -> Result<(), AllocError>
    ensures { OnOk result (text.new.items ≡ text.old.items ++ totals_line totals) }
{
    put_word_number(text, b"total ", totals.objects)?;
    put_word_number(text, b" bytes ", totals.bytes)?;
    put_word_number(text, b" free ", totals.free)?;
    text.extend_from_slice(b"\n")?;
    Ok(())
}

/// Puts the line of an item at the end.
pub fn put_item(text: &mut Vec<u8>, types: &Types, item: &Item) -> Result<(), AllocError>
    requires { item.now.type_id.0 ≤ length types.now }
    ensures { OnOk result (text.new.items ≡ text.old.items ++ item_line types.now item.now) }
{
    put_head(text, item.place, types.mt(item.type_id), item.size)?;
    text.extend_from_slice(types.name(item.type_id))?;
    text.extend_from_slice(b"\n")?;
    Ok(())
}
