// Rows of stretches: the items of a list, a few at a time.
ghost use Rattle.std.specs.Prelude.{◌≡◌, ℕ, ◌+◌, ◌-◌, ◌<◌, ◌≤◌, ◌^◌, ◌++◌, [], ◌∷◌};
ghost use Rattle.std.specs.Prelude.{find, length, true};
ghost use Rattle.clr_types.specs.Rising.{insert_by, IsIn, IsRisingBy};
ghost use Rattle.clr_types.specs.Ranges.{fits};
ghost use Rattle.clr_model.specs.Allocation.{taken_from};
ghost use Rattle.clr_items.specs.Stretches.{all_of, AreFilled, IsHome};

use crate::stretches::Stretch;
use clr_types::Span;
use std::alloc::Global;

// The first item in which a size fits: `None` where it fits in none.
#[inline(always)]
pub(crate) fn first_in_row(row: &[Stretch], size: u64) -> Option<Span>
    requires { size < 2 ^ 62 }
    ensures { result ≡ find (λ p. fits size p.size) (all_of row.now) }
{
    for stretch in row {
        let found = stretch.first_in(size);
        if found.is_some() {
            return found;
        }
    }
    None
}

// Puts an item behind all others: `false` where there is no memory for it.
#[inline(always)]
pub(crate) fn add_last(row: &mut Vec<Stretch>, alloc: Global, item: Span) -> bool
    ensures filled { AreFilled row.old.items → AreFilled row.new.items }
    ensures added { result ≡ true → all_of row.new.items ≡ all_of row.old.items ++ item ∷ [] }
{
    let count = row.len();
    if count > 0 {
        let last = &mut row[count - 1];
        if last.has_room() {
            return last.push(item);
        }
    }
    begin_stretch(row, alloc, item)
}

// Begins a stretch behind all others with an item: `false` where there is no memory for it.
#[inline(never)]
fn begin_stretch(row: &mut Vec<Stretch>, alloc: Global, item: Span) -> bool
    ensures filled { AreFilled row.old.items → AreFilled row.new.items }
    ensures added { result ≡ true → all_of row.new.items ≡ all_of row.old.items ++ item ∷ [] }
{
    let Some(stretch) = Stretch::of(alloc, item) else {
        return false;
    };
    row.push(stretch).is_ok()
}

// The number of the first stretch of which not all items stand below a place, or how many stretches there are.
fn find_stretch(row: &[Stretch], place: u64) -> usize
    requires filled { AreFilled row.now }
    requires rising { IsRisingBy (λ p. p.place) (all_of row.now) }
    ensures within { result ≤ length row.now }
    ensures home { IsHome place row.now result }
{
    let mut low = 0;
    let mut high = row.len();
    while low < high {
        let middle = low + (high - low) / 2;
        if row[middle].is_below(place) {
            low = middle + 1;
        } else {
            high = middle;
        }
    }
    low
}

// Puts an item in before those that do not stand below it: `false` where there is no memory for it.
pub(crate) fn put_in_row(row: &mut Vec<Stretch>, alloc: Global, item: Span) -> bool
    requires filled { AreFilled row.old.items }
    requires rising { IsRisingBy (λ p. p.place) (all_of row.old.items) }
    ensures filled { AreFilled row.new.items }
    ensures added { result ≡ true → all_of row.new.items ≡ insert_by (λ p. p.place) item (all_of row.old.items) }
{
    let k = find_stretch(row.as_slice(), item.place());
    if k == row.len() {
        return add_last(row, alloc, item);
    }
    if !row[k].put(item) {
        return false;
    }
    split_if_long(row, alloc, k);
    true
}

// Makes two of a stretch that is too long, where there is memory for it. The items stay.
fn split_if_long(row: &mut Vec<Stretch>, alloc: Global, k: usize)
    requires within { k < length row.old.items }
    ensures filled { AreFilled row.old.items → AreFilled row.new.items }
    ensures items { all_of row.new.items ≡ all_of row.old.items }
{
    if !row[k].is_long() {
        return;
    }
    let Some(upper) = row[k].upper(alloc) else {
        return;
    };
    if row.insert(k + 1, upper).is_ok() {
        row[k].cut();
    }
}

// Takes `taken` bytes from the front of one of the items. What is left of it stays.
pub(crate) fn take_in_row(row: &mut Vec<Stretch>, item: Span, taken: u64)
    requires filled { AreFilled row.old.items }
    requires rising { IsRisingBy (λ p. p.place) (all_of row.old.items) }
    requires listed { IsIn item (all_of row.old.items) }
    requires within { taken ≤ item.size }
    ensures filled { AreFilled row.new.items }
    ensures items { all_of row.new.items ≡ taken_from item.place taken (all_of row.old.items) }
{
    let k = find_stretch(row.as_slice(), item.place());
    row[k].take_front(item, taken);
    if row[k].is_empty() {
        let _ = row.remove(k);
    }
}
