// Lists of free items by rising place.
ghost use Rattle.std.specs.Prelude.{◌≡◌, ℕ, ◌+◌, ◌-◌, ◌<◌, ◌≤◌, ◌^◌, ◌++◌, [], ◌∷◌, find, true};
ghost use Rattle.clr_types.specs.Rising.{insert_by, IsIn, IsRisingBy};
ghost use Rattle.clr_types.specs.Ranges.{fits};
ghost use Rattle.clr_model.specs.Allocation.{taken_from};

use crate::rows::{add_last, first_in_row, put_in_row, take_in_row};
use crate::stretches::Stretch;
use clr_types::Span;
use std::alloc::Global;
use std::marker::Model;

/// Free items by rising place. Clauses see them as the list.
///
/// They stand in stretches, each with a size that none of its items exceeds, so that a search passes by a stretch of
/// items that are all too small, and one that is put in or taken moves those of its stretch alone.
#[derive(Drop)]
pub struct FreeItems {
    alloc: Global,
    row: Vec<Stretch>,
}

impl Model for FreeItems {
    ghost use Rattle.clr_items.specs.Items.{Listed};
    ghost use Rattle.clr_items.specs.Stretches.{all_of, AreFilled};

    ghost Value = { Listed };

    ghost view = { λ f. record { items = all_of f.row.items } };

    ghost invariant = { λ f. AreFilled f.row.items };
}

impl FreeItems {
    /// No items. Takes no memory.
    pub fn new(alloc: Global) -> FreeItems
        ensures { result.items ≡ [] }
    {
        FreeItems {
            alloc,
            row: Vec::new(alloc),
        }
    }

    /// Forgets all items.
    pub fn clear(&mut self)
        ensures { self.new.items ≡ [] }
    {
        self.row.clear();
    }

    /// Puts an item behind all others: `false` where there is no memory for it.
    #[inline(always)]
    pub fn push_back(&mut self, item: Span) -> bool
        ensures { result ≡ true → self.new.items ≡ self.old.items ++ item ∷ [] }
    {
        add_last(&mut self.row, self.alloc, item)
    }
}

/// Whether a size fits in a range of `bytes`: it fills it, or leaves at least 24 bytes.
pub fn fits_in(size: u64, bytes: u64) -> bool
    requires { size < 2 ^ 62 }
    ensures { result ≡ fits size bytes }
{
    size == bytes || size + 24 <= bytes
}

/// The first item in which a size fits: `None` where it fits in none.
pub fn first_in(items: &FreeItems, size: u64) -> Option<Span>
    requires { size < 2 ^ 62 }
    ensures { result ≡ find (λ p. fits size p.size) items.now.items }
{
    first_in_row(items.row.as_slice(), size)
}

/// Puts an item in before those that do not stand below it: `false` where there is no memory for it.
pub fn insert_item(items: &mut FreeItems, item: Span) -> bool
    requires { IsRisingBy (λ p. p.place) items.old.items }
    ensures { result ≡ true → items.new.items ≡ insert_by (λ p. p.place) item items.old.items }
{
    put_in_row(&mut items.row, items.alloc, item)
}

/// Takes `taken` bytes from the front of one of the items. What is left of it stays.
pub fn take_front(items: &mut FreeItems, item: Span, taken: u64)
    requires rising { IsRisingBy (λ p. p.place) items.old.items }
    requires listed { IsIn item items.old.items }
    requires within { taken ≤ item.size }
    ensures { items.new.items ≡ taken_from item.place taken items.old.items }
{
    take_in_row(&mut items.row, item, taken)
}
