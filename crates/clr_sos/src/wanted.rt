// Which items `dumpheap` shows.
ghost use Rattle.std.specs.Prelude.{◌≡◌, ◌<◌, ℕ, Bool, IfSome, MatchOption, false, option_map, true, ◌&&◌};
ghost use Rattle.std.specs.List.{list_all};
ghost use Rattle.clr_types.specs.declared.item.Item.{Item};
ghost use Rattle.clr_heap.specs.View.{frame};
ghost use Rattle.clr_model.specs.Checks.{has_mt, list_of};
ghost use Rattle.clr_model.specs.Instructions.{options_of};
ghost use Rattle.clr_model.specs.Sos.{passes, passes_life, passes_mt, passes_name, passes_place};
ghost use Rattle.clr_sos.specs.Wants.{AnswersAt, all_named, is_chosen, is_fitting, is_unknown, is_wanted};

use crate::places::{Region, region_of};
use clr_heap::Heap;
use clr_model::{Filter, Life};
use clr_types::{Item, TypeId, Types};

/// What an item must be to be shown: the options of `dumpheap`, its types by their numbers.
#[derive(Clone, Copy)]
pub(crate) struct Wanted {
    pub(crate) life: Life,
    pub(crate) by_mt: Option<TypeId>,
    pub(crate) by_name: Option<TypeId>,
    pub(crate) least: u64,
    pub(crate) greatest: u64,
    pub(crate) region: Region,
}

/// The options with their types by number. `None` comes exactly where no type has the name or the method table word
/// that is asked for.
pub(crate) fn wanted_by(types: &Types, heap: &Heap, filter: &Filter<'_>) -> Option<Wanted>
    ensures known { MatchOption result (is_unknown types.now (options_of filter.now) ≡ true)
        (λ wanted. is_unknown types.now (options_of filter.now) ≡ false) }
    ensures life { IfSome result (λ wanted. wanted.life ≡ filter.now.life) }
    ensures tests { IfSome result (λ wanted. (live : ℕ → Bool) → (item : Item)
        → is_wanted wanted live item ≡ (passes types.now live (options_of filter.now) item
        && passes_place (frame heap.now) (options_of filter.now) item)) }
{
    let by_mt = type_by_mt(types, filter.mt)?;
    let by_name = type_by_name(types, filter.name)?;
    Some(Wanted {
        life: filter.life,
        by_mt,
        by_name,
        least: filter.min,
        greatest: filter.max,
        region: region_of(heap, filter.generation, filter.segment),
    })
}

// The type with the method table word that is asked for, if one is. `None` where no type has it.
fn type_by_mt(types: &Types, mt: Option<u64>) -> Option<Option<TypeId>>
    ensures { MatchOption result (list_all (has_mt types.now) (list_of mt) ≡ false)
        (λ chosen. (list_all (has_mt types.now) (list_of mt) ≡ true)
        × ((item : Item) → is_chosen chosen item ≡ passes_mt mt item)) }
{
    match mt {
        None => Some(None),
        Some(word) => {
            let found = types.by_mt(word)?;
            Some(Some(found))
        }
    }
}

// The type with the name that is asked for, if one is. `None` where no type has it.
fn type_by_name(types: &Types, name: Option<&[u8]>) -> Option<Option<TypeId>>
    ensures { let asked = option_map (λ n. n.now) name.entry in
        MatchOption result (all_named types.now asked ≡ false)
        (λ chosen. (all_named types.now asked ≡ true)
        × ((item : Item) → is_chosen chosen item ≡ passes_name types.now asked item)) }
{
    match name {
        None => Some(None),
        Some(word) => {
            let found = types.by_name(word)?;
            Some(Some(found))
        }
    }
}

impl Wanted {
    /// Whether an item is to be shown. `live` is asked of an object's place alone.
    #[inline(always)]
    pub(crate) fn shows<F: Fn(u64) -> bool>(&self, item: &Item, live: &F) -> bool
        requires { 0 < item.now.type_id.0 → F.pre live.now item.now.place }
        ensures { (test : ℕ → Bool) → AnswersAt (λ place answer. F.post live.now place answer) test item.now
            → result ≡ is_wanted self.now test item.now }
    {
        if !self.fits(item) {
            return false;
        }
        has_life(self.life, item, live)
    }

    // Whether an item is of a type and a size that are asked for.
    #[inline(always)]
    fn fits(&self, item: &Item) -> bool
        ensures { result ≡ is_fitting self.now item.now }
    {
        is_chosen(self.by_mt, item)
            && is_chosen(self.by_name, item)
            && item.size >= self.least
            && item.size <= self.greatest
            && self.region.has(item.place)
    }
}

// Whether an item is of the type that is asked for, if one is.
#[inline(always)]
fn is_chosen(chosen: Option<TypeId>, item: &Item) -> bool
    ensures { result ≡ is_chosen chosen item.now }
{
    match chosen {
        None => true,
        Some(t) => t.0 == item.type_id.0,
    }
}

// Whether an item is one of those that are asked for: any, or an object that `live` passes or doesn't pass.
#[inline(always)]
fn has_life<F: Fn(u64) -> bool>(life: Life, item: &Item, live: &F) -> bool
    requires { 0 < item.now.type_id.0 → F.pre live.now item.now.place }
    ensures { (test : ℕ → Bool) → AnswersAt (λ place answer. F.post live.now place answer) test item.now
        → result ≡ passes_life life test item.now }
{
    match life {
        Life::Any => true,
        Life::Live => item.type_id.0 != 0 && live(item.place),
        Life::Dead => item.type_id.0 != 0 && !live(item.place),
    }
}
