// A listing of the heap by type.
ghost use Rattle.std.specs.Prelude.{◌≡◌, ℕ, ◌+◌, ◌<◌, ◌≤◌, ◌^◌, ◌++◌, Bool, filter, get_or, IfOk, length, List, OnOk};
ghost use Rattle.std.specs.Prelude.{set};
ghost use Rattle.std.specs.Prelude.{[]};
ghost use Rattle.clr_types.specs.declared.item.Item.{Item};
ghost use Rattle.clr_model.specs.declared.Mode.TheVariants.{Stat};
ghost use Rattle.clr_model.specs.Sos.{dump_by_mode, stat_lines};
ghost use Rattle.clr_sos.specs.Dumping.{AreListed, AreTallies, counted, no_tally, tallied, tally_line, totals_of};
ghost use Rattle.clr_sos.specs.Wants.{AnswersFor, is_wanted, MayAskOf};

use crate::heap_items::HeapItems;
use crate::listing_lines::{Totals, put_totals};
use crate::text::{put_address, put_word_number, put_words};
use crate::wanted::Wanted;
use clr_types::{Item, TypeId, Types};
use std::alloc::{AllocError, Global};

/// The items of a type: how many, and their bytes.
#[derive(Clone, Copy)]
pub(crate) struct Tally {
    count: u64,
    bytes: u64,
}

// What the items of a listing come to, in all and by type.
#[derive(Drop)]
struct Counts {
    totals: Totals,
    tallies: Vec<Tally>,
}

/// Puts a line for each type with an item that is shown at the end, and the line of the totals.
pub(crate) fn put_counts<F: Fn(u64) -> bool>(
    text: &mut Vec<u8>,
    alloc: Global,
    types: &Types,
    items: HeapItems<'_>,
    wanted: &Wanted,
    live: &F,
) -> Result<(), AllocError>
    requires listed { AreListed types.now items }
    requires ask { MayAskOf (λ place. F.pre live.now place) items }
    ensures { OnOk result
        ((test : ℕ → Bool) → AnswersFor (λ place answer. F.post live.now place answer) test items.entry
        → text.new.items ≡ text.old.items
        ++ dump_by_mode Stat types.now (filter (is_wanted wanted.now test) items.entry)) }
{
    let counts = count_items(alloc, types, items, wanted, live)?;
    put_tallies(text, types, &counts.tallies)?;
    put_totals(text, counts.totals)?;
    Ok(())
}

// Counts the items that are shown.
fn count_items<F: Fn(u64) -> bool>(
    alloc: Global,
    types: &Types,
    items: HeapItems<'_>,
    wanted: &Wanted,
    live: &F,
) -> Result<Counts, AllocError>
    requires listed { AreListed types.now items }
    requires ask { MayAskOf (λ place. F.pre live.now place) items }
    ensures types { IfOk result (λ counts. length counts.tallies.items ≡ length types.now + 1) }
    ensures totals { IfOk result (λ counts. (test : ℕ → Bool)
        → AnswersFor (λ place answer. F.post live.now place answer) test items.entry
        → counts.totals ≡ totals_of (filter (is_wanted wanted.now test) items.entry)) }
    ensures tallies { IfOk result (λ counts. (test : ℕ → Bool)
        → AnswersFor (λ place answer. F.post live.now place answer) test items.entry
        → AreTallies counts.tallies.items (filter (is_wanted wanted.now test) items.entry)) }
{
    let mut counts = no_counts(alloc, types)?;
    for item in items {
        if !wanted.shows(&item, live) {
            continue;
        }
        counts.add(&item);
    }
    Ok(counts)
}

// The counts of no items.
fn no_counts(alloc: Global, types: &Types) -> Result<Counts, AllocError>
    ensures types { IfOk result (λ counts. length counts.tallies.items ≡ length types.now + 1) }
    ensures totals { IfOk result (λ counts. counts.totals ≡ totals_of []) }
    ensures tallies { IfOk result (λ counts. AreTallies counts.tallies.items []) }
{
    let none = Tally { count: 0, bytes: 0 };
    let tallies = vec![in alloc; none; types.count() as usize]?;
    Ok(Counts {
        totals: Totals {
            objects: 0,
            bytes: 0,
            free: 0,
        },
        tallies,
    })
}

impl Counts {
    // Counts an item.
    fn add(&mut self, item: &Item)
        requires known { item.now.type_id.0 < length self.old.tallies.items }
        requires objects { self.old.totals.objects + 1 < 2 ^ 64 }
        requires bytes { self.old.totals.bytes + item.now.size < 2 ^ 64 }
        requires free { self.old.totals.free + item.now.size < 2 ^ 64 }
        requires count { (get_or self.old.tallies.items item.now.type_id.0 no_tally).count + 1 < 2 ^ 64 }
        requires sum { (get_or self.old.tallies.items item.now.type_id.0 no_tally).bytes + item.now.size < 2 ^ 64 }
        ensures totals { self.new.totals ≡ counted self.old.totals item.now }
        ensures tallies { self.new.tallies.items ≡ set self.old.tallies.items item.now.type_id.0
            (tallied (get_or self.old.tallies.items item.now.type_id.0 no_tally) item.now) }
    {
        self.totals.count(item);
        let type_number = item.type_id.0 as usize;
        let before = self.tallies[type_number];
        self.tallies[type_number] = Tally {
            count: before.count + 1,
            bytes: before.bytes + item.size,
        };
    }
}

// Puts a line for each type with an item at the end.
fn put_tallies(text: &mut Vec<u8>, types: &Types, tallies: &[Tally]) -> Result<(), AllocError>
    requires { length tallies.now ≡ length types.now + 1 }
    ensures { OnOk result ((items : List Item) → AreTallies tallies.now items
        → text.new.items ≡ text.old.items ++ stat_lines (length types.now + 1) 0 types.now items) }
{
    for t in 0..types.count() {
        put_tally(text, types, TypeId(t), tallies[t as usize])?;
    }
    Ok(())
}

// Puts the line of a type at the end, if it has an item.
fn put_tally(text: &mut Vec<u8>, types: &Types, t: TypeId, tally: Tally) -> Result<(), AllocError>
    requires { t.0 ≤ length types.now }
    ensures { OnOk result (text.new.items ≡ text.old.items ++ tally_line types.now t.0 tally) }
{
    if tally.count == 0 {
        return Ok(());
    }
    put_address(text, types.mt(t))?;
    put_word_number(text, b" ", tally.count)?;
    put_word_number(text, b" ", tally.bytes)?;
    put_words(text, b" ", types.name(t))?;
    text.extend_from_slice(b"\n")?;
    Ok(())
}
