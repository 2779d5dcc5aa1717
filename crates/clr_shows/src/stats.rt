//! `gcheapstat`: what stands in each generation.
ghost use Rattle.std.specs.Prelude.{◌≡◌, ℕ, ◌+◌, ◌<◌, ◌++◌, Bool, IfOk, OnOk, get_or, false, length, true};
ghost use Rattle.clr_types.specs.Rising.{Tests};
ghost use Rattle.clr_types.specs.Segments.{generation};
ghost use Rattle.clr_heap.specs.View.{frame, heap_items, listings};
ghost use Rattle.clr_model.specs.Looks.{dead_words, gcheapstat_text, stat_row, TestsIf};
ghost use Rattle.clr_model.specs.Machine.{Machine};
ghost use Rattle.clr_model.specs.Reach.{Live};
ghost use Rattle.clr_view.specs.View.{IsHeld};
ghost use Rattle.clr_sos.specs.TextPieces.{each_spaced};
ghost use Rattle.clr_sos.specs.Views.{IsLawfulView, IsViewOf};
ghost use Rattle.clr_sos.specs.Wants.{AnswersAt, AnswersFor, MayAskOf};
ghost use Rattle.clr_shows.specs.Stats.{AreCounted, counted, CanCount, is_dead, no_stat, stat_line, stats_lines};
ghost use Rattle.clr_shows.specs.Stats.{with_counted};
ghost use Rattle.clr_shows.specs.StatBounds.{AreWithin};

use clr_heap::Heap;
use clr_mem::NoMemory;
use clr_sos::{View, put_word_number, reach_all};
use clr_types::{Item, SegKind};
use std::alloc::{AllocError, Global};

// What a line counts: objects and their bytes, the bytes of free items, and of the objects' bytes those of objects that
// no root reaches.
#[derive(Clone, Copy)]
struct Stat {
    objects: u64,
    bytes: u64,
    free: u64,
    dead: u64,
}

// How many lines there are: one for each generation, one for large and one for pinned segments, and one for all.
const LINES: usize = 6;

// The number of the line that counts everything.
const TOTAL: usize = 5;

/// What stands in each generation: a line for each of the small heap, 0 to 2, one for large and one for pinned
/// segments, and one for all of them.
///
/// ```text
/// gen 0 objects 1 bytes 32 free 0
/// ..
/// total objects 5 bytes 90272 free 32
/// ```
///
/// Where the dead are asked for, each line ends with the bytes of those of its objects that no root reaches, as
/// ` dead 90024`. The unused parts of allocation contexts count nowhere. `NoMemory` comes only where there is no memory
/// for the text, or for the search from the roots. It is one walk over the heap, and that search only where the dead
/// are asked for.
pub fn gcheapstat(alloc: Global, view: &View<'_>, unrooted: bool) -> Result<Vec<u8>, NoMemory>
    requires lawful { IsLawfulView view.now }
    ensures { IfOk result (λ text. (m : Machine) → IsViewOf view.now m
        → (live : ℕ → Bool) × TestsIf unrooted live (Live m) × (text.items ≡ gcheapstat_text m unrooted live)) }
{
    if unrooted {
        let text = stats_of_dead(alloc, view)?;
        return Ok(text);
    }
    let text = stats_of_all(alloc, view)?;
    Ok(text)
}

// The lines where it isn't asked what the roots reach.
fn stats_of_all(alloc: Global, view: &View<'_>) -> Result<Vec<u8>, AllocError>
    requires { IsLawfulView view.now }
    ensures { IfOk result (λ text. (m : Machine) → IsViewOf view.now m
        → text.items ≡ gcheapstat_text m false (λ _. true)) }
{
    let stats = stats_of(view, &|_| true);
    stats_text(alloc, &stats, false)
}

// The lines where it is.
fn stats_of_dead(alloc: Global, view: &View<'_>) -> Result<Vec<u8>, AllocError>
    requires { IsLawfulView view.now }
    ensures { IfOk result (λ text. (m : Machine) → IsViewOf view.now m
        → (live : ℕ → Bool) × Tests live (Live m) × (text.items ≡ gcheapstat_text m true live)) }
{
    let reached = reach_all(alloc, view)?;
    let stats = stats_of(view, &|place| reached.has(view.heap, place));
    stats_text(alloc, &stats, true)
}

// What each line counts. `live` says which addresses hold objects that roots reach, and is asked of those of objects.
fn stats_of<F: Fn(u64) -> bool>(view: &View<'_>, live: &F) -> [Stat; LINES]
    requires held { IsHeld view.now.types.now view.now.heap.now }
    requires ask { MayAskOf (λ place. F.pre live.now place) (heap_items view.now.types.now view.now.heap.now) }
    ensures { (test : ℕ → Bool)
        → AnswersFor (λ place answer. F.post live.now place answer) test
        (heap_items view.now.types.now view.now.heap.now)
        → AreCounted view.now.types.now view.now.heap.now test result
        (heap_items view.now.types.now view.now.heap.now) }
{
    let none = Stat {
        objects: 0,
        bytes: 0,
        free: 0,
        dead: 0,
    };
    let mut stats = [none; LINES];
    for k in 0..view.heap.segments() {
        count_segment(&mut stats, view, live, k);
    }
    stats
}

// Counts the items of segment `k`, where those of the segments before it are counted.
fn count_segment<F: Fn(u64) -> bool>(stats: &mut [Stat; LINES], view: &View<'_>, live: &F, k: usize)
    requires held { IsHeld view.now.types.now view.now.heap.now }
    requires in_range { k < length view.now.heap.now.segments }
    requires ask { MayAskOf (λ place. F.pre live.now place) (heap_items view.now.types.now view.now.heap.now) }
    requires within { AreWithin stats.old (listings view.now.types.now view.now.heap.now 0 k) }
    ensures within { AreWithin stats.new (listings view.now.types.now view.now.heap.now 0 (k + 1)) }
    ensures counted { (test : ℕ → Bool)
        → AnswersFor (λ place answer. F.post live.now place answer) test
        (heap_items view.now.types.now view.now.heap.now)
        → AreCounted view.now.types.now view.now.heap.now test stats.old
        (listings view.now.types.now view.now.heap.now 0 k)
        → AreCounted view.now.types.now view.now.heap.now test stats.new
        (listings view.now.types.now view.now.heap.now 0 (k + 1)) }
{
    let kind = view.heap.info(k).kind;
    for item in view.heap.walk(view.types, k) {
        let row = row_of(view.heap, kind, item.place);
        let dead = is_dead(&item, live);
        count(stats, row, &item, dead);
    }
}

// Whether an item is an object that isn't live.
#[inline(always)]
fn is_dead<F: Fn(u64) -> bool>(item: &Item, live: &F) -> bool
    requires { 0 < item.now.type_id.0 → F.pre live.now item.now.place }
    ensures { (test : ℕ → Bool) → AnswersAt (λ place answer. F.post live.now place answer) test item.now
        → result ≡ is_dead test item.now }
{
    item.type_id.0 != 0 && !live(item.place)
}

// The number of the line that counts an address in a segment of this kind.
fn row_of(heap: &Heap, kind: SegKind, place: u64) -> usize
    ensures row { result ≡ stat_row kind (generation (frame heap.now) place) }
    ensures low { result < TOTAL }
{
    match kind {
        SegKind::Small | SegKind::Ephemeral => usize::from(heap.gen_of(place)),
        SegKind::Large => 3,
        SegKind::Pinned => 4,
    }
}

// Counts an item in a line and in the last one.
#[inline(always)]
fn count(stats: &mut [Stat; LINES], row: usize, item: &Item, dead: bool)
    requires row { row < TOTAL }
    requires room { (k : ℕ) → k < LINES → CanCount (get_or stats.old k no_stat) item.now }
    ensures { stats.new ≡ with_counted stats.old row item.now dead }
{
    stats[row] = with_item(stats[row], item, dead);
    stats[TOTAL] = with_item(stats[TOTAL], item, dead);
}

// The counts with one item more.
#[inline(always)]
fn with_item(stat: Stat, item: &Item, dead: bool) -> Stat
    requires { CanCount stat item.now }
    ensures { result ≡ counted stat item.now dead }
{
    if item.type_id.0 == 0 {
        return Stat {
            free: stat.free + item.size,
            ..stat
        };
    }
    Stat {
        objects: stat.objects + 1,
        bytes: stat.bytes + item.size,
        free: stat.free,
        dead: if dead {
            stat.dead + item.size
        } else {
            stat.dead
        },
    }
}

// The lines of the counts.
fn stats_text(alloc: Global, stats: &[Stat; LINES], unrooted: bool) -> Result<Vec<u8>, AllocError>
    ensures { IfOk result (λ text. text.items ≡ stats_lines unrooted stats.now) }
{
    let mut text = Vec::new(alloc);
    put_stat(&mut text, b"gen 0", stats[0], unrooted)?;
    put_stat(&mut text, b"gen 1", stats[1], unrooted)?;
    put_stat(&mut text, b"gen 2", stats[2], unrooted)?;
    put_stat(&mut text, b"large", stats[3], unrooted)?;
    put_stat(&mut text, b"pinned", stats[4], unrooted)?;
    put_stat(&mut text, b"total", stats[TOTAL], unrooted)?;
    Ok(text)
}

// Puts the line of counts at the end.
fn put_stat(text: &mut Vec<u8>, name: &[u8], stat: Stat, unrooted: bool) -> Result<(), AllocError>
    ensures { OnOk result (text.new.items ≡ text.old.items ++ stat_line name.now unrooted stat) }
{
    text.extend_from_slice(name)?;
    put_word_number(text, b" objects ", stat.objects)?;
    put_word_number(text, b" bytes ", stat.bytes)?;
    put_word_number(text, b" free ", stat.free)?;
    put_dead(text, unrooted, stat.dead)?;
    text.extend_from_slice(b"\n")?;
    Ok(())
}

// Puts the bytes of dead objects at the end, where these are asked for.
fn put_dead(text: &mut Vec<u8>, unrooted: bool, bytes: u64) -> Result<(), AllocError>
    ensures { OnOk result (text.new.items ≡ text.old.items ++ each_spaced (dead_words unrooted bytes)) }
{
    if unrooted {
        put_word_number(text, b" dead ", bytes)?;
    }
    Ok(())
}
