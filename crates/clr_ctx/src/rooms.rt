// Room for a context: in a free item that a walk finds, and behind the end of the ephemeral segment.
ghost use Rattle.std.specs.Prelude.{◌≡◌, ℕ, ◌+◌, ◌<◌, ◌≤◌, ◌^◌};
ghost use Rattle.clr_types.specs.Segments.{ephemeral, fits_in_tail};
ghost use Rattle.clr_heap.specs.View.{frame};
ghost use Rattle.clr_model.specs.Allocation.{want};
ghost use Rattle.clr_view.specs.View.{IsHeld, layout_in};
ghost use Rattle.clr_ctx.specs.Contexts.{first_fit, share, tail_share};

use clr_heap::Heap;
use clr_items::{first_free, fits_in};
use clr_types::{Span, Types};

/// How many bytes a context has where they are there.
const CONTEXT_SIZE: u64 = 8192;

/// The first free item of generation 0 in which a size fits, found by a walk over the ephemeral segment.
pub fn first_walked(heap: &Heap, types: &Types, size: u64) -> Option<Span>
    requires held { IsHeld types.now heap.now }
    requires small { size < 2 ^ 62 }
    ensures { result ≡ first_fit (layout_in types.now heap.now) size }
{
    let k = heap.ephemeral();
    let (_, start0) = heap.boundaries();
    first_free(heap, types, k, start0, size)
}

/// Whether a size fits behind the end of the ephemeral segment.
pub fn fits_behind(heap: &Heap, size: u64) -> bool
    requires { size < 2 ^ 62 }
    ensures { result ≡ fits_in_tail (ephemeral (frame heap.now)) size }
{
    let segment = heap.info(heap.ephemeral());
    segment.end + size <= segment.base + segment.reserved
}

// How many bytes a new context is to have.
fn wanted(size: u64) -> u64
    requires { size < 2 ^ 62 }
    ensures { result ≡ want size }
{
    if size + 24 <= CONTEXT_SIZE {
        CONTEXT_SIZE
    } else {
        size
    }
}

/// How many bytes a context takes of a free item of `bytes`, in which the size fits.
pub fn share_of(size: u64, bytes: u64) -> u64
    requires { size < 2 ^ 61 }
    ensures { result ≡ share size bytes }
{
    let whole = wanted(size);
    if fits_in(whole, bytes) { whole } else { bytes }
}

/// How many bytes a context takes behind the end of the ephemeral segment, where the size fits.
pub fn tail_share_of(heap: &Heap, size: u64) -> u64
    requires { size < 2 ^ 61 }
    ensures { result ≡ tail_share (frame heap.now) size }
{
    let whole = wanted(size);
    if fits_behind(heap, whole) {
        whole
    } else {
        size
    }
}
