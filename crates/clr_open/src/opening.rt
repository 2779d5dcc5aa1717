//! An image becomes a runtime.
ghost use Rattle.std.specs.Prelude.{◌≡◌, ℕ, ◌+◌, ◌<◌, ◌≤◌, ◌^◌, Err, IfOk, List, slice_index};
ghost use Rattle.clr_load.specs.Shown.{ShowsParts};
ghost use Rattle.clr_format.specs.Images.{HasFault, IsImage, Parts};
ghost use Rattle.clr_model.specs.Machine.{Machine};
ghost use Rattle.clr_opened.specs.Opened as machine;
ghost use Rattle.clr_opened.specs.Opened.{opened, options_with};
ghost use Rattle.clr_open.specs.Fit.{AreLawfulBudgets, budgets_of, IsFit, IsUnfitAt};
ghost use Rattle.clr_open.specs.Read.{IsRead, StandsAs};
ghost use Rattle.clr_open.specs.declared.opening.OpenFault.TheVariants.{BadImage, Unfit};
ghost use Rattle.clr_options.specs.Options as runtime;
ghost use Rattle.clr_runtime.specs.RuntimeView.{StandsFor};

use crate::begun::{begun_again, open_fronts};
use crate::budgets::Budgets;
use crate::fit::{segment_size, unfit_field};
use clr_fields::LoadFault;
use clr_load::{Image, load};
use clr_runtime::{NoMemory, Options, Runtime, Standing};
use std::alloc::Global;

/// Why bytes aren't gone on from.
#[derive(Clone, Copy, Debug, PartialEq, Eq)]
pub enum OpenFault {
    /// The bytes are no image: their first fault is at this offset.
    BadImage(u64),
    /// They are one from which no run goes on: the first field that no run has is at this offset.
    Unfit(u64),
    /// There was no memory for it.
    NoMemory,
}

/// A runtime that goes on from the state that an image says. The bytes are given back once they were read.
///
/// What the image says is kept: types, objects with their slots, free items, segments, boundaries of generations,
/// locals, handles, queues, the thread that holds all others and what each has begun. New segments are as long as the
/// ephemeral one. Nothing has been counted for the budgets, and no background collection runs.
///
/// `BadImage` comes exactly where the bytes are no image, and memory was there to tell it. `Unfit` comes where they are
/// one from which no run goes on. Of these fields it names the first that is so: a limit below twice what the ephemeral
/// segment reserves; a least size of large objects that, with 4,096, is more than that; the base of a segment above
/// 2^60; what a small or ephemeral segment reserves, above 67,108,864. `NoMemory` says nothing of the bytes.
pub fn open(alloc: Global, bytes: Vec<u8>, budgets: Budgets) -> Result<Runtime, OpenFault>
    requires { AreLawfulBudgets (budgets_of budgets) }
    ensures opened { IfOk result (λ runtime. (p : Parts) × IsImage bytes.items p × IsFit p
        × (runtime.machine ≡ opened p (budgets_of budgets))) }
    ensures low { IfOk result (λ runtime. runtime.machine.layout.top ≤ 2 ^ 60 + 2 ^ 30) }
    ensures bad { (o : ℕ) → result ≡ Err (BadImage o) → HasFault bytes.items o }
    ensures unfit { (o : ℕ) → result ≡ Err (Unfit o) → (p : Parts) × IsImage bytes.items p × IsUnfitAt p o }
    ensures stands { IfOk result (λ runtime. (first : Machine) × StandsFor runtime first) }
{
    let image = read(alloc, bytes)?;
    if let Some(offset) = unfit_field(&image) {
        drop(image);
        return Err(OpenFault::Unfit(offset));
    }
    go_on(alloc, image, budgets)
}

// What is loaded of bytes, which go then.
fn read(alloc: Global, bytes: Vec<u8>) -> Result<Image, OpenFault>
    ensures read { IfOk result (λ image. (p : Parts) × IsRead bytes.items image p) }
    ensures bad { (o : ℕ) → result ≡ Err (BadImage o) → HasFault bytes.items o }
    ensures unfit { (o : ℕ) → result ≡ Err (Unfit o) → ⊥ }
{
    are_bytes(&bytes);
    match load(alloc, &bytes) {
        Ok(image) => {
            let _count = image.types.count();
            Ok(image)
        }
        Err(LoadFault::At(offset)) => Err(OpenFault::BadImage(offset)),
        Err(LoadFault::NoMemory) => Err(OpenFault::NoMemory),
    }
}

// Nothing: a call for the evidence alone that each byte is below 256.
fn are_bytes(bytes: &[u8])
    ensures { (j : ℕ) → slice_index bytes.now j < 256 }
{
    let _ = bytes;
}

// A runtime that goes on from an image that is fit for it.
fn go_on(alloc: Global, image: Image, budgets: Budgets) -> Result<Runtime, OpenFault>
    requires lawful { AreLawfulBudgets (budgets_of budgets) }
    requires fit { (bytes : List ℕ) × (p : Parts) × IsRead bytes image p × IsFit p }
    ensures opened { (bytes : List ℕ) → (p : Parts) → IsRead bytes image p → IsFit p
        → IfOk result (λ runtime. runtime.machine ≡ opened p (budgets_of budgets)) }
    ensures bad { (o : ℕ) → result ≡ Err (BadImage o) → ⊥ }
    ensures unfit { (o : ℕ) → result ≡ Err (Unfit o) → ⊥ }
{
    let options = options_of(&image, budgets);
    let Ok(standing) = stand(image) else {
        return Err(OpenFault::NoMemory);
    };
    let Ok(runtime) = Runtime::over(alloc, standing, options) else {
        return Err(OpenFault::NoMemory);
    };
    Ok(runtime)
}

// What it runs with: limit and least size of large objects as the image says, and segments as long as its ephemeral
// one.
fn options_of(image: &Image, budgets: Budgets) -> Options
    ensures { (p : Parts) → ShowsParts image.now p
        → runtime.options_of result ≡ options_with p (budgets_of budgets) }
{
    Options {
        limit: image.limit,
        segment: segment_size(&image.heap),
        b0: budgets.b0,
        b1: budgets.b1,
        b2: budgets.b2,
        bl: budgets.bl,
        compact: budgets.compact,
        large: image.large,
    }
}

// What stands of the image, with all that threads have begun.
fn stand(image: Image) -> Result<Standing, NoMemory>
    requires { (bytes : List ℕ) × (p : Parts) × IsRead bytes image p }
    ensures { (bytes : List ℕ) → (p : Parts) → (b : machine.Budgets) → IsRead bytes image p → IsFit p
        → AreLawfulBudgets b → IfOk result (λ standing. StandsAs standing p b) }
{
    let Image {
        types,
        mut heap,
        locals,
        compact_large,
        holder,
        steps,
        handles,
        mut finals,
        ..
    } = image;
    open_fronts(&mut heap, &types, &steps);
    let safe = begun_again(&types, holder, &steps);
    let Ok(()) = finals.reserve(safe.births_owed()) else {
        return Err(NoMemory);
    };
    Ok(Standing {
        types,
        heap,
        locals,
        handles,
        finals,
        safe,
        compacts_large: compact_large,
    })
}
