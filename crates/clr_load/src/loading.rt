//! Images are loaded.
ghost use Rattle.std.specs.Prelude.{◌≡◌, IfOk};
ghost use Rattle.clr_format.specs.Images.{is_first};
ghost use Rattle.clr_load.specs.Loading.{IsLoaded};
ghost use Rattle.clr_load.specs.Sound.{IsSound};

use crate::image::Image;
use crate::parts::read_parts;
use crate::restoring::restore;
use crate::whole::{make_whole, whole_fault};
use clr_fields::LoadFault;
use std::alloc::Global;

/// What the bytes of an image say, of either version.
///
/// It is `Ok` only where the bytes are an image, and then each part of the answer is what they say, and all that names
/// an object names one that is there: a heap that is loaded has no fault that `verifyheap` would find. `At` comes only
/// where they aren't, with the offset of their first fault: fields are checked first, in order, and then what words
/// name, in the order of the offsets. `NoMemory` comes where there was no memory for it, and says nothing of the bytes.
/// No count is trusted: memory is taken only for fields that were read.
pub fn load(alloc: Global, bytes: &[u8]) -> Result<Image, LoadFault>
    ensures loaded { IsLoaded bytes.now result }
    ensures sound { IfOk result IsSound }
    ensures version { IfOk result (λ image. image.first ≡ is_first bytes.now) }
{
    let kept = read_parts(alloc, bytes)?;
    let whole = make_whole(bytes, kept)?;
    if let Some(o) = whole_fault(&whole) {
        return Err(LoadFault::At(o as u64));
    }
    let Ok(image) = restore(alloc, whole) else {
        return Err(LoadFault::NoMemory);
    };
    Ok(image)
}
