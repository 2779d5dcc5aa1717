//! The first pass over an image: all of its fields.
ghost use Rattle.std.specs.Prelude.{◌≤◌};
ghost use Rattle.clr_format.specs.Images.{common_fields};
ghost use Rattle.clr_load.specs.KeptParts.{IsParts, Keeps, ReadsParts};

use crate::body::{Body, read_heap};
use crate::rest::{Rest, is_first, read_head, read_rest};
use clr_fields::{LoadFault, Reader, read_types};
use clr_format::Head;
use clr_types::Types;
use std::alloc::Global;

/// All parts of an image whose fields are lawful. What they name isn't checked.
#[derive(Drop)]
pub struct Kept {
    pub head: Head,
    pub types: Types,
    pub body: Body,
    pub rest: Rest,
}

// What stands behind the head.
fn read_common(alloc: Global, reader: &mut Reader<'_>, head: Head) -> Result<Kept, LoadFault>
    requires limit { head.limit ≤ 1073741824 }
    requires large { head.large ≤ 67104768 }
    ensures { Keeps (IsParts reader.old.bytes) (common_fields head reader.old.bytes reader.old.at) result
        reader.new.at }
{
    let types = read_types(alloc, reader)?;
    let mut body = Body::empty(alloc, head.limit)?;
    read_heap(alloc, reader, &head, &types, &mut body)?;
    let rest = read_rest(alloc, reader, &head, &types)?;
    Ok(Kept {
        head,
        types,
        body,
        rest,
    })
}

/// All parts of an image, or the offset of the first field that isn't lawful.
pub fn read_parts(alloc: Global, bytes: &[u8]) -> Result<Kept, LoadFault>
    ensures { ReadsParts bytes.now result }
{
    let mut reader = Reader::new(bytes);
    let head = read_head(&mut reader, is_first(bytes))?;
    read_common(alloc, &mut reader, head)
}
