// How high the places are that the handles of each chunk of 64 numbers name.
ghost use Rattle.std.specs.Prelude.{◌≡◌, ◌<◌, ◌≤◌, OnOk, length};
ghost use Rattle.clr_handles.specs.Tops.{HasGrown, HasRaised, reach};

use crate::{Handle, Kind, NoMemory};

/// How many numbers a chunk has.
pub(crate) const CHUNK: u64 = 64;

/// How high the places of a handle are. One with a second that it shouldn't have, as only a dependent handle whose
/// target isn't null may, counts as the highest.
pub(crate) fn reach_of(handle: &Handle) -> u64
    ensures { result ≡ reach handle.now }
{
    if handle.second == 0 {
        return handle.target;
    }
    match handle.kind {
        Kind::Dependent if handle.target != 0 => handle.target.max(handle.second),
        _ => u64::MAX,
    }
}

/// Makes sure that a chunk has a top. Those that are there stay, and stay also where there is no memory.
pub(crate) fn grow(tops: &mut Vec<u64>, chunk: usize) -> Result<(), NoMemory>
    requires few { length tops.old.items ≤ 1024 }
    requires chunk { chunk < 1024 }
    ensures grown { HasGrown tops.old.items tops.new.items }
    ensures ok { OnOk result (chunk < length tops.new.items) }
{
    while tops.len() <= chunk {
        tops.push(0)?;
    }
    Ok(())
}

/// Raises the top of a chunk to `reach`, where it is lower.
pub(crate) fn raise(tops: &mut Vec<u64>, chunk: usize, reach: u64)
    requires { chunk < length tops.old.items }
    ensures { HasRaised tops.old.items tops.new.items chunk reach }
{
    if tops[chunk] < reach {
        tops[chunk] = reach;
    }
}
