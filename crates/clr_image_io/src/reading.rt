//! All bytes of an image.
ghost use Rattle.std.specs.Prelude.{◌≡◌, ◌≢◌, IfOk, Err};
ghost use Rattle.clr_streams.specs.Faults.{Rose};
ghost use Rattle.clr_streams.specs.Reading.{ReadTooMuch, ReadWhole};

use clr_streams::{Source, Status, make_buffer, read_all};
use std::alloc::Global;

/// An image that a command reads has at most this many bytes.
pub const IMAGE_LIMIT: u64 = 2_147_483_648;

/// So many bytes are read at once.
const PIECE: usize = 65_536;

/// Reads an image from the source, of at most `IMAGE_LIMIT` bytes, as `read_all`. `Memory` comes also where there was
/// no room for a buffer.
pub fn read_image<S: Source>(alloc: Global, source: &mut S) -> Result<Vec<u8>, Status>
    ensures whole { IfOk result (λ bytes. ReadWhole IMAGE_LIMIT (S.held source.old) (S.held source.new) bytes.items) }
    ensures read_fault { result ≡ Err Status.ReadFault → Rose (S.faults source.old) (S.faults source.new) }
    ensures too_much { result ≡ Err Status.TooMuch → ReadTooMuch IMAGE_LIMIT (S.held source.old) (S.held source.new) }
    ensures counted { result ≢ Err Status.ReadFault → S.faults source.new ≡ S.faults source.old }
    ensures done { result ≢ Err Status.Done }
    ensures usage { result ≢ Err Status.Usage }
    ensures write_fault { result ≢ Err Status.WriteFault }
    ensures image { result ≢ Err Status.BadImage }
{
    let Ok(mut buffer) = make_buffer(alloc, PIECE) else {
        return Err(Status::Memory);
    };
    read_all(alloc, buffer.as_mut_slice(), IMAGE_LIMIT, source)
}
