//! All bytes of a source.
ghost use Rattle.std.specs.Prelude.{◌≡◌, ◌≢◌, ◌<◌, ◌^◌, length, IfOk, Err};
ghost use Rattle.clr_streams.specs.Faults.{Rose};
ghost use Rattle.clr_streams.specs.Reading.{ReadTooMuch, ReadWhole};

use crate::source::Source;
use crate::status::Status;
use std::alloc::Global;

/// Reads the source to its end, at most `limit` bytes, by pieces of the buffer's length. Memory is taken only for bytes
/// that came.
///
/// `ReadFault` comes where a read failed, `TooMuch` where the limit was read and a further byte came, `Memory` where
/// there was no room for the bytes of a piece.
pub fn read_all<S: Source>(
    alloc: Global,
    buffer: &mut [u8],
    limit: u64,
    source: &mut S,
) -> Result<Vec<u8>, Status>
    requires buffer { 0 < length buffer.old }
    requires limit { limit < 2 ^ 63 }
    ensures whole { IfOk result (λ bytes. ReadWhole limit (S.held source.old) (S.held source.new) bytes.items) }
    ensures read_fault { result ≡ Err Status.ReadFault → Rose (S.faults source.old) (S.faults source.new) }
    ensures too_much { result ≡ Err Status.TooMuch → ReadTooMuch limit (S.held source.old) (S.held source.new) }
    ensures counted { result ≢ Err Status.ReadFault → S.faults source.new ≡ S.faults source.old }
    ensures done { result ≢ Err Status.Done }
    ensures usage { result ≢ Err Status.Usage }
    ensures write_fault { result ≢ Err Status.WriteFault }
    ensures image { result ≢ Err Status.BadImage }
{
    let mut bytes = Vec::new(alloc);
    let mut left = limit;
    loop {
        let want = (buffer.len() as u64).min(left).max(1) as usize;
        let Ok(count) = source.read(&mut buffer[..want]) else {
            return Err(Status::ReadFault);
        };
        if count == 0 {
            return Ok(bytes);
        }
        if left == 0 {
            return Err(Status::TooMuch);
        }
        let Ok(()) = bytes.extend_from_slice(&buffer[..count]) else {
            return Err(Status::Memory);
        };
        left -= count as u64;
    }
}
