//! The command that opens an image: it is read whole, and a script is run from the state that it says.
ghost use Rattle.std.specs.Prelude.{◌≡◌, ◌≢◌, ◌⊎◌, None};
ghost use Rattle.clr_open.specs.Fit.{AreLawfulBudgets, budgets_of};
ghost use Rattle.clr_streams.specs.Faults.{Rose};
ghost use Rattle.clr_run.specs.Opens.{Opens};

use clr_image_io::{IMAGE_LIMIT, read_image, write_fault, write_unfit};
use clr_open::{Budgets, OpenFault, open};
use clr_runtime::Runtime;
use clr_session::{SCRIPT_LIMIT, run_over};
use clr_streams::{Sink, Source, Status};
use std::alloc::Global;

/// Reads an image of either version, of at most `IMAGE_LIMIT` bytes, and runs the script that the source holds from the
/// state that it says. After `Done` the end state is the runtime that ran the lines, and else there is none.
///
/// Of bytes that are no image, or one from which no run goes on, one line is written with the offset of what is wrong,
/// the answer is `BadImage`, and no byte of the script is read. `ReadFault` comes where a read of either failed,
/// `TooMuch` where either is longer than its limit, `WriteFault` where a write failed. After `Memory` nothing was
/// written and no byte of the script was read.
pub fn open_source<I: Source, S: Source, K: Sink>(
    alloc: Global,
    budgets: Budgets,
    image: &mut I,
    source: &mut S,
    sink: &mut K,
    end_state: &mut Option<Runtime>,
) -> Status
    requires lawful { AreLawfulBudgets (budgets_of budgets) }
    requires no_state { end_state.old ≡ None }
    ensures opens { Opens (budgets_of budgets) IMAGE_LIMIT SCRIPT_LIMIT (I.held image.old) (I.held image.new)
        (S.held source.old) (S.held source.new) (K.written sink.old) (K.written sink.new) end_state.new result }
    ensures no_state { result ≢ Status.Done → end_state.new ≡ None }
    ensures read_fault { result ≡ Status.ReadFault → (Rose (I.faults image.old) (I.faults image.new)
        × (source.new ≡ source.old) × (sink.new ≡ sink.old)) ⊎ Rose (S.faults source.old) (S.faults source.new) }
    ensures image_counted { result ≢ Status.ReadFault → I.faults image.new ≡ I.faults image.old }
    ensures source_counted { result ≢ Status.ReadFault → S.faults source.new ≡ S.faults source.old }
    ensures write_fault { result ≡ Status.WriteFault → Rose (K.faults sink.old) (K.faults sink.new) }
    ensures sink_counted { result ≢ Status.WriteFault → K.faults sink.new ≡ K.faults sink.old }
    ensures memory { result ≡ Status.Memory → (source.new ≡ source.old) × (sink.new ≡ sink.old) }
    ensures unread { result ≡ Status.BadImage → source.new ≡ source.old }
    ensures usage { result ≢ Status.Usage }
{
    let bytes = match read_image(alloc, image) {
        Ok(bytes) => bytes,
        Err(fault) => return fault,
    };
    match open(alloc, bytes, budgets) {
        Ok(runtime) => run_over(alloc, runtime, source, sink, end_state),
        Err(OpenFault::NoMemory) => Status::Memory,
        Err(OpenFault::BadImage(offset)) => write_fault(alloc, offset, sink),
        Err(OpenFault::Unfit(offset)) => write_unfit(alloc, offset, sink),
    }
}
