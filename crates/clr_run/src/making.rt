//! The command that makes an image: a script is run, and the last state is saved.
ghost use Rattle.std.specs.Prelude.{◌≡◌, ◌≢◌, ◌⊎◌, Err, IfOk, None, true};
ghost use Rattle.clr_model.specs.Lawful.{AreLawfulOptions, IsPlaceNamed};
ghost use Rattle.clr_format.specs.Saved.{image_bytes};
ghost use Rattle.clr_model.specs.Machine.{Machine};
ghost use Rattle.clr_options.specs.Options.{options_of};
ghost use Rattle.clr_runtime.specs.RuntimeView.{StandsFor};
ghost use Rattle.clr_save.specs.SavedImages.{IsImageOf};
ghost use Rattle.clr_save.specs.Snapshots as snapshots;
ghost use Rattle.clr_streams.specs.Faults.{Rose};
ghost use Rattle.clr_streams.specs.Reading.{ReadTooMuch};
ghost use Rattle.clr_run.specs.Images.{MakesImage, RanWhole};

use clr_image::{Snapshot, Step, save};
use clr_lines::begun_steps;
use clr_runtime::{NoMemory, Options, Runtime};
use clr_session::{SCRIPT_LIMIT, run_source};
use clr_streams::{PlainSink, Sink, Source, Status, write_all};
use std::alloc::Global;

/// Runs the script that the source holds, with no replies, and writes the image of the last state. After `Done` the end
/// state is the runtime that ran the lines, and else there is none.
///
/// Nothing is written before the whole script was run, and there is memory for the whole image before its first byte is
/// written.
pub fn image_source<S: Source, K: Sink>(
    alloc: Global,
    options: Options,
    source: &mut S,
    sink: &mut K,
    end_state: &mut Option<Runtime>,
) -> Status
    requires lawful { AreLawfulOptions (options_of options) }
    requires no_state { end_state.old ≡ None }
    ensures makes { MakesImage (options_of options) SCRIPT_LIMIT (S.held source.old) (S.held source.new)
        (K.written sink.old) (K.written sink.new) end_state.new result }
    ensures no_state { result ≢ Status.Done → end_state.new ≡ None }
    ensures read_fault { result ≡ Status.ReadFault → Rose (S.faults source.old) (S.faults source.new) }
    ensures source_counted { result ≢ Status.ReadFault → S.faults source.new ≡ S.faults source.old }
    ensures write_fault { result ≡ Status.WriteFault → Rose (K.faults sink.old) (K.faults sink.new) }
    ensures sink_counted { result ≢ Status.WriteFault → K.faults sink.new ≡ K.faults sink.old }
    ensures unwritten { (result ≡ Status.ReadFault) ⊎ ((result ≡ Status.TooMuch) ⊎ (result ≡ Status.Memory))
        → sink.new ≡ sink.old }
    ensures usage { result ≢ Status.Usage }
    ensures image { result ≢ Status.BadImage }
{
    let runtime = match run_unheard(alloc, options, source) {
        Ok(runtime) => runtime,
        Err(fault) => return fault,
    };
    // (it is let go by `drop`, a call whose destructors are proved once and not at each way out)
    let Ok(image) = image_of(alloc, &runtime) else {
        drop(runtime);
        return Status::Memory;
    };
    let Ok(()) = write_all(sink, &image) else {
        drop(runtime);
        return Status::WriteFault;
    };
    drop(end_state.replace(runtime));
    Status::Done
}

// Runs the script that the source holds, and writes no replies.
fn run_unheard<S: Source>(
    alloc: Global,
    options: Options,
    source: &mut S,
) -> Result<Runtime, Status>
    requires { AreLawfulOptions (options_of options) }
    ensures ran { IfOk result (λ runtime. (last : Machine) × StandsFor runtime last
        × RanWhole (options_of options) SCRIPT_LIMIT (S.held source.old) (S.held source.new) last) }
    ensures read_fault { result ≡ Err Status.ReadFault → Rose (S.faults source.old) (S.faults source.new) }
    ensures too_much { result ≡ Err Status.TooMuch →
        ReadTooMuch SCRIPT_LIMIT (S.held source.old) (S.held source.new) }
    ensures counted { result ≢ Err Status.ReadFault → S.faults source.new ≡ S.faults source.old }
    ensures done { result ≢ Err Status.Done }
    ensures usage { result ≢ Err Status.Usage }
    ensures write_fault { result ≢ Err Status.WriteFault }
    ensures image { result ≢ Err Status.BadImage }
{
    let mut last = None;
    let status = run_source(alloc, options, source, &mut PlainSink::new(), &mut last);
    match last {
        Some(runtime) => Ok(runtime),
        None => Err(status),
    }
}

// The image of what a runtime shows.
fn image_of(alloc: Global, runtime: &Runtime) -> Result<Vec<u8>, NoMemory>
    ensures bytes { IfOk result (λ image. image.items ≡ image_bytes runtime.now.machine) }
    ensures lawful { IfOk result (λ image. IsImageOf runtime.now.machine image.items) }
{
    let steps = begun_steps(runtime);
    let snapshot = snapshot_of(runtime, &steps);
    Ok(save(alloc, &snapshot)?)
}

// What an image holds, of a runtime whose threads have begun these steps.
fn snapshot_of<'a>(runtime: &'a Runtime, steps: &'a [Step]) -> Snapshot<'a>
    requires { snapshots.steps_of runtime.now.machine.layout 1 runtime.now.machine.steps ≡ steps.now }
    ensures shows { snapshots.Shows result runtime.now.machine }
    ensures lawful { IsPlaceNamed runtime.now.machine }
{
    Snapshot {
        types: runtime.types(),
        heap: runtime.heap(),
        handles: runtime.handles(),
        finals: runtime.finals(),
        locals: runtime.locals(),
        limit: runtime.limit(),
        large: runtime.large(),
        compact_large: runtime.compact_large(),
        holder: runtime.threads().holder(),
        steps,
    }
}
