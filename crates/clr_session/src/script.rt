//! The run of a script from its source to its sink.
ghost use Rattle.std.specs.Prelude.{◌≡◌, ◌≢◌, ◌+◌, ◌*◌, ◌^◌, ◌<◌, ◌≤◌, ◌∷◌, [], List, ℕ, Some, None, length};
ghost use Rattle.std.specs.Prelude.{IfSome, IsSomeAnd, option_map};
ghost use Rattle.clr_model.specs.Lawful.{AreLawfulOptions};
ghost use Rattle.clr_model.specs.Machine.{Machine};
ghost use Rattle.clr_model.specs.LineGrammar.{script_lines, ended_lines};
ghost use Rattle.clr_model.specs.Run.{opening};
ghost use Rattle.clr_runtime.specs.RuntimeView.{StandsFor};
ghost use Rattle.clr_options.specs.Options.{options_of};
ghost use Rattle.clr_streams.specs.Faults.{Rose, Appended};
ghost use Rattle.clr_session.specs.Progress.{Answered, CutShort};
ghost use Rattle.clr_session.specs.Runs.{IsRunFrom, IsRunOf};

use crate::session::Session;
use clr_runtime::{Options, Runtime};
use clr_streams::{Sink, Source, Status, make_buffer};
use std::alloc::Global;

/// A script has at most this many bytes.
pub const SCRIPT_LIMIT: u64 = 268_435_456;

/// So many bytes are read at once.
const PIECE: usize = 65_536;

// Runs a script of at most `limit` bytes, in a session that read nothing before.
fn run_script<S: Source, K: Sink>(
    session: &mut Session,
    buffer: &mut [u8],
    limit: u64,
    source: &mut S,
    sink: &mut K,
) -> Status
    requires unread { session.old.line.items ≡ [] }
    requires empty { session.old.pending ≡ [] }
    requires buffer { 0 < length buffer.old }
    requires room { session.old.runtime.machine.layout.top + 2 ^ 30 * (limit + 1) ≤ 2 ^ 61 }
    ensures done { result ≡ Status.Done →
        (first : Machine) → StandsFor session.old.runtime first → (taken : List ℕ)
        × (answered : Answered first script_lines
        (S.held source.old) (S.held source.new) (K.written sink.old) (K.written sink.new) taken)
        × StandsFor session.new.runtime answered.last
        × (length taken ≤ limit) × IfSome (S.held source.new) (λ rest. rest ≡ []) }
    ensures low { result ≡ Status.Done → session.new.runtime.machine.layout.top ≤ 2 ^ 61 }
    ensures read_before { result ≡ Status.ReadFault →
        (first : Machine) → StandsFor session.old.runtime first → (taken : List ℕ)
        × Answered first ended_lines
        (S.held source.old) (S.held source.new) (K.written sink.old) (K.written sink.new) taken
        × (length taken ≤ limit) }
    ensures read_fault { result ≡ Status.ReadFault → Rose (S.faults source.old) (S.faults source.new) }
    ensures source_counted { result ≢ Status.ReadFault → S.faults source.new ≡ S.faults source.old }
    ensures write_before { result ≡ Status.WriteFault →
        (first : Machine) → StandsFor session.old.runtime first → CutShort first limit
        (S.held source.old) (S.held source.new) (K.written sink.old) (K.written sink.new) }
    ensures write_fault { result ≡ Status.WriteFault → Rose (K.faults sink.old) (K.faults sink.new) }
    ensures sink_counted { result ≢ Status.WriteFault → K.faults sink.new ≡ K.faults sink.old }
    ensures too_much { result ≡ Status.TooMuch →
        (first : Machine) → StandsFor session.old.runtime first → (taken : List ℕ) × (byte : ℕ)
        × Answered first ended_lines
        (S.held source.old) (option_map (λ rest. byte ∷ rest) (S.held source.new))
        (K.written sink.old) (K.written sink.new) taken
        × (length taken ≡ limit) }
    ensures usage { result ≢ Status.Usage }
    ensures memory { result ≢ Status.Memory }
    ensures image { result ≢ Status.BadImage }
{
    let mut left = limit;
    loop {
        let want = (buffer.len() as u64).min(left).max(1) as usize;
        let Ok(count) = source.read(&mut buffer[..want]) else {
            return Status::ReadFault;
        };
        if count == 0 {
            return match session.take_end(sink) {
                Ok(()) => Status::Done,
                Err(_) => Status::WriteFault,
            };
        }
        if left == 0 {
            return Status::TooMuch;
        }
        let Ok(()) = session.take_piece(sink, &buffer[..count]) else {
            return Status::WriteFault;
        };
        left -= count as u64;
    }
}

/// Runs the script that the source holds, over a runtime that was made before, and tells what came of it. The run
/// begins in the state that the runtime has. After `Done` the end state is the runtime that ran the lines, and else
/// there is none.
///
/// `ReadFault` comes where a read failed, `WriteFault` where a write did, `TooMuch` where `SCRIPT_LIMIT` bytes were
/// read and a further byte came, `Memory` where there was no room for a buffer. After `Memory` nothing was read or
/// written.
pub fn run_over<S: Source, K: Sink>(
    alloc: Global,
    runtime: Runtime,
    source: &mut S,
    sink: &mut K,
    end_state: &mut Option<Runtime>,
) -> Status
    requires no_state { end_state.old ≡ None }
    requires room { runtime.machine.layout.top ≤ 2 ^ 60 + 2 ^ 30 }
    ensures headline { result ≡ Status.Done →
        (first : Machine) → StandsFor runtime first →
        IfSome (S.held source.old) (λ script. (text : List ℕ) × (last : Machine)
        × IsRunFrom first script text last
        × Appended (K.written sink.old) (K.written sink.new) text
        × (S.held source.new ≡ Some [])
        × IsSomeAnd end_state.new (λ ran. StandsFor ran last)) }
    ensures done { result ≡ Status.Done →
        (first : Machine) → StandsFor runtime first → (taken : List ℕ)
        × (answered : Answered first script_lines
        (S.held source.old) (S.held source.new) (K.written sink.old) (K.written sink.new) taken)
        × (length taken ≤ SCRIPT_LIMIT) × IsSomeAnd end_state.new (λ ran. StandsFor ran answered.last) }
    ensures low { result ≡ Status.Done → IsSomeAnd end_state.new (λ ran. ran.machine.layout.top ≤ 2 ^ 61) }
    ensures no_state { result ≢ Status.Done → end_state.new ≡ None }
    ensures read_before { result ≡ Status.ReadFault →
        (first : Machine) → StandsFor runtime first → (taken : List ℕ)
        × Answered first ended_lines
        (S.held source.old) (S.held source.new) (K.written sink.old) (K.written sink.new) taken
        × (length taken ≤ SCRIPT_LIMIT) }
    ensures read_fault { result ≡ Status.ReadFault → Rose (S.faults source.old) (S.faults source.new) }
    ensures source_counted { result ≢ Status.ReadFault → S.faults source.new ≡ S.faults source.old }
    ensures write_before { result ≡ Status.WriteFault →
        (first : Machine) → StandsFor runtime first → CutShort first SCRIPT_LIMIT
        (S.held source.old) (S.held source.new) (K.written sink.old) (K.written sink.new) }
    ensures write_fault { result ≡ Status.WriteFault → Rose (K.faults sink.old) (K.faults sink.new) }
    ensures sink_counted { result ≢ Status.WriteFault → K.faults sink.new ≡ K.faults sink.old }
    ensures too_much { result ≡ Status.TooMuch →
        (first : Machine) → StandsFor runtime first → (taken : List ℕ) × (byte : ℕ)
        × Answered first ended_lines
        (S.held source.old) (option_map (λ rest. byte ∷ rest) (S.held source.new))
        (K.written sink.old) (K.written sink.new) taken
        × (length taken ≡ SCRIPT_LIMIT) }
    ensures usage { result ≢ Status.Usage }
    ensures memory { result ≡ Status.Memory → (source.new ≡ source.old) × (sink.new ≡ sink.old) }
    ensures image { result ≢ Status.BadImage }
{
    // (what owns a runtime is let go by `drop`, a call whose destructors are proved once and not at each way out)
    let Ok(mut buffer) = make_buffer(alloc, PIECE) else {
        drop(runtime);
        return Status::Memory;
    };
    let Ok(mut session) = Session::over(alloc, runtime) else {
        return Status::Memory;
    };
    match run_script(
        &mut session,
        buffer.as_mut_slice(),
        SCRIPT_LIMIT,
        source,
        sink,
    ) {
        Status::Done => {
            drop(end_state.replace(session.into_runtime()));
            Status::Done
        }
        fault => {
            drop(session);
            fault
        }
    }
}

/// Runs the script that the source holds, over a runtime with these options, and tells what came of it. After `Done`
/// the end state is the runtime that ran the lines, and else there is none.
///
/// `ReadFault` comes where a read failed, `WriteFault` where a write did, `TooMuch` where `SCRIPT_LIMIT` bytes were
/// read and a further byte came, `Memory` where there was no room for the runtime or a buffer. After `Memory` nothing
/// was read or written.
pub fn run_source<S: Source, K: Sink>(
    alloc: Global,
    options: Options,
    source: &mut S,
    sink: &mut K,
    end_state: &mut Option<Runtime>,
) -> Status
    requires lawful { AreLawfulOptions (options_of options) }
    requires no_state { end_state.old ≡ None }
    ensures headline { result ≡ Status.Done →
        IfSome (S.held source.old) (λ script. (text : List ℕ) × (last : Machine)
        × IsRunOf (options_of options) script text last
        × Appended (K.written sink.old) (K.written sink.new) text
        × (S.held source.new ≡ Some [])
        × IsSomeAnd end_state.new (λ runtime. StandsFor runtime last)) }
    ensures done { result ≡ Status.Done → (taken : List ℕ)
        × (answered : Answered (opening (options_of options)) script_lines
        (S.held source.old) (S.held source.new) (K.written sink.old) (K.written sink.new) taken)
        × (length taken ≤ SCRIPT_LIMIT) × IsSomeAnd end_state.new (λ runtime. StandsFor runtime answered.last) }
    ensures low { result ≡ Status.Done → IsSomeAnd end_state.new (λ runtime. runtime.machine.layout.top ≤ 2 ^ 61) }
    ensures no_state { result ≢ Status.Done → end_state.new ≡ None }
    ensures read_before { result ≡ Status.ReadFault → (taken : List ℕ)
        × Answered (opening (options_of options)) ended_lines
        (S.held source.old) (S.held source.new) (K.written sink.old) (K.written sink.new) taken
        × (length taken ≤ SCRIPT_LIMIT) }
    ensures read_fault { result ≡ Status.ReadFault → Rose (S.faults source.old) (S.faults source.new) }
    ensures source_counted { result ≢ Status.ReadFault → S.faults source.new ≡ S.faults source.old }
    ensures write_before { result ≡ Status.WriteFault →
        CutShort (opening (options_of options)) SCRIPT_LIMIT
        (S.held source.old) (S.held source.new) (K.written sink.old) (K.written sink.new) }
    ensures write_fault { result ≡ Status.WriteFault → Rose (K.faults sink.old) (K.faults sink.new) }
    ensures sink_counted { result ≢ Status.WriteFault → K.faults sink.new ≡ K.faults sink.old }
    ensures too_much { result ≡ Status.TooMuch → (taken : List ℕ) × (byte : ℕ)
        × Answered (opening (options_of options)) ended_lines
        (S.held source.old) (option_map (λ rest. byte ∷ rest) (S.held source.new))
        (K.written sink.old) (K.written sink.new) taken
        × (length taken ≡ SCRIPT_LIMIT) }
    ensures usage { result ≢ Status.Usage }
    ensures memory { result ≡ Status.Memory → (source.new ≡ source.old) × (sink.new ≡ sink.old) }
    ensures image { result ≢ Status.BadImage }
{
    let Ok(runtime) = Runtime::new(alloc, options) else {
        return Status::Memory;
    };
    run_over(alloc, runtime, source, sink, end_state)
}
