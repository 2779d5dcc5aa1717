//! The top call: a command from its arguments and its source to its sink.
ghost use Rattle.std.specs.Prelude.{◌≡◌, ◌≢◌, ◌≤◌, ◌∷◌, [], List, ℕ, Some, None, length};
ghost use Rattle.std.specs.Prelude.{IfSome, IsSome, IsSomeAnd, ◌↔◌, ◌⊎◌, option_map};
ghost use Rattle.clr_model.specs.Machine.{Machine, Options};
ghost use Rattle.clr_model.specs.LineGrammar.{script_lines, ended_lines};
ghost use Rattle.clr_model.specs.Run.{opening};
ghost use Rattle.clr_runtime.specs.RuntimeView.{StandsFor};
ghost use Rattle.clr_image.specs.Texts.{Inspected, Migrated};
ghost use Rattle.clr_args.specs.Grammar.{SaysImage, SaysInspect, SaysMigrate, SaysNothing, SaysOpen, SaysRun, SaysSoak};
ghost use Rattle.clr_args.specs.Grammar.{Text};
ghost use Rattle.clr_args.specs.declared.budgets.Budgets as budgets_said;
ghost use Rattle.clr_streams.specs.Faults.{Rose, Appended};
ghost use Rattle.clr_session.specs.Progress.{Answered, CutShort};
ghost use Rattle.clr_session.specs.Runs.{IsRunOf};
ghost use Rattle.clr_session.specs.Soak.{SoakCutShort, Soaked};
ghost use Rattle.clr_image_io.specs.Images.{ShowsImage};
ghost use Rattle.clr_open.specs.Fit.{budgets_of};
ghost use Rattle.clr_run.specs.Images.{LooksAtImage, MakesImage, OpensImage, WritesAtEnd};
ghost use Rattle.clr_run.specs.Opens.{budgets_with, Opens};

use crate::making::image_source;
use crate::opening::open_source;
use clr_args::{Arguments, Budgets, CommandLine};
use clr_image_io::{IMAGE_LIMIT, inspect_source, migrate_source};
use clr_runtime::Runtime;
use clr_session::{SCRIPT_LIMIT, run_source, soak};
use clr_streams::{Sink, Source, Status};
use std::alloc::Global;

// What a run goes on with from an image where the arguments say these budgets.
fn budgets_from(budgets: Budgets) -> clr_open::Budgets
    ensures { budgets_of result ≡ budgets_with budgets }
{
    clr_open::Budgets {
        b0: budgets.b0,
        b1: budgets.b1,
        b2: budgets.b2,
        bl: budgets.bl,
        compact: budgets.compact,
    }
}

/// Runs the command that the arguments say. The arguments are those of the command line, without the program's name.
///
/// - `run` runs the script that the source holds, and writes its replies to the sink.
/// - `soak` runs a generated script, and writes a summary of what it comes to.
/// - `image` runs the script that the source holds, and writes the image of the last state.
/// - `inspect` writes what the commands show of the heap in the image that the source holds, and `migrate` the image in
///   its second version. Of bytes that are no image both write the offset of the first fault.
/// - `open` reads an image from a source of its own, which no other command reads, and runs the script that the other
///   source holds from the state that the image says. Of bytes that are no image, or one from which no run goes on, it
///   writes the offset of what is wrong, and no byte of the script is read.
///
/// After `Done` of `run`, `soak`, `image` and `open` the end state is the runtime that ran the lines, and else there is
/// none.
pub fn run<I: Source, S: Source, K: Sink>(
    alloc: Global,
    arguments: &Arguments,
    image: &mut I,
    source: &mut S,
    sink: &mut K,
    end_state: &mut Option<Runtime>,
) -> Status
    // What is written is the text of one run of the machine over all lines of the source, which is read to its end, and
    // the runtime that ran them stands for the last state of this run.
    ensures headline { (options : Options) → SaysRun arguments.now options → result ≡ Status.Done →
        IfSome (S.held source.old) (λ script. (text : List ℕ) × (last : Machine)
        × IsRunOf options script text last
        × Appended (K.written sink.old) (K.written sink.new) text
        × (S.held source.new ≡ Some [])
        × IsSomeAnd end_state.new (λ runtime. StandsFor runtime last)) }

    // Where the source doesn't tell its bytes, the replies are those to some bytes, which were taken from it.
    ensures done { (options : Options) → SaysRun arguments.now options → result ≡ Status.Done → (taken : List ℕ)
        × (answered : Answered (opening options) script_lines
        (S.held source.old) (S.held source.new) (K.written sink.old) (K.written sink.new) taken)
        × (length taken ≤ SCRIPT_LIMIT) × IsSomeAnd end_state.new (λ runtime. StandsFor runtime answered.last) }
    ensures no_state { result ≢ Status.Done → end_state.new ≡ None }

    // The image of the last state of such a run is written, and it is an image.
    ensures image { (options : Options) → SaysImage arguments.now options →
        MakesImage options SCRIPT_LIMIT (S.held source.old) (S.held source.new)
        (K.written sink.old) (K.written sink.new) end_state.new result }

    // What is shown of an image, and its second version; or the offset of the first fault of other bytes.
    ensures inspect { SaysInspect arguments.now → ShowsImage Inspected IMAGE_LIMIT
        (S.held source.old) (S.held source.new) (K.written sink.old) (K.written sink.new) result }
    ensures migrate { SaysMigrate arguments.now → ShowsImage Migrated IMAGE_LIMIT
        (S.held source.old) (S.held source.new) (K.written sink.old) (K.written sink.new) result }
    ensures shown_state { LooksAtImage arguments.now → end_state.new ≡ None }

    // The replies to a script are the text of one run from a state that an image says; or what is wrong with the image.
    ensures opens { (budgets : budgets_said.Budgets) (path : Text) → SaysOpen arguments.now budgets path →
        Opens (budgets_with budgets) IMAGE_LIMIT SCRIPT_LIMIT (I.held image.old) (I.held image.new)
        (S.held source.old) (S.held source.new) (K.written sink.old) (K.written sink.new) end_state.new result }
    ensures open_unread { OpensImage arguments.now → result ≡ Status.BadImage → source.new ≡ source.old }
    ensures image_untouched { (OpensImage arguments.now → ⊥) → image.new ≡ image.old }

    // Each other answer has its cause.
    ensures usage { result ≢ Status.Memory → ((result ≡ Status.Usage) ↔ SaysNothing arguments.now) }
    ensures read_fault { result ≡ Status.ReadFault → Rose (S.faults source.old) (S.faults source.new)
        ⊎ (OpensImage arguments.now × Rose (I.faults image.old) (I.faults image.new)) }
    ensures write_fault { result ≡ Status.WriteFault → Rose (K.faults sink.old) (K.faults sink.new) }
    ensures too_much { (options : Options) → SaysRun arguments.now options → result ≡ Status.TooMuch →
        (taken : List ℕ) × (byte : ℕ)
        × Answered (opening options) ended_lines
        (S.held source.old) (option_map (λ rest. byte ∷ rest) (S.held source.new))
        (K.written sink.old) (K.written sink.new) taken
        × (length taken ≡ SCRIPT_LIMIT) }
    ensures bad_image { result ≡ Status.BadImage → LooksAtImage arguments.now ⊎ OpensImage arguments.now }

    // A count that rises is answered, and before the first read nothing has changed.
    ensures source_counted { result ≢ Status.ReadFault → S.faults source.new ≡ S.faults source.old }
    ensures image_counted { result ≢ Status.ReadFault → I.faults image.new ≡ I.faults image.old }
    ensures sink_counted { result ≢ Status.WriteFault → K.faults sink.new ≡ K.faults sink.old }
    ensures memory { result ≡ Status.Memory → sink.new ≡ sink.old }
    ensures memory_unread { (WritesAtEnd arguments.now → ⊥) → result ≡ Status.Memory → source.new ≡ source.old }
    ensures unwritten { WritesAtEnd arguments.now → (result ≡ Status.ReadFault) ⊎ (result ≡ Status.TooMuch) →
        sink.new ≡ sink.old }
    ensures unread { result ≡ Status.Usage → (image.new ≡ image.old) × (source.new ≡ source.old)
        × (sink.new ≡ sink.old) }

    // Where the arguments are right, the script isn't too long and no fault is counted, only memory can be wanting.
    ensures complete { (options : Options) → SaysRun arguments.now options →
        IfSome (S.held source.old) (λ bytes. length bytes ≤ SCRIPT_LIMIT) →
        IsSome (S.held source.old) → (Rose (S.faults source.old) (S.faults source.new) → ⊥) →
        (Rose (K.faults sink.old) (K.faults sink.new) → ⊥) →
        (result ≡ Status.Done) ⊎ (result ≡ Status.Memory) }

    ensures image_complete { (options : Options) → SaysImage arguments.now options →
        IfSome (S.held source.old) (λ bytes. length bytes ≤ SCRIPT_LIMIT) →
        IsSome (S.held source.old) → (Rose (S.faults source.old) (S.faults source.new) → ⊥) →
        (Rose (K.faults sink.old) (K.faults sink.new) → ⊥) →
        (result ≡ Status.Done) ⊎ (result ≡ Status.Memory) }
    ensures shown_complete { LooksAtImage arguments.now →
        IfSome (S.held source.old) (λ bytes. length bytes ≤ IMAGE_LIMIT) →
        IsSome (S.held source.old) → (Rose (S.faults source.old) (S.faults source.new) → ⊥) →
        (Rose (K.faults sink.old) (K.faults sink.new) → ⊥) →
        (result ≡ Status.Done) ⊎ ((result ≡ Status.Memory) ⊎ (result ≡ Status.BadImage)) }
    ensures open_complete { OpensImage arguments.now →
        IfSome (I.held image.old) (λ bytes. length bytes ≤ IMAGE_LIMIT) →
        IfSome (S.held source.old) (λ bytes. length bytes ≤ SCRIPT_LIMIT) →
        IsSome (I.held image.old) → IsSome (S.held source.old) →
        (Rose (I.faults image.old) (I.faults image.new) → ⊥) →
        (Rose (S.faults source.old) (S.faults source.new) → ⊥) →
        (Rose (K.faults sink.old) (K.faults sink.new) → ⊥) →
        (result ≡ Status.Done) ⊎ ((result ≡ Status.Memory) ⊎ (result ≡ Status.BadImage)) }

    // What was written before a fault.
    ensures read_before { (options : Options) → SaysRun arguments.now options → result ≡ Status.ReadFault →
        (taken : List ℕ) × Answered (opening options) ended_lines
        (S.held source.old) (S.held source.new) (K.written sink.old) (K.written sink.new) taken
        × (length taken ≤ SCRIPT_LIMIT) }
    ensures write_before { (options : Options) → SaysRun arguments.now options → result ≡ Status.WriteFault →
        CutShort (opening options) SCRIPT_LIMIT
        (S.held source.old) (S.held source.new) (K.written sink.old) (K.written sink.new) }

    // Of a generated script only the summary of the last state is written, and nothing is read.
    ensures soak { (options : Options) (seed count : ℕ) → SaysSoak arguments.now options seed count →
        result ≡ Status.Done → (soaked : Soaked options seed count (K.written sink.old) (K.written sink.new))
        × IsSomeAnd end_state.new (λ runtime. StandsFor runtime soaked.last) }
    ensures soak_before { (options : Options) (seed count : ℕ) → SaysSoak arguments.now options seed count →
        result ≡ Status.WriteFault → SoakCutShort options seed count (K.written sink.old) (K.written sink.new) }
    ensures soak_unread { (options : Options) (seed count : ℕ) → SaysSoak arguments.now options seed count →
        source.new ≡ source.old }
    ensures soak_complete { (options : Options) (seed count : ℕ) → SaysSoak arguments.now options seed count →
        (result ≡ Status.Done) ⊎ ((result ≡ Status.WriteFault) ⊎ (result ≡ Status.Memory)) }
{
    drop(end_state.take());
    let Ok(said) = arguments.command() else {
        return Status::Memory;
    };
    let Some(command) = said else {
        return Status::Usage;
    };
    match command {
        CommandLine::Run(options) => run_source(alloc, options, source, sink, end_state),
        CommandLine::Soak {
            options,
            seed,
            count,
        } => soak(alloc, options, seed, count, sink, end_state),
        CommandLine::Image(options) => image_source(alloc, options, source, sink, end_state),
        CommandLine::Inspect => inspect_source(alloc, source, sink),
        CommandLine::Migrate => migrate_source(alloc, source, sink),
        CommandLine::Open(budgets) => {
            open_source(alloc, budgets_from(budgets), image, source, sink, end_state)
        }
    }
}
