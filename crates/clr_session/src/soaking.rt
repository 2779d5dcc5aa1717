//! A script that is made of drawn numbers is run, and its last state is summed up.
ghost use Rattle.std.specs.Prelude.{◌≡◌, ◌≢◌, ◌+◌, ◌*◌, ◌^◌, ◌≤◌, ◌⊎◌, None, length};
ghost use Rattle.std.specs.Prelude.{IfOk, IsSomeAnd, List};
ghost use Rattle.clr_model.specs.Lawful.{AreLawfulOptions};
ghost use Rattle.clr_model.specs.Machine.{Machine};
ghost use Rattle.clr_model.specs.Outcomes as model;
ghost use Rattle.clr_runtime.specs.RuntimeView.{StandsFor};
ghost use Rattle.clr_model.specs.declared.Reply.TheVariants.{Clean};
ghost use Rattle.clr_lines.specs.Outcomes.{outcome_of};
ghost use Rattle.clr_options.specs.Options.{options_of};
ghost use Rattle.clr_script.specs.Made.{made_lines};
ghost use Rattle.clr_streams.specs.Faults.{Rose};
ghost use Rattle.clr_session.specs.Soak.{is_refused, refused_count, stat_text, summary_text};
ghost use Rattle.clr_session.specs.Soak.{FollowsLines, SoakCutShort, Soaked};

use clr_lines::execute::execute;
use clr_lines::{Outcome, obey_look};
use clr_model::{Command, Filter, Life, Mode, Reply};
use clr_runtime::{NoMemory, Options, Runtime};
use clr_script::{Made, put_reply};
use clr_streams::{Sink, Status, write_all};
use std::alloc::Global;

/// Runs the generated script of a seed, of which `count` lines are drawn, and writes the summary of its last state and
/// nothing else. After `Done` the end state is the runtime that ran the lines. After `Memory` nothing was written.
pub fn soak<K: Sink>(
    alloc: Global,
    options: Options,
    seed: u32,
    count: u32,
    sink: &mut K,
    end_state: &mut Option<Runtime>,
) -> Status
    requires lawful { AreLawfulOptions (options_of options) }
    requires few { count ≤ 1000000 }
    requires no_state { end_state.old ≡ None }
    ensures done { result ≡ Status.Done →
        (soaked : Soaked (options_of options) seed count (K.written sink.old) (K.written sink.new))
        × IsSomeAnd end_state.new (λ runtime. StandsFor runtime soaked.last) }
    ensures no_state { result ≢ Status.Done → end_state.new ≡ None }
    ensures write_before { result ≡ Status.WriteFault →
        SoakCutShort (options_of options) seed count (K.written sink.old) (K.written sink.new) }
    ensures write_fault { result ≡ Status.WriteFault → Rose (K.faults sink.old) (K.faults sink.new) }
    ensures sink_counted { result ≢ Status.WriteFault → K.faults sink.new ≡ K.faults sink.old }
    ensures memory { result ≡ Status.Memory → sink.new ≡ sink.old }
    ensures complete { (result ≡ Status.Done) ⊎ ((result ≡ Status.WriteFault) ⊎ (result ≡ Status.Memory)) }
{
    let Ok(mut runtime) = Runtime::new(alloc, options) else {
        return Status::Memory;
    };
    // (it is let go by `drop`, a call whose destructors are proved once and not at each way out)
    let tally = run_made(&mut runtime, alloc, seed, count);
    let Ok(text) = summary(&runtime, alloc, tally) else {
        drop(runtime);
        return Status::Memory;
    };
    match write_all(sink, &text) {
        Ok(()) => {
            drop(end_state.replace(runtime));
            Status::Done
        }
        Err(_) => {
            drop(runtime);
            Status::WriteFault
        }
    }
}

// How many lines were run, and how many of them were refused.
#[derive(Clone, Copy)]
struct Tally {
    lines: u64,
    refused: u64,
}

// Does the lines of a generated script, and counts them.
fn run_made(runtime: &mut Runtime, alloc: Global, seed: u32, count: u32) -> Tally
    requires { runtime.old.machine.layout.top + 2 ^ 30 * (count + 3) ≤ 2 ^ 61 }
    ensures { (outcomes : List model.Outcome)
        × FollowsLines runtime.old.machine (made_lines seed count) outcomes runtime.new.machine
        × (result.lines ≡ length outcomes) × (result.refused ≡ refused_count outcomes) }
{
    let mut made = Made::new(seed, count);
    let mut line = [0; 64];
    let mut tally = Tally {
        lines: 0,
        refused: 0,
    };
    loop {
        let length = made.next_line(&mut line);
        if length == 0 {
            return tally;
        }
        let outcome = execute(runtime, alloc, &line[..length]);
        tally.lines += 1;
        tally.refused += u64::from(is_refused(outcome));
    }
}

// Whether a line was refused.
fn is_refused(outcome: Outcome) -> bool
    ensures { result ≡ is_refused (outcome_of outcome) }
{
    matches!(outcome, Outcome::Refused(_))
}

// What is written in the end: how many lines were run and refused, what there is of each type, and that the words of
// the heap are right.
fn summary(runtime: &Runtime, alloc: Global, tally: Tally) -> Result<Vec<u8>, NoMemory>
    requires { (m : Machine) × StandsFor runtime.now m }
    ensures { IfOk result (λ text. text.items ≡ summary_text tally.lines tally.refused runtime.now.machine) }
{
    let Tally { lines, refused } = tally;
    let mut text = format!(in alloc; "lines {lines} refused {refused}\n")?.into_bytes();
    text.extend_from_slice(&show_types(runtime, alloc)?)?;
    let mut verdict = [0; 256];
    let length = put_reply(&verify(runtime, alloc), &mut verdict);
    text.extend_from_slice(&verdict[..length])?;
    Ok(text)
}

// The reply to `dumpheap -stat`.
fn show_types(runtime: &Runtime, alloc: Global) -> Result<Vec<u8>, NoMemory>
    requires { (m : Machine) × StandsFor runtime.now m }
    ensures { IfOk result (λ text. text.items ≡ stat_text runtime.now.machine) }
{
    let filter = Filter {
        mode: Mode::Stat,
        life: Life::Any,
        mt: None,
        name: None,
        min: 0,
        max: u64::MAX,
        generation: None,
        segment: None,
    };
    match obey_look(runtime, alloc, Command::DumpHeap { filter }) {
        Outcome::Text(text) => Ok(text),
        _ => Err(NoMemory),
    }
}

// The reply to `verifyheap`.
fn verify(runtime: &Runtime, alloc: Global) -> Reply
    requires { (m : Machine) × StandsFor runtime.now m }
    ensures { result ≡ Clean }
{
    match obey_look(runtime, alloc, Command::VerifyHeap) {
        Outcome::Reply(reply) => reply,
        _ => unreachable!(),
    }
}
