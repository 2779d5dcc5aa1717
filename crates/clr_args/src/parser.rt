//! The arguments, read by `clap`.
ghost use Rattle.std.specs.Prelude.{◌≡◌, ◌≢◌, [], IfOk, MatchOption, codes, false, map, string_bytes};
ghost use Rattle.clap.specs.Faults.{fault_of};
ghost use Rattle.clap.specs.Simple.{app_of, filled, subcommand_of, subcommand_rows_of, with_subcommand};
ghost use Rattle.clap.specs.Walk.{rule_of};
ghost use Rattle.clap.specs.declared.builder.command.Command.TheViews.{out-Command};
ghost use Rattle.clr_args.specs.Grammar.{budget_names, open_places, option_names, soak_places};
ghost use Rattle.clr_args.specs.Parser.{bare_program, command_shape, filled_app, option_rule, place_rule, program};
ghost use Rattle.clr_args.specs.Parser.{with_budgets, with_options, with_two};

use crate::NoMemory;
use clap::error::ErrorKind;
use clap::{Arg, ArgMatches, Command};
use std::alloc::{AllocError, Global};

/// What the parser finds of the arguments. There is none where it doesn't take them.
pub(crate) fn parse<'a>(
    alloc: Global,
    arguments: &'a [String],
) -> Result<Option<ArgMatches<'a>>, NoMemory>
    ensures { IfOk result (λ found. MatchOption found
        (fault_of program (map string_bytes arguments.entry.now) ≢ [])
        (λ matches. (fault_of program (map string_bytes arguments.entry.now) ≡ [])
        × (subcommand_rows_of matches ≡ subcommand_of program (map string_bytes arguments.entry.now)))) }
{
    let Ok(program) = make_program(alloc) else {
        return Err(NoMemory);
    };
    match program.try_get_matches_from(arguments) {
        Ok(matches) => Ok(Some(matches)),
        Err(error) => match error.kind() {
            ErrorKind::OutOfMemory => Err(NoMemory),
            _ => Ok(None),
        },
    }
}

// The program with its commands.
fn make_program<'a>(alloc: Global) -> Result<Command<'a>, AllocError>
    ensures { IfOk result (λ command. filled_app (app_of command) ≡ program) }
{
    let with_run = add_command(alloc, make_bare(alloc), "run")?;
    let with_soak = add_soak(alloc, with_run)?;
    let with_image = add_command(alloc, with_soak, "image")?;
    let with_looks = add_looks(alloc, with_image)?;
    add_open(alloc, with_looks)
}

// The program without commands.
fn make_bare<'a>(alloc: Global) -> Command<'a>
    ensures { filled_app (app_of result) ≡ bare_program }
{
    Command::new(alloc, "clrheap")
        .no_binary_name(true)
        .disable_help_flag(true)
        .disable_help_subcommand(true)
        .disable_version_flag(true)
        .subcommand_required(true)
}

// Adds the command with this name, which has the options.
fn add_command<'a>(
    alloc: Global,
    program: Command<'a>,
    name: &'a str,
) -> Result<Command<'a>, AllocError>
    ensures { IfOk result (λ made. filled_app (app_of made)
        ≡ with_subcommand (filled_app (app_of program.entry)) (command_shape name.entry.now option_names [])) }
{
    let command = add_options(alloc, Command::new(alloc, name))?;
    program.subcommand(command)
}

// Adds `soak`.
fn add_soak<'a>(alloc: Global, program: Command<'a>) -> Result<Command<'a>, AllocError>
    ensures { IfOk result (λ made. filled_app (app_of made)
        ≡ with_subcommand (filled_app (app_of program.entry)) (command_shape (codes "soak") option_names soak_places)) }
{
    let soak = make_soak(alloc)?;
    program.subcommand(soak)
}

// The command `soak`, with its options and places.
fn make_soak<'a>(alloc: Global) -> Result<Command<'a>, AllocError>
    ensures shape { IfOk result (λ made. (filled_app (app_of made)).top
        ≡ command_shape (codes "soak") option_names soak_places) }
    ensures local { IfOk result (λ made. (out-Command made).has_globals ≡ false) }
{
    add_options(alloc, Command::new(alloc, "soak"))?
        .arg(make_place(alloc, "SEED"))?
        .arg(make_place(alloc, "N"))
}

// Adds the commands on images, which have no options.
fn add_looks<'a>(alloc: Global, program: Command<'a>) -> Result<Command<'a>, AllocError>
    ensures { IfOk result (λ made. filled_app (app_of made) ≡ with_subcommand
        (with_subcommand (filled_app (app_of program.entry)) (command_shape (codes "inspect") [] []))
        (command_shape (codes "migrate") [] [])) }
{
    program
        .subcommand(Command::new(alloc, "inspect"))?
        .subcommand(Command::new(alloc, "migrate"))
}

// Adds `open`.
fn add_open<'a>(alloc: Global, program: Command<'a>) -> Result<Command<'a>, AllocError>
    ensures { IfOk result (λ made. filled_app (app_of made)
        ≡ with_subcommand (filled_app (app_of program.entry)) (command_shape (codes "open") budget_names open_places)) }
{
    let command = make_open(alloc)?;
    program.subcommand(command)
}

// The command `open`, with its options and the place of a path.
fn make_open<'a>(alloc: Global) -> Result<Command<'a>, AllocError>
    ensures shape { IfOk result (λ made. (filled_app (app_of made)).top
        ≡ command_shape (codes "open") budget_names open_places) }
    ensures local { IfOk result (λ made. (out-Command made).has_globals ≡ false) }
{
    let optional = add_budgets(alloc, Command::new(alloc, "open"))?;
    optional.arg(make_place(alloc, "IMAGE"))
}

// Adds the options of a command.
fn add_options<'a>(alloc: Global, command: Command<'a>) -> Result<Command<'a>, AllocError>
    ensures shape { IfOk result (λ made. filled_app (app_of made) ≡ with_options (filled_app (app_of command.entry))) }
    ensures local { (out-Command command.entry).has_globals ≡ false
        → IfOk result (λ made. (out-Command made).has_globals ≡ false) }
{
    let sized = add_two(alloc, command, "limit", "segment")?;
    let budgeted = add_budgets(alloc, sized)?;
    budgeted.arg(make_option(alloc, "large"))
}

// Adds the options for budgets.
fn add_budgets<'a>(alloc: Global, command: Command<'a>) -> Result<Command<'a>, AllocError>
    ensures shape { IfOk result (λ made. filled_app (app_of made) ≡ with_budgets (filled_app (app_of command.entry))) }
    ensures local { (out-Command command.entry).has_globals ≡ false
        → IfOk result (λ made. (out-Command made).has_globals ≡ false) }
{
    let younger = add_two(alloc, command, "b0", "b1")?;
    let older = add_two(alloc, younger, "b2", "bl")?;
    older.arg(make_option(alloc, "compact"))
}

// Adds two options.
fn add_two<'a>(
    alloc: Global,
    command: Command<'a>,
    first: &'a str,
    second: &'a str,
) -> Result<Command<'a>, AllocError>
    ensures shape { IfOk result (λ made. filled_app (app_of made)
        ≡ with_two first.entry.now second.entry.now (filled_app (app_of command.entry))) }
    ensures local { (out-Command command.entry).has_globals ≡ false
        → IfOk result (λ made. (out-Command made).has_globals ≡ false) }
{
    command
        .arg(make_option(alloc, first))?
        .arg(make_option(alloc, second))
}

// An option that takes a number.
fn make_option<'a>(alloc: Global, name: &'a str) -> Arg<'a>
    ensures rule { filled (rule_of result) ≡ option_rule name.entry.now }
    ensures local { result.global ≡ false }
{
    Arg::new(alloc, name).long(name)
}

// A place that has to have a text.
fn make_place<'a>(alloc: Global, name: &'a str) -> Arg<'a>
    ensures rule { filled (rule_of result) ≡ place_rule name.entry.now }
    ensures local { result.global ≡ false }
{
    Arg::new(alloc, name).required(true)
}
