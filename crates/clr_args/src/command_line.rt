//! The commands that arguments say.
ghost use Rattle.std.specs.Prelude.{◌≡◌, IfOk, List, Some, codes, map, option_map, string_bytes};
ghost use Rattle.clap.specs.Matches.{found_of};
ghost use Rattle.clap.specs.Simple.{subcommand_rows_of};
ghost use Rattle.clap.specs.Walk.{Row, Text, first_of, rows_of};
ghost use Rattle.clr_args.specs.CommandLines.{IsOpenRead, IsPathSaid, IsReadWith, IsSaid, IsSoakRead};
ghost use Rattle.clr_args.specs.declared.command_line.CommandLine.TheVariants.{Image, Inspect, Migrate, Run};

use crate::NoMemory;
use crate::budgets::Budgets;
use crate::options::{place, read_options};
use crate::parser::parse;
use clap::ArgMatches;
use clr_options::Options;
use std::alloc::Global;

/// The greatest number of lines that a script is generated with.
const LINES: u64 = 1_000_000;

/// What the arguments of a command line say.
#[derive(Clone, Copy, Debug, PartialEq, Eq)]
pub enum CommandLine {
    /// A script is run.
    Run(Options),
    /// A script is generated from the seed, with so many lines, and is run.
    Soak {
        /// What it runs with.
        options: Options,
        /// Where its random numbers begin.
        seed: u32,
        /// How many lines are drawn.
        count: u32,
    },
    /// A script is run, and the heap that it leaves is saved.
    Image(Options),
    /// What an image holds is shown.
    Inspect,
    /// An image is written in the newest form.
    Migrate,
    /// A script is run with these budgets from the state on that an image says. `Arguments::image_path` gives its path.
    Open(Budgets),
}

/// The command that the arguments say. There is none where they say no command.
pub(crate) fn read(alloc: Global, arguments: &[String]) -> Result<Option<CommandLine>, NoMemory>
    ensures { IfOk result (IsSaid (map string_bytes arguments.now)) }
{
    let Some(matches) = parse(alloc, arguments)? else {
        return Ok(None);
    };
    Ok(read_matches(&matches))
}

/// The path that the arguments say. There is none where they don't say `open`.
pub(crate) fn image_path<'a>(
    alloc: Global,
    arguments: &'a [String],
) -> Result<Option<&'a str>, NoMemory>
    ensures { IfOk result (λ path. IsPathSaid (map string_bytes arguments.entry.now)
        (option_map (λ text. text.now) path)) }
{
    let Some(matches) = parse(alloc, arguments)? else {
        return Ok(None);
    };
    let Some(line) = read_matches(&matches) else {
        return Ok(None);
    };
    match line {
        CommandLine::Open(_) => Ok(read_path(&matches)),
        _ => Ok(None),
    }
}

// The text of the place of a path, behind whatever command.
fn read_path<'a>(matches: &ArgMatches<'a>) -> Option<&'a str>
    ensures { (name : Text) (rows : List Row) → subcommand_rows_of matches.now ≡ Some (name, rows)
        → option_map (λ text. text.now) result ≡ first_of (codes "IMAGE") rows }
{
    let (_, found) = matches.subcommand()?;
    found.get_str("IMAGE")
}

// What is said, where the arguments are taken.
fn read_matches(matches: &ArgMatches<'_>) -> Option<CommandLine>
    ensures run { (rows : List Row) → subcommand_rows_of matches.now ≡ Some (codes "run", rows)
        → IsReadWith Run rows result }
    ensures soak { (rows : List Row) → subcommand_rows_of matches.now ≡ Some (codes "soak", rows)
        → IsSoakRead rows result }
    ensures image { (rows : List Row) → subcommand_rows_of matches.now ≡ Some (codes "image", rows)
        → IsReadWith Image rows result }
    ensures inspect { (rows : List Row) → subcommand_rows_of matches.now ≡ Some (codes "inspect", rows)
        → result ≡ Some Inspect }
    ensures migrate { (rows : List Row) → subcommand_rows_of matches.now ≡ Some (codes "migrate", rows)
        → result ≡ Some Migrate }
    ensures opens { (rows : List Row) → subcommand_rows_of matches.now ≡ Some (codes "open", rows)
        → IsOpenRead rows result }
{
    let (name, found) = matches.subcommand()?;
    match name {
        "run" => read_run(found),
        "soak" => read_soak(found),
        "image" => read_image(found),
        "inspect" => Some(CommandLine::Inspect),
        "open" => read_open(found),
        _ => Some(CommandLine::Migrate),
    }
}

// What is said behind `run`.
fn read_run(found: &ArgMatches<'_>) -> Option<CommandLine>
    ensures { IsReadWith Run (rows_of (found_of found.now)) result }
{
    Some(CommandLine::Run(read_options(found)?))
}

// What is said behind `image`.
fn read_image(found: &ArgMatches<'_>) -> Option<CommandLine>
    ensures { IsReadWith Image (rows_of (found_of found.now)) result }
{
    Some(CommandLine::Image(read_options(found)?))
}

// What is said behind `open`.
fn read_open(found: &ArgMatches<'_>) -> Option<CommandLine>
    ensures { IsOpenRead (rows_of (found_of found.now)) result }
{
    Some(CommandLine::Open(Budgets::read(found)?))
}

// What is said behind `soak`.
fn read_soak(found: &ArgMatches<'_>) -> Option<CommandLine>
    ensures { IsSoakRead (rows_of (found_of found.now)) result }
{
    let options = read_options(found)?;
    let seed = place(found, "SEED")?;
    let count = place(found, "N")?;
    if seed <= u64::from(u32::MAX) && 1 <= count && count <= LINES {
        Some(CommandLine::Soak {
            options,
            seed: seed as u32,
            count: count as u32,
        })
    } else {
        None
    }
}
