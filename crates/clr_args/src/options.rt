//! The numbers that options say.
ghost use Rattle.std.specs.Prelude.{◌≡◌, IfSome, IsNone, option_and_then};
ghost use Rattle.clap.specs.Matches.{found_of};
ghost use Rattle.clap.specs.Walk.{first_of, rows_of};
ghost use Rattle.clr_model.specs.Lawful.{AreLawfulOptions};
ghost use Rattle.clr_model.specs.Machine as machine;
ghost use Rattle.clr_args.specs.Reading.{AreRead, number_in, number_or};
ghost use Rattle.clr_options.specs.Options.{options_of};

use crate::budgets::Budgets;
use clap::ArgMatches;
use clr_nums::read_dec;
use clr_options::Options;

/// The options that a command's words say, where each is a number within its bounds.
pub(crate) fn read_options(found: &ArgMatches<'_>) -> Option<Options>
    ensures said { IfSome result (λ options. AreRead (rows_of (found_of found.now)) (options_of options)) }
    ensures lawful { IfSome result (λ options. AreLawfulOptions (options_of options)) }
    ensures none { IsNone result → (options : machine.Options) → AreRead (rows_of (found_of found.now)) options →
        AreLawfulOptions options → ⊥ }
{
    let options = read_numbers(found)?;
    if options.is_lawful() {
        Some(options)
    } else {
        None
    }
}

// The options, whatever their numbers are.
fn read_numbers(found: &ArgMatches<'_>) -> Option<Options>
    ensures said { IfSome result (λ options. AreRead (rows_of (found_of found.now)) (options_of options)) }
    ensures none { IsNone result → (options : machine.Options) → AreRead (rows_of (found_of found.now)) options → ⊥ }
{
    let defaults = Options::defaults();
    let limit = option(found, "limit", defaults.limit)?;
    let segment = option(found, "segment", defaults.segment)?;
    let budgets = Budgets::read_numbers(found)?;
    let large = option(found, "large", defaults.large)?;
    Some(Options {
        limit,
        segment,
        b0: budgets.b0,
        b1: budgets.b1,
        b2: budgets.b2,
        bl: budgets.bl,
        compact: budgets.compact,
        large,
    })
}

/// The number of a place. There is none where its text is none.
pub(crate) fn place(found: &ArgMatches<'_>, name: &str) -> Option<u64>
    ensures { result ≡ option_and_then number_in (first_of name.now (rows_of (found_of found.now))) }
{
    number(found.get_str(name)?)
}

/// The number of an option, or its default where the arguments don't say it.
pub(crate) fn option(found: &ArgMatches<'_>, name: &str, default: u64) -> Option<u64>
    ensures { result ≡ number_or default (first_of name.now (rows_of (found_of found.now))) }
{
    match found.get_str(name) {
        Some(text) => number(text),
        None => Some(default),
    }
}

fn number(text: &str) -> Option<u64>
    ensures { result ≡ number_in text.now }
{
    read_dec(text.as_bytes()).ok()
}
