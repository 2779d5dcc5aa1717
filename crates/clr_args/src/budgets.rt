//! The numbers of options for what an image doesn't say.
ghost use Rattle.std.specs.Prelude.{◌↔◌, IfSome, IsNone, IsTrue};
ghost use Rattle.clap.specs.Matches.{found_of};
ghost use Rattle.clap.specs.Walk.{rows_of};
ghost use Rattle.clr_args.specs.Budgets.{AreLawfulBudgets};
ghost use Rattle.clr_args.specs.Reading.{AreBudgetsRead};
ghost use Rattle.clr_args.specs.declared.budgets.Budgets.{Budgets};

use crate::options::option;
use clap::ArgMatches;
use clr_options::{GIBIBYTE, Options};

/// What a script runs with where an image says the rest: budgets in bytes, and a percentage.
#[derive(Clone, Copy, Debug, PartialEq, Eq)]
pub struct Budgets {
    /// The bytes of small objects after which an allocation collects.
    pub b0: u64,
    /// The promoted bytes after which such a collection condemns generation 1, too.
    pub b1: u64,
    /// The bytes promoted to generation 2 after which it is a full one.
    pub b2: u64,
    /// The bytes of large objects after which an allocation of one collects.
    pub bl: u64,
    /// The percentage of free space from which a collection that decides compacts.
    pub compact: u64,
}

impl Budgets {
    /// The budgets that a command's options say, where each is a number within its bounds.
    pub(crate) fn read(found: &ArgMatches<'_>) -> Option<Budgets>
        ensures said { IfSome result (λ budgets. AreBudgetsRead (rows_of (found_of found.now)) budgets) }
        ensures lawful { IfSome result (λ budgets. AreLawfulBudgets budgets) }
        ensures none { IsNone result → (budgets : Budgets) → AreBudgetsRead (rows_of (found_of found.now)) budgets →
            AreLawfulBudgets budgets → ⊥ }
    {
        let budgets = Budgets::read_numbers(found)?;
        if budgets.are_lawful() {
            Some(budgets)
        } else {
            None
        }
    }

    /// The budgets, whatever their numbers are.
    pub(crate) fn read_numbers(found: &ArgMatches<'_>) -> Option<Budgets>
        ensures said { IfSome result (λ budgets. AreBudgetsRead (rows_of (found_of found.now)) budgets) }
        ensures none { IsNone result → (budgets : Budgets) → AreBudgetsRead (rows_of (found_of found.now)) budgets
            → ⊥ }
    {
        let defaults = Options::defaults();
        let b0 = option(found, "b0", defaults.b0)?;
        let b1 = option(found, "b1", defaults.b1)?;
        let b2 = option(found, "b2", defaults.b2)?;
        let bl = option(found, "bl", defaults.bl)?;
        let compact = option(found, "compact", defaults.compact)?;
        Some(Budgets {
            b0,
            b1,
            b2,
            bl,
            compact,
        })
    }

    /// Whether each number is within its bounds.
    pub(crate) fn are_lawful(&self) -> bool
        ensures { IsTrue result ↔ AreLawfulBudgets self.now }
    {
        self.b0 <= GIBIBYTE
            && self.b1 <= GIBIBYTE
            && self.b2 <= GIBIBYTE
            && self.bl <= GIBIBYTE
            && self.compact <= 100
    }
}
