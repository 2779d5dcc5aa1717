ghost use Rattle.std.specs.Prelude.{◌≡◌, ◌<◌, ◌∷◌, ◌++◌, [], List, ℕ, length, map, OnOk, OnErr, IfOk, slice_get, None};
ghost use Rattle.std.specs.Prelude.{Some, option_map};
ghost use Rattle.clr_model.specs.Machine.{Options};
ghost use Rattle.clr_args.specs.CommandLines.{HasOptions, IsPathSaid, IsSaid};
ghost use Rattle.clr_args.specs.Grammar.{SaysImage, SaysInspect, SaysMigrate, SaysNothing, SaysOpen, SaysRun, SaysSoak};
ghost use Rattle.clr_args.specs.Grammar.{Text};
ghost use Rattle.clr_args.specs.declared.budgets.Budgets.{Budgets};
ghost use Rattle.clr_args.specs.declared.command_line.CommandLine.TheVariants.{Image, Inspect, Migrate, Open, Run};
ghost use Rattle.clr_args.specs.declared.command_line.CommandLine.TheVariants.{Soak};

use crate::NoMemory;
use crate::command_line::{self, CommandLine};
use std::alloc::Global;
use std::marker::Model;

/// The arguments of a command line.
#[derive(Drop)]
pub struct Arguments {
    alloc: Global,
    texts: Vec<String>,
}

impl Model for Arguments {
    ghost use Rattle.std.specs.Prelude.{List, ℕ, map, string_bytes};

    ghost Value = { List (List ℕ) };

    ghost view = { λ arguments. map string_bytes arguments.texts.items };
}

impl Arguments {
    /// No arguments yet.
    pub fn new(alloc: Global) -> Result<Arguments, NoMemory>
        ensures { IfOk result (λ arguments. arguments ≡ []) }
    {
        let texts = Vec::new(alloc);
        Ok(Arguments { alloc, texts })
    }

    /// Appends an argument. Where there is no memory nothing changes.
    pub fn push(&mut self, argument: &str) -> Result<(), NoMemory>
        ensures ok { OnOk result (self.new ≡ self.old ++ argument.now ∷ []) }
        ensures err { OnErr result (self.new ≡ self.old) }
    {
        let Ok(text) = String::from_str(self.alloc, argument) else {
            return Err(NoMemory);
        };
        if self.texts.push(text).is_err() {
            return Err(NoMemory);
        }
        Ok(())
    }

    /// How many arguments there are.
    pub fn count(&self) -> usize
        ensures { result ≡ length self.now }
    {
        self.texts.len()
    }

    /// Argument `i`, counted from 0. There has to be one.
    pub fn get(&self, i: usize) -> &str
        requires { i < length self.now }
        ensures { slice_get self.now i ≡ Some result.now }
    {
        self.texts[i].as_str()
    }

    /// The command that the arguments say. There is none where they say no command.
    pub fn command(&self) -> Result<Option<CommandLine>, NoMemory>
        // What is answered is said.
        ensures said { IfOk result (λ line. IsSaid self.now line) }

        // What is said is answered.
        ensures run { (options : Options) → SaysRun self.now options
            → IfOk result (λ line. HasOptions Run options line) }
        ensures soak { (options : Options) (seed count : ℕ) → SaysSoak self.now options seed count
            → IfOk result (λ line. HasOptions (λ chosen. Soak chosen seed count) options line) }
        ensures image { (options : Options) → SaysImage self.now options
            → IfOk result (λ line. HasOptions Image options line) }
        ensures inspect { SaysInspect self.now → IfOk result (λ line. line ≡ Some Inspect) }
        ensures migrate { SaysMigrate self.now → IfOk result (λ line. line ≡ Some Migrate) }
        ensures opens { (budgets : Budgets) (path : Text) → SaysOpen self.now budgets path
            → IfOk result (λ line. line ≡ Some (Open budgets)) }
        ensures nothing { SaysNothing self.now → IfOk result (λ line. line ≡ None) }
    {
        command_line::read(self.alloc, self.texts.as_slice())
    }

    /// The path of the image that `open` goes on from. There is one exactly where the arguments say `open`. The error is
    /// that there was no memory to read them.
    pub fn image_path(&self) -> Result<Option<&str>, NoMemory>
        // What is answered is said, and `open` isn't where nothing is answered.
        ensures said { IfOk result (λ path. IsPathSaid self.now (option_map (λ text. text.now) path)) }

        // What is said is answered.
        ensures opens { (budgets : Budgets) (path : Text) → SaysOpen self.now budgets path
            → IfOk result (λ found. option_map (λ text. text.now) found ≡ Some path) }
    {
        command_line::image_path(self.alloc, self.texts.as_slice())
    }
}
