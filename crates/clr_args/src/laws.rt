//! Laws on what arguments say, each the contract of a function that does nothing.
ghost use Rattle.std.specs.Prelude.{List};
ghost use Rattle.clr_model.specs.Machine.{Options};
ghost use Rattle.clr_args.specs.Grammar.{Text};
ghost use Rattle.clr_args.specs.Laws.{LawfulLaw, OneThingLaw};

/// Arguments say at most one command, with one set of options and numbers, and none say both a command and no command.
pub fn arguments_say_one_thing()
    ensures { OneThingLaw }
{}

/// The options that arguments say are lawful.
pub fn what_is_said_is_lawful()
    ensures { (arguments : List Text) (options : Options) → LawfulLaw arguments options }
{}
