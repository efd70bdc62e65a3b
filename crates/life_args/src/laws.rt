// Laws that the definitions satisfy, as functions that do nothing.
ghost use Rattle.std.specs.Prelude.{◌≡◌, ◌⊎◌, List, String};
ghost use Rattle.std.specs.Global.{Global};
ghost use Rattle.life_args.specs.declared.mode.Mode.{Mode};
ghost use Rattle.life_args.specs.Words.{AskFor, AskForNothing};

/// Arguments ask for at most one mode.
pub fn words_ask_once()
    ensures { (words : List (String Global)) (mode other : Mode) → AskFor words mode → AskFor words other → mode ≡ other }
{}

/// Arguments ask for a mode, or for nothing.
pub fn words_ask_or_not()
    ensures { (words : List (String Global)) → ((mode : Mode) × AskFor words mode) ⊎ AskForNothing words }
{}
