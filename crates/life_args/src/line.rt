// What comes after the first argument: values that stand alone, and options with their values.
ghost use Rattle.std.specs.Prelude.{◌≡◌, IfOk, false, map, string_bytes};
ghost use Rattle.life_args.specs.Names.{list_any, app_of, rule_of};
ghost use Rattle.life_args.specs.inside.Lines as lines;
ghost use Rattle.life_args.specs.inside.Lines.{ReadsLine, flag_rule, line_app, no_option_names, option_rule};
ghost use Rattle.life_args.specs.inside.Verbs.{options_of};

use crate::fault::WordsFault;
use crate::verb::Verb;
use clap::{Arg, ArgAction, ArgMatches, Command};
use memory_requests::{NoMatches, matches_of, with_arg};
use policy_types::NoMemory;
use std::alloc::Global;

/// What `clap` makes of the arguments after a verb: the values that stand alone, and those of each option. How many
/// there may be is checked where they are read.
pub fn read_line<'a>(
    alloc: Global,
    verb: Verb,
    words: &'a [String],
) -> Result<ArgMatches<'a>, WordsFault>
    ensures { ReadsLine (options_of verb) (map string_bytes words.entry.now) result }
{
    if has_odd(words) {
        return Err(WordsFault::Usage);
    }
    let command = match command_of(alloc, verb) {
        Ok(command) => command,
        Err(lack) => return Err(WordsFault::NoMemory(lack)),
    };
    match matches_of(command, words) {
        Ok(line) => Ok(line),
        Err(NoMatches::Usage) => Err(WordsFault::Usage),
        Err(NoMatches::NoMemory(lack)) => Err(WordsFault::NoMemory(lack)),
    }
}

// Whether an argument begins with a hyphen and is no option. `clap` would accept `--`, and reads `-x` as a flag.
fn has_odd(words: &[String]) -> bool
    ensures { result ≡ list_any (λ word. lines.is_odd (string_bytes word)) words.now }
{
    words.iter().any(|word| is_odd(word.as_str()))
}

fn is_odd(word: &str) -> bool
    ensures { result ≡ lines.is_odd word.now }
{
    match word.as_bytes() {
        [b'-', b'-', _, ..] => false,
        [b'-', ..] => true,
        _ => false,
    }
}

// The command that takes only values and the options of the verb.
fn command_of<'a>(alloc: Global, verb: Verb) -> Result<Command<'a>, NoMemory>
    ensures { IfOk result (λ command. app_of command ≡ line_app (options_of verb)) }
{
    let command = optionless(alloc)?;
    match verb {
        Verb::Run => with_arg(command, option(alloc, "basis")),
        Verb::Value => {
            let command = with_arg(command, option(alloc, "at"))?;
            let command = with_arg(command, option(alloc, "workers"))?;
            let command = with_arg(command, option(alloc, "basis"))?;
            let command = with_arg(command, flag(alloc, "mean"))?;
            with_arg(command, flag(alloc, "deficiency"))
        }
        Verb::Project => {
            let command = with_arg(command, option(alloc, "workers"))?;
            with_arg(command, option(alloc, "basis"))
        }
        Verb::State | Verb::Checkpoint | Verb::Generate | Verb::Load => Ok(command),
    }
}

fn optionless<'a>(alloc: Global) -> Result<Command<'a>, NoMemory>
    ensures { IfOk result (λ command. app_of command ≡ line_app no_option_names) }
{
    let command = Command::new(alloc, "life")
        .no_binary_name(true)
        .disable_help_flag(true);
    let values = Arg::new(alloc, "values").action(ArgAction::Append);
    with_arg(command, values)
}

// An option that has a value each time it is used.
fn option<'a>(alloc: Global, name: &'a str) -> Arg<'a>
    ensures rule { rule_of result ≡ option_rule name.entry.now }
    ensures local { result.global ≡ false }
{
    Arg::new(alloc, name).long(name).action(ArgAction::Append)
}

// An option without a value. Each use is noted, so that repeated flags are checked like other values.
fn flag<'a>(alloc: Global, name: &'a str) -> Arg<'a>
    ensures rule { rule_of result ≡ flag_rule name.entry.now }
    ensures local { result.global ≡ false }
{
    option(alloc, name).num_args(0).default_missing_value("")
}
