// The words of a command line.
ghost use Rattle.std.specs.Prelude.{◌≡◌, ◌≢◌, [], true, map, IfOk, string_bytes};
ghost use Rattle.clap.specs.Built.{AddsArg};
ghost use Rattle.clap.specs.Faults.{is_simple_and_free};
ghost use Rattle.clap.specs.Simple.{app_of};
ghost use Rattle.memory_requests.specs.Evidence.{a_refusal};
ghost use Rattle.memory_requests.specs.Words.{TakesWords};

use crate::evidence::NoMemory;
use clap::error::ErrorKind;
use clap::{Arg, ArgMatches, Command};

/// The command with this argument beside its others.
pub fn with_arg<'a>(command: Command<'a>, arg: Arg<'a>) -> Result<Command<'a>, NoMemory>
    ensures { IfOk result (AddsArg command.entry arg.entry) }
{
    match command.arg(arg) {
        Ok(made) => Ok(made),
        Err(_) => Err(NoMemory::refused()),
    }
}

/// Why a command has no matches.
#[derive(Drop)]
pub enum NoMatches {
    /// It doesn't take these words.
    Usage,
    NoMemory(NoMemory),
}

/// What a command of simple rules makes of words.
pub fn matches_of<'a>(
    command: Command<'a>,
    words: &'a [String],
) -> Result<ArgMatches<'a>, NoMatches>
    requires { is_simple_and_free (app_of command) ≡ true }
    ensures { TakesWords (app_of command.entry) (map string_bytes words.entry.now) result }
{
    match command.try_get_matches_from(words) {
        Ok(line) => Ok(line),
        Err(error) => Err(why_of(error.kind())),
    }
}

fn why_of(kind: ErrorKind) -> NoMatches
    ensures memory { kind ≡ ErrorKind.OutOfMemory → result ≡ NoMatches.NoMemory a_refusal }
    ensures usage { result ≡ NoMatches.NoMemory a_refusal → kind ≡ ErrorKind.OutOfMemory }
{
    match kind {
        ErrorKind::OutOfMemory => NoMatches::NoMemory(NoMemory::refused()),
        _ => NoMatches::Usage,
    }
}
