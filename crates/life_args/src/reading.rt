ghost use Rattle.std.specs.Prelude.{IfOk, IfErr, Result};
ghost use Rattle.life_args.specs.Answers.{GivesMode, IsWordsAnswer};
ghost use Rattle.life_args.specs.Words.{AskFor, IsFaultOf};
ghost use Rattle.life_args.specs.declared.fault.WordsFault.{WordsFault as AFault};
ghost use Rattle.life_args.specs.declared.mode.Mode.{Mode as AMode};

use crate::fault::WordsFault;
use crate::line::read_line;
use crate::mode::Mode;
use crate::modes::mode_of;
use crate::verb::verb_named;
use std::alloc::Global;

/// What the arguments after the program's name ask for.
pub fn read_words(alloc: Global, words: &[String]) -> Result<Mode, WordsFault>
    ensures mode { IfOk result (AskFor words.now) }
    ensures fault { IfErr result (IsFaultOf words.now) }
    // Whatever result is due is returned, unless memory is refused.
    ensures due { (answer : Result AMode AFault) → IsWordsAnswer words.now answer → GivesMode result answer }
{
    read_mode(alloc, words)
}

// The mode that the first argument names, by the arguments after it.
fn read_mode(alloc: Global, words: &[String]) -> Result<Mode, WordsFault>
    ensures mode { IfOk result (AskFor words.now) }
    ensures fault { IfErr result (IsFaultOf words.now) }
{
    let [first, rest @ ..] = words else {
        return Err(WordsFault::Usage);
    };
    let Some(verb) = verb_named(first.as_str()) else {
        return Err(WordsFault::Usage);
    };
    let line = read_line(alloc, verb, rest)?;
    mode_of(alloc, verb, &line)
}
