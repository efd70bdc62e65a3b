// The arguments of the command line. They are read before there is a run: if memory for them is refused, that is the
// kit's error, which gives no evidence.
ghost use Rattle.std.specs.Prelude.{◌≡◌, ◌≢◌, IfErr, IfOk, [], drop, is_ok, true};
ghost use Rattle.std.specs.IoError.{error_kind};
ghost use Rattle.std.specs.Vec.Iter.{into_iter_items};
ghost use Rattle.std.specs.declared.io.ErrorKind.TheVariants.{OutOfMemory};

use std::alloc::{AllocError, Global};
use std::env::Args;
use std::io;
use std::io::ErrorKind;

/// The arguments after the program's name, as the system gave them. If one of them isn't UTF-8, the result is no
/// arguments at all, which no command has.
pub fn told_words(alloc: Global, all: io::Result<Args>) -> Result<Vec<String>, AllocError>
    ensures words { IfOk all (λ words. IfOk result (λ kept. kept.items ≡ drop 1 (into_iter_items words))) }
    ensures no_text { IfErr all (λ error. error_kind error ≢ OutOfMemory
        → (is_ok result ≡ true) × IfOk result (λ kept. kept.items ≡ [])) }
{
    match all {
        Ok(words) => behind_first(alloc, words),
        Err(error) if error.kind() == ErrorKind::OutOfMemory => Err(AllocError),
        Err(_) => Ok(Vec::new(alloc)),
    }
}

// All arguments but the first, which is the program's name.
fn behind_first(alloc: Global, words: Args) -> Result<Vec<String>, AllocError>
    ensures { IfOk result (λ kept. kept.items ≡ drop 1 (into_iter_items words)) }
{
    let mut words = words;
    let _ = words.next();
    let mut kept = Vec::new(alloc);
    for word in words {
        kept.push(word)?;
    }
    Ok(kept)
}
