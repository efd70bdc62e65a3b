// Input: a source gives its bytes in pieces, and `read_all` puts them together.
ghost use Rattle.std.specs.Prelude.{◌≡◌, ◌⊎◌, ℕ, ◌+◌, ◌<◌, ◌≤◌, Option, Some, List, [], length, IfOk, OnOk, IfErr, OnErr};
ghost use Rattle.std.specs.Io.KnownBytes.{ReadConsumes};
ghost use Rattle.outside_io.specs.Faults.{Rose, HasCause};
ghost use Rattle.outside_io.specs.Reading.{ReadsSource};
ghost use Rattle.outside_io.specs.Streams.{StillTells, ReadGives, SeesEnd};
ghost use Rattle.outside_io.specs.declared.failures.ReadAllFault.TheVariants.{ReadFault};

use crate::{Failed, ReadAllFault, Steps};
use memory_requests::extend;
use std::alloc::Global;
use std::marker::Brand;
use std::sync::ledger::{Blank, Ledger};

/// The bytes that one read asks for.
const PIECE: usize = 65_536;

/// Gives bytes in pieces. Its count of faults never falls.
pub trait Source {
    /// The number of faults so far.
    ghost faults: { Self → ℕ };

    /// The bytes that are left, if the source reports them.
    ghost left: { Self → Option (List ℕ) };

    /// The bytes that it gave so far.
    ghost given: { Self → List ℕ };

    /// A read gave none into a buffer that isn't empty.
    ghost ended: { Self → Type 0 };

    /// The number of faults so far. The count stands still at its type's end.
    fn faults(&self) -> u64
        ensures { result ≡ faults self.now };

    /// Puts bytes at the start of the buffer and returns how many. No bytes in a buffer that isn't empty mean the
    /// end.
    fn read(&mut self, buf: &mut [u8]) -> Result<usize, Failed>
        ensures cause { HasCause (faults self.old) (faults self.new) result }
        ensures held { OnOk result (faults self.new ≡ faults self.old) }
        ensures bound { IfOk result (λ n. n ≤ length buf.new) }
        ensures bytes { ReadConsumes (left self.old) (left self.new) result buf.new }
        ensures tells { StillTells (left self.old) (left self.new) }
        ensures given { ReadGives (given self.old) (given self.new) result buf.new }
        ensures end { SeesEnd result buf.new → ended self.new }
        ensures not_before { ended self.new → ended self.old ⊎ SeesEnd result buf.new };

    /// If the source has ended and reports what is left, nothing is left.
    ghost nothing_left: { (source : Self) (told : List ℕ) → ended source → left source ≡ Some told → told ≡ [] };
}

/// The bytes of the source up to its end, of which there may be at most `limit`.
pub fn read_all<S: Source>(
    alloc: Global,
    source: &mut S,
    limit: u32,
) -> Result<Vec<u8>, ReadAllFault>
    ensures reads { ReadsSource S.faults S.left S.given S.ended limit source.old source.new result }
{
    read_all_from::<S, Brand>(alloc, source, limit, Blank::new(1))
}

// The same with a ledger of steps, which the blank becomes.
fn read_all_from<S: Source, L: Ledger>(
    alloc: Global,
    source: &mut S,
    limit: u32,
    blank: Blank,
) -> Result<Vec<u8>, ReadAllFault>
    requires name { blank.name ≡ L.name }
    requires parts { blank.parts ≡ L.parts }
    requires some { 0 < L.parts }
    ensures reads { ReadsSource S.faults S.left S.given S.ended limit source.old source.new result }
{
    let mut steps: Steps<L> = Steps::open(blank);
    read_all_counted(alloc, source, limit, &mut steps)
}

/// Does what `read_all` does and counts its reads, of which there are at most `limit + 1`, whatever the source gives.
pub fn read_all_counted<S: Source, L: Ledger>(
    alloc: Global,
    source: &mut S,
    limit: u32,
    steps: &mut Steps<L>,
) -> Result<Vec<u8>, ReadAllFault>
    ensures reads { ReadsSource S.faults S.left S.given S.ended limit source.old source.new result }
    ensures turns { steps.new ≤ steps.old + (limit + 1) }
{
    let room = limit as usize;
    let mut bytes = Vec::new(alloc);
    let mut piece = [0; PIECE];
    loop {
        let n = turn(source, &mut piece, steps)?;
        if n == 0 {
            return Ok(bytes);
        }
        if n > room - bytes.len() {
            return Err(ReadAllFault::TooLong);
        }
        match extend(&mut bytes, &piece[..n]) {
            Ok(()) => {}
            Err(lack) => return Err(ReadAllFault::NoMemory(lack)),
        }
    }
}

// One read, which is one step. All reads of the source are made here.
fn turn<S: Source, L: Ledger>(
    source: &mut S,
    piece: &mut [u8],
    steps: &mut Steps<L>,
) -> Result<usize, ReadAllFault>
    ensures fault { OnErr result (Rose (S.faults source.old) (S.faults source.new)) }
    ensures only { IfErr result (λ fault. fault ≡ ReadAllFault.ReadFault) }
    ensures held { OnOk result (S.faults source.new ≡ S.faults source.old) }
    ensures later { S.faults source.old ≤ S.faults source.new }
    ensures bound { IfOk result (λ n. n ≤ length piece.new) }
    ensures bytes { ReadConsumes (S.left source.old) (S.left source.new) result piece.new }
    ensures tells { StillTells (S.left source.old) (S.left source.new) }
    ensures given { ReadGives (S.given source.old) (S.given source.new) result piece.new }
    ensures end { SeesEnd result piece.new → S.ended source.new }
    ensures step { steps.new ≡ steps.old + 1 }
{
    steps.tick();
    source.read(piece).map_err(|_| ReadAllFault::ReadFault)
}
