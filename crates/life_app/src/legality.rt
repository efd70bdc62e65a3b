// A run is answered legally: a law, as a function that does nothing.
ghost use Rattle.std.specs.Prelude.{◌≡◌, ◌⊎◌, ℕ, List, Option};
ghost use Rattle.life_app.specs.Names.{AreWords, Run, Lane, Dated, IsBasis, Reads, Opens, IsWholeInput, between, input_between, shelf_between, Auditor};
ghost use Rattle.life_app.specs.Headline.{IsGivenBasis, IsUnrun};
ghost use Rattle.life_app.specs.Legality.{IsLegallyAnswered};
ghost use Rattle.life_app.specs.Obeys.{Obeys};

use outside_io::{Disk, Shelf, Sink, Source};

/// Suppose that the program obeys arguments that ask to run a script, over any second disk or none, and that the
/// input gave the script of these lanes. Then the lines are answers of one legal history of the policy rules, which
/// begins with what the file held, and each lane's lines are in it once and in order. The line of each posting gives
/// the reply of its turn. Or the run failed before its first line.
pub fn answered_legally<S: Source, K: Sink, H: Shelf, D: Disk, E: Disk>()
    ensures { (old new : D) (second kept : Option E) (input read : S) (output written : K) (shelf asked : H)
        (words : List (List ℕ)) (auditors : List Auditor) (status : ℕ) (name bytes : List ℕ)
        (lanes : List Lane) (basis : List Dated)
        → Obeys D.Disk E.Disk old new second kept words auditors (input_between S.faults S.left S.given S.ended input read)
        (between K.faults K.written K.pieces output written) (shelf_between H.faults H.agrees shelf asked)
        (read ≡ input) (asked ≡ shelf) status
        → AreWords words (Run name) → IsWholeInput (input_between S.faults S.left S.given S.ended input read) bytes
        → Reads bytes lanes → IsGivenBasis IsBasis lanes name (shelf_between H.faults H.agrees shelf asked) basis
        → IsLegallyAnswered D.Disk Opens old new lanes (between K.faults K.written K.pieces output written) status
        ⊎ IsUnrun D.Disk Opens old new name (input_between S.faults S.left S.given S.ended input read)
        (between K.faults K.written K.pieces output written) (shelf_between H.faults H.agrees shelf asked) status }
{}
