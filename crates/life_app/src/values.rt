// That what is printed of reserves encloses them, as a function that does nothing.
ghost use Rattle.std.specs.Prelude.{◌≡◌, ℕ, ℤ, List, Option, Some, []};
ghost use Rattle.life_app.specs.Headline.{IsGivenBasis};
ghost use Rattle.life_app.specs.Names.{AreWords, At, Files, Measure, Run, Value, Lane, Dated, IsBasis, Reads, IsWholeInput, between, input_between, shelf_between, Auditor};
ghost use Rattle.life_app.specs.Obeys.{Obeys};
ghost use Rattle.life_app.specs.TableReserves.{table_reserves};
ghost use Rattle.life_app.specs.Values.{HoldsCommands, IsEnclosed};

use outside_io::{Disk, Shelf, Sink, Source};

/// Where the program obeys words that ask to run a script, whatever the second disk, and the input gave that of these lanes, or words
/// that ask for a valuation, each row of a valuation of terminal reserves in the output is right: by whatever journal a crash leaves,
/// the row encloses to two cents the exact reserve of its policy on the day of the valuation, after as many commands as the valuation
/// names, or says why there is none. The output shows what was written to it and had nothing before, and the disk comes back honest.
pub fn values_enclose<S: Source, K: Sink, H: Shelf, D: Disk, E: Disk>()
    ensures run { (old new : D) (second kept : Option E) (input read : S) (output written : K) (shelf asked : H)
        (words : List (List ℕ)) (auditors : List Auditor) (status : ℕ) (name bytes : List ℕ)
        (lanes : List Lane) (basis : List Dated)
        → Obeys D.Disk E.Disk old new second kept words auditors (input_between S.faults S.left S.given S.ended input read)
        (between K.faults K.written K.pieces output written) (shelf_between H.faults H.agrees shelf asked)
        (read ≡ input) (asked ≡ shelf) status
        → AreWords words (Run name) → IsWholeInput (input_between S.faults S.left S.given S.ended input read) bytes
        → Reads bytes lanes → IsGivenBasis IsBasis lanes name (shelf_between H.faults H.agrees shelf asked) basis
        → K.written output ≡ Some [] → K.pieces output ≡ [] → D.honest new
        → IsEnclosed D.Disk HoldsCommands table_reserves basis new (K.pieces written) }
    ensures value { (old new : D) (second kept : Option E) (input read : S) (output written : K) (shelf asked : H)
        (words : List (List ℕ)) (auditors : List Auditor) (status workers : ℕ) (on : ℤ) (at : At) (name : List ℕ)
        (measure : Measure) (basis : List Dated) (files : Files)
        → Obeys D.Disk E.Disk old new second kept words auditors (input_between S.faults S.left S.given S.ended input read)
        (between K.faults K.written K.pieces output written) (shelf_between H.faults H.agrees shelf asked)
        (read ≡ input) (asked ≡ shelf) status
        → AreWords words (Value on at workers name measure) → H.agrees asked files → IsBasis files name basis
        → K.written output ≡ Some [] → K.pieces output ≡ [] → D.honest new
        → IsEnclosed D.Disk HoldsCommands table_reserves basis new (K.pieces written) }
{}
