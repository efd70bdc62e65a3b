// What the program promises of a script's run, as a function that does nothing.
ghost use Rattle.std.specs.Prelude.{◌≡◌, ◌⊎◌, ◌<◌, ◌≤◌, ℕ, ℤ, List, Option, [], length, take};
ghost use Rattle.std.specs.List.{concat};
ghost use Rattle.life_app.specs.Names.{AllByRecursion, AllZip, AnsweredLine, Entry, IsToldLine, AreWords, Run, Files, Command, Lane, Dated, Policy, Row, IsBasis, Reads, Opens, IsWholeInput, between, input_between, shelf_between, Auditor, Stream, AnEnding, status_of, IsRunOf, Terminal};
ghost use Rattle.life_app.specs.Headline.{IsEnclosingRow, IsGivenBasis, IsPromised, IsUnrun};
ghost use Rattle.life_app.specs.Obeys.{Obeys};
ghost use Rattle.life_app.specs.TableReserves.{AreOnce, table_reserves};
ghost use Rattle.life_app.specs.Texts.{TellsApart};
ghost use Rattle.policy_value.specs.Rows.{IsValuedRow};
ghost use Rattle.transcript_text.specs.Transcript.{run_wording};

use outside_io::{Disk, Shelf, Sink, Source};

/// Suppose that the program obeys arguments that ask to run a script, over any second disk or none, and that the
/// input gave the script of these lanes. Then it ran them as promised, with the basis that it was given, or failed
/// and added no command. A file opens to at most one list of commands, and an empty file to none; under a name, files
/// make at most one basis; there is at most one exact reserve; and texts that are the same say the same.
pub fn headline<S: Source, K: Sink, H: Shelf, D: Disk, E: Disk>()
    ensures promised { (old new : D) (second kept : Option E) (input read : S) (output written : K) (shelf asked : H)
        (words : List (List ℕ)) (auditors : List Auditor) (status : ℕ) (name bytes : List ℕ)
        (lanes : List Lane) (basis : List Dated)
        → Obeys D.Disk E.Disk old new second kept words auditors (input_between S.faults S.left S.given S.ended input read)
        (between K.faults K.written K.pieces output written) (shelf_between H.faults H.agrees shelf asked)
        (read ≡ input) (asked ≡ shelf) status
        → AreWords words (Run name) → IsWholeInput (input_between S.faults S.left S.given S.ended input read) bytes
        → Reads bytes lanes → IsGivenBasis IsBasis lanes name (shelf_between H.faults H.agrees shelf asked) basis
        → IsPromised D.Disk Opens run_wording table_reserves old new lanes basis auditors (between K.faults K.written K.pieces output written) status
        ⊎ IsUnrun D.Disk Opens old new name (input_between S.faults S.left S.given S.ended input read)
        (between K.faults K.written K.pieces output written) (shelf_between H.faults H.agrees shelf asked) status }
    ensures one { (bytes : List ℕ) (commands others : List Command) → Opens bytes commands → Opens bytes others
        → commands ≡ others }
    ensures empty { Opens [] [] }
    ensures one_basis { (files : Files) (name : List ℕ) (basis other : List Dated) → IsBasis files name basis
        → IsBasis files name other → basis ≡ other }
    ensures one_reserve { AreOnce table_reserves }
    ensures told { TellsApart run_wording }
{}

/// What is promised of a run is said of the very history, lines and texts by which it ended, and the rows of a valuation enclose
/// the exact reserves. So what the program obeys and what is promised of it tell of one run.
pub fn promised_of_one_history<D: Disk>()
    ensures promised { (old new : D) (lanes : List Lane) (basis : List Dated) (auditors : List Auditor) (output : Stream) (ending : AnEnding)
        (ran : IsRunOf D.Disk old new lanes basis auditors output ending)
        → (is : IsPromised D.Disk Opens run_wording table_reserves old new lanes basis auditors output (status_of ending))
        × (is.commands ≡ ran.commands) × (is.history ≡ ran.history) × (is.callers ≡ ran.callers) × (is.dry ≡ ran.dry)
        × (is.lines ≡ ran.lines) × (is.texts ≡ ran.texts) × (is.ending ≡ ending) }
    ensures rows { (basis : List Dated) (on : ℤ) (policy : Policy) (row : Row) → IsValuedRow basis on Terminal policy row
        → IsEnclosingRow table_reserves basis on policy row }
{}

/// No line's text is empty. So of a transcript that stops short the bytes that were written tell with which line it stops: there
/// is one number of lines whose texts they are.
pub fn a_short_transcript_has_one_end()
    ensures some { (basis : List Dated) (commands : List Command) (history : List Entry) (dry : List ℕ) (lines : List AnsweredLine)
        (texts : List (List ℕ)) → AllZip (IsToldLine run_wording (IsEnclosingRow table_reserves basis) commands history dry) lines texts
        → AllByRecursion (λ text. 0 < length text) texts }
    ensures one { (texts : List (List ℕ)) (many other : ℕ) → AllByRecursion (λ text. 0 < length text) texts
        → many ≤ length texts → other ≤ length texts → concat (take many texts) ≡ concat (take other texts) → many ≡ other }
{}
