// Laws of the definitions, for callers.
ghost use Rattle.std.specs.Prelude.{◌≡◌, ◌⊎◌, ℕ, List, length};
ghost use Rattle.policy_types.specs.declared.script.Lane.{Lane};
ghost use Rattle.command_csv.specs.Lanes.{AreLanesOf};
ghost use Rattle.command_csv.specs.Reads.{IsFirstScriptFault, Reads};
ghost use Rattle.command_csv.specs.Rows.{rows_of};

/// A script is read, or it has a first fault.
pub fn scripts_are_judged()
    ensures { (bytes : List ℕ) → ((lanes : List Lane) × Reads bytes lanes)
        ⊎ ((row : ℕ) × ((field : ℕ) × IsFirstScriptFault bytes row field)) }
{}

/// If a script has a first fault, no lanes are read from it, and it has no other first fault.
pub fn faults_are_exact()
    ensures unread { (bytes : List ℕ) (row field : ℕ) (lanes : List Lane) → IsFirstScriptFault bytes row field → Reads bytes lanes → ⊥ }
    ensures one { (bytes : List ℕ) (row other field place : ℕ) → IsFirstScriptFault bytes row field → IsFirstScriptFault bytes other place → (row ≡ other) × (field ≡ place) }
{}

/// A script is read in one way.
pub fn readings_are_one()
    ensures { (bytes : List ℕ) (lanes others : List Lane) → Reads bytes lanes → Reads bytes others → lanes ≡ others }
{}

/// What is read is a line for each row, in lanes whose numbers rise. No lane is empty, each line is one that a script
/// may hold, and the lines ask for no more valuations than a script may.
pub fn lanes_are_whole()
    ensures { (bytes : List ℕ) (lanes : List Lane) → Reads bytes lanes → AreLanesOf (length (rows_of bytes)) lanes }
{}
