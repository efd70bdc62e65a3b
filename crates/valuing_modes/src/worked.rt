//! Worked valuations, each a theorem over the definitions alone.

ghost use Rattle.valuing_modes.specs.Worked.{AheadOfNone, IsAheadOfAnEmptyFile, NobodyValued, PositionsAsked, ValuesAnEmptyFile};
ghost use Rattle.valuing_modes.specs.Worked.Files.{LongBases, LongTables, NotAtRow1000};
ghost use Rattle.valuing_modes.specs.Worked.Valued.{Caps, FiveEndowmentsValued};

use outside_io::Disk;

/// Positions, a valuation of nobody, and more commands than there are.
pub fn valuations_by_hand()
    ensures positions { PositionsAsked }
    ensures nobody { NobodyValued }
    ensures ahead { AheadOfNone }
{}

/// Over any disk, what `value` writes of an empty file.
pub fn an_empty_file_is_valued<D: Disk>()
    ensures valued { ValuesAnEmptyFile D.Disk }
    ensures ahead { IsAheadOfAnEmptyFile D.Disk }
{}

/// A valuation of five policies on an anniversary: one in force, one below its table, one from before the basis, one not
/// yet issued, one paid up.
pub fn endowments_valued()
    ensures { FiveEndowmentsValued }
{}

/// The years and the premiums of what limits a net premium.
pub fn caps()
    ensures { Caps }
{}

/// How long a basis's files may be, and where a file that is longer is reported.
pub fn limits_of_files()
    ensures bases { LongBases }
    ensures tables { LongTables }
    ensures rows { NotAtRow1000 }
{}
