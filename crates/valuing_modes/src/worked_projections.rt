//! Worked projections, each a theorem over the definitions alone.

ghost use Rattle.program_endings.specs.Writing.{shelf_between};
ghost use Rattle.valuing_modes.specs.WorkedProjections.{IsNeverAhead, NobodyProjected, ProjectsAnEmptyFile};

use outside_io::{Disk, Shelf};

/// A projection of nobody.
pub fn projections_by_hand()
    ensures { NobodyProjected }
{}

/// Over any shelf and disk, what `project` writes of an empty file; and it asks for no position.
pub fn an_empty_file_is_projected<H: Shelf, D: Disk>()
    ensures projected { (shelf asked : H) → ProjectsAnEmptyFile D.Disk (shelf_between H.faults H.agrees shelf asked) }
    ensures unasked { (shelf asked : H) → IsNeverAhead D.Disk (shelf_between H.faults H.agrees shelf asked) }
{}
