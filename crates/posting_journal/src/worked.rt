//! Worked files, each a theorem over the definitions alone.

ghost use Rattle.posting_journal.specs.Worked.{FinishedCreations, ForeignFiles, GateOfTwo, RecordsCutShort, TwoRecords, UnfinishedCreations};

/// A journal of two records, and one whose first gate is closed.
pub fn journals_by_hand()
    ensures two { TwoRecords }
    ensures none { GateOfTwo }
{}

/// Creations that didn't end, and files that are none of them.
pub fn creations_by_hand()
    ensures unfinished { UnfinishedCreations }
    ensures finished { FinishedCreations }
{}

/// Files that are no journal, and records that can't stand.
pub fn refused_files_by_hand()
    ensures foreign { ForeignFiles }
    ensures cut { RecordsCutShort }
{}
